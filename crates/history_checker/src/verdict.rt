use disk_base::NoMemory;
use thiserror::Error;

/// What is wrong with a history, or with the report that tells it.
#[derive(Clone, Copy, Debug, PartialEq, Eq)]
pub enum Flaw {
    /// A line is outside the format of reports.
    Form,
    /// A turn isn't what the script asks for next.
    Order,
    /// A turn may not come in a history of an array of blocks.
    Step,
    /// Something of the script is left behind the last turn.
    Left,
    /// A number of the summary isn't that of the turns.
    Sums,
    /// Reads found another payload than the one meant.
    Strays,
}

/// What is to be said of a history.
#[derive(Clone, Copy, Debug, PartialEq, Eq)]
pub enum Verdict {
    Yes,
    No {
        /// The turn, counted from 1; one more than there are where something is left behind the last.
        turn: u64,
        why: Flaw,
    },
}

/// Why a history wasn't judged.
#[derive(Clone, Copy, Debug, PartialEq, Eq, Error)]
pub enum CheckFault {
    #[error("no memory")]
    NoMemory,
}

impl From<NoMemory> for CheckFault {
    ghost use Rattle.std.specs.Prelude.{◌≡◌};
    ghost use Rattle.history_checker.specs.declared.verdict.CheckFault.TheVariants.{NoMemory};

    ghost from_gives = { λ _ fault. fault ≡ NoMemory };

    fn from(_: NoMemory) -> Self {
        CheckFault::NoMemory
    }
}
