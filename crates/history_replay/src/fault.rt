use disk_base::NoMemory;
use thiserror::Error;

/// Why turns couldn't be replayed.
#[derive(Clone, Copy, Debug, PartialEq, Eq, Error)]
pub enum ReplayFault {
    #[error("no memory")]
    NoMemory,
    /// The first turn, counted from 1, that may not come.
    #[error("turn {turn}")]
    Step { turn: u64 },
}

impl From<NoMemory> for ReplayFault {
    ghost use Rattle.std.specs.Prelude.{◌≡◌};
    ghost use Rattle.history_replay.specs.declared.fault.ReplayFault.TheVariants.{NoMemory};

    ghost from_gives = { λ _ fault. fault ≡ NoMemory };

    fn from(_: NoMemory) -> Self {
        ReplayFault::NoMemory
    }
}
