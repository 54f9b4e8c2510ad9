use disk_base::{NoMemory, Value};
use thiserror::Error;

/// What a stage found of a block.
#[derive(Clone, Copy, Debug, PartialEq, Eq)]
pub enum TryAnswer {
    /// The value for the block of the payload that was found: lost, where that is a mark or names another block.
    Found(Value),
    Nothing,
    /// The power is off.
    Off,
}

/// How a write ended.
#[derive(Clone, Copy, Debug, PartialEq, Eq)]
pub enum StoreAnswer {
    Done,
    /// The sector has a write fault, and nothing was changed.
    Fault,
    /// The power is off, or went off in this write.
    Off,
}

/// What the check of a spare found.
#[derive(Clone, Copy, Debug, PartialEq, Eq)]
pub enum CheckAnswer {
    /// The payload that was to be there.
    Same,
    /// Another payload, or nothing.
    Other,
    /// The power is off.
    Off,
}

/// How a commit ended.
#[derive(Clone, Copy, Debug, PartialEq, Eq)]
pub enum CommitAnswer {
    Done,
    /// The power is off, or went off in one of its writes.
    Off,
}

/// How a recovery ended.
#[derive(Clone, Copy, Debug, PartialEq, Eq)]
pub enum RecoverAnswer {
    /// A map was taken, and it is written with this number.
    Ready(u64),
    /// There is no map to be taken; the slot is one that isn't complete.
    Corrupt(u8),
    /// The power went off in one of the writes.
    Off,
}

/// Why there is no store.
#[derive(Debug, Drop, Error)]
pub enum StoreFault {
    #[error("no memory")]
    NoMemory,
    #[error("the primary list is none of this drive")]
    Primary,
}

impl From<NoMemory> for StoreFault {
    ghost use Rattle.std.specs.Prelude.{◌≡◌};
    ghost use Rattle.sector_store.specs.declared.answer.StoreFault.TheVariants.{NoMemory};

    ghost from_gives = { λ _ fault. fault ≡ NoMemory };

    fn from(_: NoMemory) -> Self {
        StoreFault::NoMemory
    }
}
