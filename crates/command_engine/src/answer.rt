use disk_base::{Lba, Value};

/// How a need was met.
#[derive(Clone, Copy, Debug, PartialEq, Eq)]
pub enum Answer {
    /// The block has this value.
    Got(Value),
    /// The stage found nothing.
    Missed,
    /// The new value is in the cache.
    Put,
    /// The value is at the block's place.
    Hardened,
    /// The write faulted and changed nothing.
    WriteFault,
    /// The first dirty block of those asked for. Where a value is to come from the medium, that its block is dirty.
    NextDirty(Option<Lba>),
    /// The block is at a spare sector.
    Moved,
    /// There is no spare sector for the block, or none that can be used.
    NoSpare,
    /// The bytes were given.
    Paged,
}
