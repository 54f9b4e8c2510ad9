/// How the interleaves of a sector are decoded.
#[derive(Clone, Copy, Debug, Default, PartialEq, Eq)]
pub enum How {
    /// The codeword at no more than 4 wrong bytes.
    #[default]
    Light,
    /// The codeword at no more than 8 wrong bytes.
    Full,
    /// Flagged bytes are erasures, and twice the wrong bytes outside them and the erasures are at most 16.
    Erased,
}

/// One stage of a staged read.
#[derive(Clone, Copy, Debug, Default, PartialEq, Eq)]
pub struct Stage {
    /// The stage's number, from 0.
    pub number: u8,
    /// How often the sector was read again before.
    pub reread: u8,
    /// Where the head stands beside the track's middle: -1, 0 or 1.
    pub offset: i8,
    pub how: How,
}

/// Why a block is moved to a spare sector.
#[derive(Clone, Copy, Debug, PartialEq, Eq)]
pub enum MoveWhy {
    /// A heavy stage found it.
    Heavy,
    /// A write of it faulted.
    Write,
    /// It is reassigned, and its value is in the cache.
    Dirty,
    /// It is reassigned, and a stage found its value.
    Reassign,
    /// It is reassigned, and every stage failed.
    GivenUp,
}
