ghost use Rattle.std.specs.Prelude.{◌≡◌};
ghost use Rattle.platter_model.specs.TrueLog.{attempt_of};

use disk_base::{Psn, Stage};

/// How a sector is read: how often it was read again before, and where the head stands beside the track's middle.
#[derive(Clone, Copy, Debug, Default, PartialEq, Eq)]
pub struct Attempt {
    pub reread: u8,
    /// -1, 0 or 1.
    pub offset: i8,
}

impl Attempt {
    /// The attempt that a stage makes.
    pub fn of(stage: &Stage) -> Self
        ensures { result ≡ attempt_of stage.now }
    {
        Attempt {
            reread: stage.reread,
            offset: stage.offset,
        }
    }
}

/// At which attempts a damage applies.
#[derive(Clone, Copy, Debug, PartialEq, Eq)]
pub enum Lasting {
    /// At every attempt, and a write doesn't take it away.
    Hard,
    /// At attempts whose reread number is below this.
    Soft(u8),
    /// At every head offset but +1.
    Plus,
    /// At every head offset but -1.
    Minus,
}

/// What a damage does to a sample.
#[derive(Clone, Copy, Debug, PartialEq, Eq)]
pub enum Effect {
    /// The sample is 0.
    Drop,
    /// This is added, and the sum stops at -128 and 127.
    Add(i8),
}

/// A damage of some samples of a sector.
#[derive(Clone, Copy, Debug, PartialEq, Eq)]
pub struct Damage {
    pub p: Psn,
    /// The place of the first sample, from 0.
    pub first: u16,
    /// How many samples.
    pub count: u16,
    pub lasting: Lasting,
    pub effect: Effect,
}

/// What a write that the power cut off left on its sector.
#[derive(Clone, Copy, Debug, PartialEq, Eq)]
pub enum Left {
    /// What was there before.
    Old,
    /// What was to be written.
    New,
    Nothing,
}

/// How a write is torn: what it leaves, and how many samples from the first are dropped until the next write.
#[derive(Clone, Copy, Debug, PartialEq, Eq)]
pub struct Tear {
    pub left: Left,
    /// At most 9,478.
    pub scar: u16,
}

/// A cut that waits for the `k`-th write from here, failed ones not counted.
#[derive(Clone, Copy, Debug, PartialEq, Eq)]
pub struct Arming {
    /// At least 1.
    pub k: u32,
    pub tear: Tear,
}
