use crate::Holder;
use disk_base::{Initiator, Lba, Tag};

/// A command that ended in a turn.
#[derive(Clone, Copy, Debug, PartialEq, Eq)]
pub struct Ended {
    pub initiator: Initiator,
    pub tag: Tag,
    pub status: u8,
}

/// How an event was answered. All answers but `Done` leave the drive as it was.
#[derive(Clone, Copy, Debug, PartialEq, Eq)]
pub enum TurnAnswer {
    /// The turn of this number was added.
    Done {
        number: u64,
        /// The command that ended in it.
        ended: Option<Ended>,
        /// Whether the background scan is done with a block in it.
        scanned: bool,
    },
    /// The block that is needed is held, or the command waits for its own move of this block.
    Held {
        b: Lba,
        by: Holder,
    },
    /// This older command keeps the command from starting.
    Dormant {
        blocker: u32,
    },
    /// Four moves of the scan are under way, of which this is the oldest.
    Crowded {
        job: u32,
    },
    /// There is nothing to do; so many arrivals are still expected.
    Idle {
        coming: u32,
    },
    /// The power is off.
    Off,
    /// The drive has as many turns as it can number.
    Spent,
}

/// What waits outside the drive.
#[derive(Clone, Copy, Debug, PartialEq, Eq)]
pub struct Waiting {
    /// Whether something of the initiator arrives, for each of the eight.
    pub arrivals: [bool; 8],
    pub scans: bool,
    pub destages: bool,
}

/// A turn that may come.
#[derive(Clone, Copy, Debug, PartialEq, Eq)]
pub enum Pick {
    Arrive(Initiator),
    Work(u32),
    Job(u32),
    Scan,
    Destage,
}
