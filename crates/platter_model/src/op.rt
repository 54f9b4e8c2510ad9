use crate::{Attempt, Damage, Tear};
use disk_base::{Items, Payload, Psn, Stage};

/// An operation of the platter. A payload names its sector. Operations are numbered from 0.
#[derive(Clone, Copy, Debug, PartialEq, Eq)]
pub enum Op {
    /// A write was carried out.
    Wrote {
        payload: Payload,
    },
    /// The power went off in a write.
    Torn {
        payload: Payload,
        tear: Tear,
    },
    /// A write met a write fault, and changed nothing.
    WriteFailed {
        p: Psn,
    },
    Damaged {
        damage: Damage,
    },
    /// A write fault came to the sector, for good.
    Faulty {
        p: Psn,
    },
    /// The samples of a sector were taken.
    Fetched {
        p: Psn,
        attempt: Attempt,
    },
    /// The samples of the fetch of this number were decoded as a stage says, and this was found.
    Tried {
        at: u64,
        p: Psn,
        stage: Stage,
        found: Option<Payload>,
    },
    /// The power went off.
    Cut,
    /// The power came back.
    Power,
}

/// A list of operations.
pub type Ops = Items<Op>;
