ghost use Rattle.std.specs.Prelude.{◌≡◌, Some, None};

use crate::Sense;

/// Status codes (SAM-4, status codes).
pub const GOOD: u8 = 0x00;

pub const CHECK_CONDITION: u8 = 0x02;

pub const RESERVATION_CONFLICT: u8 = 0x18;

pub const TASK_SET_FULL: u8 = 0x28;

/// How a command ended: its status, and sense data with CHECK CONDITION.
#[derive(Clone, Copy, Debug, PartialEq, Eq)]
pub struct Reply {
    pub status: u8,
    pub sense: Option<Sense>,
}

impl Reply {
    pub fn good() -> Self
        ensures status { result.status ≡ 0x00 }
        ensures sense { result.sense ≡ None }
    {
        Reply {
            status: GOOD,
            sense: None,
        }
    }

    pub fn check_condition(sense: Sense) -> Self
        ensures status { result.status ≡ 0x02 }
        ensures sense { result.sense ≡ Some sense }
    {
        Reply {
            status: CHECK_CONDITION,
            sense: Some(sense),
        }
    }

    /// A reservation of another initiator keeps the command out.
    pub fn reservation_conflict() -> Self
        ensures status { result.status ≡ 0x18 }
        ensures sense { result.sense ≡ None }
    {
        Reply {
            status: RESERVATION_CONFLICT,
            sense: None,
        }
    }

    /// The task set had no room for the command.
    pub fn task_set_full() -> Self
        ensures status { result.status ≡ 0x28 }
        ensures sense { result.sense ≡ None }
    {
        Reply {
            status: TASK_SET_FULL,
            sense: None,
        }
    }
}
