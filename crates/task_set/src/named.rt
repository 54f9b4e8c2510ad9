ghost use Rattle.std.specs.Prelude.{◌≡◌};
ghost use Rattle.task_set.specs.Members.{is_named};

use crate::Member;
use disk_base::{Initiator, Tag};

/// The commands that a task management function names.
#[derive(Clone, Copy, Debug)]
pub enum Named {
    Tagged(Initiator, Tag),
    Of(Initiator),
    Everyone,
}

impl Named {
    pub fn names(&self, member: &Member) -> bool
        ensures { result ≡ is_named self.now member.now }
    {
        match self {
            Named::Tagged(initiator, tag) => {
                member.task.initiator == *initiator && member.task.tag == *tag
            }
            Named::Of(initiator) => member.task.initiator == *initiator,
            Named::Everyone => true,
        }
    }
}
