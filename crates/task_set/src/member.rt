ghost use Rattle.std.specs.Prelude.{◌≡◌};
ghost use Rattle.task_set.specs.MayStart.{forbids};

use crate::{Task, collide};
use disk_base::Attribute;

/// A command in the task set.
#[derive(Clone, Copy, Debug, Default, PartialEq, Eq)]
pub struct Member {
    pub task: Task,
    /// Whether it was started.
    pub started: bool,
}

/// Whether a command in the set forbids the start of another.
pub fn forbids(other: &Task, task: &Task) -> bool
    ensures { result ≡ forbids other.now task.now }
{
    let is_older = other.c < task.c;
    match (task.attribute, other.attribute) {
        (Attribute::Head, _) => false,
        (_, Attribute::Head) => other.c != task.c,
        (Attribute::Ordered, _) | (_, Attribute::Ordered) => is_older,
        (Attribute::Simple, Attribute::Simple) => {
            is_older && other.initiator == task.initiator && collide(&other.touch, &task.touch)
        }
    }
}
