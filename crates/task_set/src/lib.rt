//! The task set: the commands that are in, by age, which of them may start, and what the task management functions
//! end. In specs/ stands what may start, which histories of the drive cite.
#![tactic(auto)]

mod member;
mod named;
mod set;
mod task;

pub use member::{Member, forbids};
pub use set::{Arrive, Gone, TASKS_MAX, TaskSet, some_command_may_run};
pub use task::{Task, Touch, collide, commands_collide_at_a_block};
