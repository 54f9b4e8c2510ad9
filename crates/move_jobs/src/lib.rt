//! What a move of a block to a spare sector needs next, and where it stands after an answer. The block's value is written
//! to a spare and checked there, a bad spare gives way to the next one, and in the end the pairs of the move are committed.
//! Whoever does the work looks at the need, does it on the medium, and answers; nothing here touches a sector. In specs/
//! stand the move, which answers fit, and how many answers are still to come at most.
#![tactic(auto)]

mod answer;
mod job;
mod laws;
mod need;
mod step;

pub use answer::JobAnswer;
pub use job::Job;
pub use laws::{answers_come_to_an_end, answers_keep_the_chain, the_spare_is_the_end_of_the_chain};
pub use need::JobNeed;
pub use step::{JobResult, JobStep};
