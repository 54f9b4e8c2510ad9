//! What a started command needs next, and how it ends. Whoever does the work looks at the need, does it on the cache and
//! the medium, and answers; nothing here touches either. In specs/ stand what a command needs, which answers fit, which
//! deeds each answer stands for, and how many answers are still to come at most.
#![tactic(auto)]

mod answer;
mod beginning;
mod ending;
mod laws;
mod need;
mod needs;
mod owed;
mod reassigning;
mod step;
mod work;

pub use answer::Answer;
pub use laws::{deeds_are_those_of_the_plan, the_answers_come_to_an_end};
pub use need::Need;
pub use step::{Recovery, Step};
pub use work::Work;
