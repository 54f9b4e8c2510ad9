//! Whether a history is one that a script allows: its turns are a legal history of an array of blocks, and come along the script
//! from its start to its end. It is judged turn by turn, without the drive; a turn's operations aren't looked at.
#![tactic(auto)]

mod check;
mod laws;
mod power;
mod same;
mod verdict;
mod walk;

pub use check::check_turns;
pub use laws::{
    good_histories_are_legal, good_histories_end_all_commands, good_histories_have_all_lines,
    good_histories_have_lines_of_the_script, good_histories_leave_lines_by_cuts_alone,
    none_may_follow,
};
pub use verdict::{CheckFault, Flaw, Verdict};
