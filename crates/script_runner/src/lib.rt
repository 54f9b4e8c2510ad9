//! The top call: a script in, its report out.
#![tactic(auto)]

mod carrying;
mod laws;
mod order;
mod outcome;
mod phase;
mod queues;
mod serve;
mod words;

pub use laws::{
    beginnings_are_legal, commands_are_accounted_for, dirty_blocks_are_pending,
    entries_fit_their_stage, first_read_settles, forced_writes_are_hardened, gets_are_shown,
    good_runs_are_legal, hardened_values_stay, hardened_writes_stand, reads_get_each_block_once,
    reads_give_hardened_or_newer, reads_give_their_own_write, reads_give_what_was_put_last,
    reports_tell_their_runs, ruled_out_values_stay_out, syncs_harden_what_was_put,
    tasks_start_in_order, unread_ends_follow_bad_gets, writes_put_each_block_once,
};
pub use outcome::Outcome;
pub use report_text::Run;
pub use script_text::{Line, Lines, Script, Why};
pub use serve::serve_alone;
