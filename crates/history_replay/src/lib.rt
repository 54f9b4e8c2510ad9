//! The plain program beside the definition of a legal history: whether turns are one, and which blocks they leave, or which
//! turn may not come. Its steps are calls of their own. Nothing here is made to be fast; each call's contract is the definition
//! itself.
#![tactic(auto)]

mod address;
mod arrival;
mod block_turns;
mod blocks;
mod deed;
mod duty;
mod effects;
mod entry;
mod fault;
mod form;
mod history;
mod kept;
mod known;
mod laws;
mod monitor;
mod plan;
mod reply;
mod state;
mod steps;
mod tasks;
mod turns;

pub use address::settle_dirty;
pub use arrival::arrival_may_come;
pub use block_turns::replay_blocks;
pub use blocks::{apply, blocks_at_start, may_come};
pub use deed::{Done, deed_of, left_after};
pub use effects::{corrupt_after, may_come_out, starts_alone, watch_scan};
pub use fault::ReplayFault;
pub use form::{has_defect_length, tells_recovery};
pub use history::{legal, legal_from, replay, replay_from, task_legal, task_legal_from};
pub use known::{Known, Scanning};
pub use laws::{histories_leave_these_blocks, legal_where_both_are};
pub use monitor::Monitor;
pub use plan::next;
pub use steps::{
    first_plan, read, settings_after, settings_made, settle_attentions, settle_set, warn_of_clear,
    warn_of_mode_change, warn_of_reset,
};
pub use tasks::{are_asked, ends_as_told, may_start, owes_nothing_now};
