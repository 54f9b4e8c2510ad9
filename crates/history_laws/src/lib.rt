//! More laws on legal histories, in words on entries alone. Each stands on the definition of a legal history, and on what is proved
//! of it below; nothing runs.
#![tactic(auto)]

mod laws;

pub use laws::{tasks_start_in_order, unread_ends_follow_bad_gets};
