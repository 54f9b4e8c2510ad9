//! The log of the background scan: its last 64 findings, and the log pages that show them with the state of the scan.
//! In specs/ stand the pages, field by field.
#![tactic(auto)]

mod fault;
mod finding;
mod log;
mod page;
mod state;

pub use fault::PageFault;
pub use finding::Finding;
pub use log::{FINDINGS_MAX, ScanLog, log_is_the_newest_of_all};
pub use state::ScanState;
