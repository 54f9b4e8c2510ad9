//! Reports: the turns of a run and what the platter did in them, as lines of text, and the summary.
#![tactic(auto)]

mod counts;
mod entry;
mod entry_reading;
mod fault;
mod fields;
mod form;
mod label_reading;
mod laws;
mod operation;
mod operation_reading;
mod print;
mod read;
mod run;
mod shown;
mod strays;
mod summary;
mod summary_reading;
mod tally;
mod turn;
mod turn_reading;
mod words;

pub use fault::ReportFault;
pub use laws::reports_read_again;
pub use print::print_run;
pub use read::read_run;
pub use run::{Form, Run};
pub use summary::{Summary, read_summary};
