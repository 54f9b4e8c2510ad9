//! Where the background scan is, and what it finds of each block: it goes over all blocks of a drive in turn, reads each by
//! the stages of a staged read, and begins again behind the last. Whoever does the work looks at the need, tries that
//! stage, and answers; nothing here touches a sector. In specs/ stand the scan, and where it is after so many blocks.
#![tactic(auto)]

mod finding;
mod scan;

pub use finding::ScanFinding;
pub use scan::Scan;
