//! The data of READ DEFECT DATA (SBC-3): the primary and the grown defects of a map, as addresses in the physical
//! sector format.
#![tactic(auto)]

mod reply;

pub use reply::{DefectReply, DefectRequest, PHYSICAL_SECTOR_FORMAT, defect_reply};
