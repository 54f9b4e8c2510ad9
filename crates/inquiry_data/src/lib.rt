//! What the drive says of itself whatever its state: standard INQUIRY data and vital product data, its capacity, and
//! the logical units that it has. Each answer is its bytes, cut by the command's allocation length. In specs/ stand
//! the bytes, field by field.
#![tactic(auto)]

mod capacity;
mod cut;
mod identity;
mod luns;

pub use capacity::{CAPACITY_10_LENGTH, CAPACITY_16_LENGTH, capacity_10, capacity_16};
pub use identity::{INQUIRY_LENGTH_MAX, inquiry};
pub use luns::{LUN_LIST_LENGTH_MAX, report_luns};
