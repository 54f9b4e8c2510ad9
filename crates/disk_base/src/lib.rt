//! The types that every layer of the drive shares: units, lists that contracts see as lists, command blocks,
//! blocks and their values, stages of recovery, and the payload of a sector with its layout.
//! In specs/ stand the layout and the rules that hold along a list.
#![tactic(auto)]

mod address;
mod block;
mod command;
mod items;
mod memory;
mod payload;
mod stage;

pub use address::{Initiator, Lba, Psn, Tag};
pub use block::{BLOCK_LENGTH, Block, Value};
pub use command::{Attribute, CDB_LENGTH_MAX, Cdb, DataOut, Function};
pub use items::{Bytes, Calls, Items};
pub use memory::NoMemory;
pub use payload::{PAYLOAD_LENGTH, Payload};
pub use stage::{How, MoveWhy, Stage};
