//! The drive: commands, the cache and sectors, joined turn by turn, and the history that they make. The type of the drive
//! keeps what its history promises; a turn adds to that. In specs/ stand what a turn has to show of its operations, how the
//! drive's parts are what its history has come to, and which turns may come.
#![tactic(auto)]

mod able;
mod accepted;
mod arriving;
mod asking;
mod destaging;
mod drive;
mod ending;
mod hardening;
mod putting;
mod server;
mod standing;
mod starting;
mod storing;
mod syncing;
mod taking;
mod turning;
mod worldly;

pub use drive::Drive;
pub use drive_scene::{Arrival, Arriving, Ended, Event, Holder, Pick, TurnAnswer, Waiting};
