//! What the drive says of a command that it ends: sense data and their bytes, replies, and the unit attention
//! conditions that wait for each initiator. In specs/ stand the bytes and the lists of attentions, which histories
//! of the drive keep too.
#![tactic(auto)]

mod attention;
mod attentions;
pub mod codes;
mod queue;
mod reply;
mod sense;

pub use attention::Attention;
pub use attentions::{Attentions, INITIATORS, known_stay_known, no_more_wait_than_are_known};
pub use queue::WAITING_MAX;
pub use reply::{CHECK_CONDITION, GOOD, RESERVATION_CONFLICT, Reply, TASK_SET_FULL};
pub use sense::{SENSE_LENGTH, Sense};
