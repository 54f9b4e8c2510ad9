//! The moves of blocks to spare sectors that are in flight, by their numbers. A table of them answers whose move a block is
//! on, which command waits for one, and which spares are taken; a move leaves it when it is over. Nothing here touches a sector.
#![tactic(auto)]

mod flight;
mod laws;
mod moves;

pub use flight::Flight;
pub use laws::moves_are_told_by_their_numbers;
pub use moves::Moves;
