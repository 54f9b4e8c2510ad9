//! The turn lock: many threads take turns at one value, and their turns make one list.
//!
//! A thread makes turns with a `Pass`, which knows what it has seen of the list and which turns were its own. Passes are
//! split from one another, and meet: then what the one saw the other has seen. Who has brought them all together may close
//! the lock, and gets the value back, with a list in which each turn is somebody's and is counted once.
#![tactic(auto)]

mod lock;
mod rule;
mod steps;
#[cfg(test)]
mod tests;
mod try_turn;
mod turned;
mod view;

pub use lock::{PARTS, Pass, TurnLock};
pub use try_turn::TryTurn;
pub use turned::Turned;
pub use view::View;
