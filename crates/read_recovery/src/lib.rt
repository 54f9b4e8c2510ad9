//! The stages by which a sector is read that doesn't read at once: further reads, the head beside the track's middle, and
//! decodings that correct more. It says which stage comes next, and tries none itself.
#![tactic(auto)]

mod stage;
mod trying;

pub use stage::{RETRY_MAX, STAGES_MAX, heavy_stages_are_the_last_two, is_heavy, stages};
pub use trying::Trying;
