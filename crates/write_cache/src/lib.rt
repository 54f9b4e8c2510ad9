//! The drive's cache of blocks. Dirty blocks are those that were put and not yet written to their places: they stand in a
//! list of fixed room, so that a put takes no memory, and none is ever dropped. Clean blocks are kept by last use, as far as
//! there is memory, and the least recent one gives way.
#![tactic(auto)]

mod cache;
mod clean;
mod dirty;
mod held;
mod laws;

pub use cache::{Cache, Look, Put};
pub use clean::CLEAN_BLOCKS;
pub use dirty::DIRTY_BLOCKS;
pub use laws::{
    a_put_is_seen, forgetting_ends_one_block, keeping_changes_no_other, settling_ends_one_block,
};
