//! Where the blocks of a drive lie: its measures, the map of its defects, the place of each block and the next spare.
#![tactic(auto)]

mod chains;
mod limits;
mod lists;
mod map;
mod pair;
mod placer;
mod sectors;
mod size;
mod slips;

pub use chains::{
    a_chain_moves_one_block, a_chain_of_free_spares_fits, no_block_is_at_a_free_spare,
    the_next_spare_is_free,
};
pub use limits::{
    CYLINDERS_MAX, HEADS_MAX, MAP_SECTORS, PAIRS_MAX, PRIMARY_MAX, SECTORS_MAX, SECTORS_MIN,
    TRACK_SECTORS_MAX,
};
pub use map::{
    Map, blocks_are_at_user_sectors, no_block_is_at_the_next_spare, the_next_spare_makes_a_pair,
    two_blocks_are_never_at_one_sector,
};
pub use pair::Pair;
pub use placer::{Placer, routes_of_a_placer_ascend};
pub use size::Size;
