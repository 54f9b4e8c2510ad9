//! Blocks on sectors: where a block lies by the map of defects, how it is tried and written there, and the cache before
//! it. In specs/ stands what a list of operations stores: its map, the maps that recovery may take after it, and the value of
//! each block.
#![tactic(auto)]

mod answer;
mod caching;
mod commits;
mod factory;
mod law;
mod reading;
mod recoveries;
mod spares;
mod store;
mod writing;

pub use answer::{CheckAnswer, CommitAnswer, RecoverAnswer, StoreAnswer, StoreFault, TryAnswer};
pub use caching::Search;
pub use law::{
    commit_ops_stay_safe, factory_maps_are_there, factory_payloads_are_on_sectors,
    factory_stores_keep_maps, present_maps_are_there, quiet_operations_keep_blocks,
    quiet_operations_keep_maps, recoveries_take_last_maps, recovery_finds_what_is_stored,
    recovery_ops_stay_safe, rewritten_maps_are_present, spares_are_user_sectors,
    tries_find_what_is_stored, writes_store_one_block, writes_to_spares_keep_blocks,
};
pub use store::Store;
