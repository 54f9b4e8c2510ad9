//! What the drive promises: histories of an array of blocks, with no sector, cache or spare in them. Here stand the
//! turns of a history and what they are made of; specs/ says which histories are legal.
#![tactic(auto)]

mod array;
mod entry;
mod laws;
mod turn;

pub use array::{Array, BlockState, Values};
pub use entry::{Entries, Entry, Recovered, Seen, Who};
pub use laws::{
    beginnings_are_legal, commands_are_accounted_for, dirty_blocks_are_pending,
    entries_fit_their_stage, first_read_settles, forced_writes_are_hardened, hardened_values_stay,
    hardened_writes_stand, reads_get_each_block_once, reads_give_hardened_or_newer,
    reads_give_their_own_write, reads_give_what_was_put_last, ruled_out_values_stay_out,
    syncs_harden_what_was_put, writes_put_each_block_once,
};
pub use turn::{Label, Turn, Turns};
