//! Turns one after another, as far as the blocks go.
ghost use Rattle.std.specs.Prelude.{◌≡◌, length, fold, None, IfOk, IfErr, IsTrue, vec_len};
ghost use Rattle.block_machine.specs.Blocks.{blocks_after};
ghost use Rattle.block_machine.specs.Turns.{blocks_lawful};
ghost use Rattle.history_replay.specs.Array.{blocks_of};
ghost use Rattle.history_replay.specs.Replay.{TellsRefused, blocks_left, first_refused};

use crate::ReplayFault;
use crate::blocks::{apply, blocks_at_start, may_come};
use block_machine::{Array, BlockState, Entry, Turn};
use disk_base::NoMemory;
use std::alloc::Global;

/// The states of an array's blocks after turns, whose commands aren't looked at: an array of so many blocks of zeros allows
/// each of their entries. Time grows with the entries, but for power cuts and passes of a sync, which take as long as there
/// are blocks.
pub fn replay_blocks(alloc: Global, turns: &[Turn], capacity: u64) -> Result<Array, ReplayFault>
    ensures length { IfOk result (λ array. length array ≡ capacity) }
    ensures blocks { IfOk result (λ array. blocks_of array ≡ blocks_left turns.now) }
    ensures allowed { IfOk result (λ array. first_refused capacity turns.now ≡ None) }
    ensures refused { IfErr result (λ fault. TellsRefused capacity turns.now fault) }
{
    let mut blocks = blocks_at_start(alloc, capacity)?;
    for (index, turn) in turns.iter().enumerate() {
        if !take_turn(alloc, &mut blocks, turn.entries.as_slice())? {
            return Err(ReplayFault::Step {
                turn: index as u64 + 1,
            });
        }
    }
    Ok(Array::from_vec(blocks))
}

/// Whether the blocks allow the entries of a turn. They are those after it where they do.
pub fn take_turn(
    alloc: Global,
    blocks: &mut Vec<BlockState>,
    entries: &[Entry],
) -> Result<bool, NoMemory>
    ensures allowed { IfOk result (λ may. may ≡ blocks_lawful (vec_len blocks.old) (blocks_of blocks.old.items) entries.now) }
    ensures after { IfOk result (λ may. IsTrue may → blocks_of blocks.new.items ≡ fold blocks_after (blocks_of blocks.old.items) entries.now) }
    ensures length { vec_len blocks.new ≡ vec_len blocks.old }
{
    for entry in entries {
        if !may_come(blocks.as_slice(), entry) {
            return Ok(false);
        }
        apply(alloc, blocks, entry)?;
    }
    Ok(true)
}
