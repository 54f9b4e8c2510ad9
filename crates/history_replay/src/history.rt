//! Whole histories.
ghost use Rattle.std.specs.Prelude.{◌≡◌, ◌≤◌, length, IfErr, IfOk, IsTrue};
ghost use Rattle.block_machine.specs.Attentions.{attentions_at_start};
ghost use Rattle.block_machine.specs.History.{legal, legal_from, state_after, task_legal, task_legal_from, turns_after};
ghost use Rattle.block_machine.specs.State.{state_at_start};
ghost use Rattle.history_replay.specs.Array.{blocks_of};
ghost use Rattle.history_replay.specs.History.{TellsUnlawful};
ghost use Rattle.history_replay.specs.Warning.{KnownWait};

use crate::kept::kept_at_start;
use crate::monitor::attentions_at_start;
use crate::turns::take_turn;
use crate::{Monitor, ReplayFault};
use block_machine::{Array, Turn};
use disk_base::NoMemory;
use sense_data::Attentions;
use std::alloc::Global;

/// The states of an array's blocks after the turns of a history that begins as histories do: each turn may come, for the
/// commands and for the blocks. The values that a block may have stand in the order base, newer, lost. Time grows with the
/// turns and their entries, each of which may look at all dirty blocks; power cuts and passes of a sync take as long as there
/// are blocks. Memory grows with the blocks and the data of the commands that are in.
pub fn replay(alloc: Global, turns: &[Turn], capacity: u64) -> Result<Array, ReplayFault>
    requires some { 1 ≤ capacity }
    requires few { capacity ≤ 4096 }
    ensures length { IfOk result (λ array. length array ≡ capacity) }
    ensures blocks { IfOk result (λ array. blocks_of array ≡ (state_after capacity turns.now).blocks) }
    ensures legal { IfOk result (λ array. IsTrue (legal capacity turns.now)) }
    ensures refused { IfErr result (λ fault. TellsUnlawful capacity (state_at_start attentions_at_start) turns.now fault) }
{
    replay_from(alloc, attentions_at_start(), turns, capacity)
}

/// The same, of a history at whose start these attentions wait.
pub fn replay_from(
    alloc: Global,
    waiting: Attentions,
    turns: &[Turn],
    capacity: u64,
) -> Result<Array, ReplayFault>
    requires some { 1 ≤ capacity }
    requires few { capacity ≤ 4096 }
    requires known { KnownWait waiting }
    ensures length { IfOk result (λ array. length array ≡ capacity) }
    ensures blocks { IfOk result (λ array. blocks_of array ≡ (turns_after capacity (state_at_start waiting) turns.now).blocks) }
    ensures legal { IfOk result (λ array. IsTrue (legal_from capacity (state_at_start waiting) turns.now)) }
    ensures refused { IfErr result (λ fault. TellsUnlawful capacity (state_at_start waiting) turns.now fault) }
{
    let mut monitor = Monitor::starting_with(alloc, waiting, capacity)?;
    for (index, turn) in turns.iter().enumerate() {
        if !monitor.take(alloc, turn)? {
            return Err(ReplayFault::Step {
                turn: index as u64 + 1,
            });
        }
    }
    Ok(monitor.into_blocks())
}

/// Whether these turns are a history that an array of so many blocks may have.
pub fn legal(alloc: Global, turns: &[Turn], capacity: u64) -> Result<bool, NoMemory>
    requires some { 1 ≤ capacity }
    requires few { capacity ≤ 4096 }
    ensures { IfOk result (λ is. is ≡ legal capacity turns.now) }
{
    legal_from(alloc, attentions_at_start(), turns, capacity)
}

/// The same, where these attentions wait at its start.
pub fn legal_from(
    alloc: Global,
    waiting: Attentions,
    turns: &[Turn],
    capacity: u64,
) -> Result<bool, NoMemory>
    requires some { 1 ≤ capacity }
    requires few { capacity ≤ 4096 }
    requires known { KnownWait waiting }
    ensures { IfOk result (λ is. is ≡ legal_from capacity (state_at_start waiting) turns.now) }
{
    match replay_from(alloc, waiting, turns, capacity) {
        Ok(_) => Ok(true),
        Err(ReplayFault::Step { .. }) => Ok(false),
        Err(ReplayFault::NoMemory) => Err(NoMemory),
    }
}

/// Whether these turns are such a history as far as commands go: what their blocks may have isn't looked at, so a block may give
/// anything.
pub fn task_legal(alloc: Global, turns: &[Turn], capacity: u64) -> Result<bool, NoMemory>
    requires some { 1 ≤ capacity }
    requires few { capacity ≤ 4096 }
    ensures { IfOk result (λ is. is ≡ task_legal capacity turns.now) }
{
    task_legal_from(alloc, attentions_at_start(), turns, capacity)
}

/// The same, where these attentions wait at its start.
pub fn task_legal_from(
    alloc: Global,
    waiting: Attentions,
    turns: &[Turn],
    capacity: u64,
) -> Result<bool, NoMemory>
    requires some { 1 ≤ capacity }
    requires few { capacity ≤ 4096 }
    requires known { KnownWait waiting }
    ensures { IfOk result (λ is. is ≡ task_legal_from capacity (state_at_start waiting) turns.now) }
{
    let mut kept = kept_at_start(alloc, waiting, capacity)?;
    for turn in turns {
        if !take_turn(alloc, &mut kept, turn)? {
            return Ok(false);
        }
    }
    Ok(true)
}
