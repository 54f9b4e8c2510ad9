//! A history that is judged turn by turn.
ghost use Rattle.std.specs.Prelude.{◌≡◌, ◌≤◌, ◌==◌, ℕ, length, IfOk, vec_len};
ghost use Rattle.block_machine.specs.Attentions.{attentions_at_start};
ghost use Rattle.block_machine.specs.State.{State, state_at_start};
ghost use Rattle.block_machine.specs.Turns.{turn_after, turn_lawful};
ghost use Rattle.history_replay.specs.Array.{blocks_of};
ghost use Rattle.history_replay.specs.History.{TakesBoth};
ghost use Rattle.history_replay.specs.Kept.{Stands};
ghost use Rattle.history_replay.specs.Monitor.{Follows, Judges};
ghost use Rattle.history_replay.specs.Warning.{KnownWait};

use crate::block_turns;
use crate::blocks::blocks_at_start;
use crate::kept::{Kept, kept_at_start};
use crate::turns::take_turn;
use block_machine::{Array, BlockState, Turn};
use disk_base::NoMemory;
use sense_data::Attentions;
use std::alloc::Global;

/// What a legal history has come to, from which it can be told whether one more turn may come. Nothing is kept of a command
/// that is over. Memory grows with the blocks and with the data of the commands that are in.
#[derive(Debug, Drop)]
pub struct Monitor {
    kept: Kept,
    blocks: Vec<BlockState>,
}

impl Monitor {
    /// Before the first turn of a history of so many blocks that begins as histories do.
    pub fn new(alloc: Global, capacity: u64) -> Result<Self, NoMemory>
        requires some { 1 ≤ capacity }
        requires few { capacity ≤ 4096 }
        ensures { IfOk result (λ monitor. Follows capacity monitor (state_at_start attentions_at_start)) }
    {
        Monitor::starting_with(alloc, attentions_at_start(), capacity)
    }

    /// The same, of a history at whose start these attentions wait.
    pub fn starting_with(
        alloc: Global,
        waiting: Attentions,
        capacity: u64,
    ) -> Result<Self, NoMemory>
        requires some { 1 ≤ capacity }
        requires few { capacity ≤ 4096 }
        requires known { KnownWait waiting }
        ensures { IfOk result (λ monitor. Follows capacity monitor (state_at_start waiting)) }
    {
        Ok(Monitor {
            kept: kept_at_start(alloc, waiting, capacity)?,
            blocks: blocks_at_start(alloc, capacity)?,
        })
    }

    /// Whether a turn may come next. Where it may, the history has come to the state after it; else, and where memory was
    /// wanting, nothing more is said of the history.
    pub fn take(&mut self, alloc: Global, turn: &Turn) -> Result<bool, NoMemory>
        requires follows { (capacity : ℕ) × ((s : State) × Follows capacity self.old s) }
        ensures { IfOk result (λ may. Judges turn.now self.old self.new may) }
    {
        take_both(alloc, &mut self.kept, &mut self.blocks, turn)
    }

    /// Whether no command is in.
    pub fn is_idle(&self) -> bool
        ensures { (capacity : ℕ) (s : State) → Follows capacity self.now s → result ≡ (length s.set == 0) }
    {
        self.kept.set.members().is_empty()
    }

    /// The blocks' states. The values that a block may have stand in the order base, newer, lost.
    pub fn into_blocks(self) -> Array
        ensures length { (capacity : ℕ) (s : State) → Follows capacity self s → length result ≡ capacity }
        ensures blocks { (capacity : ℕ) (s : State) → Follows capacity self s → blocks_of result ≡ s.blocks }
    {
        let Monitor { kept: _, blocks } = self;
        Array::from_vec(blocks)
    }
}

/// What waits when a drive is made.
pub fn attentions_at_start() -> Attentions
    ensures start { result ≡ attentions_at_start }
    ensures known { KnownWait result }
{
    Attentions::power_on()
}

// Whether a turn may come, for the commands and for the blocks. Both are as after it where it may.
fn take_both(
    alloc: Global,
    kept: &mut Kept,
    blocks: &mut Vec<BlockState>,
    turn: &Turn,
) -> Result<bool, NoMemory>
    requires stands { (s : State) × Stands kept.old.known.capacity kept.old s }
    requires length { vec_len blocks.old ≡ kept.old.known.capacity }
    ensures length { vec_len blocks.new ≡ vec_len blocks.old }
    ensures takes { IfOk result (λ may. TakesBoth kept.old.known.capacity (λ s. turn_lawful kept.old.known.capacity s turn.now) (λ s. turn_after kept.old.known.capacity s turn.now) kept.old kept.new blocks.old.items blocks.new.items may) }
{
    if !take_turn(alloc, kept, turn)? {
        return Ok(false);
    }
    let may = block_turns::take_turn(alloc, blocks, turn.entries.as_slice())?;
    Ok(may)
}
