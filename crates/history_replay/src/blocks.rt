//! The blocks of an array: which entries they allow, and what entries make of them.
ghost use Rattle.std.specs.Prelude.{◌≡◌, ◌<◌, ◌≤◌, length, IsTrue, IfOk, OnOk, map, slice_set, vec_len};
ghost use Rattle.block_machine.specs.Blocks.{blocks_at_start, block_lawful, blocks_after, none_dirty, is_dirty, after_get, after_put, after_harden, after_cut};
ghost use Rattle.history_replay.specs.Array.{blocks_of, state_of};
ghost use Rattle.disk_base.specs.declared.block.Value.TheVariants.{Data};

use crate::state::{after_cut, after_get, after_harden, after_put, hardened, is_dirty, may_get};
use block_machine::{BlockState, Entry};
use disk_base::{BLOCK_LENGTH, Lba, NoMemory, Value};
use std::alloc::Global;

/// So many blocks of zeros, hardened.
#[tactic(auto, using(crate::proofs::BlocksOf::replicate_more, crate::proofs::BlocksOf::blocks_of_start))]
pub fn blocks_at_start(alloc: Global, capacity: u64) -> Result<Vec<BlockState>, NoMemory>
    ensures length { IfOk result (λ v. vec_len v ≡ capacity) }
    ensures zeros { IfOk result (λ v. blocks_of v.items ≡ blocks_at_start) }
{
    let zeros = Value::Data([0; BLOCK_LENGTH]);
    let mut blocks = Vec::with_capacity(alloc, capacity as usize)?;
    for _ in 0..capacity {
        blocks.push(hardened(alloc, &zeros)?)?;
    }
    Ok(blocks)
}

/// Whether the blocks allow an entry, as many as there are.
pub fn may_come(blocks: &[BlockState], entry: &Entry) -> bool
    ensures { result ≡ block_lawful (length blocks.now) (blocks_of blocks.now) entry.now }
{
    match entry {
        Entry::Get { b, value, .. } => match blocks.get(b.0 as usize) {
            Some(s) => may_get(s, value),
            None => false,
        },
        Entry::Put { b, .. } => b.0 < blocks.len() as u64,
        Entry::GiveUp { b } => match blocks.get(b.0 as usize) {
            Some(s) => !is_dirty(s),
            None => false,
        },
        Entry::Harden { b, .. } => match blocks.get(b.0 as usize) {
            Some(s) => is_dirty(s),
            None => false,
        },
        Entry::Passed { from, to, .. } => {
            to.0 <= blocks.len() as u64 && none_dirty(blocks, from.0, to.0)
        }
        _ => true,
    }
}

/// The blocks after an entry that they allow. Where memory is wanting they may be anything.
#[tactic(auto, using(crate::proofs::BlocksOf::blocks_of_set, crate::proofs::BlocksOf::blocks_of_cut))]
pub fn apply(alloc: Global, blocks: &mut Vec<BlockState>, entry: &Entry) -> Result<(), NoMemory>
    requires { IsTrue (block_lawful (vec_len blocks.old) (blocks_of blocks.old.items) entry.now) }
    ensures after { OnOk result (blocks_of blocks.new.items ≡ blocks_after (blocks_of blocks.old.items) entry.now) }
    ensures length { vec_len blocks.new ≡ vec_len blocks.old }
{
    match entry {
        Entry::Get { b, value, .. } => get(alloc, blocks, *b, value),
        Entry::Put { b, value, .. } => put(blocks, *b, Value::Data(*value)),
        Entry::GiveUp { b } => put(blocks, *b, Value::Lost),
        Entry::Harden { b, .. } => harden(alloc, blocks, *b),
        Entry::Cut => cut(alloc, blocks),
        _ => Ok(()),
    }
}

// No block from one address to below another is dirty.
#[tactic(auto, using(crate::proofs::BlocksOf::none_dirty_more, crate::proofs::BlocksOf::none_dirty_end))]
fn none_dirty(blocks: &[BlockState], from: u64, to: u64) -> bool
    requires { to ≤ length blocks.now }
    ensures { result ≡ none_dirty (blocks_of blocks.now) from to }
{
    for b in from..to {
        if is_dirty(&blocks[b as usize]) {
            return false;
        }
    }
    true
}

// A value is got of a block.
fn get(alloc: Global, blocks: &mut Vec<BlockState>, b: Lba, value: &Value) -> Result<(), NoMemory>
    requires { b.0 < vec_len blocks.old }
    ensures after { OnOk result (blocks.new.items ≡ slice_set blocks.old.items b.0 (after_get (state_of blocks.old.items b.0) value.now)) }
    ensures length { vec_len blocks.new ≡ vec_len blocks.old }
{
    after_get(alloc, &mut blocks[b.0 as usize], value)
}

// A value is put to a block.
fn put(blocks: &mut Vec<BlockState>, b: Lba, value: Value) -> Result<(), NoMemory>
    requires { b.0 < vec_len blocks.old }
    ensures after { OnOk result (blocks.new.items ≡ slice_set blocks.old.items b.0 (after_put (state_of blocks.old.items b.0) value)) }
    ensures length { vec_len blocks.new ≡ vec_len blocks.old }
{
    after_put(&mut blocks[b.0 as usize], value)
}

// A block's newest value comes to the medium.
fn harden(alloc: Global, blocks: &mut Vec<BlockState>, b: Lba) -> Result<(), NoMemory>
    requires { b.0 < vec_len blocks.old }
    ensures after { OnOk result (blocks.new.items ≡ slice_set blocks.old.items b.0 (after_harden (state_of blocks.old.items b.0))) }
    ensures length { vec_len blocks.new ≡ vec_len blocks.old }
{
    after_harden(alloc, &mut blocks[b.0 as usize])
}

// The power goes off.
fn cut(alloc: Global, blocks: &mut Vec<BlockState>) -> Result<(), NoMemory>
    ensures after { OnOk result (blocks.new.items ≡ map after_cut blocks.old.items) }
    ensures length { vec_len blocks.new ≡ vec_len blocks.old }
{
    for b in 0..blocks.len() {
        after_cut(alloc, &mut blocks[b])?;
    }
    Ok(())
}
