//! What an entry is for the command that it belongs to.
ghost use Rattle.std.specs.Prelude.{◌≡◌, ◌==◌, nat_le, not, false, [], length, IfOk};
ghost use Rattle.std.specs.Option.{option_and_then, option_map, option_map_or};
ghost use Rattle.cdb_reader.specs.Request.{outcome_of};
ghost use Rattle.block_machine.specs.Blocks.{is_dirty, without_address};
ghost use Rattle.block_machine.specs.Deeds.{done, done_by, names_dirty, page_done};
ghost use Rattle.block_machine.specs.State.{no_duty};
ghost use Rattle.history_replay.specs.Deeds.{done_of, left_of, marked_blocks, working_state};

use crate::address::is_among;
use crate::form::has_defect_length;
use crate::plan::next;
use block_machine::{Entry, Label, Who};
use cdb_reader::{Command, Deed, Plan};
use disk_base::{Block, Bytes, Lba, NoMemory, Value};
use sense_data::{Reply, Sense};
use std::alloc::Global;

// So many dirty blocks besides the one that is put send a write to the medium.
const DIRTY_MAX: usize = 64;

/// A command and what it did.
#[derive(Debug, Drop)]
pub struct Done {
    pub c: u32,
    pub what: Deed,
}

/// What an entry of a turn is for its command, where it belongs to one: a command that asks for this or is refused with
/// that, and whose last turn of work began with blocks of these addresses dirty; those of the first ones are dirty now.
pub fn deed_of(
    alloc: Global,
    label: &Label,
    dirty: &[u64],
    asks: &Result<Command, Sense>,
    dirty_then: &[u64],
    entry: &Entry,
) -> Result<Option<Done>, NoMemory>
    ensures { IfOk result (λ d. option_map done_of d ≡ done_by label.now (working_state (marked_blocks dirty.now) (outcome_of asks.now) dirty_then.now) entry.now) }
{
    let (c, what) = match entry {
        Entry::Page { c, bytes } => return page(alloc, *c, asks, bytes),
        Entry::Get { c, b, value } => (*c, got(*b, *value, is_dirty_at(dirty, b.0))),
        Entry::Put { c, b, value } => (*c, put(*b, *value, is_crowded(dirty_then, b.0))),
        Entry::Harden {
            who: Who::Command(c),
            b,
        } => (*c, Deed::Hardened(*b)),
        Entry::Passed { c, from, to } => (*c, passed(*from, *to)),
        Entry::Ended { c, reply } => (*c, ended(*reply, names_dirty(dirty, reply))),
        Entry::Mode { .. } => match label {
            Label::Work(c) => (*c, Deed::Mode),
            _ => return Ok(None),
        },
        _ => return Ok(None),
    };
    Ok(Some(Done { c, what }))
}

fn got(b: Lba, value: Value, dirty: bool) -> Deed
    ensures { result ≡ Deed.Got b value dirty }
{
    Deed::Got { b, value, dirty }
}

fn put(b: Lba, block: Block, full: bool) -> Deed
    ensures { result ≡ Deed.Put b block full }
{
    Deed::Put { b, block, full }
}

fn passed(from: Lba, to: Lba) -> Deed
    ensures { result ≡ Deed.Passed from to }
{
    Deed::Passed { from, to }
}

fn ended(reply: Reply, dirty: bool) -> Deed
    ensures { result ≡ Deed.Ended reply dirty }
{
    Deed::Ended { reply, dirty }
}

/// What is left of what a command owes after an entry that is `deed_of` it; none where the entry isn't what it owes, or
/// belongs to no command.
pub fn left_after(
    alloc: Global,
    label: &Label,
    dirty: &[u64],
    asks: &Result<Command, Sense>,
    dirty_then: &[u64],
    owes: Option<Plan>,
    entry: &Entry,
) -> Result<Option<Plan>, NoMemory>
    ensures { IfOk result (λ left. left ≡ option_and_then (left_of owes) (done_by label.now (working_state (marked_blocks dirty.now) (outcome_of asks.now) dirty_then.now) entry.now)) }
{
    let done = deed_of(alloc, label, dirty, asks, dirty_then, entry)?;
    Ok(left_of(owes, &done))
}

fn left_of(owes: Option<Plan>, done: &Option<Done>) -> Option<Plan>
    ensures { result ≡ option_and_then (left_of owes) (option_map done_of done.now) }
{
    match (owes, done) {
        (Some(plan), Some(done)) => next(plan, &done.what),
        _ => None,
    }
}

// Data that a command gives; of READ DEFECT DATA the heading, where the rest has the form.
fn page(
    alloc: Global,
    c: u32,
    asks: &Result<Command, Sense>,
    bytes: &Bytes,
) -> Result<Option<Done>, NoMemory>
    ensures { IfOk result (λ d. option_map done_of d ≡ page_done (outcome_of asks.now) c bytes.now) }
{
    match asks {
        Ok(Command::ReadDefectData { allocation, .. }) => {
            if has_defect_length(*allocation, bytes.as_slice()) {
                let slice = bytes.as_slice();
                let most = slice.len().min(2);
                given(alloc, c, &slice[..most])
            } else {
                Ok(None)
            }
        }
        _ => given(alloc, c, bytes.as_slice()),
    }
}

fn given(alloc: Global, c: u32, bytes: &[u8]) -> Result<Option<Done>, NoMemory>
    ensures { IfOk result (λ d. option_map done_of d ≡ done c (Deed.Page bytes.now)) }
{
    let copy = Vec::from_slice(alloc, bytes)?;
    Ok(Some(Done {
        c,
        what: Deed::Page(Bytes::from_vec(copy)),
    }))
}

pub fn is_dirty_at(dirty: &[u64], b: u64) -> bool
    ensures { result ≡ is_dirty (marked_blocks dirty.now b) }
{
    is_among(b, dirty)
}

// Whether the block that sense data name is dirty.
fn names_dirty(dirty: &[u64], reply: &Reply) -> bool
    ensures { result ≡ names_dirty (working_state (marked_blocks dirty.now) no_duty.asks []) reply.now }
{
    match reply.sense {
        Some(sense) => is_about_dirty(dirty, &sense),
        None => false,
    }
}

fn is_about_dirty(dirty: &[u64], sense: &Sense) -> bool
    ensures { result ≡ option_map_or (λ b. is_dirty (marked_blocks dirty.now b)) sense.now.information false }
{
    match sense.information {
        Some(b) => is_dirty_at(dirty, b as u64),
        None => false,
    }
}

// Whether so many other blocks were dirty.
fn is_crowded(dirty_then: &[u64], b: u64) -> bool
    ensures { result ≡ nat_le 64 (length (without_address b dirty_then.now)) }
{
    count_others(dirty_then, b) >= DIRTY_MAX
}

#[tactic(auto, using(crate::proofs::Others::others_begin, crate::proofs::Others::others_more, crate::proofs::Others::others_same, crate::proofs::Others::others_end))]
fn count_others(dirty_then: &[u64], b: u64) -> usize
    ensures { result ≡ length (without_address b dirty_then.now) }
{
    let mut others = 0;
    for a in dirty_then {
        if is_other(*a, b) {
            others += 1;
        }
    }
    others
}

fn is_other(a: u64, b: u64) -> bool
    ensures { result ≡ not (a == b) }
{
    a != b
}
