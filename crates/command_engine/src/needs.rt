//! What each kind of command about blocks needs at the block that comes next.
ghost use Rattle.std.specs.Prelude.{◌≡◌};
ghost use Rattle.read_recovery.specs.Stages.{next_stage};
ghost use Rattle.command_engine.specs.Need.{need_in_reading, need_in_writing, need_in_syncing, need_at_move, taking_block};

use crate::{Need, Step};
use cdb_reader::{Reading, Syncing, Writing};
use disk_base::Lba;
use read_recovery::Trying;

pub fn of_reading(reading: &Reading, step: &Step) -> Need
    ensures { result ≡ need_in_reading reading.now step.now }
{
    if reading.at >= reading.end {
        return Need::Nothing;
    }
    let b = Lba(reading.at);
    match step {
        Step::Trying(trying) => take(b, reading.through, trying),
        Step::Hardening => Need::Harden { b },
        Step::Faulted | Step::Moving(_) | Step::Spareless => Need::Nothing,
    }
}

pub fn of_writing(writing: &Writing, step: &Step) -> Need
    ensures { result ≡ need_in_writing writing.now step.now }
{
    if writing.at >= writing.end {
        return Need::Nothing;
    }
    let b = Lba(writing.at);
    match step {
        Step::Trying(_) if writing.through => Need::PutThrough { b },
        Step::Trying(_) => Need::Put { b },
        Step::Hardening | Step::Faulted | Step::Moving(_) | Step::Spareless => Need::Nothing,
    }
}

pub fn of_syncing(syncing: &Syncing, step: &Step) -> Need
    ensures { result ≡ need_in_syncing syncing.now step.now }
{
    if syncing.at >= syncing.end {
        return Need::Nothing;
    }
    match step {
        Step::Trying(_) => Need::Pass {
            from: Lba(syncing.at),
            to: Lba(syncing.end),
        },
        Step::Hardening => Need::Harden { b: Lba(syncing.at) },
        Step::Faulted | Step::Moving(_) | Step::Spareless => Need::Nothing,
    }
}

// Of a list of blocks to be moved.
pub fn of_moving(in_hand: Option<Lba>, step: &Step) -> Need
    ensures { result ≡ need_at_move in_hand step.now }
{
    let Some(b) = in_hand else {
        return Need::Nothing;
    };
    match step {
        Step::Trying(trying) => take(b, true, trying),
        Step::Moving(why) => Need::Move { b, why: *why },
        Step::Hardening | Step::Faulted | Step::Spareless => Need::Nothing,
    }
}

// The value of a block, by the next stage where it isn't found in the cache.
fn take(b: Lba, medium: bool, trying: &Trying) -> Need
    ensures { result ≡ taking_block b medium (next_stage trying.now) }
{
    match trying.next() {
        Some(stage) => Need::Take { b, medium, stage },
        None => Need::Nothing,
    }
}
