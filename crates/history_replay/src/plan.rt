//! What a started command still owes after a deed.
ghost use Rattle.std.specs.Prelude.{◌≡◌, ◌<◌, ◌+◌, ◌*◌, ◌==◌, ◌&&◌, false, nat_lt, slice_range};
ghost use Rattle.std.specs.List.{list_any, position};
ghost use Rattle.std.specs.Str.{bytes_eq};
ghost use Rattle.cdb_reader.specs.Plan.{next, after_move, block_of, after_written, blocks_left, may_end, when};
ghost use Rattle.cdb_reader.specs.Replies.{same_reply, no_spare};
ghost use Rattle.history_replay.specs.Steps.{plan_got, plan_put};

use crate::reply::{
    is_good, is_no_spare, is_recovered, is_unrecovered_read, is_write_error, same_reply,
};
use cdb_reader::{Deed, Moving, Plan, Reading, Syncing, Writing};
use disk_base::{BLOCK_LENGTH, Block, Bytes, DataOut, Lba, Value};
use sense_data::Reply;

/// The plan after a deed, where the deed may come.
pub fn next(plan: Plan, deed: &Deed) -> Option<Plan>
    ensures { result ≡ next plan deed.now }
{
    match plan {
        Plan::Ending(reply) => after_ending(reply, deed),
        Plan::Unread(b) => after_unread(b, deed),
        Plan::Answering(bytes, reply) => after_answering(bytes, reply, deed),
        Plan::Changing => after_changing(deed),
        Plan::Reading(reading) => after_reading(reading, deed),
        Plan::Writing(writing) => after_writing(writing, deed),
        Plan::Syncing(syncing) => after_syncing(syncing, deed),
        Plan::Moving(moving) => after_moving(moving, deed),
        Plan::Over => None,
    }
}

fn after_ending(owed: Reply, deed: &Deed) -> Option<Plan>
    ensures { result ≡ next (Plan.Ending owed) deed.now }
{
    match deed {
        Deed::Ended { reply, .. } => over_where(same_reply(reply, &owed)),
        _ => None,
    }
}

fn after_unread(b: u64, deed: &Deed) -> Option<Plan>
    ensures { result ≡ next (Plan.Unread b) deed.now }
{
    match deed {
        Deed::Ended { reply, .. } => over_where(is_unrecovered_read(b, reply)),
        _ => None,
    }
}

fn after_answering(bytes: Bytes, reply: Reply, deed: &Deed) -> Option<Plan>
    ensures { result ≡ next (Plan.Answering bytes reply) deed.now }
{
    match deed {
        Deed::Page(given) => {
            if given.as_slice() == bytes.as_slice() {
                Some(Plan::Ending(reply))
            } else {
                None
            }
        }
        _ => None,
    }
}

fn after_changing(deed: &Deed) -> Option<Plan>
    ensures { result ≡ next Plan.Changing deed.now }
{
    match deed {
        Deed::Mode => Some(Plan::Ending(Reply::good())),
        _ => None,
    }
}

fn after_reading(reading: Reading, deed: &Deed) -> Option<Plan>
    ensures { result ≡ next (Plan.Reading reading) deed.now }
{
    match deed {
        Deed::Hardened(b) => {
            if reading.through && !reading.hardened && is_next(*b, reading.at, reading.end) {
                Some(Plan::Reading(Reading {
                    hardened: true,
                    ..reading
                }))
            } else {
                None
            }
        }
        Deed::Got { b, value, dirty } => {
            if is_next(*b, reading.at, reading.end) && !(reading.through && *dirty) {
                Some(after_got(reading, value))
            } else {
                None
            }
        }
        Deed::Ended { reply, dirty } => over_where(may_end_reading(&reading, reply, *dirty)),
        _ => None,
    }
}

fn after_got(reading: Reading, value: &Value) -> Plan
    requires { reading.at < reading.end }
    ensures { result ≡ plan_got reading value.now }
{
    match value {
        Value::Data(_) => Plan::Reading(Reading {
            at: reading.at + 1,
            hardened: false,
            ..reading
        }),
        Value::Lost => Plan::Unread(reading.at),
    }
}

fn after_writing(writing: Writing, deed: &Deed) -> Option<Plan>
    ensures { result ≡ next (Plan.Writing writing) deed.now }
{
    match deed {
        Deed::Put { b, block, full } => {
            if !writing.owes_harden
                && is_next(*b, writing.at, writing.end)
                && is_block_of(
                    block,
                    &writing.sent,
                    writing.at.saturating_sub(writing.from),
                )
            {
                Some(after_put(writing, *full))
            } else {
                None
            }
        }
        Deed::Hardened(b) => {
            if writing.owes_harden && is_next(*b, writing.at, writing.end) {
                Some(after_written(writing))
            } else {
                None
            }
        }
        Deed::Ended { reply, .. } => over_where(may_end_writing(&writing, reply)),
        _ => None,
    }
}

fn after_put(writing: Writing, full: bool) -> Plan
    requires { writing.at < writing.end }
    ensures { result ≡ plan_put writing full }
{
    if writing.through || full {
        return Plan::Writing(Writing {
            owes_harden: true,
            ..writing
        });
    }
    after_written(writing)
}

// The plan once a block is written.
fn after_written(writing: Writing) -> Plan
    requires { writing.at < writing.end }
    ensures { result ≡ after_written writing }
{
    if writing.verifies && writing.at + 1 == writing.end {
        return Plan::Reading(Reading {
            at: writing.from,
            end: writing.end,
            through: true,
            reports: writing.reports,
            hardened: false,
        });
    }
    Plan::Writing(Writing {
        at: writing.at + 1,
        owes_harden: false,
        ..writing
    })
}

fn after_syncing(syncing: Syncing, deed: &Deed) -> Option<Plan>
    ensures { result ≡ next (Plan.Syncing syncing) deed.now }
{
    match deed {
        Deed::Passed { from, to } => {
            if from.0 == syncing.at && syncing.at < to.0 && to.0 <= syncing.end {
                Some(Plan::Syncing(Syncing {
                    at: to.0,
                    end: syncing.end,
                }))
            } else {
                None
            }
        }
        Deed::Hardened(b) => {
            if is_next(*b, syncing.at, syncing.end) {
                Some(Plan::Syncing(Syncing {
                    at: syncing.at + 1,
                    end: syncing.end,
                }))
            } else {
                None
            }
        }
        Deed::Ended { reply, dirty } => { over_where(may_end_syncing(&syncing, reply, *dirty)) }
        _ => None,
    }
}

fn after_moving(moving: Moving, deed: &Deed) -> Option<Plan>
    ensures { result ≡ next (Plan.Moving moving) deed.now }
{
    match deed {
        Deed::Hardened(b) => after_moved(moving, *b),
        Deed::Ended { reply, .. } => over_where(may_end_moving(&moving, reply)),
        _ => None,
    }
}

// The move of a block is done, and of all before it.
fn after_moved(moving: Moving, b: Lba) -> Option<Plan>
    ensures { result ≡ after_move moving (position (λ block. block.0 == b.0) (blocks_left moving)) }
{
    match place_of(b, left(&moving)) {
        Some(place) => Some(Plan::Moving(Moving {
            blocks: moving.blocks,
            hardened: moving.hardened + place as u64 + 1,
        })),
        None => None,
    }
}

// Nothing is owed any more where the deed may come.
fn over_where(may: bool) -> Option<Plan>
    ensures { result ≡ when may Plan.Over }
{
    if may { Some(Plan::Over) } else { None }
}

// Whether this is the block at the front of what is left.
fn is_next(b: Lba, at: u64, end: u64) -> bool
    ensures { result ≡ (b.0 == at && nat_lt at end) }
{
    b.0 == at && at < end
}

fn may_end_reading(reading: &Reading, reply: &Reply, dirty: bool) -> bool
    ensures { result ≡ may_end (Plan.Reading reading.now) dirty reply.now }
{
    (reading.at == reading.end && (is_good(reply) || reading.reports && is_recovered(reply)))
        || (reading.at < reading.end
            && reading.through
            && dirty
            && is_write_error(reading.at, reply))
}

// Dirty blocks are all the same to a write, and to a move.
fn may_end_writing(writing: &Writing, reply: &Reply) -> bool
    ensures { result ≡ may_end (Plan.Writing writing.now) false reply.now }
{
    !writing.owes_harden
        && ((writing.at == writing.end && is_good(reply))
            || (writing.at < writing.end && is_write_error(writing.at, reply)))
}

fn may_end_syncing(syncing: &Syncing, reply: &Reply, dirty: bool) -> bool
    ensures { result ≡ may_end (Plan.Syncing syncing.now) dirty reply.now }
{
    (syncing.at == syncing.end && is_good(reply))
        || (syncing.at < syncing.end && dirty && is_write_error(syncing.at, reply))
}

fn may_end_moving(moving: &Moving, reply: &Reply) -> bool
    ensures { result ≡ may_end (Plan.Moving moving.now) false reply.now }
{
    is_good(reply) || some_without_spare(left(moving), reply)
}

// Whether these are the data of the k-th block of those sent, counted from 0.
fn is_block_of(block: &Block, sent: &DataOut, k: u64) -> bool
    ensures { result ≡ bytes_eq block.now (block_of sent.now k) }
{
    match sent {
        DataOut::Nothing => false,
        DataOut::Fill(byte) => *block == [*byte; BLOCK_LENGTH],
        DataOut::Given(bytes) => is_block_at(block, bytes.as_slice(), k as usize),
    }
}

fn is_block_at(block: &Block, bytes: &[u8], k: usize) -> bool
    ensures { result ≡ bytes_eq block.now (slice_range bytes.now (512 * k) (512 * (k + 1))) }
{
    if k >= bytes.len() / BLOCK_LENGTH {
        return false;
    }
    block.as_slice() == &bytes[BLOCK_LENGTH * k..BLOCK_LENGTH * (k + 1)]
}

// The blocks after the last that was hardened.
fn left(moving: &Moving) -> &[Lba]
    ensures { result.now ≡ blocks_left moving.now }
{
    let blocks = moving.blocks.as_slice();
    &blocks[blocks.len().min(moving.hardened as usize)..]
}

fn place_of(b: Lba, blocks: &[Lba]) -> Option<usize>
    ensures { result ≡ position (λ block. block.0 == b.0) blocks.now }
{
    blocks.iter().position(|block| block.0 == b.0)
}

fn some_without_spare(blocks: &[Lba], reply: &Reply) -> bool
    ensures { result ≡ list_any (λ block. same_reply reply.now (no_spare block.0)) blocks.now }
{
    blocks.iter().any(|block| is_no_spare(block.0, reply))
}
