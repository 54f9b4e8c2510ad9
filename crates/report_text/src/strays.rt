//! Tries that found another payload than the one meant.
ghost use Rattle.std.specs.Prelude.{◌≡◌, ◌<◌, option_copied, false, Some, take, get_or, if◌then◌else◌};
ghost use Rattle.std.specs.Option.{option_map_or};
ghost use Rattle.disk_base.specs.declared.address.Psn.{Psn as PsnValue};
ghost use Rattle.platter_model.specs.Sector.{meant, is_sector};
ghost use Rattle.platter_model.specs.Places.{changes_meant, settles, payload_of};
ghost use Rattle.platter_model.specs.TrueLog.{is_stray, is_same, is_other, strays};
ghost use Rattle.report_text.specs.Ends.{AreEnds, back_from};

use disk_base::{Payload, Psn};
use platter_model::{Left, Op};

// The sectors, from number 0 up, whose last write is kept in hand.
const KEPT: usize = 4096;

/// How many operations are strays, in one pass that takes no memory. For the first 4,096 sectors it keeps where the last write
/// ends. A try looks back from its fetch, or from that end where the fetch is behind it: so only a try of a sector past the
/// table, or one of a fetch older than the last write, looks past other operations.
pub fn strays(ops: &[Op]) -> u64
    ensures { result ≡ strays ops.now }
{
    let mut ends = [0; KEPT];
    let mut count = 0;
    for (place, op) in ops.iter().enumerate() {
        if is_stray(&ends, &ops[..place], op) {
            count += 1;
        }
        note(&mut ends, op, place as u64 + 1);
    }
    count
}

fn is_stray(ends: &[u64; KEPT], before: &[Op], op: &Op) -> bool
    requires { AreEnds before.now ends.now }
    ensures { result ≡ is_stray before.now op.now }
{
    match op {
        Op::Tried {
            at,
            p,
            found: Some(found),
            ..
        } => is_other(meant_at(ends, *p, *at, before), found),
        _ => false,
    }
}

// The payload that is meant on a sector after the first so many operations.
fn meant_at<'a>(ends: &[u64; KEPT], p: Psn, at: u64, before: &'a [Op]) -> Option<&'a Payload>
    requires { AreEnds before.now ends.now }
    ensures { option_copied result ≡ meant p (take at before.now) }
{
    meant(p, front(before, back_from(ends, p, at)))
}

// Where looking back from so many operations begins.
fn back_from(ends: &[u64; KEPT], p: Psn, at: u64) -> u64
    ensures { result ≡ back_from ends.now p at }
{
    let place = p.0 as usize;
    if place < KEPT {
        at.min(ends[place])
    } else {
        at
    }
}

// Keeps that the first so many operations end with this one.
fn note(ends: &mut [u64; KEPT], op: &Op, end: u64)
    ensures { (p : PsnValue) → p.0 < 4096 → get_or ends.new p.0 0 ≡ (if settles p op.now then end else get_or ends.old p.0 0) }
{
    if let Some(p) = settled(op) {
        let place = p.0 as usize;
        if place < KEPT {
            ends[place] = end;
        }
    }
}

// The sector on which an operation settles what is meant.
fn settled(op: &Op) -> Option<Psn>
    ensures { (p : PsnValue) → settles p op.now ≡ option_map_or (is_sector p) result false }
{
    match op {
        Op::Wrote { payload } => Some(payload.psn),
        Op::Torn { payload, tear } if changes_meant(tear.left) => Some(payload.psn),
        _ => None,
    }
}

// The first so many operations, or all.
fn front(ops: &[Op], count: u64) -> &[Op]
    ensures { result.now ≡ take count ops.now }
{
    &ops[..ops.len().min(count as usize)]
}

// The payload that is meant on a sector after these operations.
fn meant(p: Psn, ops: &[Op]) -> Option<&Payload>
    ensures { option_copied result ≡ meant p ops.now }
{
    let mut left = ops.len();
    while left > 0 {
        left -= 1;
        if settles(p, &ops[left]) {
            return payload_of(&ops[left]);
        }
    }
    None
}

// Whether an operation settles what is meant on a sector.
fn settles(p: Psn, op: &Op) -> bool
    ensures { result ≡ settles p op.now }
{
    match settled(op) {
        Some(q) => q == p,
        None => false,
    }
}

fn changes_meant(left: Left) -> bool
    ensures { result ≡ changes_meant left }
{
    match left {
        Left::Old => false,
        Left::New | Left::Nothing => true,
    }
}

// The payload that an operation settles.
fn payload_of(op: &Op) -> Option<&Payload>
    ensures { option_copied result ≡ payload_of op.now }
{
    match op {
        Op::Wrote { payload } => Some(payload),
        Op::Torn { payload, tear } => match tear.left {
            Left::New => Some(payload),
            _ => None,
        },
        _ => None,
    }
}

fn is_other(meant: Option<&Payload>, found: &Payload) -> bool
    ensures { result ≡ is_other (option_copied meant.entry) (Some found.now) }
{
    match meant {
        None => true,
        Some(payload) => !is_same(payload, found),
    }
}

fn is_same(a: &Payload, b: &Payload) -> bool
    ensures { result ≡ is_same a.now b.now }
{
    a == b
}
