//! The samples that a sector gives: those of what is meant, under the sector's flaws in the order in which they came.
ghost use Rattle.std.specs.Prelude.{◌≡◌, ◌≤◌, ◌<◌, ◌+◌, ℕ, [], map, length, Option, None, Some};
ghost use Rattle.std.specs.Vec.{vec_capacity};
ghost use Rattle.platter_model.specs.Sector.{flaw_of, harm, is_lasting as is_hard_damage};
ghost use Rattle.platter_model.specs.Given.{IsGiven, affected, applies, changed, under};
ghost use Rattle.platter_model.specs.Places.{IsKept, IsWithin, gathered, is_since, standing_if, standing_in};

use crate::kept::Kept;
use crate::{Attempt, Damage, Effect, Lasting, Op};
use channel_path::SAMPLES;
use disk_base::Psn;

/// Writes the samples that a sector gives at an attempt. The order is a list for use in between, with room for all places.
pub(crate) fn give(
    kept: &Kept,
    order: &mut Vec<usize>,
    p: Psn,
    attempt: Attempt,
    out: &mut [i8; SAMPLES],
)
    requires kept { IsKept kept.now.ops.items kept.now.links.items kept.now.sectors.items }
    requires within { p.0 < length kept.now.sectors.items }
    requires free { order.old.items ≡ [] }
    requires room { length kept.now.ops.items ≤ vec_capacity order.old }
    ensures given { IsGiven kept.now.ops.items p attempt out.new }
    ensures free { order.new.items ≡ [] }
    ensures capacity { vec_capacity order.new ≡ vec_capacity order.old }
{
    let sector = &kept.sectors[p.0 as usize];
    out.copy_from_slice(&sector.unflawed);
    line_up(kept, p, order);
    apply(kept, p, sector.written, attempt, order, out);
}

// The places of a sector's flaws, the newest first.
fn line_up(kept: &Kept, p: Psn, order: &mut Vec<usize>)
    requires kept { IsKept kept.now.ops.items kept.now.links.items kept.now.sectors.items }
    requires within { p.0 < length kept.now.sectors.items }
    requires free { order.old.items ≡ [] }
    requires room { length kept.now.ops.items ≤ vec_capacity order.old }
    ensures all { (written : Option ℕ) → gathered p written kept.now.ops.items order.new.items
        ≡ standing_in p written kept.now.ops.items (length kept.now.ops.items) }
    ensures capacity { vec_capacity order.new ≡ vec_capacity order.old }
{
    let mut next = kept.sectors[p.0 as usize].flaw;
    while let Some(k) = next {
        order.push_reserved(k);
        next = kept.links[k];
    }
}

// Puts samples under the standing flaws of these places, the last place first.
fn apply(
    kept: &Kept,
    p: Psn,
    written: Option<usize>,
    attempt: Attempt,
    order: &mut Vec<usize>,
    out: &mut [i8; SAMPLES],
)
    requires kept { IsKept kept.now.ops.items kept.now.links.items kept.now.sectors.items }
    ensures under { out.new ≡ under attempt (gathered p written kept.now.ops.items order.old.items) out.old }
    ensures free { order.new.items ≡ [] }
    ensures capacity { vec_capacity order.new ≡ vec_capacity order.old }
{
    while let Some(k) = order.pop() {
        if let Some(op) = kept.ops.get(k) {
            strike(op, p, stands_since(written, k), attempt, out);
        }
    }
}

// Whether a place isn't before the newest write.
fn stands_since(written: Option<usize>, k: usize) -> bool
    ensures { result ≡ is_since written k }
{
    match written {
        Some(n) => n <= k,
        None => true,
    }
}

// Puts samples under the flaw that an operation brings to a sector, where it stands.
fn strike(op: &Op, p: Psn, since: bool, attempt: Attempt, out: &mut [i8; SAMPLES])
    requires { (count : ℕ) × IsWithin count op.now }
    ensures { out.new ≡ under attempt (standing_if since (flaw_of p op.now)) out.old }
{
    match op {
        Op::Damaged { damage } => {
            if damage.p.0 == p.0 {
                harm_samples(damage, since, attempt, out);
            }
        }
        Op::Torn { payload, tear } => {
            if payload.psn.0 == p.0 && since {
                change(Effect::Drop, 0, tear.scar as usize, out);
            }
        }
        _ => {}
    }
}

fn harm_samples(damage: &Damage, since: bool, attempt: Attempt, out: &mut [i8; SAMPLES])
    requires { damage.now.first + damage.now.count ≤ 9478 }
    ensures { out.new ≡ under attempt (standing_if since (Some (harm damage.now))) out.old }
{
    if (is_hard(damage.lasting) || since) && is_felt(damage.lasting, attempt) {
        change(
            damage.effect,
            damage.first as usize,
            damage.count as usize,
            out,
        );
    }
}

// Whether a write doesn't take a damage away.
fn is_hard(lasting: Lasting) -> bool
    ensures { result ≡ is_hard_damage lasting }
{
    lasting == Lasting::Hard
}

// Whether a damage applies at an attempt.
fn is_felt(lasting: Lasting, attempt: Attempt) -> bool
    ensures { result ≡ applies lasting attempt }
{
    match lasting {
        Lasting::Hard => true,
        Lasting::Soft(count) => attempt.reread < count,
        Lasting::Plus => attempt.offset != 1,
        Lasting::Minus => attempt.offset != -1,
    }
}

// Puts so many samples from one on under an effect.
fn change(effect: Effect, first: usize, count: usize, out: &mut [i8; SAMPLES])
    requires { first + count ≤ 9478 }
    ensures { out.new ≡ changed effect first count out.old }
{
    change_all(effect, &mut out[first..first + count]);
}

fn change_all(effect: Effect, samples: &mut [i8])
    ensures { samples.new ≡ map (affected effect) samples.old }
{
    for sample in samples.iter_mut() {
        *sample = sample_under(effect, *sample);
    }
}

fn sample_under(effect: Effect, sample: i8) -> i8
    ensures { result ≡ affected effect sample }
{
    match effect {
        Effect::Drop => 0,
        Effect::Add(more) => sample.saturating_add(more),
    }
}
