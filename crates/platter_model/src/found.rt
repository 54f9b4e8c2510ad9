//! What was meant at a fetch, and whether something else was found.
ghost use Rattle.std.specs.Prelude.{◌≡◌, ℕ, Some, take, slice_get, option_copied};
ghost use Rattle.disk_base.specs.declared.address.Psn.{Psn as PsnValue};
ghost use Rattle.platter_model.specs.declared.damage.Attempt.{Attempt as AttemptValue};
ghost use Rattle.platter_model.specs.Sector.{meant};
ghost use Rattle.platter_model.specs.Places.{IsKept, payload_at, payload_of as payload_settled};
ghost use Rattle.platter_model.specs.TrueLog.{is_other as is_other_payload, is_same as are_same};

use crate::kept::Kept;
use crate::{Left, Op};
use disk_base::Payload;

/// The payload that was meant at a fetch.
pub(crate) fn meant_at(kept: &Kept, at: usize) -> Option<&Payload>
    requires kept { IsKept kept.now.ops.items kept.now.links.items kept.now.sectors.items }
    requires fetched { (p : PsnValue) × (attempt : AttemptValue) × (slice_get kept.now.ops.items at ≡ Some (Op.Fetched p attempt)) }
    ensures { (p : PsnValue) (attempt : AttemptValue) → slice_get kept.now.ops.items at ≡ Some (Op.Fetched p attempt)
        → option_copied result ≡ meant p (take at kept.now.ops.items) }
{
    match kept.links[at] {
        Some(k) => settled_at(&kept.ops, k),
        None => None,
    }
}

// The payload that the write of a place settles.
fn settled_at(ops: &Vec<Op>, k: usize) -> Option<&Payload>
    ensures { option_copied result ≡ payload_at ops.now.items (Some k) }
{
    match ops.get(k) {
        Some(op) => payload_of(op),
        None => None,
    }
}

// The payload that a write settles.
fn payload_of(op: &Op) -> Option<&Payload>
    ensures { option_copied result ≡ payload_settled op.now }
{
    match op {
        Op::Wrote { payload } => Some(payload),
        Op::Torn { payload, tear } => match tear.left {
            Left::New => Some(payload),
            _ => None,
        },
        _ => None,
    }
}

/// Whether a payload was found that isn't the one that is meant.
pub(crate) fn is_other(meant: Option<&Payload>, found: Option<&Payload>) -> bool
    ensures { result ≡ is_other_payload (option_copied meant.entry) (option_copied found.entry) }
{
    match found {
        None => false,
        Some(found) => match meant {
            None => true,
            Some(payload) => !is_same(payload, found),
        },
    }
}

fn is_same(a: &Payload, b: &Payload) -> bool
    ensures { result ≡ are_same a.now b.now }
{
    a == b
}
