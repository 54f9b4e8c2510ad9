//! What a stage finds on a sector.
ghost use Rattle.std.specs.Prelude.{◌≡◌, ◌≤◌, ◌<◌, ℤ, List, [], length};
ghost use Rattle.std.specs.Vec.{vec_capacity};
ghost use Rattle.platter_model.specs.Given.{IsFound, IsGiven};
ghost use Rattle.platter_model.specs.Places.{IsKept};
ghost use Rattle.platter_model.specs.TrueLog.{attempt_of};

use crate::kept::Kept;
use crate::{Attempt, flaws};
use channel_path::{Path, SAMPLES, read_samples};
use disk_base::{Payload, Psn, Stage};

/// What a stage finds in the samples that a sector gives at its attempt. Where a flaw ever came to the sector they are made in
/// the buffer; else they are read where they are kept. The order is a list for use in between, with room for all places.
pub(crate) fn find(
    kept: &Kept,
    order: &mut Vec<usize>,
    path: &mut Path,
    samples: &mut [i8; SAMPLES],
    p: Psn,
    stage: Stage,
) -> Option<Payload>
    requires kept { IsKept kept.now.ops.items kept.now.links.items kept.now.sectors.items }
    requires within { p.0 < length kept.now.sectors.items }
    requires free { order.old.items ≡ [] }
    requires room { length kept.now.ops.items ≤ vec_capacity order.old }
    ensures found { (given : List ℤ) × IsGiven kept.now.ops.items p (attempt_of stage) given × IsFound p given stage.how result }
    ensures free { order.new.items ≡ [] }
    ensures capacity { vec_capacity order.new ≡ vec_capacity order.old }
{
    let sector = &kept.sectors[p.0 as usize];
    match sector.flaw {
        None => read_samples(path, p, &sector.unflawed, stage.how),
        Some(_) => {
            flaws::give(kept, order, p, Attempt::of(&stage), samples);
            read_samples(path, p, samples, stage.how)
        }
    }
}
