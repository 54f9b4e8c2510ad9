//! The list of operations with what is kept beside it, changed together by one call.
ghost use Rattle.std.specs.Prelude.{◌≡◌, ◌<◌, [], ◌∷◌, ◌++◌, length, vec_len, replicate, pos, None, false, IfOk};
ghost use Rattle.std.specs.Vec.{vec_capacity};
ghost use Rattle.platter_model.specs.Places.{AreSectors, IsKept, IsWithin, link_for};

use crate::sector::Sector;
use crate::{Damage, Op, Tear};
use disk_base::{NoMemory, Payload, Psn};
use std::alloc::Global;

/// The operations; beside each of them, where it is a damage or a torn write, the place of its sector's flaw before it, and
/// where it is a fetch, the place that settled what was meant; and what is kept for each sector.
#[derive(Drop)]
pub(crate) struct Kept {
    pub(crate) ops: Vec<Op>,
    pub(crate) links: Vec<Option<usize>>,
    pub(crate) sectors: Vec<Sector>,
}

impl Kept {
    /// Adds an operation, in room that is there.
    pub(crate) fn add(&mut self, op: Op)
        requires room { vec_len self.old.ops < vec_capacity self.old.ops }
        requires links_room { vec_len self.old.links < vec_capacity self.old.links }
        requires kept { IsKept self.old.ops.items self.old.links.items self.old.sectors.items }
        requires within { IsWithin (length self.old.sectors.items) op }
        ensures ops { self.new.ops.items ≡ self.old.ops.items ++ op ∷ [] }
        ensures kept { IsKept self.new.ops.items self.new.links.items self.new.sectors.items }
        ensures sectors { length self.new.sectors.items ≡ length self.old.sectors.items }
        ensures capacity { vec_capacity self.new.ops ≡ vec_capacity self.old.ops }
        ensures links_capacity { vec_capacity self.new.links ≡ vec_capacity self.old.links }
    {
        let link = link_of(&self.ops, &self.sectors, &op);
        touch(&self.ops, &mut self.sectors, &op);
        self.ops.push_reserved(op);
        self.links.push_reserved(link);
    }
}

// What is kept beside an operation that comes next.
fn link_of(ops: &Vec<Op>, sectors: &Vec<Sector>, op: &Op) -> Option<usize>
    requires kept { AreSectors ops.now.items sectors.now.items }
    requires within { IsWithin (length sectors.now.items) op.now }
    ensures { result ≡ link_for ops.now.items (length ops.now.items) op.now }
{
    match op {
        Op::Torn { payload, .. } => sectors[payload.psn.0 as usize].flaw,
        Op::Damaged { damage } => sectors[damage.p.0 as usize].flaw,
        Op::Fetched { p, .. } => sectors[p.0 as usize].meant,
        _ => None,
    }
}

// Brings what is kept for the sectors up to an operation that comes next.
fn touch(ops: &Vec<Op>, sectors: &mut Vec<Sector>, op: &Op)
    requires kept { AreSectors ops.now.items sectors.old.items }
    requires within { IsWithin (length sectors.old.items) op.now }
    ensures kept { AreSectors (ops.now.items ++ op.now ∷ []) sectors.new.items }
    ensures count { length sectors.new.items ≡ length sectors.old.items }
{
    match op {
        Op::Wrote { payload } => write(ops, sectors, payload),
        Op::Torn { payload, tear: how } => tear(ops, sectors, payload, *how),
        Op::Damaged { damage } => blemish(ops, sectors, damage),
        Op::Faulty { p } => fail(ops, sectors, *p),
        Op::WriteFailed { .. } => {}
        Op::Fetched { .. } => {}
        Op::Tried { .. } => {}
        Op::Cut => {}
        Op::Power => {}
    }
}

fn write(ops: &Vec<Op>, sectors: &mut Vec<Sector>, payload: &Payload)
    requires kept { AreSectors ops.now.items sectors.old.items }
    requires within { payload.now.psn.0 < length sectors.old.items }
    ensures kept { AreSectors (ops.now.items ++ Op.Wrote payload.now ∷ []) sectors.new.items }
    ensures count { length sectors.new.items ≡ length sectors.old.items }
{
    sectors[payload.psn.0 as usize].write(ops.len(), payload);
}

fn tear(ops: &Vec<Op>, sectors: &mut Vec<Sector>, payload: &Payload, tear: Tear)
    requires kept { AreSectors ops.now.items sectors.old.items }
    requires within { payload.now.psn.0 < length sectors.old.items }
    ensures kept { AreSectors (ops.now.items ++ Op.Torn payload.now tear ∷ []) sectors.new.items }
    ensures count { length sectors.new.items ≡ length sectors.old.items }
{
    sectors[payload.psn.0 as usize].tear(ops.len(), payload, tear.left);
}

fn blemish(ops: &Vec<Op>, sectors: &mut Vec<Sector>, damage: &Damage)
    requires kept { AreSectors ops.now.items sectors.old.items }
    requires within { damage.now.p.0 < length sectors.old.items }
    ensures kept { AreSectors (ops.now.items ++ Op.Damaged damage.now ∷ []) sectors.new.items }
    ensures count { length sectors.new.items ≡ length sectors.old.items }
{
    sectors[damage.p.0 as usize].flaw = Some(ops.len());
}

fn fail(ops: &Vec<Op>, sectors: &mut Vec<Sector>, p: Psn)
    requires kept { AreSectors ops.now.items sectors.old.items }
    requires within { p.0 < length sectors.old.items }
    ensures kept { AreSectors (ops.now.items ++ Op.Faulty p ∷ []) sectors.new.items }
    ensures count { length sectors.new.items ≡ length sectors.old.items }
{
    sectors[p.0 as usize].faulty = true;
}

/// So many sectors without an operation.
pub(crate) fn blank_sectors(alloc: Global, count: usize) -> Result<Vec<Sector>, NoMemory>
    ensures count { IfOk result (λ sectors. length sectors.items ≡ count) }
    ensures blank { IfOk result (λ sectors. AreSectors [] sectors.items) }
{
    let mut sectors = Vec::new(alloc);
    sectors.reserve(count)?;
    for _ in 0..count {
        sectors.push_reserved(Sector::blank());
    }
    Ok(sectors)
}
