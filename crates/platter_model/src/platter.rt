//! The platter and its calls.
ghost use Rattle.std.specs.Prelude.{if◌then◌else◌, ◌≡◌, ◌≢◌, ◌+◌, ◌≤◌, ◌<◌, length, All, IfOk, OnOk, OnErr, MatchOption, Some, None, false, true, option_copied, []};
ghost use Rattle.platter_model.specs.Sector as sector;
ghost use Rattle.platter_model.specs.Places.{IsWithin};
ghost use Rattle.platter_model.specs.TrueLog.{IsTrueLog, MayFollow, failing, is_stray, supply, supply_after};
ghost use Rattle.platter_model.specs.TrueLog as log;
ghost use Rattle.platter_model.specs.State.{IsReady, with_op, with_room, made, write_answer, after_write, tried, after_cut, after_power, good_answer, after_good_write, torn};

use crate::found::{is_other, meant_at};
use crate::kept::{Kept, blank_sectors};
use crate::trying::find;
use crate::{Arming, Attempt, Damage, Op, Ops, Tear, WriteAnswer};
use channel_path::{Path, SAMPLES};
use disk_base::{NoMemory, Payload, Psn, Stage};
use std::alloc::Global;
use std::marker::Model;

/// A platter: its list of operations, of which each sector gives what they say. Contracts see that list, how many sectors there
/// are, the cut that is armed, and for how many more operations there is room.
#[derive(Drop)]
pub struct Platter {
    kept: Kept,
    // For use within a fetch; empty in between.
    order: Vec<usize>,
    armed: Option<Arming>,
    off: bool,
    stray_count: usize,
    room: usize,
}

impl Model for Platter {
    ghost use Rattle.std.specs.Prelude.{if◌then◌else◌, ◌≡◌, ◌+◌, ◌≤◌, length, [], vec_capacity};
    ghost use Rattle.platter_model.specs.State.{State, IsReady};
    ghost use Rattle.platter_model.specs.Places.{IsKept};
    ghost use Rattle.platter_model.specs.TrueLog.{IsTrueLog, is_off, strays};

    ghost Value = { State };

    ghost view = { λ c. record { sectors = length c.kept.sectors.items; ops = c.kept.ops.items; armed = c.armed; room = c.room } };

    ghost invariant = { λ c. record {
      kept : IsKept c.kept.ops.items c.kept.links.items c.kept.sectors.items;
      log : IsTrueLog c.kept.ops.items;
      off : c.off ≡ is_off c.kept.ops.items;
      counted : c.stray_count ≡ strays c.kept.ops.items;
      armed : IsReady c.armed;
      free : c.order.items ≡ [];
      ops_room : length c.kept.ops.items + c.room ≤ vec_capacity c.kept.ops;
      links_room : length c.kept.ops.items + c.room ≤ vec_capacity c.kept.links;
      order_room : length c.kept.ops.items + c.room ≤ vec_capacity c.order;
    } };
}

impl Platter {
    /// Holds of every platter: each of its operations may follow those before it.
    pub fn has_a_true_log(&self)
        ensures { IsTrueLog self.now.ops }
    {
        let _ = &self.kept;
    }

    /// Whether the power is off.
    pub fn is_off(&self) -> bool
        ensures { result ≡ log.is_off self.now.ops }
    {
        self.off
    }

    /// How many tries found another payload than the one that was meant at their fetch.
    pub fn strays(&self) -> u64
        ensures { result ≡ log.strays self.now.ops }
    {
        self.stray_count as u64
    }

    pub fn ops(&self) -> &[Op]
        ensures { result.now ≡ self.now.ops }
    {
        self.kept.ops.as_slice()
    }

    pub fn into_ops(self) -> Ops
        ensures { result ≡ self.ops }
    {
        let Platter { kept, .. } = self;
        let Kept { ops, .. } = kept;
        Ops::from_vec(ops)
    }

    /// Sectors that these payloads are written to, in order.
    pub fn factory(alloc: Global, sectors: u32, first: &[Payload]) -> Result<Self, NoMemory>
        requires { All (λ payload. payload.psn.0 < sectors) first.now }
        ensures { IfOk result (λ platter. platter ≡ made sectors first.now) }
    {
        let mut platter = Platter::blank(alloc, sectors)?;
        platter.reserve(first.len())?;
        for payload in first {
            platter.add(Op::Wrote { payload: *payload }, false);
        }
        Ok(platter)
    }

    // Sectors without an operation.
    fn blank(alloc: Global, sectors: u32) -> Result<Self, NoMemory>
        ensures { IfOk result (λ platter. platter ≡ made sectors []) }
    {
        let kept = Kept {
            ops: Vec::new(alloc),
            links: Vec::new(alloc),
            sectors: blank_sectors(alloc, sectors as usize)?,
        };
        Ok(Platter {
            kept,
            order: Vec::new(alloc),
            armed: None,
            off: false,
            stray_count: 0,
            room: 0,
        })
    }

    /// Makes room for so many more operations.
    pub fn reserve(&mut self, n: usize) -> Result<(), NoMemory>
        ensures ok { OnOk result (self.new ≡ with_room self.old n) }
        ensures err { OnErr result (self.new ≡ self.old) }
    {
        self.kept.ops.reserve(n)?;
        self.kept.links.reserve(n)?;
        self.order.reserve(self.kept.ops.len() + n)?;
        if self.room < n {
            self.room = n;
        }
        Ok(())
    }

    /// Arms a cut for the `k`-th write from here, in place of one that was armed.
    pub fn arm(&mut self, k: u32, tear: Tear)
        requires counted { 1 ≤ k }
        requires within { tear.scar ≤ 9478 }
        ensures { self.new ≡ record self.old { armed = Some (record { k = k; tear = tear }) } }
    {
        self.armed = Some(Arming { k, tear });
    }

    /// A damage comes to a sector.
    pub fn damage(&mut self, d: Damage)
        requires room { 1 ≤ self.old.room }
        requires sector { d.p.0 < self.old.sectors }
        requires within { d.first + d.count ≤ 9478 }
        ensures { self.new ≡ with_op self.old (Op.Damaged d) }
    {
        self.add(Op::Damaged { damage: d }, false);
    }

    /// A write fault comes to a sector, for good.
    pub fn write_fault(&mut self, p: Psn)
        requires room { 1 ≤ self.old.room }
        requires sector { p.0 < self.old.sectors }
        ensures { self.new ≡ with_op self.old (Op.Faulty p) }
    {
        self.add(Op::Faulty { p }, false);
    }

    /// Writes a payload to its sector, in room for two operations.
    pub fn write(&mut self, p: Psn, payload: &Payload) -> WriteAnswer
        requires room { 2 ≤ self.old.room }
        requires sector { p.0 < self.old.sectors }
        requires own { payload.now.psn ≡ p }
        ensures answer { result ≡ write_answer self.old p }
        ensures after { self.new ≡ after_write self.old p payload.now }
    {
        if self.is_off() {
            return WriteAnswer::Off;
        }
        if self.is_faulty(p) {
            self.add(Op::WriteFailed { p }, false);
            return WriteAnswer::Fault;
        }
        self.write_good(p, payload)
    }

    // Whether a write fault stands on a sector.
    fn is_faulty(&self, p: Psn) -> bool
        requires { p.0 < self.now.sectors }
        ensures { result ≡ sector.is_faulty p self.now.ops }
    {
        self.kept.sectors[p.0 as usize].faulty
    }

    /// A stage tries a sector, in room for two operations: its samples are taken and decoded, and what was found is noted. None
    /// while the power is off. The buffers are for use in between.
    pub fn try_sector(
        &mut self,
        path: &mut Path,
        samples: &mut [i8; SAMPLES],
        p: Psn,
        stage: Stage,
    ) -> Option<Option<Payload>>
        requires room { 2 ≤ self.old.room }
        requires sector { p.0 < self.old.sectors }
        ensures { MatchOption result
            ((log.is_off self.old.ops ≡ true) × (self.new ≡ self.old))
            (λ found. (log.is_off self.old.ops ≡ false) × (self.new ≡ tried self.old p stage found)) }
    {
        if self.off {
            return None;
        }
        let found = find(&self.kept, &mut self.order, path, samples, p, stage);
        let at = self.kept.ops.len() as u64;
        let attempt = Attempt::of(&stage);
        self.add(Op::Fetched { p, attempt }, false);
        self.note(at, p, stage, found.as_ref());
        Some(found)
    }

    // Notes what was found in the samples of the fetch of a number.
    fn note(&mut self, at: u64, p: Psn, stage: Stage, found: Option<&Payload>)
        requires room { 1 ≤ self.old.room }
        requires sector { p.0 < self.old.sectors }

        // The power is on, the fetch is of this sector by the stage's attempt, and this is what its samples hold.
        requires may { MayFollow self.old.ops (Op.Tried at p stage (option_copied found)) }
        ensures { self.new ≡ with_op self.old (Op.Tried at p stage (option_copied found.entry)) }
    {
        let stray = is_other(meant_at(&self.kept, at as usize), found);
        let found = found.copied();
        self.add(
            Op::Tried {
                at,
                p,
                stage,
                found,
            },
            stray,
        );
    }

    /// The power goes off, and no cut is armed any more; while it is off, nothing happens.
    pub fn cut(&mut self)
        requires { 1 ≤ self.old.room }
        ensures { self.new ≡ after_cut self.old }
    {
        if self.off {
            return;
        }
        self.add(Op::Cut, false);
        self.armed = None;
    }

    /// The power comes back; while it is on, nothing happens.
    pub fn power(&mut self)
        requires { 1 ≤ self.old.room }
        ensures { self.new ≡ after_power self.old }
    {
        if self.off {
            self.add(Op::Power, false);
        }
    }

    // A write to a sector without a fault, while the power is on.
    fn write_good(&mut self, p: Psn, payload: &Payload) -> WriteAnswer
        requires room { 2 ≤ self.old.room }
        requires sector { p.0 < self.old.sectors }
        requires own { payload.now.psn ≡ p }
        requires on { log.is_off self.old.ops ≡ false }
        requires sound { sector.is_faulty p self.old.ops ≡ false }
        ensures answer { result ≡ good_answer self.old.armed }
        ensures after { self.new ≡ after_good_write self.old.armed self.old payload.now }
    {
        match self.armed {
            None => {
                self.add(Op::Wrote { payload: *payload }, false);
                WriteAnswer::Written
            }
            Some(arming) => self.write_armed(p, payload, arming),
        }
    }

    fn write_armed(&mut self, p: Psn, payload: &Payload, arming: Arming) -> WriteAnswer
        requires room { 2 ≤ self.old.room }
        requires sector { p.0 < self.old.sectors }
        requires own { payload.now.psn ≡ p }
        requires on { log.is_off self.old.ops ≡ false }
        requires sound { sector.is_faulty p self.old.ops ≡ false }
        requires armed { self.old.armed ≡ Some arming }
        requires ready { IsReady (Some arming) }
        ensures answer { result ≡ good_answer (Some arming) }
        ensures after { self.new ≡ after_good_write (Some arming) self.old payload.now }
    {
        if arming.k == 1 {
            self.tear(p, payload, arming.tear);
            return WriteAnswer::Off;
        }
        self.add(Op::Wrote { payload: *payload }, false);
        self.arm(arming.k - 1, arming.tear);
        WriteAnswer::Written
    }

    // A write is torn, and the power is off.
    fn tear(&mut self, p: Psn, payload: &Payload, tear: Tear)
        requires room { 2 ≤ self.old.room }
        requires sector { p.0 < self.old.sectors }
        requires own { payload.now.psn ≡ p }
        requires on { log.is_off self.old.ops ≡ false }
        requires sound { sector.is_faulty p self.old.ops ≡ false }
        requires within { tear.scar ≤ 9478 }
        ensures { self.new ≡ torn self.old payload.now tear }
    {
        self.kept.add(Op::Torn {
            payload: *payload,
            tear,
        });
        self.kept.add(Op::Cut);
        self.off = true;
        self.armed = None;
        self.room -= 2;
    }

    // One operation more, that may follow and is no torn write.
    fn add(&mut self, op: Op, stray: bool)
        requires room { 1 ≤ self.old.room }
        requires within { IsWithin self.old.sectors op }
        requires may { IsTrueLog self.old.ops → MayFollow self.old.ops op }
        requires whole { IsTrueLog self.old.ops → supply_after (supply self.old.ops) op ≢ failing }
        requires stray { stray ≡ is_stray self.old.ops op }
        ensures { self.new ≡ with_op self.old op }
    {
        self.off = is_off_after(self.off, &op);
        self.kept.add(op);
        self.stray_count += one_if(stray);
        self.room -= 1;
    }
}

fn one_if(test: bool) -> usize
    ensures { result ≡ (if test then 1 else 0) }
{
    if test { 1 } else { 0 }
}

// Whether the power is off after an operation that is no torn write.
fn is_off_after(off: bool, op: &Op) -> bool
    ensures { result ≡ log.off_after off op.now }
{
    match op {
        Op::Torn { .. } | Op::Power => false,
        Op::Cut => true,
        _ => off,
    }
}
