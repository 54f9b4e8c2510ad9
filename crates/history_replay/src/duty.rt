//! A command that is in.
ghost use Rattle.std.specs.Prelude.{◌≡◌, ◌≤◌, ℕ, Some, IfOk, IsTrue, slice_index};
ghost use Rattle.std.specs.Option.{option_map};
ghost use Rattle.cdb_reader.specs.Read.{in_range, read_of};
ghost use Rattle.cdb_reader.specs.Request.{outcome_of, request_of};
ghost use Rattle.block_machine.specs.Plans.{first_plan};
ghost use Rattle.history_replay.specs.Deeds.{marked_blocks};
ghost use Rattle.history_replay.specs.Kept.{duty_arrived, duty_done, duty_kept, is_as_told};
ghost use Rattle.history_replay.specs.Known.{HasPageControl, NamesFewBlocks, state_of};

use crate::Known;
use crate::deed::{is_dirty_at, left_after};
use crate::steps::first_plan;
use crate::steps::request::{byte, read};
use crate::tasks::{are_asked, ends_as_told};
use block_machine::{Entry, Label};
use cdb_reader::{Command, Plan};
use disk_base::{Cdb, DataOut, Initiator, NoMemory};
use sense_data::Sense;
use std::alloc::Global;

/// A command that is in: its command block and its data, from its start on what it still owes, and the addresses of the
/// blocks that were dirty when the last turn of work on it began.
#[derive(Debug, Drop)]
pub struct Duty {
    pub cdb: Cdb,
    pub sent: DataOut,
    pub owes: Option<Plan>,
    pub dirty_then: Vec<u64>,
}

impl Duty {
    /// A command that comes owes nothing yet.
    pub fn new(alloc: Global, cdb: &Cdb, sent: &DataOut) -> Result<Self, NoMemory>
        ensures { IfOk result (λ duty. (capacity : ℕ) → duty_kept capacity duty ≡ duty_arrived capacity cdb.now sent.now) }
    {
        Ok(Duty {
            cdb: cdb.copy(),
            sent: sent.copy(alloc)?,
            owes: None,
            dirty_then: Vec::new(alloc),
        })
    }

    /// The operation code.
    pub fn code(&self) -> u8
        ensures { result ≡ slice_index self.now.cdb 0 }
    {
        byte(&self.cdb, 0)
    }

    /// What it asks for, or why it is refused, on a unit of so many blocks.
    pub fn asks(&self, capacity: u64) -> Result<Command, Sense>
        ensures outcome { outcome_of result ≡ read_of self.now.cdb self.now.sent capacity }
        ensures range { IfOk result (λ command. IsTrue (in_range (request_of command) capacity)) }
        ensures control { IfOk result HasPageControl }
        ensures few { capacity ≤ 4096 → IfOk result NamesFewBlocks }
    {
        read(&self.cdb, &self.sent, capacity)
    }

    /// It starts, for its initiator.
    pub fn begun(self, alloc: Global, known: &Known, i: Initiator) -> Result<Self, NoMemory>
        requires some { 1 ≤ known.now.capacity }
        requires few { known.now.capacity ≤ 4096 }
        ensures { IfOk result (λ duty. duty_kept known.now.capacity duty ≡ record (duty_kept known.now.capacity self) { owes = Some (first_plan known.now.capacity (state_of known.now) i (duty_kept known.now.capacity self)) }) }
    {
        let asks = self.asks(known.capacity);
        let code = self.code();
        let plan = first_plan(alloc, known, i, code, &asks, &self.sent)?;
        Ok(self.owing(plan))
    }

    /// It owes this.
    fn owing(self, plan: Plan) -> Self
        ensures { (capacity : ℕ) → duty_kept capacity result ≡ record (duty_kept capacity self) { owes = Some plan } }
    {
        let Duty {
            cdb,
            sent,
            owes: _,
            dirty_then,
        } = self;
        Duty {
            cdb,
            sent,
            owes: Some(plan),
            dirty_then,
        }
    }

    /// A turn of work on it begins, and finds these blocks dirty.
    pub fn finding(self, dirty: Vec<u64>) -> Self
        ensures { (capacity : ℕ) → duty_kept capacity result ≡ record (duty_kept capacity self) { dirty_then = dirty.items } }
    {
        let Duty {
            cdb,
            sent,
            owes,
            dirty_then: _,
        } = self;
        Duty {
            cdb,
            sent,
            owes,
            dirty_then: dirty,
        }
    }

    /// It after an entry of a turn, where that is what it owes.
    pub fn done(
        self,
        alloc: Global,
        known: &Known,
        label: &Label,
        dirty: &[u64],
        entry: &Entry,
    ) -> Result<Option<Self>, NoMemory>
        requires { known.now.capacity ≤ 4096 }
        ensures { IfOk result (λ left. option_map (duty_kept known.now.capacity) left ≡ duty_done known.now label.now (marked_blocks dirty.now) (duty_kept known.now.capacity self) entry.now) }
    {
        let asks = self.asks(known.capacity);
        if !self.is_as_told(alloc, known, dirty, &asks, entry)? {
            return Ok(None);
        }
        let Duty {
            cdb,
            sent,
            owes,
            dirty_then,
        } = self;
        let then = dirty_then.as_slice();
        match left_after(alloc, label, dirty, &asks, then, owes, entry)? {
            Some(plan) => Ok(Some(Duty {
                cdb,
                sent,
                owes: Some(plan),
                dirty_then,
            })),
            None => Ok(None),
        }
    }

    // Whether the entry is as this command, which asks for this, and the blocks have it.
    fn is_as_told(
        &self,
        alloc: Global,
        known: &Known,
        dirty: &[u64],
        asks: &Result<Command, Sense>,
        entry: &Entry,
    ) -> Result<bool, NoMemory>
        requires outcome { outcome_of asks.now ≡ read_of self.now.cdb self.now.sent known.now.capacity }
        requires few { IfOk asks.now NamesFewBlocks }
        ensures { IfOk result (λ may. may ≡ is_as_told known.now (marked_blocks dirty.now) (duty_kept known.now.capacity self.now) entry.now) }
    {
        match entry {
            Entry::Harden { b, .. } => Ok(is_dirty_at(dirty, b.0)),
            Entry::Ended { reply, .. } => Ok(ends_as_told(&self.owes, asks, reply)),
            Entry::Mode { settings } => are_asked(alloc, known, asks, &self.sent, settings),
            _ => Ok(true),
        }
    }
}
