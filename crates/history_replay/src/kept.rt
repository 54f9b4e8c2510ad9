//! What is kept of a history.
ghost use Rattle.std.specs.Prelude.{◌≡◌, ◌==◌, ◌<◌, ◌≤◌, ◌*◌, ℕ, Some, None, IfOk, IsTrue, OnOk, if◌then◌else◌};
ghost use Rattle.std.specs.Ordering.{nat_cmp};
ghost use Rattle.std.specs.BTreeMap.{get};
ghost use Rattle.block_machine.specs.Blocks.{dirty_after};
ghost use Rattle.block_machine.specs.State.{no_duty, state_at_start};
ghost use Rattle.block_machine.specs.Scan.{scan_after};
ghost use Rattle.block_machine.specs.Steps.{corrupt_after, set_after, settings_after, waiting_after};
ghost use Rattle.history_replay.specs.Arrival.{ComesLast, with_commands};
ghost use Rattle.history_replay.specs.Kept.{ShowSame, Stands, is_over};
ghost use Rattle.history_replay.specs.Known.{may_log, scan_of};
ghost use Rattle.history_replay.specs.Warning.{KnownWait, NamesOneThatIsIn, waiting_state};

use crate::address::settle_dirty;
use crate::duty::Duty;
use crate::effects::{corrupt_after, watch_scan};
use crate::steps::{settings_after, settle_attentions, settle_set};
use crate::{Known, Scanning};
use block_machine::{Entry, Label};
use disk_base::NoMemory;
use mode_pages::Settings;
use scan_log::ScanLog;
use sense_data::Attentions;
use sense_data::codes::INVALID_OPERATION_CODE;
use std::alloc::Global;
use std::collections::BTreeMap;
use task_set::TaskSet;

/// What is kept of a history while it is replayed.
#[derive(Debug, Drop)]
pub struct Kept {
    /// How many commands came.
    pub arrived: u32,
    pub set: TaskSet,
    /// The commands that are in, by their numbers.
    pub duties: BTreeMap<u32, Duty>,
    pub known: Known,
    /// The addresses of the dirty blocks; the one that is dirty for the longest time comes first.
    pub dirty: Vec<u64>,
}

/// What is kept before the first turn.
pub fn kept_at_start(alloc: Global, waiting: Attentions, capacity: u64) -> Result<Kept, NoMemory>
    requires some { 1 ≤ capacity }
    requires few { capacity ≤ 4096 }
    requires known { KnownWait waiting }
    ensures unit { IfOk result (λ kept. kept.known.capacity ≡ capacity) }
    ensures stands { IfOk result (λ kept. Stands capacity kept (state_at_start waiting)) }
{
    Ok(Kept {
        arrived: 0,
        set: TaskSet::new(),
        duties: BTreeMap::new(alloc),
        known: Known {
            capacity,
            settings: Settings::default_values(),
            waiting,
            corrupt: false,
            scan: Scanning {
                minutes: 0,
                scanned: 0,
                log: ScanLog::new(alloc)?,
            },
        },
        dirty: Vec::new(alloc),
    })
}

/// All that an entry leaves, but for what commands owe: those that are in no more are let go.
pub fn settle(alloc: Global, kept: &mut Kept, label: &Label, entry: &Entry) -> Result<(), NoMemory>
    requires inside { NamesOneThatIsIn label.now kept.old.set entry.now }
    requires last { ComesLast kept.old.set entry.now }
    requires log { IsTrue (may_log entry.now) }
    requires warned { KnownWait kept.old.known.waiting }
    requires few { kept.old.known.capacity ≤ 4096 }
    requires counted { kept.old.known.scan.scanned < 65536 * kept.old.known.capacity }
    ensures arrived { kept.new.arrived ≡ kept.old.arrived }
    ensures capacity { kept.new.known.capacity ≡ kept.old.known.capacity }
    ensures set { OnOk result (kept.new.set ≡ set_after kept.old.known.capacity (with_commands 0 kept.old.set) entry.now) }
    ensures duties { OnOk result ((q : ℕ) → get nat_cmp kept.new.duties q ≡ (if is_over entry.now q then None else get nat_cmp kept.old.duties q)) }
    ensures settings { OnOk result (kept.new.known.settings ≡ settings_after kept.old.known.settings entry.now) }
    ensures waiting { OnOk result (kept.new.known.waiting ≡ waiting_after label.now (waiting_state kept.old.known.waiting kept.old.set no_duty) entry.now) }
    ensures warned { KnownWait kept.new.known.waiting }
    ensures corrupt { OnOk result (kept.new.known.corrupt ≡ corrupt_after kept.old.known.corrupt entry.now) }
    ensures scan { OnOk result (ShowSame kept.old.known.capacity (scan_of kept.new.known.scan) (scan_after (scan_of kept.old.known.scan) entry.now)) }
    ensures counted { kept.new.known.scan.scanned < 65536 * kept.old.known.capacity }
    ensures dirty { OnOk result (kept.new.dirty.items ≡ dirty_after kept.old.dirty.items entry.now) }
{
    let capacity = kept.known.capacity;
    let none = Err(INVALID_OPERATION_CODE);
    settle_attentions(&mut kept.known.waiting, label, &kept.set, 0, &none, entry);
    settle_set(&mut kept.set, capacity, entry);
    let_go(&mut kept.duties, entry);
    kept.known.settings = settings_after(&kept.known.settings, entry);
    kept.known.corrupt = corrupt_after(kept.known.corrupt, entry);
    watch_scan(alloc, &mut kept.known.scan, capacity, entry)?;
    settle_dirty(&mut kept.dirty, entry)
}

/// A command is kept in the place of the one of its number.
pub fn keep(duties: &mut BTreeMap<u32, Duty>, c: u32, duty: Duty) -> Result<(), NoMemory>
    ensures { OnOk result ((q : ℕ) → get nat_cmp duties.new q ≡ (if q == c then Some duty else get nat_cmp duties.old q)) }
{
    duties.insert(c, duty)?;
    Ok(())
}

/// The command of a number, which is kept no more.
pub fn take(duties: &mut BTreeMap<u32, Duty>, c: u32) -> Option<Duty>
    ensures value { result ≡ get nat_cmp duties.old c }
    ensures others { (q : ℕ) → get nat_cmp duties.new q ≡ (if q == c then None else get nat_cmp duties.old q) }
{
    duties.remove(&c)
}

// A command that is in no more after an entry isn't kept.
fn let_go(duties: &mut BTreeMap<u32, Duty>, entry: &Entry)
    ensures { (q : ℕ) → get nat_cmp duties.new q ≡ (if is_over entry.now q then None else get nat_cmp duties.old q) }
{
    match entry {
        Entry::Ended { c, .. } | Entry::Aborted { c } => {
            let _ = take(duties, *c);
        }
        Entry::Cut => duties.clear(),
        _ => {}
    }
}
