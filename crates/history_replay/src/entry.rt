//! One entry of a turn: whether it may come, and what is kept after it.
ghost use Rattle.std.specs.Prelude.{◌≡◌, ◌≤◌, ◌==◌, ◌&&◌, ℕ, Some, None, IfOk, IsTrue, if◌then◌else◌};
ghost use Rattle.std.specs.Option.{is_some, option_map, option_and_then};
ghost use Rattle.std.specs.Ordering.{nat_cmp};
ghost use Rattle.std.specs.BTreeMap.{get};
ghost use Rattle.scan_log.specs.Findings.{fits_a_byte};
ghost use Rattle.block_machine.specs.Entries.{entry_lawful, may_start, may_write_for, works_on};
ghost use Rattle.block_machine.specs.State.{State};
ghost use Rattle.block_machine.specs.Steps.{entry_after};
ghost use Rattle.history_replay.specs.Deeds.{marked_blocks};
ghost use Rattle.history_replay.specs.Kept.{IsLater, Stands, Takes, comes_alone, doer_of, duty_done, duty_kept};

use crate::Known;
use crate::duty::Duty;
use crate::effects::may_come_out;
use crate::kept::{Kept, keep, settle, take};
use crate::steps::settle_attentions;
use crate::tasks::may_start;
use block_machine::{Entry, Label, Who};
use disk_base::NoMemory;
use scan_log::Finding;
use std::alloc::Global;
use std::collections::BTreeMap;

/// Whether an entry of a turn that isn't an arrival may come. What is kept is as after it where it may.
pub fn take_entry(
    alloc: Global,
    kept: &mut Kept,
    label: &Label,
    entry: &Entry,
) -> Result<bool, NoMemory>
    requires { (s : State) × Stands kept.old.known.capacity kept.old s }
    ensures { IfOk result (λ may. Takes kept.old.known.capacity (λ s. entry_lawful kept.old.known.capacity label.now s entry.now) (λ s. entry_after kept.old.known.capacity label.now s entry.now) kept.old kept.new may) }
{
    match entry {
        Entry::Started { c } => start(alloc, kept, label, *c),
        Entry::Arrived { .. } => Ok(false),
        _ => take_later(alloc, kept, label, entry),
    }
}

// A command starts.
fn start(alloc: Global, kept: &mut Kept, label: &Label, c: u32) -> Result<bool, NoMemory>
    requires { (s : State) × Stands kept.old.known.capacity kept.old s }
    ensures { IfOk result (λ may. Takes kept.old.known.capacity (λ s. works_on label.now c && may_start s c) (λ s. entry_after kept.old.known.capacity label.now s (Entry.Started c)) kept.old kept.new may) }
{
    if !works_on(label, c) || !may_start(&kept.set, c) {
        return Ok(false);
    }
    let member = match kept.set.member(c) {
        Some(member) => member,
        None => return Ok(false),
    };
    let duty = match take(&mut kept.duties, c) {
        Some(duty) => duty,
        None => return Ok(false),
    };
    let asks = duty.asks(kept.known.capacity);
    let code = duty.code();
    let begun = duty.begun(alloc, &kept.known, member.task.initiator)?;
    keep(&mut kept.duties, c, begun)?;
    let entry = Entry::Started { c };
    settle_attentions(
        &mut kept.known.waiting,
        label,
        &kept.set,
        code,
        &asks,
        &entry,
    );
    kept.set.start(c);
    Ok(true)
}

// An entry with which no command comes or starts.
fn take_later(
    alloc: Global,
    kept: &mut Kept,
    label: &Label,
    entry: &Entry,
) -> Result<bool, NoMemory>
    requires stands { (s : State) × Stands kept.old.known.capacity kept.old s }
    requires later { IsLater entry.now }
    ensures { IfOk result (λ may. Takes kept.old.known.capacity (λ s. entry_lawful kept.old.known.capacity label.now s entry.now) (λ s. entry_after kept.old.known.capacity label.now s entry.now) kept.old kept.new may) }
{
    match doer_of(label, entry) {
        Some(c) => take_deed(alloc, kept, label, c, entry),
        None => take_alone(alloc, kept, label, entry),
    }
}

// A deed of a command.
fn take_deed(
    alloc: Global,
    kept: &mut Kept,
    label: &Label,
    c: u32,
    entry: &Entry,
) -> Result<bool, NoMemory>
    requires stands { (s : State) × Stands kept.old.known.capacity kept.old s }
    requires doer { doer_of label.now entry.now ≡ Some c }
    ensures { IfOk result (λ may. Takes kept.old.known.capacity (λ s. entry_lawful kept.old.known.capacity label.now s entry.now) (λ s. entry_after kept.old.known.capacity label.now s entry.now) kept.old kept.new may) }
{
    if kept.set.member(c).is_none() {
        return Ok(false);
    }
    let dirty = kept.dirty.as_slice();
    if !work(alloc, &mut kept.duties, &kept.known, label, dirty, c, entry)? {
        return Ok(false);
    }
    settle(alloc, kept, label, entry)?;
    Ok(true)
}

// Whether an entry is what a command owes. It owes what is left where it is.
fn work(
    alloc: Global,
    duties: &mut BTreeMap<u32, Duty>,
    known: &Known,
    label: &Label,
    dirty: &[u64],
    c: u32,
    entry: &Entry,
) -> Result<bool, NoMemory>
    requires { known.now.capacity ≤ 4096 }
    ensures may { IfOk result (λ may. may ≡ is_some (option_and_then (λ duty. duty_done known.now label.now (marked_blocks dirty.now) (duty_kept known.now.capacity duty) entry.now) (get nat_cmp duties.old c))) }
    ensures after { IfOk result (λ may. IsTrue may → (q : ℕ) → option_map (duty_kept known.now.capacity) (get nat_cmp duties.new q)
        ≡ (if q == c then option_and_then (λ duty. duty_done known.now label.now (marked_blocks dirty.now) (duty_kept known.now.capacity duty) entry.now) (get nat_cmp duties.old c) else option_map (duty_kept known.now.capacity) (get nat_cmp duties.old q))) }
{
    match take(duties, c) {
        Some(duty) => match duty.done(alloc, known, label, dirty, entry)? {
            Some(left) => {
                keep(duties, c, left)?;
                Ok(true)
            }
            None => Ok(false),
        },
        None => Ok(false),
    }
}

// An entry of the drive on its own, of the power or of the time.
fn take_alone(
    alloc: Global,
    kept: &mut Kept,
    label: &Label,
    entry: &Entry,
) -> Result<bool, NoMemory>
    requires stands { (s : State) × Stands kept.old.known.capacity kept.old s }
    requires later { IsLater entry.now }
    requires alone { doer_of label.now entry.now ≡ None }
    ensures { IfOk result (λ may. Takes kept.old.known.capacity (λ s. entry_lawful kept.old.known.capacity label.now s entry.now) (λ s. entry_after kept.old.known.capacity label.now s entry.now) kept.old kept.new may) }
{
    if !comes_alone(entry, kept.known.capacity) {
        return Ok(false);
    }
    settle(alloc, kept, label, entry)?;
    Ok(true)
}

// Whether this entry comes from the drive on its own, and may.
fn comes_alone(entry: &Entry, capacity: u64) -> bool
    ensures { result ≡ comes_alone capacity entry.now }
{
    match entry {
        Entry::GiveUp { b } => b.0 < capacity,
        Entry::Logged { finding } => fits_a_byte(finding),
        Entry::PoweredOn { outcome } => may_come_out(outcome),
        Entry::Harden { who, .. } => *who == Who::Drive,
        Entry::Scanned { .. } | Entry::Cut | Entry::Tick { .. } => true,
        _ => false,
    }
}

// Whether the scan's log can take a finding.
fn fits_a_byte(finding: &Finding) -> bool
    ensures { result ≡ fits_a_byte finding.now }
{
    finding.status < 16 && finding.key < 16
}

// The command that an entry is a deed of, where a command may do that in a turn with this label.
fn doer_of(label: &Label, entry: &Entry) -> Option<u32>
    ensures { result ≡ doer_of label.now entry.now }
{
    match entry {
        Entry::Get { c, .. }
        | Entry::Passed { c, .. }
        | Entry::Page { c, .. }
        | Entry::Ended { c, .. } => where_allowed(works_on(label, *c), *c),
        Entry::Put { c, .. } => where_allowed(may_write_for(label, *c), *c),
        Entry::Harden {
            who: Who::Command(c),
            ..
        } => where_allowed(may_write_for(label, *c), *c),
        Entry::Mode { .. } => match label {
            Label::Work(c) => Some(*c),
            _ => None,
        },
        _ => None,
    }
}

fn where_allowed(may: bool, c: u32) -> Option<u32>
    ensures { result ≡ (if may then Some c else None) }
{
    if may { Some(c) } else { None }
}

fn works_on(label: &Label, c: u32) -> bool
    ensures { result ≡ works_on label.now c }
{
    match label {
        Label::Work(d) => *d == c,
        _ => false,
    }
}

// A turn of a move may also write for a command.
fn may_write_for(label: &Label, c: u32) -> bool
    ensures { result ≡ may_write_for label.now c }
{
    match label {
        Label::Job(_) => true,
        _ => works_on(label, c),
    }
}
