//! One turn: whether it may come, and what is kept after it.
ghost use Rattle.std.specs.Prelude.{◌≡◌, ◌&&◌, ◌==◌, ℕ, not, Some, IfOk, IsTrue, OnOk, All, if◌then◌else◌};
ghost use Rattle.std.specs.Option.{option_map};
ghost use Rattle.std.specs.Ordering.{nat_cmp};
ghost use Rattle.std.specs.BTreeMap.{get};
ghost use Rattle.block_machine.specs.State.{State, is_full};
ghost use Rattle.block_machine.specs.Steps.{begun, entries_after, entry_after};
ghost use Rattle.block_machine.specs.Turns.{arrival_lawful, is_settled, tasks_lawful, turn_after, work_lawful};
ghost use Rattle.history_replay.specs.Kept.{BeginsArrival, IsNoArrival, IsOfArrival, Stands, Takes, all_lawful, duty_arrived, duty_kept};
ghost use Rattle.history_replay.specs.Arrival.{with_commands};

use crate::arrival::arrival_may_come;
use crate::duty::Duty;
use crate::effects::starts_alone;
use crate::entry::take_entry;
use crate::kept::{Kept, keep, settle, take};
use crate::steps::settle_set;
use crate::tasks::owes_nothing_now;
use block_machine::{Entry, Label, Turn};
use disk_base::{Cdb, DataOut, Initiator, NoMemory};
use std::alloc::Global;
use std::collections::BTreeMap;
use task_set::{TASKS_MAX, TaskSet};

/// Whether a turn may come. What is kept is as after it where it may.
pub fn take_turn(alloc: Global, kept: &mut Kept, turn: &Turn) -> Result<bool, NoMemory>
    requires { (s : State) × Stands kept.old.known.capacity kept.old s }
    ensures { IfOk result (λ may. Takes kept.old.known.capacity (λ s. tasks_lawful kept.old.known.capacity s turn.now) (λ s. turn_after kept.old.known.capacity s turn.now) kept.old kept.new may) }
{
    let entries = turn.entries.as_slice();
    match &turn.label {
        Label::Arrive(i) => take_arrival(alloc, kept, *i, entries),
        Label::Work(_) | Label::Job(_) | Label::Scan | Label::Destage | Label::World(_) => {
            take_work(alloc, kept, &turn.label, entries)
        }
    }
}

// A turn that isn't an arrival.
fn take_work(
    alloc: Global,
    kept: &mut Kept,
    label: &Label,
    entries: &[Entry],
) -> Result<bool, NoMemory>
    requires stands { (s : State) × Stands kept.old.known.capacity kept.old s }
    requires work { IsNoArrival label.now }
    ensures { IfOk result (λ may. Takes kept.old.known.capacity (λ s. work_lawful kept.old.known.capacity label.now (begun s label.now) entries.now)
        (λ s. entries_after kept.old.known.capacity label.now (begun s label.now) entries.now) kept.old kept.new may) }
{
    if !starts_alone(entries) {
        return Ok(false);
    }
    begin(alloc, kept, label)?;
    if !take_entries(alloc, kept, label, entries)? {
        return Ok(false);
    }
    Ok(is_settled(kept, label))
}

// A turn begins: work on a command finds these blocks dirty.
fn begin(alloc: Global, kept: &mut Kept, label: &Label) -> Result<(), NoMemory>
    ensures capacity { kept.new.known.capacity ≡ kept.old.known.capacity }
    ensures stands { OnOk result ((s : State) → Stands kept.old.known.capacity kept.old s → Stands kept.old.known.capacity kept.new (begun s label.now)) }
{
    if let Label::Work(c) = label {
        if let Some(duty) = take(&mut kept.duties, *c) {
            let dirty_then = Vec::from_slice(alloc, kept.dirty.as_slice())?;
            keep(&mut kept.duties, *c, duty.finding(dirty_then))?;
        }
    }
    Ok(())
}

// Entries one after another.
fn take_entries(
    alloc: Global,
    kept: &mut Kept,
    label: &Label,
    entries: &[Entry],
) -> Result<bool, NoMemory>
    requires { (s : State) × Stands kept.old.known.capacity kept.old s }
    ensures capacity { IfOk result (λ may. IsTrue may → kept.new.known.capacity ≡ kept.old.known.capacity) }
    ensures takes { IfOk result (λ may. Takes kept.old.known.capacity (λ s. all_lawful kept.old.known.capacity label.now s entries.now) (λ s. entries_after kept.old.known.capacity label.now s entries.now) kept.old kept.new may) }
{
    for entry in entries {
        if !take_entry(alloc, kept, label, entry)? {
            return Ok(false);
        }
    }
    Ok(true)
}

// The command at work, where it is still in, owes nothing that has to come in this turn.
fn is_settled(kept: &Kept, label: &Label) -> bool
    ensures { (s : State) → Stands kept.now.known.capacity kept.now s → result ≡ is_settled label.now s }
{
    match label {
        Label::Work(c) => match kept.set.member(*c) {
            Some(_) => match kept.duties.get(c) {
                Some(duty) => owes_nothing_now(&duty.owes),
                None => true,
            },
            None => true,
        },
        _ => true,
    }
}

// A command comes, or an initiator asks for a task management function.
fn take_arrival(
    alloc: Global,
    kept: &mut Kept,
    i: Initiator,
    entries: &[Entry],
) -> Result<bool, NoMemory>
    requires { (s : State) × Stands kept.old.known.capacity kept.old s }
    ensures { IfOk result (λ may. Takes kept.old.known.capacity (λ s. arrival_lawful s i entries.now)
        (λ s. entries_after kept.old.known.capacity (Label.Arrive i) s entries.now) kept.old kept.new may) }
{
    if !arrival_may_come(&kept.set, kept.arrived, i, entries) {
        return Ok(false);
    }
    match entries {
        [first, rest @ ..] => {
            let label = Label::Arrive(i);
            arrive(alloc, kept, &label, first)?;
            take_ends(alloc, kept, &label, rest)?;
            Ok(true)
        }
        [] => Ok(false),
    }
}

// What comes first in the turn of an arrival.
fn arrive(alloc: Global, kept: &mut Kept, label: &Label, first: &Entry) -> Result<(), NoMemory>
    requires stands { (s : State) × Stands kept.old.known.capacity kept.old s }
    requires begins { BeginsArrival kept.old.arrived first.now }
    ensures capacity { OnOk result (kept.new.known.capacity ≡ kept.old.known.capacity) }
    ensures stands { OnOk result ((s : State) → Stands kept.old.known.capacity kept.old s → Stands kept.old.known.capacity kept.new (entry_after kept.old.known.capacity label.now s first.now)) }
{
    match first {
        Entry::Arrived { c, cdb, sent, .. } => {
            admit(alloc, &mut kept.duties, &kept.set, *c, cdb, sent)?;
            settle_set(&mut kept.set, kept.known.capacity, first);
            kept.arrived = *c;
            Ok(())
        }
        _ => settle_arrival(alloc, kept, label, first),
    }
}

// A command that comes is kept where there is room for it.
fn admit(
    alloc: Global,
    duties: &mut BTreeMap<u32, Duty>,
    set: &TaskSet,
    c: u32,
    cdb: &Cdb,
    sent: &DataOut,
) -> Result<(), NoMemory>
    ensures { OnOk result ((capacity q : ℕ) → option_map (duty_kept capacity) (get nat_cmp duties.new q)
        ≡ (if not (is_full (with_commands 0 set.now)) && q == c then Some (duty_arrived capacity cdb.now sent.now) else option_map (duty_kept capacity) (get nat_cmp duties.old q))) }
{
    if set.members().len() >= TASKS_MAX {
        return Ok(());
    }
    let duty = Duty::new(alloc, cdb, sent)?;
    keep(duties, c, duty)
}

// Commands that end in the turn of an arrival: one for which there is no room, or those that a function names.
fn take_ends(alloc: Global, kept: &mut Kept, label: &Label, ends: &[Entry]) -> Result<(), NoMemory>
    requires stands { (s : State) × Stands kept.old.known.capacity kept.old s }
    requires arrival { All IsOfArrival ends.now }
    ensures { OnOk result ((s : State) → Stands kept.old.known.capacity kept.old s → Stands kept.old.known.capacity kept.new (entries_after kept.old.known.capacity label.now s ends.now)) }
{
    for end in ends {
        settle_arrival(alloc, kept, label, end)?;
    }
    Ok(())
}

// An entry of the turn of an arrival other than that a command comes.
fn settle_arrival(
    alloc: Global,
    kept: &mut Kept,
    label: &Label,
    entry: &Entry,
) -> Result<(), NoMemory>
    requires stands { (s : State) × Stands kept.old.known.capacity kept.old s }
    requires arrival { IsOfArrival entry.now }
    ensures capacity { OnOk result (kept.new.known.capacity ≡ kept.old.known.capacity) }
    ensures stands { OnOk result ((s : State) → Stands kept.old.known.capacity kept.old s → Stands kept.old.known.capacity kept.new (entry_after kept.old.known.capacity label.now s entry.now)) }
{
    settle(alloc, kept, label, entry)?;
    Ok(())
}
