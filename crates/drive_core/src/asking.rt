//! Task management functions.
ghost use Rattle.std.specs.Prelude.{◌≡◌, ◌+◌, ◌≤◌, [], ◌++◌, map, filter, not, length, Some, None, vec_len, vec_capacity};
ghost use Rattle.task_set.specs.Members.{is_named, numbers};
ghost use Rattle.block_machine.specs.declared.entry.Entry.TheVariants.{Asked as AskedFor, Aborted as AbortedOne};
ghost use Rattle.block_machine.specs.declared.turn.Label.TheVariants.{Arrive as ArriveOf};
ghost use Rattle.block_machine.specs.Turns.{named_by};
ghost use Rattle.drive_scene.specs.Scene.{Scene};
ghost use Rattle.drive_core.specs.Moves.{Moves};
ghost use Rattle.drive_core.specs.Fits.{Fits};
ghost use Rattle.drive_scene.specs.Turning.{BeginsWith};

use crate::accepted::leave_with_set;
use crate::server::Server;
use crate::standing::stands_by_age;
use block_machine::{Entry, Label};
use disk_base::{Function, Initiator};
use drive_scene::still_turns_are_good;
use history_replay::{settings_after, settle_attentions};
use sense_data::codes::INVALID_OPERATION_CODE;
use task_set::{Gone, TaskSet};

/// An initiator asks for a task management function. The commands that it names end without a status, what they put stays
/// in the cache, and what they held is free.
pub fn ask(server: &mut Server, initiator: Initiator, what: Function, entries: &mut Vec<Entry>)
    requires fits { (s : Scene) × Fits s server.old }
    requires empty { entries.old.items ≡ [] }
    requires entry_room { 65 ≤ vec_capacity entries.old }
    ensures moves { (s : Scene) → Fits s server.old → Moves (ArriveOf initiator) s server.old server.new entries.new.items None }
    ensures asked { BeginsWith (Some (AskedFor initiator what)) entries.new.items }
{
    still_turns_are_good();
    let asked = Entry::Asked { initiator, what };
    let label = Label::Arrive(initiator);
    // No command starts.
    let none = Err(INVALID_OPERATION_CODE);
    settle_attentions(
        &mut server.known.waiting,
        &label,
        &server.set,
        0,
        &none,
        &asked,
    );
    server.known.settings = settings_after(&server.known.settings, &asked);
    entries.push_reserved(asked);
    stands_by_age(&server.set);
    let gone = take_out(&mut server.set, initiator, &what);
    leave_with_set(&mut server.commands, &server.set);
    tell_aborted(gone.as_slice(), entries);
}

// Takes the commands out of the set that a function of an initiator names, and gives their numbers, by age.
fn take_out(set: &mut TaskSet, initiator: Initiator, what: &Function) -> Gone
    ensures gone { result.items ≡ numbers (filter (is_named (named_by initiator what.now)) set.old) }
    ensures left { set.new ≡ filter (λ m. not (is_named (named_by initiator what.now) m)) set.old }
{
    match what {
        Function::Abort(tag) => set.abort(initiator, *tag),
        Function::AbortSet => set.abort_set(initiator),
        Function::Clear => set.clear(),
        Function::Reset => set.clear(),
    }
}

// The entries of commands that a function ended.
fn tell_aborted(gone: &[u32], entries: &mut Vec<Entry>)
    requires room { vec_len entries.old + length gone.now ≤ vec_capacity entries.old }
    ensures { entries.new.items ≡ entries.old.items ++ map AbortedOne gone.now }
{
    for c in gone {
        entries.push_reserved(Entry::Aborted { c: *c });
    }
}
