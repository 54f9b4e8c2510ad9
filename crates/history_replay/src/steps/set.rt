//! The commands that are in, after an entry.
ghost use Rattle.std.specs.Prelude.{◌≡◌, ◌<◌, if◌then◌else◌, All};
ghost use Rattle.cdb_reader.specs.Read.{read_of};
ghost use Rattle.task_set.specs.Members.{with_arrived, with_started, without};
ghost use Rattle.block_machine.specs.State.{is_full};
ghost use Rattle.block_machine.specs.Steps.{set_after, touch_asked};
ghost use Rattle.history_replay.specs.Arrival.{ComesLast, with_commands};

use block_machine::Entry;
use disk_base::{Cdb, DataOut};
use task_set::{Arrive, TASKS_MAX, Task, TaskSet, Touch};

/// The commands that are in after an entry, on a unit of so many blocks.
pub fn settle_set(set: &mut TaskSet, capacity: u64, entry: &Entry)
    requires { ComesLast set.old entry.now }
    ensures { set.new ≡ set_after capacity (with_commands 0 set.old) entry.now }
{
    match entry {
        Entry::Arrived {
            c,
            initiator,
            tag,
            attribute,
            cdb,
            sent,
        } => {
            let touch = touch_asked(cdb, sent, capacity);
            enter(
                set,
                Task {
                    c: *c,
                    initiator: *initiator,
                    tag: *tag,
                    attribute: *attribute,
                    touch,
                },
            );
        }
        Entry::Started { c } => start(set, *c),
        Entry::Ended { c, .. } | Entry::Aborted { c } => leave(set, *c),
        Entry::Cut => {
            let _ = set.clear();
        }
        _ => {}
    }
}

// The blocks that a command touches; one that is refused touches nothing.
fn touch_asked(cdb: &Cdb, sent: &DataOut, capacity: u64) -> Touch
    ensures { result ≡ touch_asked (read_of cdb.now sent.now capacity) }
{
    match cdb_reader::read(cdb, sent, capacity) {
        Ok(command) => cdb_reader::touch(&command),
        Err(_) => Touch::Nothing,
    }
}

// A command comes in where there is room.
fn enter(set: &mut TaskSet, task: Task)
    requires { All (λ m. m.task.c < task.c) set.old }
    ensures { set.new ≡ (if is_full (with_commands 0 set.old) then set.old else with_arrived set.old task) }
{
    if set.members().len() >= TASKS_MAX {
        return;
    }
    match set.arrive(task) {
        Arrive::Entered | Arrive::SetFull => {}
    }
}

#[tactic(auto, using(crate::proofs::Absent::absent_started))]
fn start(set: &mut TaskSet, c: u32)
    ensures { set.new ≡ with_started set.old c }
{
    match set.member(c) {
        Some(_) => set.start(c),
        None => {}
    }
}

#[tactic(auto, using(crate::proofs::Absent::absent_left))]
fn leave(set: &mut TaskSet, c: u32)
    ensures { set.new ≡ without set.old c }
{
    match set.member(c) {
        Some(_) => set.end(c),
        None => {}
    }
}
