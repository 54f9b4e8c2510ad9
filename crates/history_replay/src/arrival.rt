//! Which turns of an arrival may come.
ghost use Rattle.std.specs.Prelude.{◌≡◌, ◌+◌, ◌==◌, filter};
ghost use Rattle.task_set.specs.Members.{is_named, numbers};
ghost use Rattle.cdb_reader.specs.Replies.{same_reply};
ghost use Rattle.block_machine.specs.Turns.{are_aborted, arrival_lawful, is_answered, named_by, task_set_full};
ghost use Rattle.history_replay.specs.Arrival.{aborts, with_commands};

use block_machine::Entry;
use disk_base::{Function, Initiator};
use sense_data::Reply;
use task_set::{Member, TASKS_MAX, TaskSet};

// TASK SET FULL (SAM-4, status codes).
const TASK_SET_FULL: u8 = 0x28;

/// Whether the turn of an initiator's arrival may have these entries, where so many commands came before it: the next
/// command, alone or with TASK SET FULL; or a task management function, and the commands that it names, by age.
pub fn arrival_may_come(set: &TaskSet, arrived: u32, i: Initiator, entries: &[Entry]) -> bool
    ensures { result ≡ arrival_lawful (with_commands arrived set.now) i entries.now }
{
    match entries {
        [Entry::Arrived { c, initiator, .. }, rest @ ..] => {
            *initiator == i
                && is_after(*c, arrived)
                && is_answered(set.members().len() >= TASKS_MAX, *c, rest)
        }
        [Entry::Asked { initiator, what }, rest @ ..] => {
            *initiator == i && are_all_aborted(set.members(), i, what, rest)
        }
        _ => false,
    }
}

// Whether this number comes next.
fn is_after(c: u32, arrived: u32) -> bool
    ensures { result ≡ (c == arrived + 1) }
{
    c > 0 && c - 1 == arrived
}

// Whether nothing else comes with a command for which there is room, and TASK SET FULL with any other.
fn is_answered(full: bool, c: u32, entries: &[Entry]) -> bool
    ensures { result ≡ is_answered full c entries.now }
{
    match entries {
        [] => !full,
        [Entry::Ended { c: d, reply }] => full && *d == c && is_task_set_full(reply),
        _ => false,
    }
}

fn is_task_set_full(reply: &Reply) -> bool
    ensures { result ≡ same_reply reply.now task_set_full }
{
    reply.status == TASK_SET_FULL && reply.sense.is_none()
}

// Whether the commands that a function of an initiator names end, by age, and nothing else comes.
#[tactic(auto, using(crate::proofs::Aborting::named_skip, crate::proofs::Aborting::named_more, crate::proofs::Aborting::named_other, crate::proofs::Aborting::named_missing, crate::proofs::Aborting::named_end))]
fn are_all_aborted(members: &[Member], i: Initiator, what: &Function, entries: &[Entry]) -> bool
    ensures { result ≡ are_aborted (numbers (filter (is_named (named_by i what.now)) members.now)) entries.now }
{
    let mut ended = 0;
    for member in members {
        if is_named(i, what, member) {
            if ended >= entries.len() || !aborts(member.task.c, &entries[ended]) {
                return false;
            }
            ended += 1;
        }
    }
    ended == entries.len()
}

fn aborts(c: u32, entry: &Entry) -> bool
    ensures { result ≡ aborts c entry.now }
{
    match entry {
        Entry::Aborted { c: d } => c == *d,
        _ => false,
    }
}

// Whether a function of an initiator names a command.
fn is_named(i: Initiator, what: &Function, member: &Member) -> bool
    ensures { result ≡ is_named (named_by i what.now) member.now }
{
    match what {
        Function::Abort(tag) => member.task.initiator == i && member.task.tag == *tag,
        Function::AbortSet => member.task.initiator == i,
        Function::Clear | Function::Reset => true,
    }
}
