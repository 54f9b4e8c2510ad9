//! Commands and task management functions arrive.
ghost use Rattle.std.specs.Prelude.{◌≡◌, ◌+◌, ◌≤◌, ◌<◌, ◌^◌, [], false, Some, IsOk, IfOk, OnOk, OnErr, IsTrue, vec_len, vec_capacity};
ghost use Rattle.block_machine.specs.declared.turn.Label.TheVariants.{Arrive as ArriveOf};
ghost use Rattle.drive_scene.specs.Scene.{Scene};
ghost use Rattle.drive_core.specs.Moves.{Moves};
ghost use Rattle.drive_core.specs.Fits.{Fits};
ghost use Rattle.drive_core.specs.Served.{is_served_cdb};
ghost use Rattle.drive_scene.specs.Turning.{BeginsWith, entry_of};
ghost use Rattle.drive_core.specs.Making.{MayCome, IsTurnOf, entries_at_most, may_want_memory};
ghost use Rattle.drive_scene.specs.declared.event.Event.TheVariants as event;

use crate::accepted::Accepted;
use crate::asking::ask;
use crate::server::Server;
use crate::turning::MadeTurn;
use crate::{Arrival, Arriving, Ended};
use block_machine::{Entry, Label};
use disk_base::NoMemory;
use drive_scene::still_turns_are_good;
use history_replay::settle_set;
use sense_data::{Reply, TASK_SET_FULL};
use std::alloc::Global;
use task_set::TASKS_MAX;

/// The turn of an arrival.
pub fn arrive(
    alloc: Global,
    server: &mut Server,
    arrival: Arrival,
    entries: &mut Vec<Entry>,
) -> Result<MadeTurn, NoMemory>
    requires may { (s : Scene) × MayCome s server.old (event.Arrive arrival) }
    requires empty { entries.old.items ≡ [] }
    requires entry_room { entries_at_most (event.Arrive arrival) ≤ vec_capacity entries.old }
    requires command_room { vec_len server.old.commands + 1 ≤ vec_capacity server.old.commands }
    ensures moves { (s : Scene) → MayCome s server.old (event.Arrive arrival)
        → IfOk result (IsTurnOf s (event.Arrive arrival) server.old server.new entries.new.items) }
    ensures certain { may_want_memory server.old.commands.items (event.Arrive arrival) ≡ false → IsOk result }
    ensures err { OnErr result (server.new ≡ server.old) }
{
    match arrival {
        Arrival::Command(arriving) => {
            let initiator = arriving.initiator;
            let ended = enter(alloc, server, arriving, entries)?;
            Ok(MadeTurn {
                label: Label::Arrive(initiator),
                ended,
            })
        }
        Arrival::Function { initiator, what } => {
            ask(server, initiator, what, entries);
            Ok(MadeTurn {
                label: Label::Arrive(initiator),
                ended: None,
            })
        }
    }
}

// A command enters the task set, or ends with TASK SET FULL where as many are in as may be (SAM-4, status codes).
fn enter(
    alloc: Global,
    server: &mut Server,
    arriving: Arriving,
    entries: &mut Vec<Entry>,
) -> Result<Option<Ended>, NoMemory>
    requires fits { (s : Scene) × Fits s server.old }
    requires served { IsTrue (is_served_cdb arriving.cdb) }
    requires numbered { server.old.arrived + 1 < 2 ^ 32 }
    requires empty { entries.old.items ≡ [] }
    requires entry_room { 4 ≤ vec_capacity entries.old }
    requires command_room { vec_len server.old.commands + 1 ≤ vec_capacity server.old.commands }
    ensures moves { (s : Scene) → Fits s server.old → IfOk result (Moves (ArriveOf arriving.initiator) s server.old server.new entries.new.items) }
    ensures arrival { OnOk result (BeginsWith (Some (entry_of (server.old.arrived + 1) arriving)) entries.new.items) }
    ensures err { OnErr result (server.new ≡ server.old) }
{
    still_turns_are_good();
    let c = server.arrived + 1;
    let accepted = Accepted {
        c,
        cdb: arriving.cdb.copy(),
        sent: arriving.sent.copy(alloc)?,
        work: None,
    };
    let refused = Ended {
        initiator: arriving.initiator,
        tag: arriving.tag,
        status: TASK_SET_FULL,
    };
    let full = server.set.members().len() >= TASKS_MAX;
    let entry = entry_of(c, arriving);
    settle_set(&mut server.set, server.known.capacity, &entry);
    server.arrived = c;
    entries.push_reserved(entry);
    if full {
        entries.push_reserved(Entry::Ended {
            c,
            reply: Reply::task_set_full(),
        });
        return Ok(Some(refused));
    }
    server.commands.push_reserved(accepted);
    Ok(None)
}

// The entry of a command that arrives, by the number that it gets.
fn entry_of(c: u32, arriving: Arriving) -> Entry
    ensures { result ≡ entry_of c arriving }
{
    Entry::Arrived {
        c,
        initiator: arriving.initiator,
        tag: arriving.tag,
        attribute: arriving.attribute,
        cdb: arriving.cdb,
        sent: arriving.sent,
    }
}
