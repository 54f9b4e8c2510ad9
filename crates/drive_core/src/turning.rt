//! A turn by what it is about, and work on a command by what that needs.
ghost use Rattle.std.specs.Prelude.{◌≡◌, ◌+◌, ◌≤◌, [], false, Some, None, IsOk, IfOk, OnErr, vec_len, vec_capacity};
ghost use Rattle.std.specs.Option.{option_map, is_none};
ghost use Rattle.drive_core.specs.Accepting.{under_way, errand_of};
ghost use Rattle.drive_scene.specs.Scene.{Scene};
ghost use Rattle.drive_core.specs.Moves.{Moves, MayWork};
ghost use Rattle.drive_core.specs.Making.{MayCome, IsTurnOf, entries_at_most, may_want_memory};
ghost use Rattle.block_machine.specs.declared.turn.Label.TheVariants.{Work as WorkOn};

use crate::accepted::{Errand, errand_at};
use crate::arriving::arrive;
use crate::destaging::destage;
use crate::putting::{block_to_put, put, put_through};
use crate::server::Server;
use crate::starting::start;
use crate::syncing::sync;
use crate::taking::{Sought, take_or_harden};
use crate::worldly::happen;
use crate::{Arrival, Ended, Event, able};
use block_machine::{Entry, Label};
use command_engine::Need;
use disk_base::NoMemory;
use std::alloc::Global;
use task_set::TASKS_MAX;

// Most turns have at most so many entries.
const ENTRIES_MAX: usize = 4;

// A task management function has an entry, and one for each command of the task set.
const FUNCTION_ENTRIES_MAX: usize = 1 + TASKS_MAX;

/// At most so many entries has the turn of an event.
pub fn entries_at_most(event: &Event) -> usize
    ensures { result ≡ entries_at_most event.now }
{
    match event {
        Event::Arrive(Arrival::Function { .. }) => FUNCTION_ENTRIES_MAX,
        _ => ENTRIES_MAX,
    }
}

/// A turn that was made.
#[derive(Clone, Copy, Debug)]
pub struct MadeTurn {
    pub label: Label,
    pub ended: Option<Ended>,
}

/// Makes the turn of an event that isn't refused.
pub fn make_turn(
    alloc: Global,
    server: &mut Server,
    event: Event,
    entries: &mut Vec<Entry>,
) -> Result<MadeTurn, NoMemory>
    requires may { (s : Scene) × MayCome s server.old event }
    requires empty { entries.old.items ≡ [] }
    requires entry_room { entries_at_most event ≤ vec_capacity entries.old }
    requires ops_room { 2 ≤ server.old.store.platter.room }
    requires command_room { vec_len server.old.commands + 1 ≤ vec_capacity server.old.commands }
    ensures moves { (s : Scene) → MayCome s server.old event → IfOk result (IsTurnOf s event server.old server.new entries.new.items) }
    // Only a command that comes or starts asks for more memory than was reserved.
    ensures certain { may_want_memory server.old.commands.items event ≡ false → IsOk result }
    ensures err { OnErr result (server.new ≡ server.old) }
{
    match event {
        Event::Arrive(arrival) => arrive(alloc, server, arrival, entries),
        Event::Work(c) => make_work_turn(alloc, server, c, entries),
        Event::Any(x) => match able::any(server, x) {
            Some(c) => make_work_turn(alloc, server, c, entries),
            None => unreachable!(),
        },
        Event::World(w) => {
            happen(server, &w, entries);
            Ok(MadeTurn {
                label: Label::World(w),
                ended: None,
            })
        }
        Event::Destage => {
            destage(server, entries);
            Ok(MadeTurn {
                label: Label::Destage,
                ended: None,
            })
        }
        Event::Job(_) | Event::Scan => unreachable!(),
    }
}

// The turn of work on a command.
fn make_work_turn(
    alloc: Global,
    server: &mut Server,
    c: u32,
    entries: &mut Vec<Entry>,
) -> Result<MadeTurn, NoMemory>
    requires may { (s : Scene) × MayWork s server.old c }
    requires empty { entries.old.items ≡ [] }
    requires entry_room { 4 ≤ vec_capacity entries.old }
    requires ops_room { 2 ≤ server.old.store.platter.room }
    ensures label { IfOk result (λ made. made.label ≡ WorkOn c) }
    ensures moves { (s : Scene) → MayWork s server.old c → IfOk result (λ made. Moves (WorkOn c) s server.old server.new entries.new.items made.ended) }
    ensures certain { is_none (under_way server.old.commands.items c) ≡ false → IsOk result }
    ensures err { OnErr result (server.new ≡ server.old) }
{
    let ended = work(alloc, server, c, entries)?;
    Ok(MadeTurn {
        label: Label::Work(c),
        ended,
    })
}

// One turn of work on a command: it starts, or goes on.
fn work(
    alloc: Global,
    server: &mut Server,
    c: u32,
    entries: &mut Vec<Entry>,
) -> Result<Option<Ended>, NoMemory>
    requires may { (s : Scene) × MayWork s server.old c }
    requires empty { entries.old.items ≡ [] }
    requires entry_room { 4 ≤ vec_capacity entries.old }
    requires ops_room { 2 ≤ server.old.store.platter.room }
    ensures moves { (s : Scene) → MayWork s server.old c → IfOk result (Moves (WorkOn c) s server.old server.new entries.new.items) }
    ensures certain { is_none (under_way server.old.commands.items c) ≡ false → IsOk result }
    ensures err { OnErr result (server.new ≡ server.old) }
{
    match errand_at(server.commands.as_slice(), c) {
        Some(errand) => Ok(go_on(server, c, errand, entries)),
        None => start(alloc, server, c, entries),
    }
}

// A started command goes on by what it needs.
fn go_on(server: &mut Server, c: u32, errand: Errand, entries: &mut Vec<Entry>) -> Option<Ended>
    requires may { (s : Scene) × MayWork s server.old c }
    requires errand { option_map errand_of (under_way server.old.commands.items c) ≡ Some errand }
    requires empty { entries.old.items ≡ [] }
    requires entry_room { 4 ≤ vec_capacity entries.old }
    requires ops_room { 2 ≤ server.old.store.platter.room }
    ensures moves { (s : Scene) → MayWork s server.old c → Moves (WorkOn c) s server.old server.new entries.new.items result }
{
    let Errand {
        need,
        settings,
        gives,
    } = errand;
    match need {
        Need::Take { b, medium, stage } => {
            let sought = Sought {
                b,
                medium,
                stage,
                settings,
                gives,
            };
            take_or_harden(server, c, sought, entries)
        }
        Need::Put { b } => {
            let block = block_to_put(server.commands.as_slice(), c);
            put(server, c, b, &block, entries)
        }
        Need::PutThrough { b } => {
            let block = block_to_put(server.commands.as_slice(), c);
            put_through(server, c, b, &block, entries)
        }
        Need::Pass { from, to } => sync(server, c, from, to, entries),
        // Never while a command is under way: it hardens a block in the turn that meets it. Blocks aren't reassigned yet.
        Need::Harden { .. } | Need::Move { .. } | Need::Page | Need::Nothing => unreachable!(),
    }
}
