//! The first turn of work on a command.
ghost use Rattle.std.specs.Prelude.{◌≡◌, ℕ, ◌+◌, ◌≤◌, ◌∷◌, [], ◌++◌, None, Some, IfOk, OnErr, IsTrue, slice_index, vec_len, vec_capacity};
ghost use Rattle.block_machine.specs.declared.turn.Label.TheVariants.{Work as WorkOn};
ghost use Rattle.block_machine.specs.Attentions.{after_mode_change};
ghost use Rattle.block_machine.specs.Plans.{plan_unless_refused};
ghost use Rattle.block_machine.specs.State.{initiator_of};
ghost use Rattle.block_machine.specs.Steps.{waiting_at_start};
ghost use Rattle.cdb_reader.specs.Read.{read_of};
ghost use Rattle.cdb_reader.specs.Request.{outcome_of};
ghost use Rattle.history_replay.specs.Known.{duty_of, state_of, with_set};
ghost use Rattle.history_replay.specs.Warning.{KnownWait};
ghost use Rattle.task_set.specs.Members.{IsIn};
ghost use Rattle.drive_core.specs.declared.accepted.Accepted.{Accepted as AcceptedCommand};
ghost use Rattle.drive_core.specs.Accepting.{accepted_of, under_way};
ghost use Rattle.drive_scene.specs.Evidence.{page_of};
ghost use Rattle.drive_scene.specs.Scene.{Scene};
ghost use Rattle.drive_core.specs.Moves.{Moves, MayWork};
ghost use Rattle.drive_core.specs.Starting.{IsFirst, IsFirstBy, IsSelected};
ghost use Rattle.drive_core.specs.Served.{is_served};

use crate::Ended;
use crate::accepted::{Accepted, begin, place, take_sent};
use crate::ending::conclude;
use crate::server::Server;
use block_machine::{Entry, Label};
use cdb_reader::{Command, Plan};
use command_engine::Work;
use defect_lists::{DefectReply, DefectRequest, defect_reply};
use disk_base::{Bytes, DataOut, NoMemory};
use drive_scene::still_turns_are_good;
use geometry_map::Map;
use history_replay::{Known, first_plan, read, settings_after, settings_made, settle_attentions};
use mode_pages::Settings;
use sense_data::codes::INVALID_OPERATION_CODE;
use sense_data::{Reply, Sense};
use std::alloc::Global;
use task_set::{Member, TaskSet};

/// A command starts. It ends at once where it is refused or there is no work on blocks, with the data that it gives.
pub fn start(
    alloc: Global,
    server: &mut Server,
    c: u32,
    entries: &mut Vec<Entry>,
) -> Result<Option<Ended>, NoMemory>
    requires may { (s : Scene) × MayWork s server.old c }
    requires waiting { under_way server.old.commands.items c ≡ None }
    requires empty { entries.old.items ≡ [] }
    requires entry_room { 4 ≤ vec_capacity entries.old }
    ensures moves { (s : Scene) → MayWork s server.old c → IfOk result (Moves (WorkOn c) s server.old server.new entries.new.items) }
    ensures err { OnErr result (server.new ≡ server.old) }
{
    still_turns_are_good();
    let first = first_of(alloc, server, c)?;
    entries.push_reserved(Entry::Started { c });
    tell(
        &mut server.known,
        &server.set,
        server.commands.as_slice(),
        c,
    );
    server.set.start(c);
    match first {
        First::Reply(reply) => Ok(conclude(server, c, Some(reply), entries)),
        First::Page { bytes, reply } => {
            entries.push_reserved(Entry::Page { c, bytes });
            Ok(conclude(server, c, Some(reply), entries))
        }
        First::Change(made) => {
            change(&mut server.known, &server.set, c, made, entries);
            Ok(conclude(server, c, Some(Reply::good()), entries))
        }
        First::Work(command) => {
            let sent = take_sent(&mut server.commands, c);
            begin(
                &mut server.commands,
                c,
                Work::new(command, sent, server.known.settings),
            );
            Ok(None)
        }
    }
}

/// What a command begins with.
#[derive(Debug, Drop)]
pub enum First {
    /// It ends with this at once.
    Reply(Reply),
    /// It gives these data, and ends with this at once.
    Page { bytes: Bytes, reply: Reply },
    /// It makes these the mode values, and ends GOOD at once.
    Change(Settings),
    /// Work on blocks.
    Work(Command),
}

// A command of the set starts, and takes the attention that it tells its initiator.
fn tell(known: &mut Known, set: &TaskSet, commands: &[Accepted], c: u32)
    requires is_in { IsIn set.now c }
    requires known { KnownWait known.old.waiting }
    ensures { (a : AcceptedCommand) → accepted_of commands.now c ≡ Some a
        → known.new ≡ record known.old {
          waiting = waiting_at_start known.old.waiting (initiator_of (with_set set.now) c)
              (duty_of (slice_index a.cdb 0) (read_of a.cdb a.sent known.old.capacity) a.sent);
        } }
{
    if let Some(i) = place(commands, c) {
        let accepted = &commands[i];
        let code = first_byte(accepted.cdb.bytes());
        let asks = read(&accepted.cdb, &accepted.sent, known.capacity);
        settle_attentions(
            &mut known.waiting,
            &Label::Work(c),
            set,
            code,
            &asks,
            &Entry::Started { c },
        );
    }
}

// A command of the set makes these the mode values, of which all other initiators are to be told.
fn change(known: &mut Known, set: &TaskSet, c: u32, made: Settings, entries: &mut Vec<Entry>)
    requires is_in { IsIn set.now c }
    requires known { KnownWait known.old.waiting }
    requires room { vec_len entries.old + 1 ≤ vec_capacity entries.old }
    ensures known { known.new ≡ record known.old {
      settings = made;
      waiting = after_mode_change (initiator_of (with_set set.now) c) known.old.waiting;
    } }
    ensures entries { entries.new.items ≡ entries.old.items ++ Entry.Mode made ∷ [] }
    ensures capacity { vec_capacity entries.new ≡ vec_capacity entries.old }
{
    let mode = Entry::Mode { settings: made };
    // No command starts.
    let none = Err(INVALID_OPERATION_CODE);
    settle_attentions(&mut known.waiting, &Label::Work(c), set, 0, &none, &mode);
    known.settings = settings_after(&known.settings, &mode);
    entries.push_reserved(mode);
}

// What a command of the set begins with.
fn first_of(alloc: Global, server: &Server, c: u32) -> Result<First, NoMemory>
    requires may { (s : Scene) × MayWork s server.now c }
    requires waiting { under_way server.now.commands.items c ≡ None }
    ensures { (s : Scene) → MayWork s server.now c → IfOk result (IsFirst s c) }
{
    match server.set.member(c) {
        Some(member) => match place(server.commands.as_slice(), c) {
            Some(i) => first_by(
                alloc,
                server.store.map(),
                &server.known,
                &member,
                &server.commands[i],
            ),
            None => unreachable!(),
        },
        None => unreachable!(),
    }
}

// By the first rule that applies.
fn first_by(
    alloc: Global,
    map: &Map,
    known: &Known,
    member: &Member,
    accepted: &Accepted,
) -> Result<First, NoMemory>
    requires some { 1 ≤ known.now.capacity }
    requires few { known.now.capacity ≤ 4096 }
    requires served { IsTrue (is_served (read_of accepted.now.cdb accepted.now.sent known.now.capacity)) }
    ensures { IfOk result (IsFirstBy map.now known.now member.now accepted.now) }
{
    let code = first_byte(accepted.cdb.bytes());
    let asks = read(&accepted.cdb, &accepted.sent, known.capacity);
    let plan = first_plan(
        alloc,
        known,
        member.task.initiator,
        code,
        &asks,
        &accepted.sent,
    )?;
    match (plan, asks) {
        (Plan::Ending(reply), _) => Ok(First::Reply(reply)),
        (Plan::Answering(planned, reply), asks) => {
            let bytes = page(alloc, map, &asks, planned)?;
            Ok(First::Page { bytes, reply })
        }
        (Plan::Changing, asks) => {
            let made = changed(alloc, known, &asks, &accepted.sent)?;
            Ok(First::Change(made))
        }
        (_, Ok(command)) => Ok(First::Work(command)),
        (_, Err(_)) => unreachable!(),
    }
}

// The data of a command whose plan has these: those of READ DEFECT DATA are the defects of the map.
fn page(
    alloc: Global,
    map: &Map,
    asks: &Result<Command, Sense>,
    planned: Bytes,
) -> Result<Bytes, NoMemory>
    ensures { IfOk result (λ bytes. bytes ≡ page_of map.now (outcome_of asks.now) planned) }
{
    match asks {
        Ok(
            Command::ReadDefectData {
                primary,
                grown,
                format,
                allocation,
            },
        ) => {
            let request = DefectRequest {
                primary: *primary,
                grown: *grown,
                format: *format,
                allocation: *allocation,
            };
            let DefectReply { bytes, .. } = defect_reply(alloc, map, &request)?;
            Ok(bytes)
        }
        _ => Ok(planned),
    }
}

// The mode values that a command makes whose plan is to change them.
fn changed(
    alloc: Global,
    known: &Known,
    asks: &Result<Command, Sense>,
    sent: &DataOut,
) -> Result<Settings, NoMemory>
    requires { (i : ℕ) × (plan_unless_refused known.now.capacity (state_of known.now) i sent.now (outcome_of asks.now) ≡ Plan.Changing) }
    ensures { IfOk result (IsSelected known.now.capacity known.now.settings (outcome_of asks.now) sent.now) }
{
    let Known {
        settings,
        capacity,
        ..
    } = known;
    match asks {
        Ok(Command::ModeSelect { ten, length }) => {
            match settings_made(alloc, settings, *capacity, *ten, *length, sent)? {
                Ok(made) => Ok(made),
                Err(_) => unreachable!(),
            }
        }
        _ => unreachable!(),
    }
}

fn first_byte(bytes: &[u8]) -> u8
    ensures { result ≡ slice_index bytes.now 0 }
{
    match bytes {
        [first, ..] => *first,
        [] => 0,
    }
}
