//! A command takes the value of a block: from the cache, or by one stage a turn.
ghost use Rattle.std.specs.Prelude.{◌≡◌, ◌<◌, ◌≤◌, true, false, [], Some, None, IsSome, vec_capacity};
ghost use Rattle.std.specs.Option.{option_map};
ghost use Rattle.platter_model.specs.TrueLog.{is_off};
ghost use Rattle.geometry_map.specs.Size.{capacity_of};
ghost use Rattle.write_cache.specs.Contents.{newest};
ghost use Rattle.block_machine.specs.declared.turn.Label.TheVariants.{Work as WorkOn};
ghost use Rattle.drive_core.specs.Accepting.{under_way, errand_of};
ghost use Rattle.drive_core.specs.Moves.{Moves, MayWork};
ghost use Rattle.drive_scene.specs.Scene.{Scene};
ghost use Rattle.drive_core.specs.Taking.{search_for, IsTaken, value_got, errand_for, got_entries};
ghost use Rattle.sector_store.specs.Caching.{may_be_dirty};

use crate::ending::conclude;
use crate::hardening::harden;
use crate::server::Server;
use crate::standing::stands;
use crate::{Ended, accepted};
use block_machine::Entry;
use command_engine::{Answer, deeds_are_those_of_the_plan};
use disk_base::{Lba, Stage, Value};
use drive_scene::{gets_are_halves, halves_are_good, tries_are_halves};
use geometry_map::two_blocks_are_never_at_one_sector;
use mode_pages::Settings;
use sector_store::{Search, Store, TryAnswer};
use write_cache::keeping_changes_no_other;

/// The value that is to be taken.
#[derive(Clone, Copy, Debug)]
pub struct Sought {
    pub b: Lba,
    /// It is to come from the medium.
    pub medium: bool,
    pub stage: Stage,
    pub settings: Settings,
    /// The command gives it.
    pub gives: bool,
}

/// One turn of work on a block whose value a command takes. Where that is to come from the medium, a dirty block is hardened
/// first, in a turn of its own.
pub fn take_or_harden(
    server: &mut Server,
    c: u32,
    sought: Sought,
    entries: &mut Vec<Entry>,
) -> Option<Ended>
    requires may { (s : Scene) × MayWork s server.old c }
    requires errand { option_map errand_of (under_way server.old.commands.items c) ≡ Some (errand_for sought) }
    requires empty { entries.old.items ≡ [] }
    requires entry_room { 4 ≤ vec_capacity entries.old }
    requires ops_room { 2 ≤ server.old.store.platter.room }
    ensures moves { (s : Scene) → MayWork s server.old c → Moves (WorkOn c) s server.old server.new entries.new.items result }
{
    if hardens_first(&server.store, &sought) {
        harden(server, c, sought.b, entries)
    } else {
        take(server, c, sought, entries)
    }
}

// Whether the block is hardened first.
fn hardens_first(store: &Store, sought: &Sought) -> bool
    ensures hardens { result ≡ true → (sought.now.medium ≡ true) × IsSome (newest sought.now.b store.now.cache) }
    ensures takes { result ≡ false → sought.now.medium ≡ true → newest sought.now.b store.now.cache ≡ None }
{
    sought.medium && store.cached().is_dirty(sought.b)
}

// One turn of taking a block's value.
fn take(server: &mut Server, c: u32, sought: Sought, entries: &mut Vec<Entry>) -> Option<Ended>
    requires may { (s : Scene) × MayWork s server.old c }
    requires errand { option_map errand_of (under_way server.old.commands.items c) ≡ Some (errand_for sought) }
    // A dirty block is hardened first.
    requires clean { sought.medium ≡ true → newest sought.b server.old.store.cache ≡ None }
    requires empty { entries.old.items ≡ [] }
    requires entry_room { 4 ≤ vec_capacity entries.old }
    requires ops_room { 2 ≤ server.old.store.platter.room }
    ensures moves { (s : Scene) → MayWork s server.old c → Moves (WorkOn c) s server.old server.new entries.new.items result }
{
    two_blocks_are_never_at_one_sector();
    keeping_changes_no_other();
    deeds_are_those_of_the_plan();
    halves_are_good();
    tries_are_halves();
    gets_are_halves();
    server.store.cached().holds_each_once();
    let answer = seek(&mut server.store, &sought);
    stands(&server.store);
    let reply = accepted::answer(&mut server.commands, c, answer);
    note(c, sought.b, value_got(&answer, reply.is_some()), entries);
    conclude(server, c, reply, entries)
}

// The entry of a value that the command gets, where it gets one.
fn note(c: u32, b: Lba, value: Option<Value>, entries: &mut Vec<Entry>)
    requires empty { entries.old.items ≡ [] }
    requires room { 4 ≤ vec_capacity entries.old }
    ensures entries { entries.new.items ≡ got_entries c b value }
    ensures room { vec_capacity entries.new ≡ vec_capacity entries.old }
{
    match value {
        Some(value) => entries.push_reserved(Entry::Get { c, b, value }),
        None => {}
    }
}

// What a turn finds of the block: its value, or that the stage found nothing.
fn seek(store: &mut Store, sought: &Sought) -> Answer
    requires block { sought.now.b.0 < capacity_of store.old.map.size }
    requires room { 2 ≤ store.old.platter.room }
    requires on { is_off store.old.platter.ops ≡ false }
    requires undirty { may_be_dirty (search_for sought.now) ≡ false → newest sought.now.b store.old.cache ≡ None }
    ensures { IsTaken store.old sought.now result store.new }
{
    let search = Search {
        b: sought.b,
        medium: sought.medium,
        stage: sought.stage,
        rcd: sought.settings.rcd,
        keeps: sought.gives,
    };
    match store.seek(search) {
        TryAnswer::Found(value) => Answer::Got(value),
        TryAnswer::Nothing => Answer::Missed,
        TryAnswer::Off => unreachable!(),
    }
}

// The value that the command gets with an answer: it is lost where the last stage found nothing.
fn value_got(answer: &Answer, is_over: bool) -> Option<Value>
    ensures { result ≡ value_got answer.now is_over }
{
    match answer {
        Answer::Got(value) => Some(*value),
        Answer::Missed if is_over => Some(Value::Lost),
        _ => None,
    }
}
