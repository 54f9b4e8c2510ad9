//! What is done to the drive from outside.
ghost use Rattle.std.specs.Prelude.{◌≡◌, ◌≤◌, [], None, vec_capacity};
ghost use Rattle.platter_model.specs.declared.world.World.TheVariants as world;
ghost use Rattle.block_machine.specs.declared.turn.Label.TheVariants as label;
ghost use Rattle.drive_scene.specs.Scene.{Scene};
ghost use Rattle.drive_core.specs.Fits.{Fits};
ghost use Rattle.drive_core.specs.Moves.{Moves};
ghost use Rattle.drive_core.specs.Making.{MayCome};
ghost use Rattle.drive_scene.specs.declared.event.Event.TheVariants as event;

use crate::server::Server;
use crate::standing::stands;
use block_machine::Entry;
use drive_scene::{damage_turns_are_good, still_turns_are_good};
use platter_model::{Damage, World};

/// Something happens from outside.
pub fn happen(server: &mut Server, w: &World, entries: &mut Vec<Entry>)
    requires may { (s : Scene) × MayCome s server.old (event.World w.now) }
    requires empty { entries.old.items ≡ [] }
    requires entry_room { 1 ≤ vec_capacity entries.old }
    requires room { 1 ≤ server.old.store.platter.room }
    ensures moves { (s : Scene) → MayCome s server.old (event.World w.now)
        → Moves (label.World w.now) s server.old server.new entries.new.items None }
{
    match w {
        World::Damage(d) => damage(server, *d),
        World::Minutes(n) => count_minutes(server, *n, entries),
        // Not served yet.
        World::Fault(_) | World::Cut | World::Arm { .. } | World::Power => unreachable!(),
    }
}

// Damage comes to a sector.
fn damage(server: &mut Server, d: Damage)
    requires may { (s : Scene) × MayCome s server.old (event.World (world.Damage d)) }
    requires room { 1 ≤ server.old.store.platter.room }
    ensures moves { (s : Scene) → Fits s server.old → Moves (label.World (world.Damage d)) s server.old server.new [] None }
{
    damage_turns_are_good();
    stands(&server.store);
    server.store.world(&World::Damage(d));
    stands(&server.store);
}

// Minutes pass. They are counted up to 4,294,967,295.
fn count_minutes(server: &mut Server, n: u16, entries: &mut Vec<Entry>)
    requires empty { entries.old.items ≡ [] }
    requires entry_room { 1 ≤ vec_capacity entries.old }
    ensures moves { (s : Scene) → Fits s server.old
        → Moves (label.World (world.Minutes n)) s server.old server.new entries.new.items None }
{
    still_turns_are_good();
    let minutes = &mut server.known.scan.minutes;
    *minutes = minutes.saturating_add(u32::from(n));
    entries.push_reserved(Entry::Tick { minutes: n });
}
