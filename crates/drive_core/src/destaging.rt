//! The drive writes dirty blocks to their places on its own.
ghost use Rattle.std.specs.Prelude.{◌≡◌, ◌≤◌, [], Some, None, vec_capacity};
ghost use Rattle.block_machine.specs.declared.turn.Label.TheVariants as label;
ghost use Rattle.drive_scene.specs.declared.event.Event.TheVariants as event;
ghost use Rattle.drive_scene.specs.Scene.{Scene};
ghost use Rattle.drive_core.specs.Making.{MayCome};
ghost use Rattle.drive_core.specs.Moves.{Moves};
ghost use Rattle.drive_core.specs.Destaging.{MayWriteOut};

use crate::able::destaged;
use crate::server::Server;
use crate::standing::stands;
use crate::storing::carried_out;
use block_machine::{Entry, Who};
use disk_base::Lba;
use drive_scene::destages_are_good;
use geometry_map::two_blocks_are_never_at_one_sector;

/// One destage: the oldest dirty block that nobody holds goes to its place.
pub fn destage(server: &mut Server, entries: &mut Vec<Entry>)
    requires may { (s : Scene) × MayCome s server.old event.Destage }
    requires empty { entries.old.items ≡ [] }
    requires entry_room { 1 ≤ vec_capacity entries.old }
    requires ops_room { 2 ≤ server.old.store.platter.room }
    ensures moves { (s : Scene) → MayCome s server.old event.Destage → Moves label.Destage s server.old server.new entries.new.items None }
{
    match destaged(server) {
        Some(b) => write_out(server, b, entries),
        None => unreachable!(),
    }
}

// The block that is to be destaged goes to its place.
fn write_out(server: &mut Server, b: Lba, entries: &mut Vec<Entry>)
    requires may { (s : Scene) × MayWriteOut s server.old b }
    requires empty { entries.old.items ≡ [] }
    requires entry_room { 1 ≤ vec_capacity entries.old }
    requires ops_room { 2 ≤ server.old.store.platter.room }
    ensures moves { (s : Scene) → MayWriteOut s server.old b → Moves label.Destage s server.old server.new entries.new.items None }
{
    two_blocks_are_never_at_one_sector();
    destages_are_good();
    carried_out(server.store.write_dirty(b));
    stands(&server.store);
    entries.push_reserved(Entry::Harden { who: Who::Drive, b });
}
