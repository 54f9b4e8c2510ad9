//! A sync passes over the clean blocks of its range, and hardens the dirty ones.
ghost use Rattle.std.specs.Prelude.{◌≡◌, ◌+◌, ◌≤◌, [], ◌++◌, vec_len, vec_capacity};
ghost use Rattle.write_cache.specs.Contents.{dirty_within};
ghost use Rattle.block_machine.specs.declared.turn.Label.TheVariants.{Work as WorkOn};
ghost use Rattle.drive_core.specs.Hardening.{passed_to};
ghost use Rattle.drive_core.specs.Moves.{Moves, MayWork};
ghost use Rattle.drive_scene.specs.Scene.{Scene};
ghost use Rattle.drive_core.specs.Syncing.{Needs};

use crate::Ended;
use crate::accepted::answer;
use crate::ending::conclude;
use crate::hardening::harden;
use crate::server::Server;
use block_machine::Entry;
use command_engine::{Answer, Need};
use disk_base::Lba;
use drive_scene::{halves_are_good, passes_are_halves};

/// One turn of a sync: it passes to the next dirty block and hardens that, or to the end of its range.
pub fn sync(
    server: &mut Server,
    c: u32,
    from: Lba,
    to: Lba,
    entries: &mut Vec<Entry>,
) -> Option<Ended>
    requires may { (s : Scene) × MayWork s server.old c }
    requires needs { Needs server.old.commands.items c (Need.Pass from to) }
    requires empty { entries.old.items ≡ [] }
    requires entry_room { 4 ≤ vec_capacity entries.old }
    requires ops_room { 2 ≤ server.old.store.platter.room }
    ensures moves { (s : Scene) → MayWork s server.old c → Moves (WorkOn c) s server.old server.new entries.new.items result }
{
    halves_are_good();
    passes_are_halves();
    match server.store.cached().next_dirty(from, to) {
        Some(b) => {
            pass(c, from, b, entries);
            harden(server, c, b, entries)
        }
        None => {
            // No block of the rest of the range is dirty: the sync ends.
            entries.push_reserved(Entry::Passed { c, from, to });
            let reply = answer(&mut server.commands, c, Answer::NextDirty(None));
            conclude(server, c, reply, entries)
        }
    }
}

// A sync passes over the blocks before a dirty one, where there are any.
fn pass(c: u32, from: Lba, to: Lba, entries: &mut Vec<Entry>)
    requires { vec_len entries.old + 1 ≤ vec_capacity entries.old }
    ensures items { entries.new.items ≡ entries.old.items ++ passed_to c from to }
    ensures capacity { vec_capacity entries.new ≡ vec_capacity entries.old }
{
    if from < to {
        entries.push_reserved(Entry::Passed { c, from, to });
    }
}
