//! Dirty blocks go to their places.
ghost use Rattle.std.specs.Prelude.{◌≡◌, ◌+◌, ◌≤◌, ◌&&◌, Some, IsSomeAnd, IsTrue, vec_len, vec_capacity};
ghost use Rattle.write_cache.specs.Contents.{newest};
ghost use Rattle.command_engine.specs.Answers.{fits};
ghost use Rattle.command_engine.specs.Course.{Course};
ghost use Rattle.command_engine.specs.Ending.{ending_of};
ghost use Rattle.block_machine.specs.declared.turn.Label.TheVariants.{Work as WorkOn};
ghost use Rattle.drive_core.specs.Accepting.{accepted_of, under_way, Replaces};
ghost use Rattle.drive_core.specs.Hardening.{MayHardenFor, hardened_at};
ghost use Rattle.drive_core.specs.Served.{is_served_plan};
ghost use Rattle.drive_core.specs.Moves.{Moves};
ghost use Rattle.drive_scene.specs.Scene.{Scene};
ghost use Rattle.drive_core.specs.declared.accepted.Accepted.{Accepted as Command};

use crate::Ended;
use crate::accepted::{Accepted, answer};
use crate::ending::conclude;
use crate::server::Server;
use crate::standing::stands;
use crate::storing::carried_out;
use block_machine::{Entry, Who};
use command_engine::Answer;
use disk_base::Lba;
use drive_scene::{halves_are_good, hardens_are_halves, passes_to_harden_are_halves};
use geometry_map::two_blocks_are_never_at_one_sector;
use sense_data::Reply;

/// The block that a command needs is dirty: it goes to its place, which ends the turn.
pub fn harden(server: &mut Server, c: u32, b: Lba, entries: &mut Vec<Entry>) -> Option<Ended>
    requires may { (s : Scene) × MayHardenFor s server.old c b entries.old.items }
    requires entry_room { vec_len entries.old + 2 ≤ vec_capacity entries.old }
    requires ops_room { 2 ≤ server.old.store.platter.room }
    ensures moves { (s : Scene) → MayHardenFor s server.old c b entries.old.items → Moves (WorkOn c) s server.old server.new entries.new.items result }
{
    two_blocks_are_never_at_one_sector();
    halves_are_good();
    hardens_are_halves();
    passes_to_harden_are_halves();
    carried_out(server.store.write_dirty(b));
    stands(&server.store);
    entries.push_reserved(Entry::Harden {
        who: Who::Command(c),
        b,
    });
    let reply = hardened(&mut server.commands, c, b);
    conclude(server, c, reply, entries)
}

// A command meets a block dirty, and then the block is hardened.
fn hardened(commands: &mut Vec<Accepted>, c: u32, b: Lba) -> Option<Reply>
    requires { IsSomeAnd (under_way commands.old.items c) (λ w. IsTrue (is_served_plan w.plan && fits w (Answer.NextDirty (Some b)))) }
    ensures reply { (w : Course) → under_way commands.old.items c ≡ Some w → result ≡ ending_of (hardened_at b w) }
    ensures goes { (a : Command) (w : Course) → accepted_of commands.old.items c ≡ Some a → a.work ≡ Some w
        → Replaces commands.old.items commands.new.items c (record a { work = Some (hardened_at b w) }) }
{
    let _ = answer(commands, c, Answer::NextDirty(Some(b)));
    answer(commands, c, Answer::Hardened)
}
