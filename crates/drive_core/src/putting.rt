//! A command puts the new data of a block: into the cache, or to the block's place.
ghost use Rattle.std.specs.Prelude.{◌≡◌, ◌≤◌, [], IsSomeAnd, IsTrue, vec_capacity};
ghost use Rattle.block_machine.specs.declared.turn.Label.TheVariants.{Work as WorkOn};
ghost use Rattle.command_engine.specs.Course.{puts_next};
ghost use Rattle.command_engine.specs.declared.need.Need.{Need as Needed};
ghost use Rattle.drive_core.specs.Accepting.{under_way};
ghost use Rattle.drive_core.specs.Moves.{Moves, MayWork};
ghost use Rattle.drive_core.specs.Putting.{NeedsPut, GoesThrough};
ghost use Rattle.drive_scene.specs.Scene.{Scene};
ghost use Rattle.drive_core.specs.Syncing.{Needs};

use crate::accepted::{Accepted, place};
use crate::ending::conclude;
use crate::server::Server;
use crate::standing::stands;
use crate::storing::carried_out;
use crate::{Ended, accepted};
use block_machine::{Entry, Who};
use command_engine::{Answer, Need};
use disk_base::{Block, Lba};
use drive_scene::{halves_are_good, puts_are_halves, puts_through_are_halves};
use geometry_map::two_blocks_are_never_at_one_sector;
use write_cache::{Put, settling_ends_one_block};

/// The data of the block that a command puts next.
pub fn block_to_put(commands: &[Accepted], c: u32) -> Block
    requires { IsSomeAnd (under_way commands.now c) (λ w. IsTrue (puts_next w.plan)) }
    ensures { (needed : Needed) → Needs commands.now c needed → NeedsPut commands.now c needed result }
{
    match place(commands, c) {
        Some(i) => match &commands[i].work {
            Some(work) => {
                work.stands_by_its_plan();
                work.next_block()
            }
            None => unreachable!(),
        },
        None => unreachable!(),
    }
}

/// One turn of putting a block's new data into the cache, or to the block's place where the cache has no room for it.
pub fn put(
    server: &mut Server,
    c: u32,
    b: Lba,
    block: &Block,
    entries: &mut Vec<Entry>,
) -> Option<Ended>
    requires may { (s : Scene) × MayWork s server.old c }
    requires needs { NeedsPut server.old.commands.items c (Need.Put b) block.now }
    requires empty { entries.old.items ≡ [] }
    requires entry_room { 4 ≤ vec_capacity entries.old }
    requires ops_room { 2 ≤ server.old.store.platter.room }
    ensures moves { (s : Scene) → MayWork s server.old c → Moves (WorkOn c) s server.old server.new entries.new.items result }
{
    settling_ends_one_block();
    halves_are_good();
    puts_are_halves();
    match server.store.put(b, block) {
        Put::Kept => {
            entries.push_reserved(Entry::Put {
                c,
                b,
                value: *block,
            });
            let reply = accepted::answer(&mut server.commands, c, Answer::Put);
            conclude(server, c, reply, entries)
        }
        Put::Full => put_through(server, c, b, block, entries),
    }
}

/// One turn of putting a block's new data to the block's place.
pub fn put_through(
    server: &mut Server,
    c: u32,
    b: Lba,
    block: &Block,
    entries: &mut Vec<Entry>,
) -> Option<Ended>
    requires may { (s : Scene) × MayWork s server.old c }
    requires through { GoesThrough server.old c b block.now }
    requires empty { entries.old.items ≡ [] }
    requires entry_room { 4 ≤ vec_capacity entries.old }
    requires ops_room { 2 ≤ server.old.store.platter.room }
    ensures moves { (s : Scene) → MayWork s server.old c → Moves (WorkOn c) s server.old server.new entries.new.items result }
{
    two_blocks_are_never_at_one_sector();
    halves_are_good();
    puts_through_are_halves();
    carried_out(server.store.write_through(b, block));
    stands(&server.store);
    entries.push_reserved(Entry::Put {
        c,
        b,
        value: *block,
    });
    entries.push_reserved(Entry::Harden {
        who: Who::Command(c),
        b,
    });
    let reply = accepted::answer(&mut server.commands, c, Answer::Hardened);
    conclude(server, c, reply, entries)
}
