//! What serves the commands of a drive.
ghost use Rattle.std.specs.Prelude.{◌≡◌, ◌+◌, ◌≤◌, [], OnOk, IfOk, vec_len, vec_capacity};
ghost use Rattle.drive_core.specs.Moves.{IsSameServer};

use crate::accepted::Accepted;
use block_machine::{Entry, Turn};
use disk_base::NoMemory;
use history_replay::Known;
use sector_store::Store;
use std::alloc::Global;
use task_set::TaskSet;

// A turn has at most so many operations that are not those of a commit.
const OPS_MAX: usize = 2;

/// What serves the commands of the drive (SAM-4, device server): its store, its task set, and what it knows.
#[derive(Drop)]
pub struct Server {
    pub store: Store,
    pub set: TaskSet,
    /// The commands of the set, with what is under way of each.
    pub commands: Vec<Accepted>,
    /// How many commands came.
    pub arrived: u32,
    pub known: Known,
}

/// Makes room for a turn, and gives the list for so many entries of it.
pub fn reserve(
    alloc: Global,
    server: &mut Server,
    turns: &mut Vec<Turn>,
    entries_max: usize,
) -> Result<Vec<Entry>, NoMemory>
    ensures same { IsSameServer server.old server.new }
    ensures turns { turns.new.items ≡ turns.old.items }
    ensures empty { IfOk result (λ entries. entries.items ≡ []) }
    ensures entry_room { IfOk result (λ entries. entries_max ≤ vec_capacity entries) }
    ensures ops_room { OnOk result (2 ≤ server.new.store.platter.room) }
    ensures command_room { OnOk result (vec_len server.new.commands + 1 ≤ vec_capacity server.new.commands) }
    ensures turn_room { OnOk result (vec_len turns.new + 1 ≤ vec_capacity turns.new) }
{
    server.store.reserve(OPS_MAX)?;
    server.commands.reserve(1)?;
    turns.reserve(1)?;
    let entries = Vec::with_capacity(alloc, entries_max)?;
    Ok(entries)
}
