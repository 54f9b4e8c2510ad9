use crate::Entries;
use disk_base::{Initiator, Items};
use platter_model::World;

/// What a turn of the drive was about.
#[derive(Clone, Copy, Debug, PartialEq, Eq)]
pub enum Label {
    /// A command or a task management function of this initiator arrived.
    Arrive(Initiator),
    /// Work on the command of this number.
    Work(u32),
    /// Work on the move of this number; moves are numbered from 1 by start.
    Job(u32),
    /// The background scan.
    Scan,
    /// The write of a dirty block on the drive's own account.
    Destage,
    /// Something done to the drive from outside.
    World(World),
}

/// One turn of the drive: its label, its entries, and the places of its operations among those that the platter did since
/// the factory, from `ops_from` to below `ops_to`.
#[derive(Debug, Drop)]
pub struct Turn {
    pub label: Label,
    pub ops_from: u64,
    pub ops_to: u64,
    pub entries: Entries,
}

/// The turns of a history, in order.
pub type Turns = Items<Turn>;
