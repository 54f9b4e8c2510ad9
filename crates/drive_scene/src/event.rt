use disk_base::{Attribute, Cdb, DataOut, Function, Initiator, Tag};
use platter_model::World;

/// A command that arrives, with its data.
#[derive(Debug, Drop)]
pub struct Arriving {
    pub initiator: Initiator,
    pub tag: Tag,
    pub attribute: Attribute,
    pub cdb: Cdb,
    pub sent: DataOut,
}

/// What arrives from an initiator.
#[derive(Debug, Drop)]
pub enum Arrival {
    Command(Arriving),
    Function {
        initiator: Initiator,
        what: Function,
    },
}

/// What a turn is about.
#[derive(Debug, Drop)]
pub enum Event {
    Arrive(Arrival),
    /// Work on the command of this number.
    Work(u32),
    /// Work on the move of this number.
    Job(u32),
    /// The turn that `pick` gives for this number while nothing waits outside.
    Any(u32),
    Scan,
    Destage,
    World(World),
}

/// Who holds a block from one turn to the next.
#[derive(Clone, Copy, Debug, PartialEq, Eq)]
pub enum Holder {
    Command(u32),
    Job(u32),
    Scan,
}
