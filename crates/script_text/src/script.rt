use arrayvec::ArrayVec;
use disk_base::{Attribute, Cdb, DataOut, Function, Initiator, Items, Psn, Tag};
use geometry_map::Size;
use platter_model::World;

/// The most primary defects that a script may name.
pub const PRIMARY_MAX: usize = 128;

/// One line of a script's body.
#[derive(Debug, Drop)]
pub enum Line {
    /// An initiator sends a command.
    Command {
        initiator: Initiator,
        tag: Tag,
        attribute: Attribute,
        cdb: Cdb,
        sent: DataOut,
    },
    /// An initiator asks for a task management function.
    Function {
        initiator: Initiator,
        what: Function,
    },
    /// So many blocks are scanned in the background of this phase.
    Scan {
        count: u32,
    },
    /// So many turns write out the cache in the background of this phase.
    Destage {
        count: u32,
    },
    /// What waits is carried out.
    Go,
    /// What happens to the platter, the power or the time.
    World {
        world: World,
    },
}

/// The lines of a script's body, in order.
pub type Lines = Items<Line>;

/// What a script asks for. Where something waits at its end, the last line is `Go`, given or implied.
#[derive(Debug, Drop)]
pub struct Script {
    /// The measures of the drive; nothing stands for those of the default drive.
    pub size: Option<Size>,
    /// The defects of the factory, ascending.
    pub primary: ArrayVec<Psn, PRIMARY_MAX>,
    pub lines: Lines,
}
