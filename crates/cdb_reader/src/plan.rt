use disk_base::{Block, Bytes, DataOut, Items, Lba, Value};
use sense_data::Reply;

/// What a started command still owes its initiator, one deed after another.
#[derive(Debug, Drop)]
pub enum Plan {
    /// This reply alone.
    Ending(Reply),
    /// UNRECOVERED READ ERROR at this block.
    Unread(u64),
    /// These bytes, and then this reply.
    Answering(Bytes, Reply),
    /// New mode values, and then GOOD.
    Changing,
    Reading(Reading),
    Writing(Writing),
    Syncing(Syncing),
    Moving(Moving),
    /// Nothing any more.
    Over,
}

/// The blocks from `at` to below `end`, each once, ascending.
#[derive(Clone, Copy, Debug, PartialEq, Eq)]
pub struct Reading {
    pub at: u64,
    pub end: u64,
    /// A dirty block is hardened before it is read.
    pub through: bool,
    /// A recovery may be reported.
    pub reports: bool,
    /// The block at `at` was hardened.
    pub hardened: bool,
}

/// The blocks from `at` to below `end`, each put once, ascending.
#[derive(Debug, Drop)]
pub struct Writing {
    /// The first block that the command names.
    pub from: u64,
    pub at: u64,
    pub end: u64,
    /// The data of all its blocks.
    pub sent: DataOut,
    /// Each block is hardened as soon as it is put.
    pub through: bool,
    /// All blocks are read in the end, as a verification reads them.
    pub verifies: bool,
    /// A recovery in that may be reported.
    pub reports: bool,
    /// The block at `at` was put and is to be hardened.
    pub owes_harden: bool,
}

/// The blocks from `at` to below `end`, each hardened or found hardened, ascending.
#[derive(Clone, Copy, Debug, PartialEq, Eq)]
pub struct Syncing {
    pub at: u64,
    pub end: u64,
}

/// Blocks to be moved to spare sectors, in this order; the first ones are, up to the last that was hardened. A move of a
/// value that was found on the medium leaves no deed.
#[derive(Debug, Drop)]
pub struct Moving {
    pub blocks: Items<Lba>,
    pub hardened: u64,
}

/// One thing that a started command does, with what only the history knows of it.
#[derive(Debug, Drop)]
pub enum Deed {
    /// The data of a command that reads no block.
    Page(Bytes),
    /// Mode values change.
    Mode,
    /// A block's value is got. `dirty`: a newer value than the medium's is kept of it.
    Got { b: Lba, value: Value, dirty: bool },
    /// A block's new value is put. `full`: 64 other blocks were dirty when the command's last turn of work, this one
    /// included, began.
    Put { b: Lba, block: Block, full: bool },
    /// A block's newest value comes to the medium.
    Hardened(Lba),
    /// No block from one address to below another is dirty.
    Passed { from: Lba, to: Lba },
    /// The command ends. `dirty`: the block that its sense data name is dirty.
    Ended { reply: Reply, dirty: bool },
}
