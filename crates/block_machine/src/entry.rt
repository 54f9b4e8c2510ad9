use disk_base::{
    Attribute, Block, Bytes, Cdb, DataOut, Function, Initiator, Items, Lba, Tag, Value,
};
use mode_pages::Settings;
use scan_log::Finding;
use sense_data::Reply;

/// Who hardens a block: a command that is in, or the drive on its own.
#[derive(Clone, Copy, Debug, PartialEq, Eq)]
pub enum Who {
    Command(u32),
    Drive,
}

/// How the background scan left a block.
#[derive(Clone, Copy, Debug, PartialEq, Eq)]
pub enum Seen {
    /// It was dirty or held.
    Skipped,
    /// A stage other than a heavy one found it.
    Light,
    /// A heavy stage found it.
    Heavy,
    /// No stage found it.
    Unread,
}

/// What came of reading the map at power on.
#[derive(Clone, Copy, Debug, PartialEq, Eq)]
pub enum Recovered {
    /// The map has this number.
    Ready(u64),
    /// The map can't be read; this slot isn't complete.
    Corrupt(u8),
    /// The map has this number, and a format of the medium was cut off.
    Formatting(u64),
}

/// One thing that a turn did. Commands are numbered from 1 by arrival.
#[derive(Debug, Drop)]
pub enum Entry {
    /// A command came.
    Arrived {
        c: u32,
        initiator: Initiator,
        tag: Tag,
        attribute: Attribute,
        cdb: Cdb,
        sent: DataOut,
    },
    /// The first work turn of a command.
    Started {
        c: u32,
    },
    /// A command got the value of a block.
    Get {
        c: u32,
        b: Lba,
        value: Value,
    },
    /// A command wrote the data of a block.
    Put {
        c: u32,
        b: Lba,
        value: Block,
    },
    /// The newest value of a block came to the medium.
    Harden {
        who: Who,
        b: Lba,
    },
    /// A sync found that no block from one address to below another is dirty.
    Passed {
        c: u32,
        from: Lba,
        to: Lba,
    },
    /// The mark that a block is lost is to come to the medium.
    GiveUp {
        b: Lba,
    },
    /// A command gave these data, which are no block's.
    Page {
        c: u32,
        bytes: Bytes,
    },
    /// A command ended.
    Ended {
        c: u32,
        reply: Reply,
    },
    /// A task management function ended a command.
    Aborted {
        c: u32,
    },
    /// An initiator asked for a task management function.
    Asked {
        initiator: Initiator,
        what: Function,
    },
    /// A command changed the mode values to these.
    Mode {
        settings: Settings,
    },
    /// The background scan is done with a block.
    Scanned {
        b: Lba,
        what: Seen,
    },
    /// The background scan's log got a finding.
    Logged {
        finding: Finding,
    },
    /// The power went off.
    Cut,
    /// The power came on, and the map was read.
    PoweredOn {
        outcome: Recovered,
    },
    /// So many minutes passed.
    Tick {
        minutes: u16,
    },
    /// A format emptied the medium.
    Blank {
        c: u32,
    },
    /// A format filled the medium with zeros.
    Fresh {
        c: u32,
    },
}

/// The entries of a turn, in order.
pub type Entries = Items<Entry>;
