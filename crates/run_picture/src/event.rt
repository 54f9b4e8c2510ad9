//! What entries are in a picture.
ghost use Rattle.std.specs.Prelude.{◌≡◌};
ghost use Rattle.run_picture.specs.Events.{event_of, event_of_get};

use block_machine::{Entry, Label, Who};
use disk_base::{Initiator, Lba, Value};

/// What a point of a picture tells: the label of a turn, or an entry without its data.
#[derive(Clone, Copy, Debug, PartialEq, Eq)]
pub enum Event {
    /// A turn of this label.
    Labelled { label: Label },
    /// A command came.
    Came { c: u32, initiator: Initiator },
    /// The first work turn of a command.
    Began { c: u32 },
    /// A command ended with this status.
    Answered { c: u32, status: u8 },
    /// A task management function ended a command.
    Gone { c: u32 },
    /// A command got the data of a block.
    Got { c: u32, b: Lba },
    /// A command found a block lost.
    Missed { c: u32, b: Lba },
    /// A command wrote a block.
    Wrote { c: u32, b: Lba },
    /// The newest value of a block came to the medium.
    Hardened { who: Who, b: Lba },
    /// The mark that a block is lost is to come to the medium.
    GivenUp { b: Lba },
    /// A sync found no block of a range dirty.
    FoundClean { c: u32, from: Lba, to: Lba },
    /// A command gave data that are no block's.
    Gave { c: u32 },
    /// An initiator asked for a task management function.
    Requested { initiator: Initiator },
    /// The mode values changed.
    ModeChanged,
    /// The background scan is done with a block.
    Visited { b: Lba },
    /// The background scan's log got a finding on a block.
    Noted { status: u8, b: Lba },
    /// The power went off.
    PowerOff,
    /// The power came on.
    PowerOn,
    /// Minutes passed.
    Waited,
    /// A format emptied the medium.
    Emptied { c: u32 },
    /// A format filled the medium with zeros.
    Filled { c: u32 },
}

/// What an entry is in a picture.
pub fn event_of(entry: &Entry) -> Event
    ensures { result ≡ event_of entry.now }
{
    match entry {
        Entry::Arrived { c, initiator, .. } => Event::Came {
            c: *c,
            initiator: *initiator,
        },
        Entry::Started { c } => Event::Began { c: *c },
        Entry::Get { c, b, value } => event_of_get(*c, *b, value),
        Entry::Put { c, b, .. } => Event::Wrote { c: *c, b: *b },
        Entry::Harden { who, b } => Event::Hardened { who: *who, b: *b },
        Entry::Passed { c, from, to } => Event::FoundClean {
            c: *c,
            from: *from,
            to: *to,
        },
        Entry::GiveUp { b } => Event::GivenUp { b: *b },
        Entry::Page { c, .. } => Event::Gave { c: *c },
        Entry::Ended { c, reply } => Event::Answered {
            c: *c,
            status: reply.status,
        },
        Entry::Aborted { c } => Event::Gone { c: *c },
        Entry::Asked { initiator, .. } => Event::Requested {
            initiator: *initiator,
        },
        Entry::Mode { .. } => Event::ModeChanged,
        Entry::Scanned { b, .. } => Event::Visited { b: *b },
        Entry::Logged { finding } => Event::Noted {
            status: finding.status,
            b: finding.b,
        },
        Entry::Cut => Event::PowerOff,
        Entry::PoweredOn { .. } => Event::PowerOn,
        Entry::Tick { .. } => Event::Waited,
        Entry::Blank { c } => Event::Emptied { c: *c },
        Entry::Fresh { c } => Event::Filled { c: *c },
    }
}

// The get of a value.
fn event_of_get(c: u32, b: Lba, value: &Value) -> Event
    ensures { result ≡ event_of_get c b value.now }
{
    match value {
        Value::Data(_) => Event::Got { c, b },
        Value::Lost => Event::Missed { c, b },
    }
}
