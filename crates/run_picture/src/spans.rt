//! What goes over turns: commands, dirty blocks, and the time without power.
ghost use Rattle.std.specs.Prelude.{◌≡◌};
ghost use Rattle.run_picture.specs.Spans.{opens, begins, closes, closes_command, closes_dirt, closes_dark, start_of, end_of, span_at};

use crate::event::Event;
use crate::points::Point;
use disk_base::{Initiator, Lba};

/// What a span is about.
#[derive(Clone, Copy, Debug, PartialEq, Eq)]
pub enum Subject {
    /// A command that is in.
    Command { c: u32, initiator: Initiator },
    /// A block that has a value newer than the medium's.
    Dirty { b: Lba },
    /// The power is off.
    Dark,
}

/// How a span ends.
#[derive(Clone, Copy, Debug, PartialEq, Eq)]
pub enum Ending {
    /// The command ended with this status.
    WithStatus(u8),
    /// A task management function ended the command.
    ByFunction,
    /// The power went off.
    ByCut,
    /// The newest value came to the medium.
    OnMedium,
    /// The power came on.
    PowerBack,
    /// It goes on behind the last turn.
    Open,
}

/// A span over turns.
#[derive(Clone, Copy, Debug, PartialEq, Eq)]
pub struct Span {
    pub subject: Subject,
    /// Its first turn, and whether it began before that.
    pub from: u64,
    pub began_before: bool,
    /// The first turn of work on a command, where there is one.
    pub start: Option<u64>,
    /// Its last turn, and how it ends there.
    pub to: u64,
    pub ending: Ending,
}

// The last turn of a span, and how it ends there.
#[derive(Clone, Copy)]
pub struct End {
    pub turn: u64,
    pub ending: Ending,
}

/// The span that a point opens, where it does; later points stand behind it, and the last turn has this number.
pub fn span_at(last: u64, point: &Point, later: &[Point]) -> Option<Span>
    ensures { result ≡ span_at last point.now later.now }
{
    let subject = opens(point.event)?;
    let start = start_of(&subject, later);
    let end = end_of(&subject, last, later);
    Some(Span {
        subject,
        from: point.turn,
        began_before: false,
        start,
        to: end.turn,
        ending: end.ending,
    })
}

// What an event opens.
fn opens(event: Event) -> Option<Subject>
    ensures { result ≡ opens event }
{
    match event {
        Event::Came { c, initiator } => Some(Subject::Command { c, initiator }),
        Event::Wrote { b, .. } => Some(Subject::Dirty { b }),
        Event::GivenUp { b } => Some(Subject::Dirty { b }),
        Event::PowerOff => Some(Subject::Dark),
        _ => None,
    }
}

// The turn of the first of later points that begins the work on what a span is about, unless it is closed before.
fn start_of(subject: &Subject, later: &[Point]) -> Option<u64>
    ensures { result ≡ start_of subject.now later.now }
{
    for point in later {
        if begins(subject, point.event) {
            return Some(point.turn);
        }
        if closes(subject, point.event).is_some() {
            return None;
        }
    }
    None
}

// Whether an event begins the work on what a span is about.
fn begins(subject: &Subject, event: Event) -> bool
    ensures { result ≡ begins subject.now event }
{
    match (subject, event) {
        (Subject::Command { c, .. }, Event::Began { c: d }) => d == *c,
        _ => false,
    }
}

// The first of later points that closes a span; where none does it is open at the last turn.
fn end_of(subject: &Subject, last: u64, later: &[Point]) -> End
    ensures { result ≡ end_of subject.now last later.now }
{
    for point in later {
        if let Some(ending) = closes(subject, point.event) {
            return End {
                turn: point.turn,
                ending,
            };
        }
    }
    End {
        turn: last,
        ending: Ending::Open,
    }
}

// How an event closes a span, where it does.
fn closes(subject: &Subject, event: Event) -> Option<Ending>
    ensures { result ≡ closes subject.now event }
{
    match subject {
        Subject::Command { c, .. } => closes_command(*c, event),
        Subject::Dirty { b } => closes_dirt(*b, event),
        Subject::Dark => closes_dark(event),
    }
}

fn closes_command(c: u32, event: Event) -> Option<Ending>
    ensures { result ≡ closes_command c event }
{
    match event {
        Event::Answered { c: d, status } if d == c => Some(Ending::WithStatus(status)),
        Event::Gone { c: d } if d == c => Some(Ending::ByFunction),
        Event::PowerOff => Some(Ending::ByCut),
        _ => None,
    }
}

fn closes_dirt(b: Lba, event: Event) -> Option<Ending>
    ensures { result ≡ closes_dirt b event }
{
    match event {
        Event::Hardened { b: a, .. } if a.0 == b.0 => Some(Ending::OnMedium),
        Event::PowerOff => Some(Ending::ByCut),
        _ => None,
    }
}

fn closes_dark(event: Event) -> Option<Ending>
    ensures { result ≡ closes_dark event }
{
    match event {
        Event::PowerOn => Some(Ending::PowerBack),
        _ => None,
    }
}
