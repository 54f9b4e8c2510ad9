//! How marks look, and where they stand.
ghost use Rattle.std.specs.Prelude.{◌≡◌, ◌<◌, ◌^◌, option_map};
ghost use Rattle.run_picture.specs.Style.{text_row, inset_of, height_of, area_from, row_spot, end_spot, front_spot, point_spot, status_word, ending_word, status_colour, colour_of, letter_of_label, letter_of, colour_of_event};

use crate::event::Event;
use crate::frame::{Frame, row_of_event, row_of_subject, rows, width_of, x_of};
use crate::marks::Mark;
use crate::points::Point;
use crate::spans::{Ending, Span, Subject};
use crate::tags::{Area, Spot};
use block_machine::Label;
use sense_data::{CHECK_CONDITION, GOOD, TASK_SET_FULL};

/// The rectangle of a span from one of its turns on.
pub fn area_from(frame: &Frame, marks: &[Mark], span: &Span, from: u64) -> Area
    ensures { result ≡ area_from frame.now marks.now span.now from }
{
    let row = row_of_subject(frame, marks, &span.subject);
    Area {
        x: x_of(frame.window, from),
        y: 20 * row + inset_of(&span.subject),
        width: width_of(from, span.to),
        height: height_of(frame, &span.subject),
    }
}

// How far the rectangle of a span stands below the top of its row.
fn inset_of(subject: &Subject) -> u128
    ensures inset { result ≡ inset_of subject.now }
    ensures small { result < 20 }
{
    match subject {
        Subject::Command { .. } => 4,
        Subject::Dirty { .. } => 16,
        Subject::Dark => 0,
    }
}

// The height of a span's rectangle: a bar, a line, and a band through all rows.
fn height_of(frame: &Frame, subject: &Subject) -> u128
    ensures { result ≡ height_of frame.now subject.now }
{
    match subject {
        Subject::Command { .. } => 12,
        Subject::Dirty { .. } => 3,
        Subject::Dark => 20 * rows(frame),
    }
}

/// Where a text stands in a row.
pub fn row_spot(x: u128, row: u128) -> Spot
    requires { row < 2 ^ 67 }
    ensures { result ≡ row_spot x row }
{
    Spot {
        x,
        y: 20 * row + 14,
    }
}

/// Where the word stands that says how a span ends.
pub fn end_spot(frame: &Frame, marks: &[Mark], span: &Span) -> Spot
    ensures { result ≡ end_spot frame.now marks.now span.now }
{
    row_spot(
        x_of(frame.window, span.to) + 34,
        text_row(frame, marks, &span.subject),
    )
}

/// Where the word stands that says that a span began before.
pub fn front_spot(frame: &Frame, marks: &[Mark], span: &Span) -> Spot
    ensures { result ≡ front_spot frame.now marks.now span.now }
{
    row_spot(
        x_of(frame.window, span.from),
        text_row(frame, marks, &span.subject),
    )
}

// The row of a span's words; those of a band stand in the lane for what comes from outside.
fn text_row(frame: &Frame, marks: &[Mark], subject: &Subject) -> u128
    ensures row { result ≡ text_row frame.now marks.now subject.now }
    ensures few { result < 2 ^ 66 }
{
    match subject {
        Subject::Dark => 4,
        _ => row_of_subject(frame, marks, subject),
    }
}

/// Where the letter of a point stands. Those of a turn's first four places stand beside each other.
pub fn point_spot(frame: &Frame, point: &Point) -> Spot
    ensures { result ≡ point_spot frame.now point.now }
{
    let place = u128::from(point.place % 4);
    row_spot(
        x_of(frame.window, point.turn) + 8 * place,
        row_of_event(frame, &point.event),
    )
}

/// The word for how a span ends, where it needs one.
pub fn ending_word(ending: Ending) -> Option<&'static [u8]>
    ensures { option_map (λ word. word.now) result ≡ ending_word ending }
{
    match ending {
        Ending::WithStatus(status) => Some(status_word(status)),
        Ending::ByFunction => Some(b"aborted"),
        Ending::ByCut => Some(b"cut off"),
        Ending::OnMedium | Ending::PowerBack => None,
        Ending::Open => Some(b"open"),
    }
}

fn status_word(status: u8) -> &'static [u8]
    ensures { result.now ≡ status_word status }
{
    match status {
        GOOD => b"GOOD",
        CHECK_CONDITION => b"CHECK CONDITION",
        TASK_SET_FULL => b"TASK SET FULL",
        _ => b"another status",
    }
}

/// The colour for how a span ends.
pub fn colour_of(ending: Ending) -> &'static [u8]
    ensures { result.now ≡ colour_of ending }
{
    match ending {
        Ending::WithStatus(status) => status_colour(status),
        Ending::ByFunction => b"#6a1b9a",
        Ending::ByCut => b"#000000",
        Ending::OnMedium => b"#8d6e63",
        Ending::PowerBack => b"#78909c",
        Ending::Open => b"#1565c0",
    }
}

fn status_colour(status: u8) -> &'static [u8]
    ensures { result.now ≡ status_colour status }
{
    match status {
        GOOD => b"#2e7d32",
        CHECK_CONDITION => b"#c62828",
        TASK_SET_FULL => b"#ef6c00",
        _ => b"#616161",
    }
}

/// The letter of an event.
pub fn letter_of(event: &Event) -> &'static [u8]
    ensures { result.now ≡ letter_of event.now }
{
    match event {
        Event::Labelled { label } => letter_of_label(label),
        Event::Came { .. } => b"i",
        Event::Began { .. } => b"b",
        Event::Answered { .. } => b"e",
        Event::Gone { .. } => b"x",
        Event::Got { .. } => b"g",
        Event::Missed { .. } => b"L",
        Event::Wrote { .. } => b"p",
        Event::Hardened { .. } => b"h",
        Event::GivenUp { .. } => b"u",
        Event::FoundClean { .. } => b"c",
        Event::Gave { .. } => b"D",
        Event::Requested { .. } => b"f",
        Event::ModeChanged => b"M",
        Event::Visited { .. } => b"v",
        Event::Noted { .. } => b"n",
        Event::PowerOff => b"0",
        Event::PowerOn => b"1",
        Event::Waited => b"t",
        Event::Emptied { .. } => b"E",
        Event::Filled { .. } => b"F",
    }
}

fn letter_of_label(label: &Label) -> &'static [u8]
    ensures { result.now ≡ letter_of_label label.now }
{
    match label {
        Label::Arrive(_) => b"a",
        Label::Work(_) => b"w",
        Label::Job(_) => b"j",
        Label::Scan => b"s",
        Label::Destage => b"d",
        Label::World(_) => b"o",
    }
}

/// The colour of an event's letter.
pub fn colour_of_event(event: &Event) -> &'static [u8]
    ensures { result.now ≡ colour_of_event event.now }
{
    match event {
        Event::Missed { .. } | Event::GivenUp { .. } => b"#c62828",
        Event::Wrote { .. } => b"#1565c0",
        Event::Hardened { .. } => b"#2e7d32",
        _ => b"#000000",
    }
}
