//! Where the rows and columns of a picture lie.
ghost use Rattle.std.specs.Prelude.{◌≡◌, ◌<◌, ◌^◌, IfOk, count_by};
ghost use Rattle.run_picture.specs.Frame.{is_above, stands_above, is_bar, rank_of, is_label, is_column, frame_of, width, rows, row_of_block, row_of_subject, lane_of_label, lane_of, row_of_event, x_of, width_of};

use crate::blocks::{Blocks, block_of_event, blocks_of, place_of};
use crate::event::Event;
use crate::marks::Mark;
use crate::spans::Subject;
use crate::window::Window;
use block_machine::Label;
use disk_base::{Initiator, Lba, NoMemory};
use std::alloc::Global;

// In pixels.
const LEFT: u128 = 192;

const COLUMN: u128 = 32;

// The rows above those of commands: the turns' numbers, entries, moves, scan and destage, and what comes from outside.
const LANES: u128 = 5;

/// What rows and columns a picture has.
#[derive(Drop)]
pub struct Frame {
    /// The range of turns that is shown.
    pub window: Window,
    /// How many turns have a column, how many commands have a row, and the blocks that have one.
    pub turns: usize,
    pub commands: usize,
    pub blocks: Blocks,
}

/// The rows and columns for marks.
pub fn frame_of(alloc: Global, window: Window, marks: &[Mark]) -> Result<Frame, NoMemory>
    ensures { IfOk result (λ frame. frame ≡ frame_of window marks.now) }
{
    let blocks = blocks_of(alloc, marks)?;
    Ok(Frame {
        window,
        turns: columns(marks),
        commands: bars(marks),
        blocks,
    })
}

// How many turns have a column.
fn columns(marks: &[Mark]) -> usize
    ensures { result ≡ count_by is_column marks.now }
{
    marks.iter().filter(|mark| is_column(mark)).count()
}

/// Whether a mark is the label of a turn, which has a column.
pub fn is_column(mark: &Mark) -> bool
    ensures { result ≡ is_column mark.now }
{
    match mark {
        Mark::At(point) => is_label(&point.event),
        Mark::Over(_) => false,
    }
}

fn is_label(event: &Event) -> bool
    ensures { result ≡ is_label event.now }
{
    match event {
        Event::Labelled { .. } => true,
        _ => false,
    }
}

// How many commands have a bar.
fn bars(marks: &[Mark]) -> usize
    ensures { result ≡ count_by is_bar marks.now }
{
    marks.iter().filter(|mark| is_bar(mark)).count()
}

fn is_bar(mark: &Mark) -> bool
    ensures { result ≡ is_bar mark.now }
{
    match mark {
        Mark::At(_) => false,
        Mark::Over(span) => match span.subject {
            Subject::Command { .. } => true,
            Subject::Dirty { .. } | Subject::Dark => false,
        },
    }
}

/// How many rows there are.
pub fn rows(frame: &Frame) -> u128
    ensures rows { result ≡ rows frame.now }
    ensures few { result < 2 ^ 66 }
{
    LANES + frame.commands as u128 + frame.blocks.as_slice().len() as u128
}

/// The row of what a span is about.
pub fn row_of_subject(frame: &Frame, marks: &[Mark], subject: &Subject) -> u128
    ensures row { result ≡ row_of_subject frame.now marks.now subject.now }
    ensures few { result < 2 ^ 66 }
{
    match subject {
        Subject::Command { c, initiator } => LANES + rank_of(*initiator, *c, marks) as u128,
        Subject::Dirty { b } => row_of_block(frame, *b),
        Subject::Dark => 0,
    }
}

// How many commands have a row above this one's.
fn rank_of(initiator: Initiator, c: u32, marks: &[Mark]) -> usize
    ensures { result ≡ rank_of initiator c marks.now }
{
    let number = initiator.number();
    marks
        .iter()
        .filter(|mark| stands_above(number, c, mark))
        .count()
}

fn stands_above(number: u8, c: u32, mark: &Mark) -> bool
    ensures { result ≡ stands_above number c mark.now }
{
    match mark {
        Mark::At(_) => false,
        Mark::Over(span) => is_above(number, c, &span.subject),
    }
}

// Commands of lower initiators stand above, and of the same initiator those with lower numbers.
fn is_above(number: u8, c: u32, subject: &Subject) -> bool
    ensures { result ≡ is_above number c subject.now }
{
    match subject {
        Subject::Command { c: d, initiator } => {
            let other = initiator.number();
            other < number || other == number && *d < c
        }
        Subject::Dirty { .. } | Subject::Dark => false,
    }
}

/// The row of a block.
pub fn row_of_block(frame: &Frame, b: Lba) -> u128
    ensures row { result ≡ row_of_block frame.now b }
    ensures few { result < 2 ^ 66 }
{
    LANES + frame.commands as u128 + place_of(b, frame.blocks.as_slice()) as u128
}

/// The row of an event.
pub fn row_of_event(frame: &Frame, event: &Event) -> u128
    ensures row { result ≡ row_of_event frame.now event.now }
    ensures few { result < 2 ^ 66 }
{
    match block_of_event(event) {
        Some(b) => row_of_block(frame, b),
        None => lane_of(event),
    }
}

// The lane of an event that is no block's.
fn lane_of(event: &Event) -> u128
    ensures lane { result ≡ lane_of event.now }
    ensures few { result < 5 }
{
    match event {
        Event::Labelled { label } => lane_of_label(label),
        Event::Visited { .. } | Event::Noted { .. } => 3,
        Event::PowerOff | Event::PowerOn | Event::Waited => 4,
        _ => 1,
    }
}

fn lane_of_label(label: &Label) -> u128
    ensures lane { result ≡ lane_of_label label.now }
    ensures few { result < 5 }
{
    match label {
        Label::Arrive(_) | Label::Work(_) => 1,
        Label::Job(_) => 2,
        Label::Scan | Label::Destage => 3,
        Label::World(_) => 4,
    }
}

/// The left edge of a turn's column.
pub fn x_of(window: Window, turn: u64) -> u128
    ensures x { result ≡ x_of window turn }
    ensures near { result < 2 ^ 70 }
{
    LEFT + COLUMN * u128::from(turn.saturating_sub(window.from))
}

/// The width of the columns of turns, from the first to the last.
pub fn width_of(from: u64, to: u64) -> u128
    ensures width { result ≡ width_of from to }
    ensures near { result < 2 ^ 70 }
{
    COLUMN * (u128::from(to) + 1).saturating_sub(u128::from(from))
}

/// The width of a picture; there is room for words behind its last column.
pub fn width(frame: &Frame) -> u128
    ensures { result ≡ width frame.now }
{
    LEFT + COLUMN * frame.turns as u128 + 128
}
