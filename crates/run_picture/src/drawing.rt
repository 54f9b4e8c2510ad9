//! The text of a picture: its lanes and rows, what goes over turns, and a column for each turn.
ghost use Rattle.std.specs.Prelude.{◌≡◌, ◌<◌, ◌^◌, codes, flat_map};
ghost use Rattle.text_words.specs.Written.{Writes};
ghost use Rattle.run_picture.specs.Tags.{with_tag, with_tags, Open};
ghost use Rattle.run_picture.specs.Drawing.{lanes, block_note, command_words, command_note, bar_note, bar, work_on, ending_note, front_note, span_tags, mark_over, letter, letter_in, number_of, column, column_tags, svg_attributes, picture_of};

use crate::frame::{Frame, is_column, row_of_block, row_of_subject, rows, width, x_of};
use crate::marks::Mark;
use crate::points::Point;
use crate::spans::{Span, Subject};
use crate::style::{
    area_from, colour_of, colour_of_event, end_spot, ending_word, front_spot, letter_of,
    point_spot, row_spot,
};
use crate::tags::{
    Spot, put_attribute, put_close, put_count, put_id, put_note, put_rectangle, put_span_title,
    put_text, put_title,
};
use disk_base::Lba;
use itoa::Buffer;
use text_words::{Out, put_number, put_word};

/// The text of a picture of marks.
pub fn put_picture<O: Out>(out: &mut O, frame: &Frame, marks: &[Mark])
    ensures { Writes O.written out.old out.new (λ text. with_tags text (picture_of frame.now marks.now)) }
{
    put_opening(out, frame);
    put_lanes(out);
    put_block_notes(out, frame, frame.blocks.as_slice());
    put_spans(out, frame, marks);
    put_columns(out, frame, marks);
    put_close(out, b"svg");
}

fn put_opening<O: Out>(out: &mut O, frame: &Frame)
    ensures { Writes O.written out.old out.new (λ text. with_tag text (Open (codes "svg") (svg_attributes frame.now))) }
{
    out.put(b"<");
    out.put(b"svg");
    put_attribute(out, b"xmlns", b"http://www.w3.org/2000/svg");
    put_attribute(out, b"version", b"1.1");
    put_count(out, b"width", width(frame));
    put_count(out, b"height", 20 * rows(frame));
    put_attribute(out, b"font-family", b"sans-serif");
    put_attribute(out, b"font-size", b"10");
    out.put(b">");
}

// What stands at the left of the lanes.
fn put_lanes<O: Out>(out: &mut O)
    ensures { Writes O.written out.old out.new (λ text. with_tags text lanes) }
{
    put_note(out, Spot { x: 4, y: 14 }, b"turns");
    put_note(out, Spot { x: 4, y: 34 }, b"entries");
    put_note(out, Spot { x: 4, y: 54 }, b"moves");
    put_note(out, Spot { x: 4, y: 74 }, b"scan and destage");
    put_note(out, Spot { x: 4, y: 94 }, b"from outside");
}

fn put_block_notes<O: Out>(out: &mut O, frame: &Frame, blocks: &[Lba])
    ensures { Writes O.written out.old out.new (λ text. with_tags text (flat_map (block_note frame.now) blocks.now)) }
{
    for b in blocks {
        put_block_note(out, frame, *b);
    }
}

// What stands at the left of a block's row.
fn put_block_note<O: Out>(out: &mut O, frame: &Frame, b: Lba)
    ensures { Writes O.written out.old out.new (λ text. with_tags text (block_note frame.now b)) }
{
    put_text(out, row_spot(4, row_of_block(frame, b)), b"#000000");
    out.put(b"block");
    put_number(out, b.0);
    put_close(out, b"text");
}

fn put_spans<O: Out>(out: &mut O, frame: &Frame, marks: &[Mark])
    ensures { Writes O.written out.old out.new (λ text. with_tags text (flat_map (mark_over frame.now marks.now) marks.now)) }
{
    for mark in marks {
        put_mark_over(out, frame, marks, mark);
    }
}

fn put_mark_over<O: Out>(out: &mut O, frame: &Frame, marks: &[Mark], mark: &Mark)
    ensures { Writes O.written out.old out.new (λ text. with_tags text (mark_over frame.now marks.now mark.now)) }
{
    match mark {
        Mark::At(_) => {}
        Mark::Over(span) => put_span(out, frame, marks, span),
    }
}

fn put_span<O: Out>(out: &mut O, frame: &Frame, marks: &[Mark], span: &Span)
    ensures { Writes O.written out.old out.new (λ text. with_tags text (span_tags frame.now marks.now span.now)) }
{
    put_bar_note(out, frame, marks, &span.subject);
    put_bar(out, frame, marks, span);
    put_work_on(out, frame, marks, span);
    put_ending_note(out, frame, marks, span);
    put_front_note(out, frame, marks, span);
}

// What stands at the left of a command's row.
fn put_bar_note<O: Out>(out: &mut O, frame: &Frame, marks: &[Mark], subject: &Subject)
    ensures { Writes O.written out.old out.new (λ text. with_tags text (bar_note frame.now marks.now subject.now)) }
{
    if let Subject::Command { c, initiator } = subject {
        let row = row_of_subject(frame, marks, subject);
        put_command_note(out, row, *c, initiator.number());
    }
}

fn put_command_note<O: Out>(out: &mut O, row: u128, c: u32, initiator: u8)
    requires { row < 2 ^ 66 }
    ensures { Writes O.written out.old out.new (λ text. with_tags text (command_note row c initiator)) }
{
    put_text(out, row_spot(4, row), b"#000000");
    put_command_words(out, c, initiator);
    put_close(out, b"text");
}

fn put_command_words<O: Out>(out: &mut O, c: u32, initiator: u8)
    ensures { Writes O.written out.old out.new (λ text. with_tag text (command_words c initiator)) }
{
    out.put(b"initiator");
    put_number(out, u64::from(initiator));
    put_word(out, b"command");
    put_number(out, u64::from(c));
}

// All of a span, in a pale colour.
fn put_bar<O: Out>(out: &mut O, frame: &Frame, marks: &[Mark], span: &Span)
    ensures { Writes O.written out.old out.new (λ text. with_tags text (bar frame.now marks.now span.now)) }
{
    let area = area_from(frame, marks, span, span.from);
    put_rectangle(out, &area, colour_of(span.ending), b"0.4");
    put_span_title(out, span.from, &span.subject);
    put_close(out, b"rect");
}

// The work on a command, in full colour.
fn put_work_on<O: Out>(out: &mut O, frame: &Frame, marks: &[Mark], span: &Span)
    ensures { Writes O.written out.old out.new (λ text. with_tags text (work_on frame.now marks.now span.now)) }
{
    if let Some(start) = span.start {
        let area = area_from(frame, marks, span, start);
        put_rectangle(out, &area, colour_of(span.ending), b"1");
        put_close(out, b"rect");
    }
}

// The word beside the end of a span.
fn put_ending_note<O: Out>(out: &mut O, frame: &Frame, marks: &[Mark], span: &Span)
    ensures { Writes O.written out.old out.new (λ text. with_tags text (ending_note frame.now marks.now span.now)) }
{
    if let Some(word) = ending_word(span.ending) {
        put_note(out, end_spot(frame, marks, span), word);
    }
}

// The word at the front of a span that began before.
fn put_front_note<O: Out>(out: &mut O, frame: &Frame, marks: &[Mark], span: &Span)
    ensures { Writes O.written out.old out.new (λ text. with_tags text (front_note frame.now marks.now span.now)) }
{
    if span.began_before {
        put_note(out, front_spot(frame, marks, span), b"open");
    }
}

fn put_columns<O: Out>(out: &mut O, frame: &Frame, marks: &[Mark])
    ensures { Writes O.written out.old out.new (λ text. with_tags text (flat_map (column frame.now marks.now) marks.now)) }
{
    for mark in marks {
        put_column(out, frame, marks, mark);
    }
}

// The column of a turn, at its label.
fn put_column<O: Out>(out: &mut O, frame: &Frame, marks: &[Mark], mark: &Mark)
    ensures { Writes O.written out.old out.new (λ text. with_tags text (column frame.now marks.now mark.now)) }
{
    match mark {
        Mark::At(point) => {
            if is_column(mark) {
                put_column_of(out, frame, marks, point.turn);
            }
        }
        Mark::Over(_) => {}
    }
}

// The number of a turn, and the letters of its points.
fn put_column_of<O: Out>(out: &mut O, frame: &Frame, marks: &[Mark], turn: u64)
    ensures { Writes O.written out.old out.new (λ text. with_tags text (column_tags frame.now marks.now turn)) }
{
    out.put(b"<");
    out.put(b"g");
    put_id(out, turn);
    out.put(b">");
    put_turn_number(out, frame, turn);
    put_letters(out, frame, turn, marks);
    put_close(out, b"g");
}

fn put_turn_number<O: Out>(out: &mut O, frame: &Frame, turn: u64)
    ensures { Writes O.written out.old out.new (λ text. with_tags text (number_of frame.now turn)) }
{
    put_note(
        out,
        row_spot(x_of(frame.window, turn), 0),
        Buffer::new().format(turn).as_bytes(),
    );
}

fn put_letters<O: Out>(out: &mut O, frame: &Frame, turn: u64, marks: &[Mark])
    ensures { Writes O.written out.old out.new (λ text. with_tags text (flat_map (letter_in frame.now turn) marks.now)) }
{
    for mark in marks {
        put_letter_in(out, frame, turn, mark);
    }
}

// The letter of a point, where it stands in this turn.
fn put_letter_in<O: Out>(out: &mut O, frame: &Frame, turn: u64, mark: &Mark)
    ensures { Writes O.written out.old out.new (λ text. with_tags text (letter_in frame.now turn mark.now)) }
{
    match mark {
        Mark::At(point) => {
            if point.turn == turn {
                put_letter(out, frame, point);
            }
        }
        Mark::Over(_) => {}
    }
}

fn put_letter<O: Out>(out: &mut O, frame: &Frame, point: &Point)
    ensures { Writes O.written out.old out.new (λ text. with_tags text (letter frame.now point.now)) }
{
    put_text(out, point_spot(frame, point), colour_of_event(&point.event));
    put_title(out, point.turn, &point.event);
    out.put(letter_of(&point.event));
    put_close(out, b"text");
}
