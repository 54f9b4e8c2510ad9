//! Tags, and the elements that have no others inside.
ghost use Rattle.std.specs.Prelude.{◌≡◌, ◌∷◌, [], ◌++◌, codes, decimal};
ghost use Rattle.text_words.specs.Written.{Writes};
ghost use Rattle.run_picture.specs.Tags.{Open, Close, attribute, count, with_attribute, with_tag, with_tags};
ghost use Rattle.run_picture.specs.Words.{event_words, subject_words};
ghost use Rattle.run_picture.specs.Shapes.{rectangle_attributes, text_attributes, note, title, id};

use crate::event::Event;
use crate::spans::Subject;
use crate::words::{put_event, put_subject};
use itoa::Buffer;
use text_words::Out;

/// A rectangle, in pixels.
#[derive(Clone, Copy)]
pub struct Area {
    pub x: u128,
    pub y: u128,
    pub width: u128,
    pub height: u128,
}

/// Where a text begins, in pixels.
#[derive(Clone, Copy)]
pub struct Spot {
    pub x: u128,
    pub y: u128,
}

/// An attribute.
pub fn put_attribute<O: Out>(out: &mut O, name: &[u8], value: &[u8])
    ensures { Writes O.written out.old out.new (λ text. with_attribute text (attribute name.now value.now)) }
{
    out.put(b" ");
    out.put(name);
    out.put(b"=\"");
    out.put(value);
    out.put(b"\"");
}

/// An attribute whose value is a number.
pub fn put_count<O: Out>(out: &mut O, name: &[u8], number: u128)
    ensures { Writes O.written out.old out.new (λ text. with_attribute text (count name.now number)) }
{
    put_attribute(out, name, Buffer::new().format(number).as_bytes());
}

/// The attribute by which a turn's column is named.
pub fn put_id<O: Out>(out: &mut O, turn: u64)
    ensures { Writes O.written out.old out.new (λ text. with_attribute text (id turn)) }
{
    out.put(b" ");
    out.put(b"id");
    out.put(b"=\"");
    out.put(b"turn-");
    out.put(Buffer::new().format(turn).as_bytes());
    out.put(b"\"");
}

/// The tag that closes an element.
pub fn put_close<O: Out>(out: &mut O, name: &[u8])
    ensures { Writes O.written out.old out.new (λ text. with_tag text (Close name.now)) }
{
    out.put(b"</");
    out.put(name);
    out.put(b">\n");
}

/// The tag that opens a rectangle.
pub fn put_rectangle<O: Out>(out: &mut O, area: &Area, fill: &[u8], opacity: &[u8])
    ensures { Writes O.written out.old out.new (λ text. with_tag text (Open (codes "rect") (rectangle_attributes area.now fill.now opacity.now))) }
{
    out.put(b"<");
    out.put(b"rect");
    put_count(out, b"x", area.x);
    put_count(out, b"y", area.y);
    put_count(out, b"width", area.width);
    put_count(out, b"height", area.height);
    put_attribute(out, b"fill", fill);
    put_attribute(out, b"fill-opacity", opacity);
    out.put(b">");
}

/// The tag that opens a text.
pub fn put_text<O: Out>(out: &mut O, spot: Spot, fill: &[u8])
    ensures { Writes O.written out.old out.new (λ text. with_tag text (Open (codes "text") (text_attributes spot fill.now))) }
{
    out.put(b"<");
    out.put(b"text");
    put_count(out, b"x", spot.x);
    put_count(out, b"y", spot.y);
    put_attribute(out, b"fill", fill);
    out.put(b">");
}

/// A text of one word.
pub fn put_note<O: Out>(out: &mut O, spot: Spot, word: &[u8])
    ensures { Writes O.written out.old out.new (λ text. with_tags text (note spot word.now [])) }
{
    put_text(out, spot, b"#000000");
    out.put(word);
    put_close(out, b"text");
}

/// The title of a point: the number of its turn, and its words.
pub fn put_title<O: Out>(out: &mut O, turn: u64, event: &Event)
    ensures { Writes O.written out.old out.new (λ text. with_tags text (title turn (event_words event.now))) }
{
    put_title_start(out, turn);
    put_event(out, event);
    put_close(out, b"title");
}

/// The title of a span: the number of its first turn, and its words.
pub fn put_span_title<O: Out>(out: &mut O, turn: u64, subject: &Subject)
    ensures { Writes O.written out.old out.new (λ text. with_tags text (title turn (subject_words subject.now))) }
{
    put_title_start(out, turn);
    put_subject(out, subject);
    put_close(out, b"title");
}

fn put_title_start<O: Out>(out: &mut O, turn: u64)
    ensures { Writes O.written out.old out.new (λ text. with_tag text (Open (codes "title") []) ++ decimal turn) }
{
    out.put(b"<");
    out.put(b"title");
    out.put(b">");
    out.put(Buffer::new().format(turn).as_bytes());
}
