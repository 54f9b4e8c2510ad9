//! The words of events, as a report spells them.
ghost use Rattle.std.specs.Prelude.{◌≡◌, ◌∷◌, [], ◌++◌, decimal};
ghost use Rattle.text_words.specs.Line.{spaced};
ghost use Rattle.text_words.specs.Written.{Writes};
ghost use Rattle.report_text.specs.Entries.{who_word};
ghost use Rattle.report_text.specs.Turns.{label_words};
ghost use Rattle.run_picture.specs.Words.{event_words, subject_words};

use crate::event::Event;
use crate::spans::Subject;
use block_machine::{Label, Who};
use disk_base::Lba;
use script_text::put_world;
use text_words::{Out, put_byte, put_number, put_word};

/// The words of an event, each after a blank: those of its turn's label, or the first ones of its entry.
pub fn put_event<O: Out>(out: &mut O, event: &Event)
    ensures { Writes O.written out.old out.new (λ text. spaced text (event_words event.now)) }
{
    match event {
        Event::Labelled { label } => put_label(out, label),
        Event::Came { c, initiator } => {
            put_of(out, b"in", *c);
            put_number(out, u64::from(initiator.number()));
        }
        Event::Began { c } => put_of(out, b"start", *c),
        Event::Answered { c, status } => {
            put_of(out, b"end", *c);
            put_byte(out, *status);
        }
        Event::Gone { c } => put_of(out, b"gone", *c),
        Event::Got { c, b } => put_of_block(out, b"get", *c, *b),
        Event::Missed { c, b } => {
            put_of_block(out, b"get", *c, *b);
            put_word(out, b"bad");
        }
        Event::Wrote { c, b } => put_of_block(out, b"put", *c, *b),
        Event::Hardened { who, b } => {
            put_word(out, b"hard");
            put_who(out, *who);
            put_number(out, b.0);
        }
        Event::GivenUp { b } => put_block(out, b"lose", *b),
        Event::FoundClean { c, from, to } => {
            put_of_block(out, b"pass", *c, *from);
            put_number(out, to.0);
        }
        Event::Gave { c } => put_of(out, b"page", *c),
        Event::Requested { initiator } => {
            put_word(out, b"func");
            put_number(out, u64::from(initiator.number()));
        }
        Event::ModeChanged => put_word(out, b"mode"),
        Event::Visited { b } => put_block(out, b"scanned", *b),
        Event::Noted { status, b } => {
            put_word(out, b"logged");
            put_number(out, u64::from(*status));
            put_number(out, b.0);
        }
        Event::PowerOff => put_word(out, b"cut"),
        Event::PowerOn => put_word(out, b"on"),
        Event::Waited => put_word(out, b"tick"),
        Event::Emptied { c } => put_of(out, b"blank", *c),
        Event::Filled { c } => put_of(out, b"fresh", *c),
    }
}

/// The words of what a span is about, each after a blank.
pub fn put_subject<O: Out>(out: &mut O, subject: &Subject)
    ensures { Writes O.written out.old out.new (λ text. spaced text (subject_words subject.now)) }
{
    match subject {
        Subject::Command { c, initiator } => {
            put_of(out, b"in", *c);
            put_number(out, u64::from(initiator.number()));
        }
        Subject::Dirty { b } => put_block(out, b"dirty", *b),
        Subject::Dark => put_word(out, b"cut"),
    }
}

// The words of a label.
fn put_label<O: Out>(out: &mut O, label: &Label)
    ensures { Writes O.written out.old out.new (λ text. spaced text (label_words label.now)) }
{
    match label {
        Label::Arrive(initiator) => {
            put_word(out, b"arrive");
            put_number(out, u64::from(initiator.number()));
        }
        Label::Work(c) => put_of(out, b"work", *c),
        Label::Job(j) => put_of(out, b"job", *j),
        Label::Scan => put_word(out, b"scan"),
        Label::Destage => put_word(out, b"destage"),
        Label::World(world) => {
            out.put(b" ");
            put_world(out, world);
        }
    }
}

// A word and a number.
fn put_of<O: Out>(out: &mut O, first: &[u8], c: u32)
    ensures { Writes O.written out.old out.new (λ text. spaced text (first.now ∷ decimal c ∷ [])) }
{
    put_word(out, first);
    put_number(out, u64::from(c));
}

// A word, the number of a command, and a block.
fn put_of_block<O: Out>(out: &mut O, first: &[u8], c: u32, b: Lba)
    ensures { Writes O.written out.old out.new (λ text. spaced text (first.now ∷ decimal c ∷ decimal b.0 ∷ [])) }
{
    put_of(out, first, c);
    put_number(out, b.0);
}

// A word and a block.
fn put_block<O: Out>(out: &mut O, first: &[u8], b: Lba)
    ensures { Writes O.written out.old out.new (λ text. spaced text (first.now ∷ decimal b.0 ∷ [])) }
{
    put_word(out, first);
    put_number(out, b.0);
}

fn put_who<O: Out>(out: &mut O, who: Who)
    ensures { Writes O.written out.old out.new (λ text. spaced text (who_word who ∷ [])) }
{
    match who {
        Who::Command(c) => put_number(out, u64::from(c)),
        Who::Drive => put_word(out, b"d"),
    }
}
