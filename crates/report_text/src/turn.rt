//! The line of a turn.
ghost use Rattle.std.specs.Prelude.{◌≡◌, ◌∷◌, [], ◌++◌, decimal, map};
ghost use Rattle.text_words.specs.Line.{spaced};
ghost use Rattle.text_words.specs.Written.{Writes};
ghost use Rattle.report_text.specs.Operations.{shown_of};
ghost use Rattle.report_text.specs.Turns.{label_words, marked_operation, operation_words, marked_entry, entries_words, turn_text, part_of};

use crate::entry::put_entry;
use crate::operation::put_shown;
use crate::shown::Shown;
use block_machine::{Entry, Label, Turn};
use itoa::Buffer;
use platter_model::Op;
use script_text::put_world;
use text_words::{Out, put_number, put_word};

/// The line of the turn of a number, with its end; the turn's operations stand in all those of the run.
pub fn put_turn<O: Out>(out: &mut O, number: u64, turn: &Turn, ops: &[Op])
    ensures { Writes O.written out.old out.new (λ text. text ++ (turn_text number turn.now.label (part_of (map shown_of ops.now) turn.now) turn.now.entries ++ 10 ∷ [])) }
{
    put_first(out, number);
    put_label(out, &turn.label);
    put_ops(out, part_of(ops, turn));
    put_entries(out, turn.entries.as_slice());
    out.put(b"\n");
}

// The number of a turn, at the start of its line.
pub fn put_first<O: Out>(out: &mut O, number: u64)
    ensures { Writes O.written out.old out.new (λ text. text ++ decimal number) }
{
    out.put(Buffer::new().format(number).as_bytes());
}

/// The words of a label, each after a blank.
pub fn put_label<O: Out>(out: &mut O, label: &Label)
    ensures { Writes O.written out.old out.new (λ text. spaced text (label_words label.now)) }
{
    match label {
        Label::Arrive(initiator) => put_numbered(out, b"arrive", u64::from(initiator.number())),
        Label::Work(c) => put_numbered(out, b"work", u64::from(*c)),
        Label::Job(j) => put_numbered(out, b"job", u64::from(*j)),
        Label::Scan => put_word(out, b"scan"),
        Label::Destage => put_word(out, b"destage"),
        Label::World(world) => {
            out.put(b" ");
            put_world(out, world);
        }
    }
}

fn put_numbered<O: Out>(out: &mut O, first: &[u8], number: u64)
    ensures { Writes O.written out.old out.new (λ text. spaced text (first.now ∷ decimal number ∷ [])) }
{
    put_word(out, first);
    put_number(out, number);
}

// A turn's operations among those of the run.
fn part_of<'a>(ops: &'a [Op], turn: &Turn) -> &'a [Op]
    ensures { result.now ≡ part_of ops.now turn.now }
{
    let from = ops.len().min(turn.ops_from as usize);
    let to = ops.len().min(turn.ops_to as usize).max(from);
    &ops[from..to]
}

fn put_ops<O: Out>(out: &mut O, ops: &[Op])
    ensures { Writes O.written out.old out.new (λ text. spaced text (operation_words (map shown_of ops.now))) }
{
    for op in ops {
        put_op(out, &Shown::of(op));
    }
}

/// An operation behind its mark.
pub fn put_op<O: Out>(out: &mut O, shown: &Shown)
    ensures { Writes O.written out.old out.new (λ text. spaced text (marked_operation shown.now)) }
{
    put_word(out, b"<");
    put_shown(out, shown);
}

fn put_entries<O: Out>(out: &mut O, entries: &[Entry])
    ensures { Writes O.written out.old out.new (λ text. spaced text (entries_words entries.now)) }
{
    for entry in entries {
        put_marked(out, entry);
    }
}

/// An entry behind its mark.
pub fn put_marked<O: Out>(out: &mut O, entry: &Entry)
    ensures { Writes O.written out.old out.new (λ text. spaced text (marked_entry entry.now)) }
{
    put_word(out, b">");
    put_entry(out, entry);
}
