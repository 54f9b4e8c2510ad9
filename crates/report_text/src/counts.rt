//! The summary of a run.
ghost use Rattle.std.specs.Prelude.{◌≡◌, ◌∷◌, [], ◌++◌, decimal};
ghost use Rattle.text_words.specs.Line.{spaced};
ghost use Rattle.text_words.specs.Written.{Writes};
ghost use Rattle.report_text.specs.Summary.{summary_text, counts_of};

use crate::strays::strays;
use crate::tally::tally_of;
use block_machine::Turn;
use itoa::Buffer;
use platter_model::Op;
use text_words::{Out, put_word};

/// The numbers of a summary.
#[derive(Clone, Copy, Debug, PartialEq, Eq)]
pub struct Counts {
    pub turns: u128,
    /// Commands that came.
    pub commands: u128,
    /// Commands that ended with GOOD, with CHECK CONDITION and with TASK SET FULL.
    pub good: u128,
    pub check: u128,
    pub full: u128,
    /// Commands that a function ended.
    pub aborted: u128,
    /// Commands that were in when the power went off.
    pub cut: u128,
    /// Reads that found another payload than the one meant.
    pub strays: u128,
}

/// The numbers of the summary of turns, and of the operations of their run.
pub fn counts_of(turns: &[Turn], ops: &[Op]) -> Counts
    ensures { result ≡ counts_of turns.now ops.now }
{
    let tally = tally_of(turns);
    Counts {
        turns: turns.len() as u128,
        commands: tally.commands,
        good: tally.good,
        check: tally.check,
        full: tally.full,
        aborted: tally.aborted,
        cut: tally.cut,
        strays: u128::from(strays(ops)),
    }
}

/// The summary's line, with its end.
pub fn put_summary<O: Out>(out: &mut O, counts: &Counts)
    ensures { Writes O.written out.old out.new (λ text. text ++ (summary_text counts.now ++ 10 ∷ [])) }
{
    put_counts(out, counts);
    out.put(b"\n");
}

/// The summary's line, without its end.
pub fn put_counts<O: Out>(out: &mut O, counts: &Counts)
    ensures { Writes O.written out.old out.new (λ text. text ++ summary_text counts.now) }
{
    out.put(b"turns");
    put_count(out, counts.turns);
    put_named(out, b"commands", counts.commands);
    put_named(out, b"good", counts.good);
    put_named(out, b"check", counts.check);
    put_named(out, b"full", counts.full);
    put_named(out, b"aborted", counts.aborted);
    put_named(out, b"cut", counts.cut);
    put_named(out, b"strays", counts.strays);
}

fn put_named<O: Out>(out: &mut O, name: &[u8], count: u128)
    ensures { Writes O.written out.old out.new (λ text. spaced text (name.now ∷ decimal count ∷ [])) }
{
    put_word(out, name);
    put_count(out, count);
}

fn put_count<O: Out>(out: &mut O, count: u128)
    ensures { Writes O.written out.old out.new (λ text. spaced text (decimal count ∷ [])) }
{
    put_word(out, Buffer::new().format(count).as_bytes());
}
