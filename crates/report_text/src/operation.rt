//! The text of an operation.
ghost use Rattle.std.specs.Prelude.{◌≡◌, ◌∷◌, [], ◌++◌};
ghost use Rattle.text_words.specs.Line.{spaced};
ghost use Rattle.text_words.specs.Written.{Writes};
ghost use Rattle.script_text.specs.Spelling.{left_word};
ghost use Rattle.report_text.specs.Operations.{found_word, shown_words};
ghost use Rattle.std.specs.Prelude.{decimal};

use crate::shown::Shown;
use disk_base::Psn;
use platter_model::Left;
use text_words::{Out, put_number, put_signed, put_word};

/// The words of an operation, each after a blank.
pub fn put_shown<O: Out>(out: &mut O, shown: &Shown)
    ensures { Writes O.written out.old out.new (λ text. spaced text (shown_words shown.now)) }
{
    match shown {
        Shown::Wrote(p) => put_at(out, b"wrote", *p),
        Shown::Torn { p, left } => {
            put_at(out, b"torn", *p);
            put_word(out, left_word(*left));
        }
        Shown::WriteFailed(p) => put_at(out, b"failed", *p),
        Shown::Damaged(p) => put_at(out, b"damaged", *p),
        Shown::Faulty(p) => put_at(out, b"faulty", *p),
        Shown::Fetched { p, attempt } => {
            put_at(out, b"fetch", *p);
            put_number(out, u64::from(attempt.reread));
            put_signed(out, i64::from(attempt.offset));
        }
        Shown::Tried { p, stage, found } => {
            put_at(out, b"tried", *p);
            put_number(out, u64::from(*stage));
            put_word(out, found_word(*found));
        }
        Shown::Cut => put_word(out, b"cut"),
        Shown::Power => put_word(out, b"power"),
    }
}

// A word and a sector.
fn put_at<O: Out>(out: &mut O, first: &[u8], p: Psn)
    ensures { Writes O.written out.old out.new (λ text. spaced text (first.now ∷ decimal p.0 ∷ [])) }
{
    put_word(out, first);
    put_number(out, u64::from(p.0));
}

fn left_word(left: Left) -> &'static [u8]
    ensures { result.now ≡ left_word left }
{
    match left {
        Left::Old => b"old",
        Left::New => b"new",
        Left::Nothing => b"none",
    }
}

fn found_word(found: bool) -> &'static [u8]
    ensures { result.now ≡ found_word found }
{
    if found { b"found" } else { b"none" }
}
