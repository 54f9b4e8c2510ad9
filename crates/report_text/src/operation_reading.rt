//! Reading an operation. More is taken than what is printed, since the line that is read is compared with the print.
ghost use Rattle.std.specs.Prelude.{◌≡◌, ◌∷◌, []};
ghost use Rattle.text_words.specs.Line.{texts_of};
ghost use Rattle.report_text.specs.Steps.{of_none};
ghost use Rattle.report_text.specs.OperationReading.{operation_form, place_of, place_in, torn_words, fetched_words, tried_words, shown_by, shown_from};

use crate::fields::{byte_of, left_of, sector_of, signed_of};
use crate::form::OperationForm;
use crate::shown::Shown;
use disk_base::Psn;
use platter_model::Attempt;

/// The operation that words give.
pub fn shown_from(words: &[&[u8]]) -> Option<Shown>
    ensures { result ≡ shown_from (texts_of words.now) }
{
    match words {
        [] => None,
        [first, rest @ ..] => shown_behind(first, rest),
    }
}

fn shown_behind(first: &[u8], words: &[&[u8]]) -> Option<Shown>
    ensures { result ≡ shown_from (first.now ∷ texts_of words.now) }
{
    let form = operation_form(first)?;
    shown_by(form, words)
}

/// The form of an operation, by its first word.
#[tactic(auto, unfolding(crate::specs::OperationReading::operation_form))]
fn operation_form(first: &[u8]) -> Option<OperationForm>
    ensures { result ≡ operation_form first.now }
{
    if first == b"fetch".as_slice() {
        Some(OperationForm::Fetched)
    } else if first == b"tried".as_slice() {
        Some(OperationForm::Tried)
    } else if first == b"wrote".as_slice() {
        Some(OperationForm::Wrote)
    } else if first == b"torn".as_slice() {
        Some(OperationForm::Torn)
    } else if first == b"failed".as_slice() {
        Some(OperationForm::WriteFailed)
    } else if first == b"damaged".as_slice() {
        Some(OperationForm::Damaged)
    } else if first == b"faulty".as_slice() {
        Some(OperationForm::Faulty)
    } else if first == b"cut".as_slice() {
        Some(OperationForm::Cut)
    } else if first == b"power".as_slice() {
        Some(OperationForm::Power)
    } else {
        None
    }
}

// The operation of a form, by the words behind the first.
fn shown_by(form: OperationForm, words: &[&[u8]]) -> Option<Shown>
    ensures { result ≡ shown_by form (texts_of words.now) }
{
    match form {
        OperationForm::Cut => lone(Shown::Cut, words),
        OperationForm::Power => lone(Shown::Power, words),
        OperationForm::Torn => torn_words(words),
        OperationForm::Fetched => fetched_words(words),
        OperationForm::Tried => tried_words(words),
        OperationForm::Wrote => Some(Shown::Wrote(place_in(words)?)),
        OperationForm::WriteFailed => Some(Shown::WriteFailed(place_in(words)?)),
        OperationForm::Damaged => Some(Shown::Damaged(place_in(words)?)),
        OperationForm::Faulty => Some(Shown::Faulty(place_in(words)?)),
    }
}

fn lone(shown: Shown, words: &[&[u8]]) -> Option<Shown>
    ensures { result ≡ of_none shown (texts_of words.now) }
{
    match words {
        [] => Some(shown),
        _ => None,
    }
}

fn place_in(words: &[&[u8]]) -> Option<Psn>
    ensures { result ≡ place_in (texts_of words.now) }
{
    match words {
        [p] => place_of(p),
        _ => None,
    }
}

fn place_of(word: &[u8]) -> Option<Psn>
    ensures { result ≡ place_of word.now }
{
    sector_of(0, u32::MAX, word)
}

fn torn_words(words: &[&[u8]]) -> Option<Shown>
    ensures { result ≡ torn_words (texts_of words.now) }
{
    match words {
        [p, left] => torn(p, left),
        _ => None,
    }
}

fn torn(p: &[u8], left: &[u8]) -> Option<Shown>
    ensures { result ≡ torn_words (p.now ∷ left.now ∷ []) }
{
    let p = place_of(p)?;
    Some(Shown::Torn {
        p,
        left: left_of(left),
    })
}

fn fetched_words(words: &[&[u8]]) -> Option<Shown>
    ensures { result ≡ fetched_words (texts_of words.now) }
{
    match words {
        [p, reread, offset] => fetched(p, reread, offset),
        _ => None,
    }
}

fn fetched(p: &[u8], reread: &[u8], offset: &[u8]) -> Option<Shown>
    ensures { result ≡ fetched_words (p.now ∷ reread.now ∷ offset.now ∷ []) }
{
    let p = place_of(p)?;
    let reread = byte_of(reread)?;
    let offset = signed_of(128, 0, 127, offset)?;
    Some(Shown::Fetched {
        p,
        attempt: Attempt { reread, offset },
    })
}

fn tried_words(words: &[&[u8]]) -> Option<Shown>
    ensures { result ≡ tried_words (texts_of words.now) }
{
    match words {
        [p, stage, found] => tried(p, stage, found),
        _ => None,
    }
}

fn tried(p: &[u8], stage: &[u8], found: &[u8]) -> Option<Shown>
    ensures { result ≡ tried_words (p.now ∷ stage.now ∷ found.now ∷ []) }
{
    let p = place_of(p)?;
    let stage = byte_of(stage)?;
    let found = found == b"found".as_slice();
    Some(Shown::Tried { p, stage, found })
}
