//! The words of a line, one after another.
ghost use Rattle.std.specs.Prelude.{◌≡◌, ◌≢◌, ◌∷◌, ◌<◌, ◌≤◌, ◌+◌, [], List, ℕ, length, ◌↔◌, IsTrue, IsSome, IfSome, IfNone, MatchOption};
ghost use Rattle.text_words.specs.Line.{texts_of, words_of};
ghost use Rattle.report_text.specs.Marks.{is_mark, before_mark, from_mark, words_in};

use arrayvec::ArrayVec;
use text_words::first_part;

/// The most words that an entry, an operation or a label has.
pub const WORDS_MAX: usize = 8;

/// The words that are left of a line.
#[derive(Clone, Copy)]
pub struct Words<'a> {
    rest: Option<&'a [u8]>,
}

/// The words of a line behind its first.
pub fn behind_first<'a>(line: &'a [u8]) -> Words<'a>
    ensures words { (first : List ℕ) × (words_of line.now ≡ first ∷ words_in result) }
    ensures few { length (words_in result) ≤ length line.now }
{
    let (_, rest) = first_part(b' ', line);
    Words { rest }
}

// The next word, and those behind it.
fn next_word<'a>(words: Words<'a>) -> Option<(&'a [u8], Words<'a>)>
    ensures { MatchOption result (words_in words.entry ≡ []) (λ r. words_in words.entry ≡ r.0.now ∷ words_in r.1) }
{
    let text = words.rest?;
    let (word, rest) = first_part(b' ', text);
    Some((word, Words { rest }))
}

/// The words behind the next, where it is this one.
pub fn behind_word<'a>(wanted: &[u8], words: Words<'a>) -> Option<Words<'a>>
    ensures some { IfSome result (λ r. words_in words.entry ≡ wanted.now ∷ words_in r) }
    ensures none { IfNone result ((rest : List (List ℕ)) → words_in words.entry ≢ wanted.now ∷ rest) }
{
    let (word, rest) = next_word(words)?;
    if word == wanted { Some(rest) } else { None }
}

/// The words before the next mark, where there are few, and those from it on.
pub fn front<'a>(words: Words<'a>) -> Option<(ArrayVec<&'a [u8], WORDS_MAX>, Words<'a>)>
    ensures few { length (before_mark (words_in words.entry)) ≤ 8 → IsSome result }
    ensures front { IfSome result (λ r. texts_of r.0.items ≡ before_mark (words_in words.entry)) }
    ensures left { IfSome result (λ r. words_in r.1 ≡ from_mark (words_in words.entry)) }
{
    let mut front = ArrayVec::new();
    let mut left = words;
    while let Some((word, rest)) = next_unmarked(left) {
        if front.is_full() {
            return None;
        }
        front.push(word);
        left = rest;
    }
    Some((front, left))
}

// The next word, where it isn't a mark, and those behind it.
fn next_unmarked<'a>(words: Words<'a>) -> Option<(&'a [u8], Words<'a>)>
    ensures none { IfNone result ((before_mark (words_in words.entry) ≡ []) × (from_mark (words_in words.entry) ≡ words_in words.entry)) }
    ensures some { IfSome result (λ r. (before_mark (words_in words.entry) ≡ r.0.now ∷ before_mark (words_in r.1)) × (from_mark (words_in words.entry) ≡ from_mark (words_in r.1))) }
    ensures shorter { IfSome result (λ r. length (words_in r.1) < length (words_in words.entry)) }
{
    let (word, rest) = next_word(words)?;
    if is_mark(word) {
        None
    } else {
        Some((word, rest))
    }
}

fn is_mark(word: &[u8]) -> bool
    ensures { result ≡ is_mark word.now }
{
    word == b"<".as_slice() || word == b">".as_slice()
}
