ghost use Rattle.std.specs.Prelude.{◌≡◌, ◌==◌, position, ◌≤◌, ◌↔◌, [], ◌∷◌, length, IsSome, IfSome, MatchOption};
ghost use Rattle.text_words.specs.Line.{parts_at, words_of, texts_of};

use arrayvec::ArrayVec;
use memchr::memchr;

/// The first of the parts that a byte parts a text into, and what stands behind that byte, where it is there.
pub fn first_part(byte: u8, text: &[u8]) -> (&[u8], Option<&[u8]>)
    ensures { MatchOption result.1 (parts_at byte text.now ≡ result.0.now ∷ []) (λ rest. parts_at byte text.now ≡ result.0.now ∷ parts_at byte rest.now) }
{
    match place_of(byte, text) {
        Some(at) => (&text[..at], Some(&text[at + 1..])),
        None => (text, None),
    }
}

// So many bytes are looked at one by one: most words are short, and a search by groups of bytes takes longer to set up.
const NEAR: usize = 16;

fn place_of(byte: u8, text: &[u8]) -> Option<usize>
    ensures { result ≡ position (λ b. b == byte) text.now }
{
    let near = NEAR.min(text.len());
    for i in 0..near {
        if text[i] == byte {
            return Some(i);
        }
    }
    match memchr(byte, &text[near..]) {
        Some(at) => Some(near + at),
        None => None,
    }
}

/// The words of a line, where there are no more than `MOST`.
pub fn read_words<'a, const MOST: usize>(line: &'a [u8]) -> Option<ArrayVec<&'a [u8], MOST>>
    ensures few { IsSome result ↔ (length (words_of line.now) ≤ MOST) }
    ensures words { IfSome result (λ words. texts_of words.items ≡ words_of line.now) }
{
    let mut words = ArrayVec::new();
    let mut left = Some(line);
    while let Some(text) = left {
        if words.is_full() {
            return None;
        }
        let (word, rest) = first_part(b' ', text);
        words.push(word);
        left = rest;
    }
    Some(words)
}
