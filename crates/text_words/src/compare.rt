ghost use Rattle.std.specs.Prelude.{◌≡◌, ◌≢◌, ◌++◌, ◌↔◌, IsTrue, IfSome, IfNone, [], List, ℕ};
ghost use Rattle.text_words.specs.Written.{IsCompared};

use crate::Out;

/// A place that compares what is put with a text.
#[derive(Drop)]
pub struct Compare<'a> {
    rest: &'a [u8],
    is_front: bool,
}

impl<'a> Compare<'a> {
    pub fn new(text: &'a [u8]) -> Compare<'a>
        ensures rest { result.rest.now ≡ text.now }
        ensures fresh { ⟦<Compare<'a> as Out>⟧.written result [] result }
    {
        Compare {
            rest: text,
            is_front: true,
        }
    }

    /// Whether what was put is the text.
    pub fn is_all(&self) -> bool
        ensures { (start : _) (text : List ℕ) → ⟦<Compare<'a> as Out>⟧.written start text self.now → IsTrue result ↔ (start.rest.now ≡ text) }
    {
        self.is_front && self.rest.is_empty()
    }
}

impl<'a> Out for Compare<'a> {
    ghost written = { λ start text now. IsCompared start.rest.now text now.rest.now now.is_front };

    fn put(&mut self, piece: &[u8]) {
        if self.is_front {
            match behind_front(piece, self.rest) {
                Some(rest) => self.rest = rest,
                None => self.is_front = false,
            }
        }
    }
}

// Pieces below this are compared byte by byte.
const SHORT: usize = 16;

// What stands behind a piece at the front of a text, where it stands there.
fn behind_front<'a>(piece: &[u8], text: &'a [u8]) -> Option<&'a [u8]>
    ensures some { IfSome result (λ rest. text.now ≡ piece.now ++ rest.now) }
    ensures none { IfNone result ((rest : List ℕ) → text.now ≢ piece.now ++ rest) }
{
    if piece.len() < SHORT {
        behind_short(piece, text)
    } else {
        text.strip_prefix(piece)
    }
}

fn behind_short<'a>(piece: &[u8], text: &'a [u8]) -> Option<&'a [u8]>
    ensures some { IfSome result (λ rest. text.now ≡ piece.now ++ rest.now) }
    ensures none { IfNone result ((rest : List ℕ) → text.now ≢ piece.now ++ rest) }
{
    if text.len() < piece.len() {
        return None;
    }
    for i in 0..piece.len() {
        if text[i] != piece[i] {
            return None;
        }
    }
    Some(&text[piece.len()..])
}
