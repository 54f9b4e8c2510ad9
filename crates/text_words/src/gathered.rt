ghost use Rattle.std.specs.Prelude.{◌≡◌, ◌≤◌, ◌+◌, [], ◌++◌, length};

use std::marker::Model;

/// The bytes that are gathered before a sink is asked.
pub const GATHERED_MAX: usize = 4000;

// Bytes on their way to a sink.
#[derive(Drop)]
pub(crate) struct Gathered {
    bytes: [u8; GATHERED_MAX],
    count: usize,
}

impl Model for Gathered {
    ghost use Rattle.std.specs.Prelude.{◌≤◌, ℕ, List, take};

    ghost Value = { List ℕ };

    ghost view = { λ g. take g.count g.bytes };

    ghost invariant = { λ g. g.count ≤ 4000 };
}

impl Gathered {
    pub(crate) fn new() -> Self
        ensures { result ≡ [] }
    {
        Gathered {
            bytes: [0; GATHERED_MAX],
            count: 0,
        }
    }

    #[inline]
    pub(crate) fn room(&self) -> usize
        ensures { result + length self.now ≡ 4000 }
    {
        GATHERED_MAX - self.count
    }

    pub(crate) fn as_slice(&self) -> &[u8]
        ensures { result.now ≡ self.now }
    {
        &self.bytes[..self.count]
    }

    #[inline]
    pub(crate) fn add(&mut self, piece: &[u8])
        requires { length self.old + length piece.now ≤ 4000 }
        ensures { self.new ≡ self.old ++ piece.now }
    {
        let end = self.count + piece.len();
        self.bytes[self.count..end].copy_from_slice(piece);
        self.count = end;
    }

    pub(crate) fn clear(&mut self)
        ensures { self.new ≡ [] }
    {
        self.count = 0;
    }
}
