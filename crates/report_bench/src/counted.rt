ghost use Rattle.std.specs.Prelude.{◌≡◌, None, length};

use outside::{Sink, SinkAnswer};

/// The sum over a number more.
pub fn mixed(sum: u64, worth: u64) -> u64 {
    sum.wrapping_mul(31).wrapping_add(worth)
}

/// A sink that takes every piece whole and keeps only a sum over the pieces' lengths and last bytes.
#[derive(Clone, Copy, Debug, Default)]
pub struct Counted {
    pub sum: u64,
}

impl Sink for Counted {
    ghost held = { λ _. None };

    ghost faults = { λ _. 0 };

    fn write(&mut self, piece: &[u8]) -> SinkAnswer
        ensures { result ≡ SinkAnswer.Took (length piece.now) }
    {
        let last = piece.last().copied().unwrap_or(0);
        self.sum = mixed(self.sum, mixed(piece.len() as u64, u64::from(last)));
        SinkAnswer::Took(piece.len())
    }
}
