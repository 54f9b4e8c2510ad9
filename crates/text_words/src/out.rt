ghost use Rattle.std.specs.Prelude.{ℕ, List, ◌++◌};
ghost use Rattle.text_words.specs.Written.{Writes};

/// A place that a text is written to, piece by piece. A place that fails goes on as if nothing were wrong, and
/// tells it at its end.
pub trait Out {
    /// From the first to the second, this text was written.
    ghost written: { Self → List ℕ → Self → Type 0 };

    fn put(&mut self, piece: &[u8])
        ensures { Writes written self.old self.new (λ text. text ++ piece.now) };
}
