ghost use Rattle.std.specs.Prelude.{◌≡◌, ◌≢◌, ℕ, ◌<◌, ◌≤◌, List, [], Option, length, take};
ghost use Rattle.std.specs.Io.KnownBytes.{Appends, Keeps};
ghost use Rattle.outside.specs.Answers.{IfTook};
ghost use Rattle.outside.specs.Faults.{Rises, counted};

/// What a write answers.
#[derive(Clone, Copy, Debug, PartialEq, Eq)]
pub enum SinkAnswer {
    /// The first so many bytes of the piece were taken.
    Took(usize),
    Failed,
}

/// A place that bytes are written to in pieces.
pub trait Sink {
    /// The bytes that it has, where they are known.
    ghost held: { Self → Option (List ℕ) };

    /// How often a write has failed.
    ghost faults: { Self → ℕ };

    /// Offers a piece. To take nothing of a piece that has bytes is a fault; an empty piece is none.
    fn write(&mut self, piece: &[u8]) -> SinkAnswer
        ensures faults_stay { faults self.old ≤ faults self.new }
        ensures failed { result ≡ SinkAnswer.Failed → Rises (faults self.old) (faults self.new) }
        ensures one_fault { result ≡ SinkAnswer.Failed → faults self.new ≡ counted (faults self.old) }
        ensures no_fault { result ≢ SinkAnswer.Failed → faults self.new ≡ faults self.old }
        ensures empty { piece.now ≡ [] → result ≡ SinkAnswer.Took 0 }

        ensures fits { IfTook result (λ n. n ≤ length piece.now) }
        ensures some { IfTook result (λ n. 0 < length piece.now → 0 < n) }
        ensures took { IfTook result (λ n. Appends (held self.old) (held self.new) (take n piece.now)) }
        ensures failed_takes_none { result ≡ SinkAnswer.Failed → Keeps (held self.old) (held self.new) };
}
