ghost use Rattle.std.specs.Prelude.{◌≡◌, ◌≢◌, ℕ, ◌<◌, ◌≤◌, List, [], Option, length, take};
ghost use Rattle.std.specs.Io.KnownBytes.{Consumes, IsAtEnd, Keeps};
ghost use Rattle.outside.specs.Answers.{IfGot};
ghost use Rattle.outside.specs.Faults.{Rises, counted};

/// What a read answers.
#[derive(Clone, Copy, Debug, PartialEq, Eq)]
pub enum ReadAnswer {
    /// The first so many bytes of the buffer were read.
    Got(usize),
    End,
    Failed,
}

/// Bytes that are read in pieces.
pub trait Source {
    /// The bytes left, where they are known.
    ghost left: { Self → Option (List ℕ) };

    /// How often a read has failed.
    ghost faults: { Self → ℕ };

    /// Reads into the front of a buffer; what stands behind the bytes got is free. An empty buffer is no fault.
    fn read(&mut self, into: &mut [u8]) -> ReadAnswer
        ensures faults_stay { faults self.old ≤ faults self.new }
        ensures failed { result ≡ ReadAnswer.Failed → Rises (faults self.old) (faults self.new) }
        ensures one_fault { result ≡ ReadAnswer.Failed → faults self.new ≡ counted (faults self.old) }
        ensures no_fault { result ≢ ReadAnswer.Failed → faults self.new ≡ faults self.old }
        ensures empty { into.old ≡ [] → result ≢ ReadAnswer.Failed }

        ensures fits { IfGot result (λ n. n ≤ length into.old) }
        ensures some { IfGot result (λ n. 0 < length into.old → 0 < n) }
        ensures got { IfGot result (λ n. Consumes (left self.old) (left self.new) (take n into.new)) }

        ensures at_end { result ≡ ReadAnswer.End → IsAtEnd (left self.new) }
        ensures end_takes_none { result ≡ ReadAnswer.End → Keeps (left self.old) (left self.new) }
        ensures failed_takes_none { result ≡ ReadAnswer.Failed → Keeps (left self.old) (left self.new) };
}
