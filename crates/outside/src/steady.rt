ghost use Rattle.std.specs.Prelude.{◌≡◌, ◌≢◌, ◌↔◌, ◌<◌, ◌≤◌, Some, None, [], length, take, drop};
ghost use Rattle.std.specs.Io.KnownBytes.{Consumes};
ghost use Rattle.outside.specs.Answers.{IfGot};
ghost use Rattle.outside.specs.Memory.{Supply, count_given, supply_after};

use crate::{ReadAnswer, Sink, SinkAnswer, Source};
use disk_base::Bytes;
use std::marker::Model;

/// A source over memory that never fails.
#[derive(Debug, Drop)]
pub struct SteadySource {
    bytes: Bytes,
    given: usize,
    most: usize,
}

impl Model for SteadySource {
    ghost Value = { Supply };

    ghost view = { λ s. record { left = drop s.given s.bytes; most = s.most } };

    ghost invariant = { λ s. (s.given ≤ length s.bytes) × (0 < s.most) };
}

impl SteadySource {
    /// A source that gives these bytes, at most `most` a call.
    pub fn new(bytes: Bytes, most: usize) -> Self
        requires { 0 < most }
        ensures { result ≡ record { left = bytes; most = most } }
    {
        SteadySource {
            bytes,
            given: 0,
            most,
        }
    }
}

impl Source for SteadySource {
    ghost left = { λ s. Some s.left };

    ghost faults = { λ _. 0 };

    fn read(&mut self, into: &mut [u8]) -> ReadAnswer
        ensures fits { IfGot result (λ n. n ≤ length into.old) }
        ensures some { IfGot result (λ n. 0 < length into.old → 0 < n) }
        ensures got { IfGot result (λ n. Consumes (Some self.old.left) (Some self.new.left) (take n into.new)) }

        ensures steady { result ≢ ReadAnswer.Failed }
        ensures ends { (result ≡ ReadAnswer.End) ↔ (self.old.left ≡ []) }
        ensures count { IfGot result (λ n. n ≡ count_given self.old (length into.old)) }
        ensures after { self.new ≡ supply_after self.old result }
    {
        let rest = &self.bytes.as_slice()[self.given..];
        if rest.is_empty() {
            return ReadAnswer::End;
        }
        let count = rest.len().min(self.most.min(into.len()));
        into[..count].copy_from_slice(&rest[..count]);
        self.given += count;
        ReadAnswer::Got(count)
    }
}

/// A sink that takes every piece whole, keeps no byte and never fails. It tells no bytes, so it serves where
/// only the answer matters.
#[derive(Clone, Copy, Debug, Default)]
pub struct SteadySink;

impl SteadySink {
    pub fn new() -> Self {
        SteadySink
    }
}

impl Sink for SteadySink {
    ghost held = { λ _. None };

    ghost faults = { λ _. 0 };

    fn write(&mut self, piece: &[u8]) -> SinkAnswer
        ensures { result ≡ SinkAnswer.Took (length piece.now) }
    {
        SinkAnswer::Took(piece.len())
    }
}
