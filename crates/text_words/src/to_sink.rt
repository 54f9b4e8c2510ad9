ghost use Rattle.std.specs.Prelude.{◌≡◌, ◌≤◌, ◌+◌, [], ◌++◌, length, ℕ, List};
ghost use Rattle.std.specs.Io.KnownBytes.{Appends};
ghost use Rattle.outside.specs.Faults.{Rises};
ghost use Rattle.outside.specs.Pieces.{AppendsFront};
ghost use Rattle.text_words.specs.Written.{Writes};

use crate::Out;
use crate::gathered::Gathered;
use outside::{Printed, Sink, offer};

/// A place that gathers what is put, and offers it to a sink when it is full and once at the end.
#[derive(Drop)]
pub struct ToSink<'a, K> {
    sink: &'a mut K,
    gathered: Gathered,
    has_failed: bool,
}

impl<'a, K: Sink> ToSink<'a, K> {
    pub fn new(sink: &'a mut K) -> ToSink<'a, K>
        ensures same_reference { result.sink.ghost_name ≡ sink.entry.ghost_name }
        ensures same { result.sink.now ≡ sink.old }
        ensures fresh { ⟦<ToSink<'a, K> as Out>⟧.written result [] result }
    {
        ToSink {
            sink,
            gathered: Gathered::new(),
            has_failed: false,
        }
    }

    /// Offers the sink what is left. `Fault` says that some write has failed, now or before.
    pub fn finish(&mut self) -> Printed
        ensures same_reference { self.new.sink.ghost_name ≡ self.old.sink.ghost_name }
        ensures all { (start : _) (text : List ℕ) → ⟦<ToSink<'a, K> as Out>⟧.written start text self.old → result ≡ Printed.All → Appends (K.held start.sink.now) (K.held self.new.sink.now) text }
        ensures no_fault { (start : _) (text : List ℕ) → ⟦<ToSink<'a, K> as Out>⟧.written start text self.old → result ≡ Printed.All → K.faults self.new.sink.now ≡ K.faults start.sink.now }
        ensures fault { (start : _) (text : List ℕ) → ⟦<ToSink<'a, K> as Out>⟧.written start text self.old → result ≡ Printed.Fault → Rises (K.faults start.sink.now) (K.faults self.new.sink.now) }
        ensures front { (start : _) (text : List ℕ) → ⟦<ToSink<'a, K> as Out>⟧.written start text self.old → AppendsFront (K.held start.sink.now) (K.held self.new.sink.now) text }
    {
        self.offer_gathered();
        if self.has_failed {
            Printed::Fault
        } else {
            Printed::All
        }
    }

    fn gather(&mut self, piece: &[u8])
        requires { length self.old.gathered + length piece.now ≤ 4000 }
        ensures written { Writes ⟦<ToSink<'a, K> as Out>⟧.written self.old self.new (λ text. text ++ piece.now) }
        ensures gathered { self.new.gathered ≡ self.old.gathered ++ piece.now }
    {
        self.gathered.add(piece);
    }

    #[tactic(auto, using(crate::proofs::Gathering::gathered_taken, crate::proofs::Gathering::gathered_failed, crate::proofs::Gathering::gathered_lost))]
    fn offer_gathered(&mut self)
        ensures same_reference { self.new.sink.ghost_name ≡ self.old.sink.ghost_name }
        ensures written { Writes ⟦<ToSink<'a, K> as Out>⟧.written self.old self.new (λ text. text) }
        ensures empty { self.new.gathered ≡ [] }
    {
        if !self.has_failed {
            self.has_failed = match offer(self.sink, self.gathered.as_slice()) {
                Printed::All => false,
                Printed::Fault => true,
            };
        }
        self.gathered.clear();
    }
}

impl<'a, K: Sink> Out for ToSink<'a, K> {
    ghost use Rattle.text_words.specs.ToSink.{IsWritten};

    ghost written = { IsWritten K.held K.faults };

    fn put(&mut self, piece: &[u8]) {
        let mut at = 0;
        while self.gathered.room() <= piece.len() - at {
            let end = at + self.gathered.room();
            self.gather(&piece[at..end]);
            self.offer_gathered();
            at = end;
        }
        self.gather(&piece[at..]);
    }
}
