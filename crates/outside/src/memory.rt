ghost use Rattle.std.specs.Prelude.{◌≡◌, ◌≢◌, ◌↔◌, ◌⊎◌, ◌<◌, ◌≤◌, Some, [], length, take, IsTrue, IfOk, vec_len, vec_capacity};
ghost use Rattle.std.specs.Io.KnownBytes.{Consumes};
ghost use Rattle.outside.specs.Answers.{IfGot, IfTook};
ghost use Rattle.outside.specs.Memory.{Schedule, SourceState, SinkState, IsDue, IsFull, fresh, passed, faulted, count_given, source_after, count_taken, sink_after};

use crate::{ReadAnswer, Sink, SinkAnswer, Source, SteadySource};
use disk_base::{Bytes, Calls, NoMemory};
use std::alloc::Global;
use std::marker::Model;

/// A source over memory that fails at stated calls, unless the buffer is empty.
#[derive(Debug, Drop)]
pub struct MemorySource {
    supply: SteadySource,
    timetable: Timetable,
}

impl Model for MemorySource {
    ghost Value = { SourceState };

    ghost view = { λ s. record { supply = s.supply; schedule = s.timetable } };
}

impl MemorySource {
    /// A source that gives these bytes, at most `most` a call, and fails at the calls of these numbers.
    pub fn new(bytes: Bytes, most: usize, failing: Calls) -> Self
        requires { 0 < most }
        ensures { result ≡ record { supply = record { left = bytes; most = most }; schedule = fresh failing } }
    {
        MemorySource {
            supply: SteadySource::new(bytes, most),
            timetable: Timetable::new(failing),
        }
    }
}

impl Source for MemorySource {
    ghost left = { λ s. Some s.supply.left };

    ghost faults = { λ s. s.schedule.faults };

    fn read(&mut self, into: &mut [u8]) -> ReadAnswer
        ensures faults_stay { self.old.schedule.faults ≤ self.new.schedule.faults }
        ensures fits { IfGot result (λ n. n ≤ length into.old) }
        ensures some { IfGot result (λ n. 0 < length into.old → 0 < n) }
        ensures got { IfGot result (λ n. Consumes (Some self.old.supply.left) (Some self.new.supply.left) (take n into.new)) }

        ensures fails { (result ≡ ReadAnswer.Failed) ↔ ((into.old ≢ []) × IsDue self.old.schedule) }
        ensures ends { result ≡ ReadAnswer.End → self.old.supply.left ≡ [] }
        ensures goes_on { IfGot result (λ _. self.old.supply.left ≢ []) }
        ensures count { IfGot result (λ n. n ≡ count_given self.old.supply (length into.old)) }
        ensures after { self.new ≡ source_after self.old result }
    {
        if !into.is_empty() && self.timetable.is_due() {
            self.timetable.fault();
            return ReadAnswer::Failed;
        }
        self.timetable.pass();
        self.supply.read(into)
    }
}

/// A sink over memory that fails at stated calls, and where it is full, unless the piece is empty.
#[derive(Debug, Drop)]
pub struct MemorySink {
    bytes: Vec<u8>,
    room: usize,
    most: usize,
    timetable: Timetable,
}

impl Model for MemorySink {
    ghost Value = { SinkState };

    ghost view = { λ s. record { held = s.bytes.items; room = s.room; most = s.most; schedule = s.timetable } };

    ghost invariant = { λ s. (vec_len s.bytes ≤ s.room) × (s.room ≤ vec_capacity s.bytes) × (0 < s.most) };
}

impl MemorySink {
    /// A sink that holds `room` bytes, for which it takes the memory at once. It takes at most `most` a call,
    /// and fails at the calls of these numbers.
    pub fn new(alloc: Global, room: usize, most: usize, failing: Calls) -> Result<Self, NoMemory>
        requires { 0 < most }
        ensures { IfOk result (λ sink. sink ≡ record { held = []; room = room; most = most; schedule = fresh failing }) }
    {
        let bytes = Vec::with_capacity(alloc, room)?;
        Ok(MemorySink {
            bytes,
            room,
            most,
            timetable: Timetable::new(failing),
        })
    }

    /// The bytes that it has.
    pub fn bytes(&self) -> &[u8]
        ensures { result.now ≡ self.now.held }
    {
        self.bytes.as_slice()
    }
}

impl Sink for MemorySink {
    ghost held = { λ s. Some s.held };

    ghost faults = { λ s. s.schedule.faults };

    fn write(&mut self, piece: &[u8]) -> SinkAnswer
        ensures faults_stay { self.old.schedule.faults ≤ self.new.schedule.faults }
        ensures fits { IfTook result (λ n. n ≤ length piece.now) }
        ensures some { IfTook result (λ n. 0 < length piece.now → 0 < n) }

        ensures fails { (result ≡ SinkAnswer.Failed) ↔ ((piece.now ≢ []) × (IsDue self.old.schedule ⊎ IsFull self.old)) }
        ensures count { IfTook result (λ n. n ≡ count_taken self.old (length piece.now)) }
        ensures after { self.new ≡ sink_after self.old piece.now result }
    {
        let count = piece.len().min(self.most.min(self.room - self.bytes.len()));
        if !piece.is_empty() && (count == 0 || self.timetable.is_due()) {
            self.timetable.fault();
            return SinkAnswer::Failed;
        }
        self.timetable.pass();
        self.bytes.extend_from_slice(&piece[..count]).unwrap();
        SinkAnswer::Took(count)
    }
}

// Counts the calls, of which some are to fail. Past `u64::MAX` calls the number stays, as does that of the faults.
#[derive(Debug, Drop)]
struct Timetable {
    failing: Calls,
    calls: u64,
    faults: u64,
}

impl Model for Timetable {
    ghost Value = { Schedule };

    ghost view = { λ t. record { failing = t.failing; calls = t.calls; faults = t.faults } };
}

impl Timetable {
    fn new(failing: Calls) -> Self
        ensures { result ≡ fresh failing }
    {
        Timetable {
            failing,
            calls: 0,
            faults: 0,
        }
    }

    fn is_due(&self) -> bool
        ensures { IsTrue result ↔ IsDue self.now }
    {
        let call = self.calls.saturating_add(1);
        self.failing.as_slice().contains(&call)
    }

    fn pass(&mut self)
        ensures { self.new ≡ passed self.old }
    {
        self.calls = self.calls.saturating_add(1);
    }

    fn fault(&mut self)
        ensures after { self.new ≡ faulted self.old }
        ensures faults_stay { self.old.faults ≤ self.new.faults }
    {
        self.calls = self.calls.saturating_add(1);
        self.faults = self.faults.saturating_add(1);
    }
}
