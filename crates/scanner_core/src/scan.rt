ghost use Rattle.std.specs.Prelude.{◌≡◌, ℕ, ◌+◌, ◌<◌, ◌≤◌, IsSome, is_some, Some, None};
ghost use Rattle.read_recovery.specs.Stages.{next_stage};
ghost use Rattle.scanner_core.specs.Scan.{begun, reading, gone_on, finding_of, answered, IsAfter};

use crate::ScanFinding;
use disk_base::{Lba, Stage};
use read_recovery::{RETRY_MAX, Trying};
use std::marker::Model;

/// The background scan of a drive. Contracts see it as a record of the drive's capacity, the block that it is at, how often
/// it went over all blocks, and how far the read of its block has come, where one is in hand.
#[derive(Debug, Drop)]
pub struct Scan {
    capacity: u64,
    cursor: u64,
    passes: u16,
    step: Option<Trying>,
}

impl Model for Scan {
    ghost use Rattle.scanner_core.specs.Scan.{Scan, scan_of, IsScan};

    ghost Value = { Scan };

    ghost view = { λ s. scan_of s.capacity s.cursor s.passes s.step };

    ghost invariant = { λ s. IsScan (scan_of s.capacity s.cursor s.passes s.step) };
}

impl Scan {
    /// A scan that begins at the first block.
    pub fn new(capacity: u64) -> Self
        requires { 0 < capacity }
        ensures value { result ≡ begun capacity }
        ensures counted { IsAfter 0 result }
    {
        Scan {
            capacity,
            cursor: 0,
            passes: 0,
            step: None,
        }
    }

    /// The block that the scan is at.
    pub fn cursor(&self) -> Lba
        ensures value { result.0 ≡ self.now.cursor }
        ensures below { result.0 < self.now.capacity }
    {
        Lba(self.cursor)
    }

    /// How often the scan went over all blocks, counted up to 65,535.
    pub fn passes(&self) -> u16
        ensures { result ≡ self.now.passes }
    {
        self.passes
    }

    /// Whether a read of the cursor's block is in hand.
    pub fn is_reading(&self) -> bool
        ensures { result ≡ is_some self.now.step }
    {
        self.step.is_some()
    }

    /// The stage to try at the cursor's block. The retry count is that of a read that begins with it; a read in hand keeps
    /// its own.
    pub fn need(&self, retry: u8) -> Stage
        requires { retry ≤ RETRY_MAX }
        ensures { next_stage (reading self.now retry) ≡ Some result }
    {
        match &self.step {
            Some(trying) => trying.next().unwrap(),
            None => Trying::new(retry).next().unwrap(),
        }
    }

    /// Passes the cursor's block over, no read of which is in hand.
    pub fn skip(&mut self)
        requires { self.old.step ≡ None }
        ensures after { self.new ≡ gone_on self.old }
        ensures counted { (n : ℕ) → IsAfter n self.old → IsAfter (n + 1) self.new }
    {
        self.go_on();
    }

    /// Takes whether the needed stage found the block, and says what the scan found once the read of the block is over.
    pub fn answer(&mut self, retry: u8, found: bool) -> Option<ScanFinding>
        requires { retry ≤ RETRY_MAX }
        ensures value { result ≡ finding_of self.old retry found }
        ensures after { self.new ≡ answered self.old retry found }
        ensures counted { (n : ℕ) → IsSome result → IsAfter n self.old → IsAfter (n + 1) self.new }
    {
        let mut trying = match self.step.take() {
            Some(trying) => trying,
            None => Trying::new(retry),
        };
        trying.answer(found);
        if trying.next().is_some() {
            self.step = Some(trying);
            return None;
        }
        self.go_on();
        Some(ScanFinding::by(trying.found_at()))
    }

    /// Lets a read in hand go. The scan stays at the block.
    pub fn let_go(&mut self)
        ensures { self.new ≡ record self.old { step = None } }
    {
        self.step = None;
    }

    // Goes on to the next block, behind the last one to the first.
    fn go_on(&mut self)
        requires { self.old.step ≡ None }
        ensures after { self.new ≡ gone_on self.old }
        ensures counted { (n : ℕ) → IsAfter n self.old → IsAfter (n + 1) self.new }
    {
        if self.cursor + 1 == self.capacity {
            self.cursor = 0;
            self.passes = self.passes.saturating_add(1);
        } else {
            self.cursor += 1;
        }
    }
}
