ghost use Rattle.std.specs.Prelude.{◌≡◌, ℕ, ◌↔◌, ◌+◌, ◌*◌, ◌^◌, ◌≤◌, ◌<◌, IsTrue, IsSome, Some, length, slice_range};
ghost use Rattle.cdb_reader.specs.Plan.{plan_after, block_of};
ghost use Rattle.cdb_reader.specs.Read.{in_range, has_data, has_length};
ghost use Rattle.cdb_reader.specs.Request.{request_of};
ghost use Rattle.command_engine.specs.Course.{course_of, block_owed, owes_block, next_block, puts_next};
ghost use Rattle.command_engine.specs.Need.{IsBelow, end_of, need_of};
ghost use Rattle.command_engine.specs.Ending.{ending_of};
ghost use Rattle.command_engine.specs.Standing.{IsCourse};
ghost use Rattle.command_engine.specs.Answers.{Known, fits, after, deeds_of, with_page, recovered_after, is_hardened};
ghost use Rattle.command_engine.specs.Bound.{answers_left};

use crate::beginning::{gives_data, owed_by};
use crate::ending::{fault, reassigned, report, unread};
use crate::owed::Owed;
use crate::{Answer, Need, Recovery, Step, needs};
use cdb_reader::Command;
use disk_base::{BLOCK_LENGTH, Block, DataOut, Lba, Value};
use mode_pages::Settings;
use read_recovery::Trying;
use sense_data::Reply;
use std::marker::Model;

/// A started command on its way to its end. Contracts see where it stands: the settings that it began with, the plan that
/// it still owes, how many descriptors of its list were moved, what is to be done about the block that comes next, and the
/// last block that was found past the plain read.
///
/// Blocks are moved to spare sectors for REASSIGN BLOCKS alone as yet. So a block that a heavy stage found is given like
/// any other, whatever ARRE is, and a write may fault only where AWRE is 0.
#[derive(Debug, Drop)]
pub struct Work {
    settings: Settings,
    gives: bool,
    owed: Owed,
    step: Step,
    recovered: Option<Recovery>,
}

impl Model for Work {
    ghost use Rattle.command_engine.specs.Course.{Course};
    ghost use Rattle.command_engine.specs.Standing.{IsCourse};
    ghost use Rattle.command_engine.specs.Owed.{plan_owed, moved_owed};

    ghost Value = { Course };

    ghost view = { λ w. record { settings = w.settings; gives = w.gives; plan = plan_owed w.owed; moved = moved_owed w.owed; step = w.step; recovered = w.recovered } };

    ghost invariant = { λ w. IsCourse (record { settings = w.settings; gives = w.gives; plan = plan_owed w.owed; moved = moved_owed w.owed; step = w.step; recovered = w.recovered }) };
}

impl Work {
    /// A command that was accepted, with its data, as it starts. It goes by these settings to its end. The bytes that a
    /// command gives, their refusals, and the changes of a MODE SELECT are left to the caller, who looks at them first: here
    /// a MODE SELECT ends at once.
    pub fn new(command: Command, sent: DataOut, settings: Settings) -> Self
        requires retry { settings.retry ≤ 20 }
        // Sense data name a block by 32 bits.
        requires range { IsTrue (in_range (request_of command) (2 ^ 32)) }
        requires data_length { IsTrue (has_data (request_of command) sent) }
        ensures value { result ≡ course_of (request_of command) sent settings }
        ensures range { (capacity : ℕ) → IsTrue (in_range (request_of command) capacity) → end_of result.plan ≤ capacity }
    {
        let gives = gives_data(&command);
        Work {
            settings,
            gives,
            owed: owed_by(command, sent, &settings),
            step: Step::Trying(Trying::new(settings.retry)),
            recovered: None,
        }
    }

    /// The settings that the command goes by. Whether a value that is kept clean answers a need is by these.
    pub fn settings(&self) -> Settings
        ensures { result ≡ self.now.settings }
    {
        self.settings
    }

    /// Whether the values that the command gets are its data. Other commands only look whether they can be read.
    pub fn gives_data(&self) -> bool
        ensures { result ≡ self.now.gives }
    {
        self.gives
    }

    /// Whether the block that comes next was hardened for this read, and isn't got yet.
    pub fn is_hardened(&self) -> bool
        ensures { result ≡ is_hardened self.now.plan }
    {
        match &self.owed {
            Owed::Reading(reading) => reading.hardened,
            Owed::Reply(_)
            | Owed::Page(_)
            | Owed::Unread(_)
            | Owed::Writing(_)
            | Owed::Syncing(_)
            | Owed::Moving(_) => false,
        }
    }

    /// Holds of every command wherever it stands.
    pub fn stands_by_its_plan(&self)
        ensures { IsCourse self.now }
    {
        let _ = &self.owed;
    }

    /// What is needed next.
    pub fn need(&self) -> Need
        ensures value { result ≡ need_of self.now }
        ensures range { IsBelow (end_of self.now.plan) result }
    {
        match &self.owed {
            Owed::Reply(_) | Owed::Unread(_) => Need::Nothing,
            Owed::Page(_) => Need::Page,
            Owed::Reading(reading) => needs::of_reading(reading, &self.step),
            Owed::Writing(writing) => needs::of_writing(writing, &self.step),
            Owed::Syncing(syncing) => needs::of_syncing(syncing, &self.step),
            Owed::Moving(list) => needs::of_moving(list.in_hand(), &self.step),
        }
    }

    /// How the command ends, once nothing is needed any more.
    pub fn ending(&self) -> Option<Reply>
        ensures value { result ≡ ending_of self.now }
        ensures last { (need_of self.now ≡ Need.Nothing) ↔ IsSome result }
    {
        match &self.owed {
            Owed::Reply(reply) => Some(*reply),
            Owed::Page(_) => None,
            Owed::Unread(b) => Some(unread(*b)),
            Owed::Reading(reading) if reading.at < reading.end => fault(&self.step, reading.at),
            Owed::Reading(reading) => Some(report(reading.reports, &self.recovered)),
            Owed::Writing(writing) if writing.at < writing.end => fault(&self.step, writing.at),
            Owed::Syncing(syncing) if syncing.at < syncing.end => fault(&self.step, syncing.at),
            Owed::Writing(_) | Owed::Syncing(_) => Some(Reply::good()),
            Owed::Moving(list) => reassigned(list.in_hand(), &self.step),
        }
    }

    /// Goes on with an answer to the need. `Known` is what only the history knows besides: the bytes of a page, and
    /// which blocks are dirty.
    pub fn answer(&mut self, answer: Answer)
        requires { IsTrue (fits self.old answer) }
        ensures after { self.new ≡ after self.old answer }
        ensures owes { (known : Known) → plan_after (Some (with_page known.page self.old.plan)) (deeds_of self.old answer known)
            ≡ Some (with_page known.page self.new.plan) }
        ensures nearer { answers_left self.new < answers_left self.old }
        ensures range { end_of self.new.plan ≤ end_of self.old.plan }
    {
        let recovered = self.recovered_after(&answer);
        let settled = self.owed.settled(&self.step);
        let lost = self
            .step
            .advance(&answer, self.settings.retry, self.owed.is_moving());
        self.owed.advance(&answer, lost, settled);
        self.recovered = recovered;
    }

    /// The data of the k-th block of a command that writes, counted from 0, as long as a block is still to be written.
    pub fn value(&self, k: u64) -> Block
        requires { IsTrue (owes_block self.now.plan k) }
        ensures { result ≡ block_owed self.now.plan k }
    {
        match &self.owed {
            Owed::Writing(writing) => block_at(&writing.sent, k, writing.end - writing.from),
            _ => [0; BLOCK_LENGTH],
        }
    }

    /// The data of the block that the command puts next.
    pub fn next_block(&self) -> Block
        requires { IsTrue (puts_next self.now.plan) }
        ensures { result ≡ next_block self.now.plan }
    {
        match &self.owed {
            Owed::Writing(writing) => block_at(
                &writing.sent,
                writing.at - writing.from,
                writing.end - writing.from,
            ),
            _ => [0; BLOCK_LENGTH],
        }
    }

    // The last block that was found past the plain read, after an answer.
    fn recovered_after(&self, answer: &Answer) -> Option<Recovery>
        ensures { result ≡ recovered_after self.now.plan self.now.step answer.now self.now.recovered }
    {
        if let (Owed::Reading(reading), Step::Trying(trying), Answer::Got(Value::Data(_))) = (
            &self.owed, &self.step, answer,
        )
            && let Some(stage) = trying.next()
            && stage.number > 0
        {
            return Some(Recovery {
                b: Lba(reading.at),
                stage,
            });
        }
        self.recovered
    }
}

// The k-th block of the data of a write.
fn block_at(sent: &DataOut, k: u64, count: u64) -> Block
    requires within { k < count }
    requires length { IsTrue (has_length sent.now (512 * count)) }
    ensures { result ≡ block_of sent.now k }
{
    match sent {
        DataOut::Fill(byte) => [*byte; BLOCK_LENGTH],
        DataOut::Given(bytes) => block_in(bytes.as_slice(), k),
        DataOut::Nothing => [0; BLOCK_LENGTH],
    }
}

// The k-th block of some bytes.
fn block_in(bytes: &[u8], k: u64) -> Block
    requires { 512 * (k + 1) ≤ length bytes.now }
    ensures { result ≡ slice_range bytes.now (512 * k) (512 * (k + 1)) }
{
    let start = BLOCK_LENGTH * k as usize;
    let mut block = [0; BLOCK_LENGTH];
    block.copy_from_slice(&bytes[start..start + BLOCK_LENGTH]);
    block
}
