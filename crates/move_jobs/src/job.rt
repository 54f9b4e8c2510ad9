ghost use Rattle.std.specs.Prelude.{◌≡◌, ◌<◌, ◌↔◌, IsTrue, Some, None};
ghost use Rattle.move_jobs.specs.Job.{IsJob, begun, spare_of, need_of, fits, step_done, answered, result_of, job_left};

use crate::{JobAnswer, JobNeed, JobResult, JobStep};
use arrayvec::ArrayVec;
use disk_base::{Lba, MoveWhy, Psn, Value};
use geometry_map::{PAIRS_MAX, Pair};
use std::marker::Model;

/// A move of a block to a spare sector, on its way to its end. Contracts see it as a record of its block, the value that
/// is moved, why, its owner, the chain of its pairs, and the step that comes next.
#[derive(Debug, Drop)]
pub struct Job {
    b: Lba,
    value: Value,
    why: MoveWhy,
    owner: Option<u32>,
    pairs: ArrayVec<Pair, PAIRS_MAX>,
    step: JobStep,
}

impl Model for Job {
    ghost use Rattle.move_jobs.specs.Job.{Job, job_of, IsJob};

    ghost Value = { Job };

    ghost view = { λ j. job_of j.b j.value j.why j.owner j.pairs.items j.step };

    ghost invariant = { λ j. IsJob (job_of j.b j.value j.why j.owner j.pairs.items j.step) };
}

impl Job {
    /// A move that begins: the block is at `present`, and its value goes to `spare`. The owner is the command that opened
    /// it; a move of the background scan has none.
    pub fn new(
        b: Lba,
        value: Value,
        present: Psn,
        spare: Psn,
        why: MoveWhy,
        owner: Option<u32>,
    ) -> Self
        ensures { result ≡ begun b value present spare why owner }
    {
        let mut pairs = ArrayVec::new();
        pairs.push(Pair {
            old: present,
            new: spare,
        });
        Job {
            b,
            value,
            why,
            owner,
            pairs,
            step: JobStep::Writing,
        }
    }

    /// What is needed next.
    pub fn need(&self) -> JobNeed
        ensures { result ≡ need_of self.now }
    {
        match self.step {
            JobStep::Writing => JobNeed::WriteSpare(self.spare()),
            JobStep::Checking => JobNeed::CheckSpare(self.spare()),
            JobStep::Committing => JobNeed::Commit,
            JobStep::Over(_) => JobNeed::Ended,
        }
    }

    /// Goes on with an answer to the need.
    pub fn answer(&mut self, answer: JobAnswer)
        requires { IsTrue (fits self.old answer) }
        ensures after { self.new ≡ answered self.old answer }
        ensures nearer { job_left self.new < job_left self.old }
        ensures no_spare { (result_of self.new ≡ Some JobResult.NoSpare) ↔ (answer ≡ JobAnswer.Bad None) }
    {
        match answer {
            JobAnswer::Done => self.step = done(self.step),
            JobAnswer::Bad { next: Some(next) } => {
                let last = self.spare();
                let pair = Pair {
                    old: last,
                    new: next,
                };
                self.pairs.push(pair);
                self.step = JobStep::Writing;
            }
            JobAnswer::Bad { next: None } => self.step = JobStep::Over(JobResult::NoSpare),
        }
    }

    /// The pairs of the move, each from where the one before it ended. At the commit they join the map.
    pub fn pairs(&self) -> &[Pair]
        ensures { result.now ≡ self.now.chain }
    {
        self.pairs.as_slice()
    }

    /// How the move ended, once it is over.
    pub fn result(&self) -> Option<JobResult>
        ensures { result ≡ result_of self.now }
    {
        match self.step {
            JobStep::Over(result) => Some(result),
            JobStep::Writing | JobStep::Checking | JobStep::Committing => None,
        }
    }

    /// The block that is moved.
    pub fn block(&self) -> Lba
        ensures { result ≡ self.now.b }
    {
        self.b
    }

    /// The value that is moved.
    pub fn value(&self) -> &Value
        ensures { result.now ≡ self.now.value }
    {
        &self.value
    }

    pub fn why(&self) -> MoveWhy
        ensures { result ≡ self.now.why }
    {
        self.why
    }

    /// The command that opened the move.
    pub fn owner(&self) -> Option<u32>
        ensures { result ≡ self.now.owner }
    {
        self.owner
    }

    /// The spare in hand, which is the last of the chain.
    pub fn spare(&self) -> Psn
        ensures { result ≡ spare_of self.now }
    {
        self.pairs[self.pairs.len() - 1].new
    }

    /// Holds of every move wherever it stands.
    pub fn has_a_chain(&self)
        ensures { IsJob self.now }
    {
        let _ = &self.pairs;
    }
}

// The step behind one that is done.
fn done(step: JobStep) -> JobStep
    ensures { result ≡ step_done step }
{
    match step {
        JobStep::Writing => JobStep::Checking,
        JobStep::Checking => JobStep::Committing,
        JobStep::Committing => JobStep::Over(JobResult::Moved),
        JobStep::Over(result) => JobStep::Over(result),
    }
}
