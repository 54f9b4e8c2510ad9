ghost use Rattle.std.specs.Prelude.{◌≡◌, ◌≤◌, IsTrue};
ghost use Rattle.command_engine.specs.Standing.{IsTriedBy};
ghost use Rattle.command_engine.specs.Answers.{gives_up, step_after};

use crate::Answer;
use disk_base::{Lba, MoveWhy, Stage};
use read_recovery::Trying;

/// What is to be done about the block that comes next.
#[derive(Debug, Drop)]
pub enum Step {
    /// It is to be read, written or looked for; of a read this tells which stages failed.
    Trying(Trying),
    /// It is dirty and is to be hardened.
    Hardening,
    /// A write of it faulted, which ends the command.
    Faulted,
    /// It waits for its move to a spare sector.
    Moving(MoveWhy),
    /// There was no spare sector for it, which ends the command.
    Spareless,
}

/// A block that was found past the plain read.
#[derive(Clone, Copy, Debug, PartialEq, Eq)]
pub struct Recovery {
    pub b: Lba,
    /// The stage that found it.
    pub stage: Stage,
}

impl Step {
    // Goes on with an answer, and says whether the last stage has failed with it. `listed`: the block is one of a list
    // that is moved to spare sectors.
    pub(crate) fn advance(&mut self, answer: &Answer, retry: u8, listed: bool) -> bool
        requires known { retry ≤ 20 }
        requires tried { IsTriedBy retry self.old }
        ensures gives_up { result ≡ gives_up self.old answer.now }
        ensures after { self.new ≡ step_after retry listed self.old answer.now }
    {
        let mut lost = false;
        if let Answer::Missed = answer
            && let Step::Trying(trying) = self
        {
            trying.answer(false);
            if trying.next().is_some() {
                return false;
            }
            lost = true;
        }
        *self = match answer {
            Answer::Got(_) if listed => Step::Moving(MoveWhy::Reassign),
            Answer::Missed if listed && lost => Step::Moving(MoveWhy::GivenUp),
            Answer::NextDirty(Some(_)) if listed => Step::Moving(MoveWhy::Dirty),
            Answer::NextDirty(Some(_)) => Step::Hardening,
            Answer::WriteFault => Step::Faulted,
            Answer::NoSpare => Step::Spareless,
            _ => Step::Trying(Trying::new(retry)),
        };
        lost
    }
}
