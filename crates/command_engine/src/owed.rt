ghost use Rattle.std.specs.Prelude.{◌≡◌, ◌≤◌, ◌^◌, true, false, None};
ghost use Rattle.cdb_reader.specs.declared.plan.Plan.TheVariants as plan;
ghost use Rattle.cdb_reader.specs.Plan.{reading_from};
ghost use Rattle.command_engine.specs.Standing.{IsWithin};
ghost use Rattle.command_engine.specs.Owed.{plan_owed, moved_owed};
ghost use Rattle.command_engine.specs.Answers.{owed_after, moved_after, is_moving, settled};

use crate::reassigning::Reassigning;
use crate::{Answer, Step};
use cdb_reader::{Reading, Syncing, Writing};
use disk_base::{Lba, MoveWhy, Value};
use sense_data::Reply;

/// What a command still owes.
#[derive(Debug, Drop)]
pub enum Owed {
    /// This reply alone.
    Reply(Reply),
    /// Bytes that aren't blocks, and then this reply.
    Page(Reply),
    /// UNRECOVERED READ ERROR at this block.
    Unread(u64),
    Reading(Reading),
    Writing(Writing),
    Syncing(Syncing),
    Moving(Reassigning),
}

impl Owed {
    // Whether it is a list of blocks that are to be moved.
    pub(crate) fn is_moving(&self) -> bool
        ensures { result ≡ is_moving (plan_owed self.now) }
    {
        matches!(self, Owed::Moving(_))
    }

    // The block of a list whose newest value comes to the medium with its move.
    pub(crate) fn settled(&self, step: &Step) -> Option<Lba>
        ensures { result ≡ settled (plan_owed self.now) (moved_owed self.now) step.now }
    {
        match (self, step) {
            (Owed::Moving(list), Step::Moving(MoveWhy::Dirty | MoveWhy::GivenUp)) => list.in_hand(),
            _ => None,
        }
    }

    // Goes on with an answer; `lost`: the last stage failed with it; `settled`: the block that a move hardened.
    pub(crate) fn advance(&mut self, answer: &Answer, lost: bool, settled: Option<Lba>)
        requires { IsWithin (plan_owed self.old) (moved_owed self.old) }
        ensures plan { plan_owed self.new ≡ owed_after (plan_owed self.old) lost settled answer.now }
        ensures moved { moved_owed self.new ≡ moved_after (is_moving (plan_owed self.old)) (moved_owed self.old) answer.now }
    {
        match self {
            Owed::Reply(_) | Owed::Unread(_) => {}
            Owed::Page(reply) => {
                if let Answer::Paged = answer {
                    *self = Owed::Reply(*reply);
                }
            }
            Owed::Reading(reading) => *self = after_reading(*reading, answer, lost),
            Owed::Writing(writing) => {
                if let Answer::Put | Answer::Hardened = answer {
                    writing.at += 1;
                    writing.owes_harden = false;
                    if writing.verifies && writing.at == writing.end {
                        *self = Owed::Reading(verification_of(writing));
                    }
                }
            }
            Owed::Syncing(syncing) => go_on_syncing(syncing, answer),
            Owed::Moving(list) => {
                if let Answer::Moved = answer {
                    list.pass(settled);
                }
            }
        }
    }
}

// A read after an answer.
fn after_reading(reading: Reading, answer: &Answer, lost: bool) -> Owed
    requires { reading.at ≤ 2 ^ 32 }
    ensures plan { plan_owed result ≡ owed_after (plan.Reading reading) lost None answer.now }
    ensures moved { moved_owed result ≡ 0 }
{
    match answer {
        Answer::Got(Value::Data(_)) => Owed::Reading(Reading {
            at: reading.at + 1,
            hardened: false,
            ..reading
        }),
        Answer::Got(Value::Lost) => Owed::Unread(reading.at),
        Answer::Missed if lost => Owed::Unread(reading.at),
        Answer::Hardened => Owed::Reading(Reading {
            hardened: true,
            ..reading
        }),
        _ => Owed::Reading(reading),
    }
}

// All blocks of a write, to be read.
fn verification_of(writing: &Writing) -> Reading
    ensures { plan.Reading result ≡ reading_from writing.now.from writing.now.end true writing.now.reports }
{
    Reading {
        at: writing.from,
        end: writing.end,
        through: true,
        reports: writing.reports,
        hardened: false,
    }
}

// A sync after an answer.
fn go_on_syncing(syncing: &mut Syncing, answer: &Answer)
    requires { syncing.old.at ≤ 2 ^ 32 }
    ensures { plan.Syncing syncing.new ≡ owed_after (plan.Syncing syncing.old) false None answer.now }
{
    match answer {
        Answer::Hardened => syncing.at += 1,
        Answer::NextDirty(None) => syncing.at = syncing.end,
        Answer::NextDirty(Some(b)) => syncing.at = b.0,
        _ => {}
    }
}
