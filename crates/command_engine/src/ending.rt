//! The replies that a command about blocks may end with.
ghost use Rattle.std.specs.Prelude.{◌≡◌, ◌^◌, ◌<◌, Some, IfSome};
ghost use Rattle.cdb_reader.specs.Replies.{check_condition, unrecovered_read, no_spare};
ghost use Rattle.command_engine.specs.Standing.{IsNamed};
ghost use Rattle.command_engine.specs.Ending.{fault_at, report_of, code_of, ended_move};

use crate::{Recovery, Step};
use disk_base::{How, Lba, Stage};
use sense_data::codes::{
    NO_DEFECT_SPARE, RECOVERED_WITH_CORRECTION_AND_RETRIES, RECOVERED_WITH_NEGATIVE_OFFSET,
    RECOVERED_WITH_POSITIVE_OFFSET, RECOVERED_WITH_RETRIES, UNRECOVERED_READ_ERROR, WRITE_ERROR,
};
use sense_data::{Reply, Sense};

/// UNRECOVERED READ ERROR at a block.
pub fn unread(b: u64) -> Reply
    requires { b < 2 ^ 32 }
    ensures { result ≡ unrecovered_read b }
{
    at_block(UNRECOVERED_READ_ERROR, b)
}

/// WRITE ERROR at a block, where a write of it faulted.
pub fn fault(step: &Step, b: u64) -> Option<Reply>
    requires { b < 2 ^ 32 }
    ensures { result ≡ fault_at step.now b }
{
    match step {
        Step::Faulted => Some(at_block(WRITE_ERROR, b)),
        Step::Trying(_) | Step::Hardening | Step::Moving(_) | Step::Spareless => None,
    }
}

/// The reply to a list of blocks to be moved, of which this one is next: GOOD behind the last one; where there is no spare,
/// NO DEFECT SPARE LOCATION AVAILABLE with the first one that isn't reassigned as COMMAND-SPECIFIC INFORMATION.
pub fn reassigned(in_hand: Option<Lba>, step: &Step) -> Option<Reply>
    requires { IfSome in_hand (λ b. b.0 < 2 ^ 32) }
    ensures { result ≡ ended_move in_hand step.now }
{
    let Some(b) = in_hand else {
        return Some(Reply::good());
    };
    match step {
        Step::Spareless => Some(Reply::check_condition(Sense {
            specific: b.0 as u32,
            ..NO_DEFECT_SPARE
        })),
        Step::Trying(_) | Step::Hardening | Step::Faulted | Step::Moving(_) => None,
    }
}

/// The reply to a read that found all its blocks: RECOVERED ERROR at the last one found past the plain read, where that
/// is to be reported.
pub fn report(reports: bool, recovered: &Option<Recovery>) -> Reply
    requires { IsNamed recovered.now }
    ensures { result ≡ report_of reports recovered.now }
{
    match recovered {
        Some(recovery) if reports => at_block(code_of(&recovery.stage), recovery.b.0),
        _ => Reply::good(),
    }
}

// The additional sense code of a block that this stage found.
fn code_of(stage: &Stage) -> Sense
    ensures { result ≡ code_of stage.now }
{
    match (stage.how, stage.offset) {
        (How::Light, 0) => RECOVERED_WITH_RETRIES,
        (How::Light, 1..) => RECOVERED_WITH_POSITIVE_OFFSET,
        (How::Light, _) => RECOVERED_WITH_NEGATIVE_OFFSET,
        (How::Full | How::Erased, _) => RECOVERED_WITH_CORRECTION_AND_RETRIES,
    }
}

// CHECK CONDITION with the block's address as INFORMATION.
fn at_block(sense: Sense, b: u64) -> Reply
    requires { b < 2 ^ 32 }
    ensures { result ≡ check_condition (record sense { information = Some b }) }
{
    Reply::check_condition(Sense {
        information: Some(b as u32),
        ..sense
    })
}
