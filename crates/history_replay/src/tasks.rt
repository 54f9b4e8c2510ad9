//! Which commands may start and end, as far as the task set and what they asked for go.
ghost use Rattle.std.specs.Prelude.{◌≡◌, IfOk, Some};
ghost use Rattle.cdb_reader.specs.Request.{outcome_of, request_of};
ghost use Rattle.block_machine.specs.Entries.{are_asked, ends_as_told, makes, may_start, recovery_within};
ghost use Rattle.block_machine.specs.Turns.{owes_nothing_now};
ghost use Rattle.history_replay.specs.Known.{NamesFewBlocks, duty_of, state_of, with_set};

use crate::Known;
use crate::form::tells_recovery;
use crate::reply::is_recovered;
use crate::steps::answer::{same_settings, settings_made};
use cdb_reader::{Command, Plan};
use disk_base::{DataOut, NoMemory};
use mode_pages::Settings;
use sense_data::{Reply, Sense};
use std::alloc::Global;
use task_set::TaskSet;

/// Whether a command may start: it is in, wasn't started, and no other forbids it (SAM-4, task attributes).
pub fn may_start(set: &TaskSet, c: u32) -> bool
    ensures { result ≡ may_start (with_set set.now) c }
{
    match set.member(c) {
        Some(member) => !member.started && set.may_run(c).is_none(),
        None => false,
    }
}

/// Whether nothing is owed that has to come in the same turn.
pub fn owes_nothing_now(owes: &Option<Plan>) -> bool
    ensures { result ≡ owes_nothing_now owes.now }
{
    match owes {
        Some(plan) => needs_medium(plan),
        None => true,
    }
}

// Whether a plan is work on blocks, or over.
fn needs_medium(plan: &Plan) -> bool
    ensures { result ≡ owes_nothing_now (Some plan.now) }
{
    match plan {
        Plan::Reading(_) | Plan::Writing(_) | Plan::Syncing(_) | Plan::Moving(_) | Plan::Over => {
            true
        }
        Plan::Ending(_) | Plan::Unread(_) | Plan::Answering(..) | Plan::Changing => false,
    }
}

/// Whether a read or a verification that ends with RECOVERED ERROR tells which of its blocks was recovered, and how.
pub fn ends_as_told(owes: &Option<Plan>, asks: &Result<Command, Sense>, reply: &Reply) -> bool
    requires { IfOk asks.now NamesFewBlocks }
    ensures { result ≡ ends_as_told owes.now (duty_of 0 (outcome_of asks.now) DataOut.Nothing) reply.now }
{
    match owes {
        Some(Plan::Reading(_)) => {
            !is_recovered(reply)
                || match reply.sense {
                    Some(sense) => is_recovery_within(asks, &sense),
                    None => false,
                }
        }
        _ => true,
    }
}

// Whether sense data report a recovery of a block of the command.
fn is_recovery_within(asks: &Result<Command, Sense>, sense: &Sense) -> bool
    requires { IfOk asks.now NamesFewBlocks }
    ensures { result ≡ recovery_within (outcome_of asks.now) sense.now }
{
    match asks {
        Ok(Command::Read { from, length, .. })
        | Ok(Command::Verify { from, length })
        | Ok(Command::WriteAndVerify { from, length }) => {
            tells_recovery(*from, *from + *length as u64, sense)
        }
        _ => false,
    }
}

/// Whether these mode values are those that the command asks for.
pub fn are_asked(
    alloc: Global,
    known: &Known,
    asks: &Result<Command, Sense>,
    sent: &DataOut,
    settings: &Settings,
) -> Result<bool, NoMemory>
    ensures { IfOk result (λ may. may ≡ are_asked known.now.capacity (state_of known.now) (duty_of 0 (outcome_of asks.now) sent.now) (outcome_of asks.now) settings.now) }
{
    match asks {
        Ok(Command::ModeSelect { ten, length }) => {
            let made = settings_made(alloc, &known.settings, known.capacity, *ten, *length, sent)?;
            Ok(makes(&made, settings))
        }
        _ => Ok(false),
    }
}

fn makes(made: &Result<Settings, Sense>, settings: &Settings) -> bool
    ensures { result ≡ makes made.now settings.now }
{
    match made {
        Ok(made) => same_settings(made, settings),
        Err(_) => false,
    }
}
