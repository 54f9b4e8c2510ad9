//! The attentions that wait after an entry (SAM-4, unit attention condition).
ghost use Rattle.std.specs.Prelude.{◌≡◌};
ghost use Rattle.cdb_reader.specs.Request.{outcome_of};
ghost use Rattle.task_set.specs.Members.{IsIn};
ghost use Rattle.block_machine.specs.Attentions.{after_mode_change};
ghost use Rattle.block_machine.specs.State.{initiator_of, no_duty};
ghost use Rattle.block_machine.specs.Steps.{is_request_sense, waiting_after, waiting_at_start};
ghost use Rattle.history_replay.specs.Known.{duty_of};
ghost use Rattle.history_replay.specs.Warning.{KnownWait, NamesOneThatIsIn, waiting_state};

use crate::steps::start::attention_met;
use crate::steps::warning::{warn_of_clear, warn_of_mode_change, warn_of_reset};
use block_machine::{Entry, Label};
use cdb_reader::Command;
use disk_base::{DataOut, Function, Initiator};
use sense_data::{Attentions, Sense, no_more_wait_than_are_known};
use task_set::TaskSet;

/// The attentions that wait after an entry of a turn. A command that starts has this operation code, and asks for this or
/// is refused with that.
pub fn settle_attentions(
    waiting: &mut Attentions,
    label: &Label,
    set: &TaskSet,
    code: u8,
    asks: &Result<Command, Sense>,
    entry: &Entry,
)
    requires inside { NamesOneThatIsIn label.now set.now entry.now }
    requires known { KnownWait waiting.old }
    ensures after { waiting.new ≡ waiting_after label.now (waiting_state waiting.old set.now (duty_of code (outcome_of asks.now) DataOut.Nothing)) entry.now }
    ensures known { KnownWait waiting.new }
{
    settle(waiting, label, set, code, asks, entry);
}

fn settle(
    waiting: &mut Attentions,
    label: &Label,
    set: &TaskSet,
    code: u8,
    asks: &Result<Command, Sense>,
    entry: &Entry,
)
    requires inside { NamesOneThatIsIn label.now set.now entry.now }
    requires known { KnownWait waiting.old }
    ensures { waiting.new ≡ waiting_after label.now (waiting_state waiting.old set.now (duty_of code (outcome_of asks.now) DataOut.Nothing)) entry.now }
{
    match entry {
        Entry::Started { c } => begin(waiting, *c, set, code, asks),
        Entry::Asked { initiator, what } => ask(waiting, *initiator, what, set),
        Entry::Mode { .. } => {
            if let Label::Work(c) = label {
                change(waiting, *c, set);
            }
        }
        Entry::PoweredOn { .. } => *waiting = Attentions::power_on(),
        _ => {}
    }
}

// A command starts.
fn begin(waiting: &mut Attentions, c: u32, set: &TaskSet, code: u8, asks: &Result<Command, Sense>)
    requires { IsIn set.now c }
    ensures { waiting.new ≡ waiting_at_start waiting.old (initiator_of (waiting_state waiting.old set.now no_duty) c) (duty_of code (outcome_of asks.now) DataOut.Nothing) }
{
    if let Some(member) = set.member(c) {
        tell(waiting, member.task.initiator, code, asks);
    }
}

// Mode values change, for the command at work.
#[tactic(auto, using(crate::proofs::KnownWaiting::room_for))]
fn change(waiting: &mut Attentions, c: u32, set: &TaskSet)
    requires inside { IsIn set.now c }
    requires known { KnownWait waiting.old }
    ensures { waiting.new ≡ after_mode_change (initiator_of (waiting_state waiting.old set.now no_duty) c) waiting.old }
{
    no_more_wait_than_are_known();
    if let Some(member) = set.member(c) {
        warn_of_mode_change(waiting, member.task.initiator);
    }
}

// A command that starts takes the attention that it tells its initiator.
fn tell(waiting: &mut Attentions, i: Initiator, code: u8, asks: &Result<Command, Sense>)
    ensures { waiting.new ≡ waiting_at_start waiting.old i (duty_of code (outcome_of asks.now) DataOut.Nothing) }
{
    if attention_met(waiting, i, code).is_some() || is_request_sense(asks) {
        let _ = waiting.take(i);
    }
}

// Whether a command shows its initiator the first attention.
fn is_request_sense(asks: &Result<Command, Sense>) -> bool
    ensures { result ≡ is_request_sense (outcome_of asks.now) }
{
    matches!(asks, Ok(Command::RequestSense { .. }))
}

// What a task management function of an initiator tells others.
#[tactic(auto, using(crate::proofs::KnownWaiting::room_for))]
fn ask(waiting: &mut Attentions, i: Initiator, what: &Function, set: &TaskSet)
    requires { KnownWait waiting.old }
    ensures { waiting.new ≡ waiting_after Label.Scan (waiting_state waiting.old set.now no_duty) (Entry.Asked i what.now) }
{
    no_more_wait_than_are_known();
    match what {
        Function::Clear => warn_of_clear(waiting, i, set.members()),
        Function::Reset => warn_of_reset(waiting),
        Function::Abort(_) | Function::AbortSet => {}
    }
}
