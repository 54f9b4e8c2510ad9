//! Whom entries warn (SAM-4, unit attention condition).
ghost use Rattle.std.specs.Prelude.{◌≡◌, ◌≤◌, length, if◌then◌else◌};
ghost use Rattle.std.specs.List.{list_any};
ghost use Rattle.sense_data.specs.Attentions.{attention, raised, waiting_for, with_attention};
ghost use Rattle.task_set.specs.Members.{is_of};
ghost use Rattle.block_machine.specs.Attentions.{after_clear, after_mode_change, after_reset};
ghost use Rattle.history_replay.specs.Warning.{HasRoom, is_another, is_cleared};

use disk_base::Initiator;
use sense_data::codes::{COMMANDS_CLEARED, MODE_PARAMETERS_CHANGED, RESET_OCCURRED};
use sense_data::{Attention, Attentions};
use task_set::Member;

/// After LOGICAL UNIT RESET, for everyone. With the attention at most eight may wait for each.
pub fn warn_of_reset(waiting: &mut Attentions)
    requires { HasRoom (attention 0x29 0x03) waiting.old }
    ensures { waiting.new ≡ after_reset waiting.old }
{
    for number in 1..9 {
        let other = initiator(number);
        raise_if(true, waiting, other, RESET_OCCURRED);
    }
}

/// After a MODE SELECT of an initiator that changed a value, for everyone else.
pub fn warn_of_mode_change(waiting: &mut Attentions, i: Initiator)
    requires { HasRoom (attention 0x2A 0x01) waiting.old }
    ensures { waiting.new ≡ after_mode_change i waiting.old }
{
    for number in 1..9 {
        let other = initiator(number);
        raise_if(
            is_another(other, i),
            waiting,
            other,
            MODE_PARAMETERS_CHANGED,
        );
    }
}

/// After CLEAR TASK SET of an initiator, for everyone else whose commands it ended.
pub fn warn_of_clear(waiting: &mut Attentions, i: Initiator, set: &[Member])
    requires { HasRoom (attention 0x2F 0x00) waiting.old }
    ensures { waiting.new ≡ after_clear i set.now waiting.old }
{
    for number in 1..9 {
        let other = initiator(number);
        raise_if(is_cleared(i, set, other), waiting, other, COMMANDS_CLEARED);
    }
}

fn is_another(i: Initiator, than: Initiator) -> bool
    ensures { result ≡ is_another than i }
{
    i != than
}

fn is_cleared(by: Initiator, set: &[Member], i: Initiator) -> bool
    ensures { result ≡ is_cleared by set.now i }
{
    i != by && has_command(i, set)
}

// An attention is raised for an initiator that is told.
fn raise_if(is_told: bool, waiting: &mut Attentions, i: Initiator, a: Attention)
    requires { length (with_attention a (waiting_for waiting.old i)) ≤ 8 }
    ensures { waiting.new ≡ (if is_told then raised waiting.old i a else waiting.old) }
{
    if is_told {
        waiting.raise(i, a.asc, a.ascq);
    }
}

// The initiator of a number.
fn initiator(number: u8) -> Initiator
    requires low { 1 ≤ number }
    requires high { number ≤ 8 }
    ensures { result ≡ number }
{
    Initiator::new(number).unwrap()
}

fn has_command(i: Initiator, set: &[Member]) -> bool
    ensures { result ≡ list_any (is_of i) set.now }
{
    set.iter().any(|m| m.task.initiator == i)
}
