//! Judging a history by its script.
ghost use Rattle.std.specs.Prelude.{◌≡◌, ◌-◌, ◌^◌, ◌<◌, ◌≤◌, ◌↔◌, length, IfOk, IsTrue};
ghost use Rattle.script_text.specs.declared.script.Script.{Script as ScriptValue};
ghost use Rattle.history_checker.specs.Good.{array_good, verdict_of};
ghost use Rattle.history_checker.specs.Parts.{capacity_of};

use crate::walk::Walk;
use crate::{CheckFault, Flaw, Verdict};
use block_machine::Turn;
use geometry_map::Size;
use history_replay::Monitor;
use script_text::Script;
use std::alloc::Global;

// The blocks of the default drive.
const DEFAULT_CAPACITY: u64 = 912;

/// Whether a script allows these turns, or else the first flaw: Order at a turn that isn't what the script asks for next, Step at
/// another that may not come in a history of the script's blocks, and Left behind the last turn where something of the script is
/// left. Time grows with the lines, the turns and their entries. Of the script nothing is copied, and of turns nothing is kept.
pub fn check_turns(alloc: Global, script: &Script, turns: &[Turn]) -> Result<Verdict, CheckFault>
    // The number of a turn fits its type, behind the last one too.
    requires { length turns.now < 2 ^ 64 - 1 }
    ensures yes { IfOk result (λ verdict. (verdict ≡ Verdict.Yes) ↔ IsTrue (array_good script.now turns.now)) }
    ensures verdict { IfOk result (λ verdict. verdict ≡ verdict_of script.now turns.now) }
{
    let lines = script.lines.as_slice();
    let mut monitor = Monitor::new(alloc, capacity_of(&script.size))?;
    let mut walk = Walk::new(lines);
    for (index, turn) in turns.iter().enumerate() {
        walk.settle(lines, monitor.is_idle());
        if !walk.allows(lines, turn) {
            return Ok(Verdict::No {
                turn: index as u64 + 1,
                why: Flaw::Order,
            });
        }
        if !monitor.take(alloc, turn)? {
            return Ok(Verdict::No {
                turn: index as u64 + 1,
                why: Flaw::Step,
            });
        }
        walk.advance(lines, turn);
    }
    let idle = monitor.is_idle();
    walk.settle(lines, idle);
    if walk.is_over() {
        return Ok(Verdict::Yes);
    }
    Ok(Verdict::No {
        turn: turns.len() as u64 + 1,
        why: Flaw::Left,
    })
}

// The blocks of a script's drive.
fn capacity_of(size: &Option<Size>) -> u64
    ensures value { (script : ScriptValue) → script.size ≡ size.now → result ≡ capacity_of script }
    ensures some { 1 ≤ result }
    ensures few { result ≤ 4096 }
{
    match size {
        Some(size) => size.capacity(),
        None => DEFAULT_CAPACITY,
    }
}
