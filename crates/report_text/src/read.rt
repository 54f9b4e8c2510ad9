//! Reading a report: one pass over its lines.
ghost use Rattle.std.specs.Prelude.{◌≡◌, ◌==◌, ◌-◌, ◌+◌, ◌^◌, ◌<◌, ◌∷◌, ◌++◌, [], List, ℕ, length, IfOk, IfSome, IfNone};
ghost use Rattle.text_words.specs.Line.{parts_at};
ghost use Rattle.block_machine.specs.declared.turn.Turn.{Turn as TurnValue};
ghost use Rattle.report_text.specs.Reading.{IsReport, AreRead, IfLine};
ghost use Rattle.report_text.specs.Answers.{fault_at};

use crate::fault::{LineFault, ReportFault};
use crate::summary_reading::is_summary;
use crate::turn_reading::read_turn;
use block_machine::Turns;
use std::alloc::Global;
use text_words::first_part;

/// The turns that a report in the whole form tells, or the first of its lines, counted from 1, that is outside the format.
/// Operations are counted from the report's first; what they were besides isn't told.
pub fn read_run(alloc: Global, bytes: &[u8]) -> Result<Turns, ReportFault>
    // The number of a line fits its type.
    requires { length bytes.now < 2 ^ 32 - 1 }
    ensures ok { IfOk result (IsReport bytes.now) }
    ensures found { (turns : List TurnValue) → IsReport bytes.now turns → AreRead turns result }
    ensures line { IfLine bytes.now result }
{
    let mut turns = Turns::new(alloc);
    let mut number = 1u32;
    let mut minutes = 0;
    let mut shown = 0;
    let mut rest = bytes;
    while let Some((line, behind)) = next_line(rest) {
        if is_summary(line) {
            if is_end(behind) {
                return Ok(turns);
            }
            return Err(ReportFault::Line(number + 1));
        }
        match read_turn(alloc, u64::from(number), minutes, shown, line) {
            Ok((turn, now)) => {
                shown = turn.ops_to;
                minutes = now;
                turns.push(turn)?;
            }
            Err(fault) => return Err(fault_at(number, fault)),
        }
        number += 1;
        rest = behind;
    }
    Err(ReportFault::Line(number))
}

// Whether nothing more stands behind a line.
fn is_end(behind: &[u8]) -> bool
    ensures { result ≡ (length behind.now == 0) }
{
    behind.is_empty()
}

fn fault_at(line: u32, fault: LineFault) -> ReportFault
    ensures { result ≡ fault_at line fault }
{
    match fault {
        LineFault::NoMemory => ReportFault::NoMemory,
        LineFault::Unreadable => ReportFault::Line(line),
    }
}

// The first line of a text without its LF, and what stands behind that, where there is an LF.
fn next_line(text: &[u8]) -> Option<(&[u8], &[u8])>
    ensures some { IfSome result (λ r. parts_at 10 text.now ≡ r.0.now ∷ parts_at 10 r.1.now) }
    ensures none { IfNone result ((whole : List ℕ) × (parts_at 10 text.now ≡ whole ∷ [])) }
{
    let (line, behind) = first_part(b'\n', text);
    match behind {
        Some(behind) => Some((line, behind)),
        None => None,
    }
}
