//! A script and a report.
ghost use Rattle.std.specs.Prelude.{◌≤◌, length};

use crate::input::BYTES_MAX;
use anyhow::{Result, bail};
use block_machine::Turn;
use history_checker::{Flaw, Verdict, check_turns};
use report_text::{ReportFault, read_run, read_summary};
use script_text::{Script, read_script};
use std::alloc::Global;

/// The most turns that are judged.
pub const TURNS_MAX: usize = 67_108_864;

/// Says whether a report tells a history that the script before it allows.
pub fn check(alloc: Global, input: &[u8], rt: &impl Print) -> Result<()> {
    let (script, report) = parts_of(input);
    if report.len() > BYTES_MAX {
        bail!("the report is too long");
    }
    let script = read_script(alloc, script)?;
    match read_run(alloc, report) {
        Ok(turns) => judge(alloc, &script, turns.as_slice(), report, rt),
        Err(ReportFault::Line(line)) => {
            println!(rt; "no {line} form")?;
            Ok(())
        }
        Err(ReportFault::NoMemory) => bail!("there is no memory"),
    }
}

/// Says a verdict on so many turns.
pub fn tell(verdict: Verdict, turns: usize, rt: &impl Print) -> Result<()> {
    match verdict {
        Verdict::Yes => println!(rt; "yes {turns}")?,
        Verdict::No { turn, why } => println!(rt; "no {turn} {}", word_of(why))?,
    }
    Ok(())
}

fn judge(
    alloc: Global,
    script: &Script,
    turns: &[Turn],
    report: &[u8],
    rt: &impl Print,
) -> Result<()> {
    if turns.len() > TURNS_MAX {
        bail!("there are too many turns");
    }
    let verdict = match check_turns(alloc, script, turns)? {
        Verdict::Yes => by_summary(turns, report),
        no => no,
    };
    tell(verdict, turns.len(), rt)
}

// What the summary has to say on turns that the script allows.
fn by_summary(turns: &[Turn], report: &[u8]) -> Verdict
    requires { length turns.now ≤ TURNS_MAX }
{
    let turn = turns.len() as u64 + 1;
    match read_summary(report) {
        Some(summary) if !summary.sums_up(turns) => Verdict::No {
            turn,
            why: Flaw::Sums,
        },
        Some(summary) if summary.strays > 0 => Verdict::No {
            turn,
            why: Flaw::Strays,
        },
        _ => Verdict::Yes,
    }
}

// What stands before the first line `report`, and what stands behind it.
fn parts_of(input: &[u8]) -> (&[u8], &[u8]) {
    if let Some(report) = input.strip_prefix(b"report\n") {
        return (&[], report);
    }
    for place in 0..input.len() {
        if let Some(report) = input[place..].strip_prefix(b"\nreport\n") {
            return (&input[..place + 1], report);
        }
    }
    (input, &[])
}

fn word_of(why: Flaw) -> &'static str {
    match why {
        Flaw::Form => "form",
        Flaw::Order => "order",
        Flaw::Step => "step",
        Flaw::Left => "left",
        Flaw::Sums => "sums",
        Flaw::Strays => "strays",
    }
}
