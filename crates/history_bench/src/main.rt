//! Judges histories by their scripts, for bench/history: `history_bench COUNT judge` makes a history of so many turns, with its
//! script, and judges it; `history_bench COUNT make` only makes it. `history_bench 0 check` reads a script, a line `report` and a
//! report from standard input. Each prints what is to be said.
#![tactic(auto)]

mod check;
mod input;
mod long;

use anyhow::{Context, Result, bail};
use history_checker::check_turns;
use std::alloc::Global;
use std::env;

fn main(rt: HostRuntime) -> Result<()> {
    let mut args = env::args(&rt)?.skip(1);
    let count = args.next().context("no count is given")?;
    let count = count.parse::<u32>().context("the count is no number")?;
    let kernel = args.next().context("no kernel is given")?;
    match kernel.as_str() {
        "check" => {
            let input = input::all_of(rt.alloc(), rt.reader())?;
            check::check(rt.alloc(), input.as_slice(), &rt)
        }
        "make" => {
            let made = long::history(rt.alloc(), count)?;
            println!(rt; "{}", made.turns.as_slice().len())?;
            Ok(())
        }
        "judge" => judge(rt.alloc(), count, &rt),
        _ => bail!("no such kernel"),
    }
}

fn judge(alloc: Global, count: u32, rt: &impl Print) -> Result<()> {
    let made = long::history(alloc, count)?;
    let turns = made.turns.as_slice();
    if turns.len() > check::TURNS_MAX {
        bail!("there are too many turns");
    }
    let verdict = check_turns(alloc, &made.script, turns)?;
    check::tell(verdict, turns.len(), rt)
}
