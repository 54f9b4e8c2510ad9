//! Reads or prints the report of standard input so many times, for bench/report: `report_bench COUNT KERNEL`, where a kernel is
//! `read` or `print`. Prints a sum over what it gave. `report_bench COUNT echo` prints the report once, as it was read.
#![tactic(auto)]

mod counted;
mod input;
mod kernels;
mod operations;

use anyhow::{Context, Result};
use std::env;

fn main(rt: HostRuntime) -> Result<()> {
    let mut args = env::args(&rt)?.skip(1);
    let count = args.next().context("no count is given")?;
    let count = count.parse::<u32>().context("the count is no number")?;
    let kernel = args.next().context("no kernel is given")?;
    let report = input::all_of(rt.alloc(), rt.reader())?;
    if kernel.as_str() == "echo" {
        return kernels::echo(rt.alloc(), report.as_slice(), &rt);
    }
    let sum = kernels::run(rt.alloc(), kernel.as_str(), report.as_slice(), count)?;
    println!(rt; "{sum}")?;
    Ok(())
}
