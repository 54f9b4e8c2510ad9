//! Runs a kernel of reading and printing scripts so many times, for bench/script: `script_bench KERNEL COUNT`. Prints a sum over
//! what it gave. `script_bench echo` prints the script of standard input as it was read, or why it was refused.
#![tactic(auto)]

mod echo;
mod kernels;
mod scripts;

use anyhow::{Context, Result};
use std::env;

fn main(rt: HostRuntime) -> Result<()> {
    let mut args = env::args(&rt)?.skip(1);
    let kernel = args.next().context("no kernel is given")?;
    if kernel.as_str() == "echo" {
        return echo::echo(rt.alloc(), rt.reader(), &rt);
    }
    let count = args.next().context("no count is given")?;
    let count = count.parse::<u32>().context("the count is no number")?;
    let sum = kernels::run(rt.alloc(), kernel.as_str(), count)?;
    println!(rt; "{sum}")?;
    Ok(())
}
