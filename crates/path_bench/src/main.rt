//! Runs the path of a sector so many times, for bench/path: `path_bench COUNT KERNEL..`, where a kernel is `write`, `read`
//! or `damaged`. Prints for each a sum over what it gave.
#![tactic(auto)]

mod kernels;
mod sectors;

use anyhow::{Context, Result, bail};
use std::alloc::Global;
use std::env;

fn main(rt: HostRuntime) -> Result<()> {
    let mut args = env::args(&rt)?.skip(1);
    let count = args.next().context("no count is given")?;
    let count = count.parse::<u32>().context("the count is no number")?;
    for kernel in args {
        let sum = run(rt.alloc(), kernel.as_str(), count)?;
        println!(rt; "{kernel} {count} {sum}")?;
    }
    Ok(())
}

/// The sum over so many turns of the kernel that is named.
fn run(alloc: Global, kernel: &str, count: u32) -> Result<u64> {
    match kernel {
        "write" => Ok(kernels::written(count)),
        "read" => kernels::read(alloc, &sectors::undamaged(), count),
        "damaged" => kernels::read(alloc, &sectors::damaged(), count),
        _ => bail!("no such kernel"),
    }
}
