//! Runs a drive's store so many times, for bench/store: `store_bench COUNT KERNEL..`, where a kernel is `factory`, the store
//! of the largest drive, `try`, undamaged blocks by the plain stage, `write`, `commit`, the map as it is, or `recovery`, after the
//! power was switched off, and prints how many operations there are; or `placer`, the placer of a full map, `move`, that placer
//! from the one of a pair less, or `place`, a place by it, and prints their sum.
#![tactic(auto)]

mod kernels;
mod places;

use anyhow::{Context, Result, bail};
use std::alloc::Global;
use std::env;

fn main(rt: HostRuntime) -> Result<()> {
    let mut args = env::args(&rt)?.skip(1);
    let count = args.next().context("no count is given")?;
    let count = count.parse::<u32>().context("the count is no number")?;
    for kernel in args {
        let sum = run(rt.alloc(), kernel.as_str(), count)?;
        println!(rt; "{kernel} {count} {sum}")?;
    }
    Ok(())
}

/// What so many turns of the kernel that is named come to.
fn run(alloc: Global, kernel: &str, count: u32) -> Result<u64> {
    match kernel {
        "factory" => kernels::factories(alloc, count),
        "try" => kernels::tries(alloc, count),
        "write" => kernels::writes(alloc, count),
        "commit" => kernels::commits(alloc, count),
        "recovery" => kernels::recoveries(alloc, count),
        "placer" => places::placers(count),
        "move" => places::moves(count),
        "place" => places::places(count),
        _ => bail!("no such kernel"),
    }
}
