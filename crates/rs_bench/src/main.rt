//! Runs one kernel of the Reed-Solomon code many times, and prints a checksum of what it gave.
//! bench/rs times it beside programs that do the same in other languages.
#![tactic(auto)]

mod kernels;

use std::{env, io};

fn main(rt: HostRuntime) -> io::Result<()> {
    let mut arguments = env::args(&rt)?;
    let _program = arguments.next();
    let Some(kernel) = arguments.next() else {
        return println!(rt; "usage: rs_bench KERNEL COUNT");
    };
    let Some(text) = arguments.next() else {
        return println!(rt; "usage: rs_bench KERNEL COUNT");
    };
    let count = text.parse::<u32>().unwrap_or(0);
    match kernels::run(kernel.as_str(), count) {
        Some(checksum) => println!(rt; "{checksum}"),
        None => println!(rt; "no such kernel"),
    }
}
