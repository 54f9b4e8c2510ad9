//! Makes many turns through the turn lock, and prints a checksum of their answers.
//! bench/lock times it beside a Mutex in Rust.
#![tactic(auto)]

mod kernels;

use std::{env, io};

fn main(rt: HostRuntime) -> io::Result<()> {
    let mut arguments = env::args(&rt)?;
    let _program = arguments.next();
    let Some(threads) = arguments.next() else {
        return println!(rt; "usage: lock_bench THREADS TURNS");
    };
    let Some(turns) = arguments.next() else {
        return println!(rt; "usage: lock_bench THREADS TURNS");
    };
    let threads = threads.parse::<u64>().unwrap_or(0);
    let turns = turns.parse::<u32>().unwrap_or(0);
    match kernels::run(&rt, rt.alloc(), threads, turns) {
        Ok(checksum) => println!(rt; "{checksum}"),
        Err(_) => println!(rt; "no memory"),
    }
}
