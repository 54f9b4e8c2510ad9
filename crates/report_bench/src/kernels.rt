//! The kernels. Each gives a sum over what it read or printed.
use crate::counted::{Counted, mixed};
use crate::input::BYTES_MAX;
use crate::operations::operations;
use anyhow::{Result, bail};
use block_machine::{Entry, Turn, Turns};
use disk_base::{BLOCK_LENGTH, Block, DataOut, Value};
use outside::{Printed, Sink, ToWrite};
use report_text::{Form, Run, print_run, read_run};
use script_text::read_script;
use std::alloc::Global;
use std::io;

/// The sum over so many turns of the kernel that is named.
pub fn run(alloc: Global, kernel: &str, report: &[u8], count: u32) -> Result<u64> {
    match kernel {
        "read" => read(alloc, report, count),
        "print" => printed(alloc, report, count),
        _ => bail!("no such kernel"),
    }
}

/// Prints a report as it was read, with the operations that `operations` gives.
pub fn echo(alloc: Global, report: &[u8], rt: &impl Print) -> Result<()> {
    print_to(&run_of(alloc, report)?, &mut ToWrite::new(io::writer(rt)))
}

fn read(alloc: Global, report: &[u8], count: u32) -> Result<u64> {
    let mut sum = report.len() as u64;
    for _ in 0..count {
        sum = sum_of(sum, &turns_of(alloc, report)?);
    }
    Ok(sum)
}

fn turns_of(alloc: Global, report: &[u8]) -> Result<Turns> {
    if report.len() > BYTES_MAX {
        bail!("the report is too long");
    }
    Ok(read_run(alloc, report)?)
}

fn sum_of(start: u64, turns: &Turns) -> u64 {
    let mut sum = start;
    for turn in turns.as_slice() {
        sum = sum_of_turn(sum, turn);
    }
    sum
}

fn sum_of_turn(start: u64, turn: &Turn) -> u64 {
    let mut sum = mixed(start, turn.ops_to);
    for entry in turn.entries.as_slice() {
        sum = mixed(sum, worth_of(entry));
    }
    sum
}

fn worth_of(entry: &Entry) -> u64 {
    match entry {
        Entry::Arrived { tag, cdb, sent, .. } => {
            let worth = mixed(u64::from(tag.0), cdb.bytes().len() as u64);
            mixed(worth, worth_of_data(sent))
        }
        Entry::Get { b, value, .. } => mixed(b.0, worth_of_value(value)),
        Entry::Put { b, value, .. } => mixed(b.0, worth_of_block(value)),
        Entry::Harden { b, .. } => b.0,
        Entry::Ended { c, reply } => mixed(u64::from(*c), u64::from(reply.status)),
        _ => 1,
    }
}

fn worth_of_data(sent: &DataOut) -> u64 {
    match sent {
        DataOut::Nothing => 0,
        DataOut::Fill(byte) => u64::from(*byte),
        DataOut::Given(bytes) => match bytes.as_slice().last() {
            Some(byte) => mixed(bytes.as_slice().len() as u64, u64::from(*byte)),
            None => 0,
        },
    }
}

fn worth_of_value(value: &Value) -> u64 {
    match value {
        Value::Data(block) => worth_of_block(block),
        Value::Lost => 0,
    }
}

fn worth_of_block(block: &Block) -> u64 {
    u64::from(block[BLOCK_LENGTH - 1])
}

fn printed(alloc: Global, report: &[u8], count: u32) -> Result<u64> {
    let run = run_of(alloc, report)?;
    let mut sink = Counted {
        sum: report.len() as u64,
    };
    for _ in 0..count {
        print_to(&run, &mut sink)?;
    }
    Ok(sink.sum)
}

// The run that a report tells, whose operations are those that `operations` gives.
fn run_of(alloc: Global, report: &[u8]) -> Result<Run> {
    let turns = turns_of(alloc, report)?;
    let count = match turns.as_slice().last() {
        Some(turn) => turn.ops_to,
        None => 0,
    };
    Ok(Run {
        script: read_script(alloc, b"")?,
        turns,
        ops: operations(alloc, count)?,
        factory_count: 0,
    })
}

fn print_to<K: Sink>(run: &Run, sink: &mut K) -> Result<()> {
    match print_run(run, Form::Whole, sink) {
        Printed::All => Ok(()),
        Printed::Fault => bail!("the output failed"),
    }
}
