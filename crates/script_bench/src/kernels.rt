//! The kernels. Each gives a sum over what it read or printed.
use crate::scripts;
use anyhow::{Context, Result, bail};
use disk_base::{Bytes, DataOut};
use platter_model::World;
use script_text::{Line, Script, print, read_script};
use std::alloc::Global;

/// The sum over so many turns of the kernel that is named.
pub fn run(alloc: Global, kernel: &str, count: u32) -> Result<u64> {
    match kernel {
        "empty" => Ok(scripts::mixed(alloc)?.len() as u64),
        "read" => read(alloc, scripts::mixed(alloc)?.as_bytes(), count),
        "tags" => read(alloc, scripts::all_tags(alloc)?.as_bytes(), count),
        "comments" => read(alloc, scripts::comments(alloc)?.as_bytes(), count),
        "comment" => read(alloc, scripts::one_comment(alloc)?.as_bytes(), count),
        "print" => printed(alloc, scripts::mixed(alloc)?.as_bytes(), count),
        _ => bail!("no such kernel"),
    }
}

fn mixed(sum: u64, worth: u64) -> u64 {
    sum.wrapping_mul(31).wrapping_add(worth)
}

fn read(alloc: Global, text: &[u8], count: u32) -> Result<u64> {
    let mut sum = text.len() as u64;
    for _ in 0..count {
        let script = read_script(alloc, text)?;
        sum = sum_of(sum, &script);
    }
    Ok(sum)
}

fn sum_of(start: u64, script: &Script) -> u64 {
    let mut sum = start;
    for line in script.lines.as_slice() {
        sum = mixed(sum, worth_of(line));
    }
    sum
}

fn worth_of(line: &Line) -> u64 {
    match line {
        Line::Command { tag, cdb, sent, .. } => {
            let worth = mixed(u64::from(tag.0), cdb.bytes().len() as u64);
            mixed(worth, worth_of_data(sent))
        }
        Line::World { world } => worth_of_event(world),
        _ => 1,
    }
}

fn worth_of_data(sent: &DataOut) -> u64 {
    match sent {
        DataOut::Nothing => 0,
        DataOut::Fill(byte) => u64::from(*byte),
        DataOut::Given(bytes) => match bytes.as_slice().last() {
            Some(byte) => mixed(bytes.as_slice().len() as u64, u64::from(*byte)),
            None => 0,
        },
    }
}

fn worth_of_event(world: &World) -> u64 {
    match world {
        World::Damage(damage) => mixed(u64::from(damage.p.0), u64::from(damage.first)),
        _ => 2,
    }
}

fn printed(alloc: Global, text: &[u8], count: u32) -> Result<u64> {
    let script = read_script(alloc, text)?;
    let mut sum = print_of(alloc, &script)?.as_slice().len() as u64;
    for turn in 0..count {
        let text = print_of(alloc, &script)?;
        let byte = text.as_slice().get(turn as usize).copied().unwrap_or(0);
        sum = mixed(sum, mixed(text.as_slice().len() as u64, u64::from(byte)));
    }
    Ok(sum)
}

fn print_of(alloc: Global, script: &Script) -> Result<Bytes> {
    print(alloc, script).ok().context("there is no memory")
}
