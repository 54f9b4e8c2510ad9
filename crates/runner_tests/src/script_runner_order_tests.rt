// One script of eight initiators under many orders.
use crate::script_runner_tests::{bytes, calls};
use block_machine::BlockState;
use disk_base::Value;
use history_replay::replay;
use outside::{MemorySink, MemorySource};
use script_runner::{Outcome, Run, serve_alone};
use std::alloc::Global;
use std::test::Fail;

// The blocks of the drive, of which each initiator writes four of its own, and reads four of the next initiator's.
const BLOCKS: u64 = 40;

// A TEST UNIT READY of each initiator, and then three phases of 64 commands: 200 in all.
fn script(alloc: Global) -> Result<Vec<u8>, Fail> {
    let mut text = b"disk 1 1 64 8\n".to_vec(alloc)?;
    for initiator in 1..9u32 {
        let line = format!(in alloc; "cmd {initiator} 1 S 000000000000\n")?;
        text.extend_from_slice(line.as_bytes())?;
    }
    text.extend_from_slice(b"go\n")?;
    for phase in 0..3u32 {
        add_phase(alloc, &mut text, phase)?;
    }
    Ok(text)
}

// Each initiator sends four writes, and a read behind each.
fn add_phase(alloc: Global, text: &mut Vec<u8>, phase: u32) -> Result<(), Fail> {
    for number in 0..64u32 {
        let initiator = number / 8 + 1;
        let tag = number % 8 + 1;
        let own = number / 2;
        let line = if number % 2 == 0 {
            let fill = (64 * (phase % 3) + number) % 256;
            format!(in alloc; "cmd {initiator} {tag} S 2A00000000{own:02x}00000100 *{fill:02x}\n")?
        } else {
            let other = (own + 4) % 32;
            format!(in alloc; "cmd {initiator} {tag} S 2800000000{other:02x}00000100\n")?
        };
        text.extend_from_slice(line.as_bytes())?;
    }
    text.extend_from_slice(b"go\n")?;
    Ok(())
}

// The run of a script by an order.
fn run(alloc: Global, order: &str, script: &[u8]) -> Result<Run, Fail> {
    let mut source = MemorySource::new(bytes(alloc, script)?, 4096, calls(alloc, &[])?);
    let mut sink = MemorySink::new(alloc, 200_000, 4096, calls(alloc, &[])?)?;
    match serve_alone(alloc, &["run", "--order", order], &mut source, &mut sink) {
        Outcome::Served(run) => Ok(run),
        _ => Err(Fail::from("the script was not served")),
    }
}

// The value that was put last is that of the third phase.
fn is_put_last(block: usize, state: &BlockState) -> bool {
    match state.newer.as_slice().last() {
        Some(Value::Data(data)) => *data == [(128 + 2 * (block % 32)) as u8; 512],
        _ => false,
    }
}

// The 32 blocks that are written have their last values.
fn are_put_last(blocks: &[BlockState]) -> bool {
    for (block, state) in blocks.iter().take(32).enumerate() {
        if !is_put_last(block, state) {
            return false;
        }
    }
    blocks.len() >= 32
}

// Turns that aren't a legal history replay to no blocks.
#[test]
fn each_order_leaves_the_same_blocks(rt: HostRuntime) -> Result<(), Fail> {
    let alloc = rt.alloc();
    let script = script(alloc)?;
    for number in 1..21u32 {
        let order = format!(in alloc; "{number}")?;
        let run = run(alloc, order.as_str(), script.as_slice())?;
        let array = replay(alloc, run.turns.as_slice(), BLOCKS)?;
        assert!(rt; are_put_last(array.as_slice()));
    }
    Ok(())
}
