//! What the lines of a script weigh.
ghost use Rattle.std.specs.Prelude.{◌≡◌, ◌≤◌, ◌<◌, ◌^◌, slice_index};
ghost use Rattle.script_text.specs.Weight.{weight_of_blocks, short_length, long_length, weight_of_data, weight_of_command, weight_of_event, weight_of};

use crate::Line;
use disk_base::{Cdb, DataOut};
use platter_model::World;

/// The most blocks that a command reads, writes or verifies.
const BLOCKS_PER_COMMAND: u32 = 256;

/// What a command SYNCHRONIZE CACHE weighs, and power on.
const HEAVY: u64 = 64;

/// What a line weighs, on a drive of this capacity.
pub fn weight_of(capacity: u64, line: &Line) -> u64
    ensures { result ≡ weight_of capacity line.now }
{
    match line {
        Line::Command { cdb, sent, .. } => weight_of_command(capacity, cdb, sent),
        Line::Scan { count } | Line::Destage { count } => u64::from(*count),
        Line::Function { .. } | Line::Go => 0,
        Line::World { world } => weight_of_event(world),
    }
}

fn weight_of_command(capacity: u64, cdb: &Cdb, sent: &DataOut) -> u64
    ensures { result ≡ weight_of_command capacity cdb.now sent.now }
{
    let bytes = cdb.bytes();
    match byte(bytes, 0) {
        0x28 | 0x2A | 0x2E | 0x2F => weight_of_blocks(short_length(bytes)),
        0x88 | 0x8A => weight_of_blocks(long_length(bytes)),
        0x35 | 0x91 => HEAVY,
        0x07 => weight_of_data(sent),
        0x04 => capacity,
        _ => 0,
    }
}

fn weight_of_blocks(count: u32) -> u64
    ensures { result ≡ weight_of_blocks count }
{
    if count <= BLOCKS_PER_COMMAND {
        u64::from(count)
    } else {
        0
    }
}

fn weight_of_data(sent: &DataOut) -> u64
    ensures { result ≡ weight_of_data sent.now }
{
    match sent {
        DataOut::Nothing | DataOut::Fill(_) => 0,
        DataOut::Given(bytes) => (bytes.as_slice().len() / 4) as u64,
    }
}

fn weight_of_event(world: &World) -> u64
    ensures { result ≡ weight_of_event world.now }
{
    match world {
        World::Power => HEAVY,
        _ => 0,
    }
}

// The transfer length of a command block of 10 bytes.
fn short_length(bytes: &[u8]) -> u32
    ensures { result ≡ short_length bytes.now }
{
    u32::from(byte(bytes, 7)) * 256 + u32::from(byte(bytes, 8))
}

// The transfer length of a command block of 16 bytes.
fn long_length(bytes: &[u8]) -> u32
    ensures { result ≡ long_length bytes.now }
{
    let high = u32::from(byte(bytes, 10)) * 256 + u32::from(byte(bytes, 11));
    (high * 256 + u32::from(byte(bytes, 12))) * 256 + u32::from(byte(bytes, 13))
}

// The byte at a place, 0 past the end.
pub fn byte(bytes: &[u8], at: usize) -> u8
    ensures { result ≡ slice_index bytes.now at }
{
    bytes.get(at).copied().unwrap_or(0)
}
