ghost use Rattle.std.specs.Prelude.{◌≡◌, ◌≤◌, ◌<◌, ◌+◌, ◌^◌, false, Ok, Err, IfOk, MatchResult};
ghost use Rattle.cdb_reader.specs.Fields.{bit};
ghost use Rattle.cdb_reader.specs.Reassign.{address_at, blocks_of, descriptor_length, first_blocks, length_stated, list_sent, some_past};

use crate::command::DESCRIPTORS_MAX;
use crate::fields::{bit, eight_bytes, four_bytes, two_bytes};
use arrayvec::ArrayVec;
use disk_base::{DataOut, Lba};
use sense_data::Sense;
use sense_data::codes::{
    ADDRESS_OUT_OF_RANGE, INVALID_FIELD_IN_PARAMETER_LIST, PARAMETER_LIST_LENGTH_ERROR,
};

/// Bytes of a parameter list before its descriptors.
const HEADER_LENGTH: usize = 4;

/// Blocks to reassign.
pub type Blocks = ArrayVec<Lba, DESCRIPTORS_MAX>;

/// The parameter list that was sent; one repeated byte counts as no list.
pub fn list_sent(sent: &DataOut) -> &[u8]
    ensures { result.now ≡ list_sent sent.now }
{
    match sent {
        DataOut::Given(bytes) => bytes.as_slice(),
        DataOut::Nothing | DataOut::Fill(_) => &[],
    }
}

/// The blocks of the parameter list of a command block REASSIGN BLOCKS, or why it is refused. LONGLBA and LONGLIST are the
/// bits 1 and 0 of byte 1.
pub fn read_blocks(command_block: &[u8], list: &[u8], capacity: u64) -> Result<Blocks, Sense>
    ensures outcome { MatchResult result
        (λ blocks. blocks_of (bit command_block.now 1 1) (bit command_block.now 1 0) list.now capacity ≡ Ok blocks.items)
        (λ sense. blocks_of (bit command_block.now 1 1) (bit command_block.now 1 0) list.now capacity ≡ Err sense) }
    ensures below { IfOk result (λ blocks. some_past blocks.items capacity ≡ false) }
{
    let long_address = bit(command_block, 1, 1);
    let long_list = bit(command_block, 1, 0);
    if list.len() < HEADER_LENGTH {
        return Err(PARAMETER_LIST_LENGTH_ERROR);
    }
    let rest = list.len() - HEADER_LENGTH;
    let size = descriptor_length(long_address);
    if length_stated(long_list, list) as usize != rest || rest % size != 0 {
        return Err(PARAMETER_LIST_LENGTH_ERROR);
    }
    let count = rest / size;
    if count > DESCRIPTORS_MAX {
        return Err(INVALID_FIELD_IN_PARAMETER_LIST);
    }
    let blocks = first_blocks(long_address, list, count);
    if some_past(blocks.as_slice(), capacity) {
        return Err(ADDRESS_OUT_OF_RANGE);
    }
    Ok(blocks)
}

// How many bytes of descriptors the header states.
fn length_stated(long_list: bool, list: &[u8]) -> u32
    ensures { result ≡ length_stated long_list list.now }
{
    if long_list {
        four_bytes(list, 0)
    } else {
        two_bytes(list, 2) as u32
    }
}

// Bytes of a descriptor.
fn descriptor_length(long_address: bool) -> usize
    ensures { result ≡ descriptor_length long_address }
{
    if long_address { 8 } else { 4 }
}

// The address that a descriptor is.
fn address_at(long_address: bool, list: &[u8], at: usize) -> u64
    requires { at + 7 < 2 ^ 64 }
    ensures { result ≡ address_at long_address list.now at }
{
    if long_address {
        eight_bytes(list, at)
    } else {
        four_bytes(list, at) as u64
    }
}

// The blocks of the first descriptors.
fn first_blocks(long_address: bool, list: &[u8], count: usize) -> Blocks
    requires { count ≤ 256 }
    ensures { result.items ≡ first_blocks long_address list.now count }
{
    let size = descriptor_length(long_address);
    let mut blocks = ArrayVec::new();
    for k in 0..count {
        blocks.push(Lba(address_at(long_address, list, HEADER_LENGTH + size * k)));
    }
    blocks
}

// Whether some block isn't below the capacity.
fn some_past(blocks: &[Lba], capacity: u64) -> bool
    ensures { result ≡ some_past blocks.now capacity }
{
    blocks.iter().any(|block| block.0 >= capacity)
}
