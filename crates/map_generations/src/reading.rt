//! The map that the data of records say.
ghost use Rattle.std.specs.Prelude.{◌≡◌, ◌+◌, ◌≤◌, ◌++◌, ◌↔◌, length, drop, slice_range, IsTrue, IfSome};
ghost use Rattle.std.specs.Int.{w16, from_be_bytes};
ghost use Rattle.geometry_map.specs.DefectMap.{DefectMap};
ghost use Rattle.map_generations.specs.MapRecord.{record_bytes, IsState};
ghost use Rattle.map_generations.specs.Reading.{sector_in, pair_in, sectors_in, pairs_in, IsNumbered};

use crate::record::{IN_USE, RECORD_PAIRS};
use arrayvec::ArrayVec;
use disk_base::{BLOCK_LENGTH, Block, Payload, Psn};
use geometry_map::{Map, PAIRS_MAX, PRIMARY_MAX, Pair, Size};

/// The four records of a map.
#[derive(Clone, Copy)]
pub struct Records<'a> {
    pub sectors: &'a Payload,
    pub pairs: &'a Payload,
    pub later_pairs: &'a Payload,
    pub measures: &'a Payload,
}

/// A map of this drive by the lists that the records' data say, whatever else stands in them, in the first record's state.
pub fn map_read(size: &Size, slot: u8, number: u64, records: &Records) -> Option<Map>
    ensures numbered { IfSome result (IsNumbered size.now slot number) }

    // The only map that may have these data.
    ensures only { (m : DefectMap) → IsNumbered size.now slot number m → m.state ≡ records.now.sectors.now.state
        → record_bytes m 0 ≡ records.now.sectors.now.block → record_bytes m 1 ≡ records.now.pairs.now.block → record_bytes m 2 ≡ records.now.later_pairs.now.block
        → record_bytes m 3 ≡ records.now.measures.now.block → result ≡ Some m }
{
    let state = records.sectors.state;
    let (sectors, pairs) = counts(&records.measures.block);
    if !is_state(state) || sectors > PRIMARY_MAX || pairs > PAIRS_MAX {
        return None;
    }
    let primary = sectors_of(&records.sectors.block, sectors);
    let mut grown = ArrayVec::new();
    read_pairs(&mut grown, &records.pairs.block, pairs.min(RECORD_PAIRS));
    read_pairs(
        &mut grown,
        &records.later_pairs.block,
        pairs.saturating_sub(RECORD_PAIRS),
    );
    numbered_map(
        size,
        primary.as_slice(),
        grown.as_slice(),
        slot,
        number,
        state,
    )
}

fn is_state(state: u8) -> bool
    ensures { IsTrue result ↔ IsState state }
{
    state == IN_USE
}

fn numbered_map(
    size: &Size,
    primary: &[Psn],
    grown: &[Pair],
    slot: u8,
    number: u64,
    state: u8,
) -> Option<Map>
    requires { IsState state }
    ensures numbered { IfSome result (IsNumbered size.now slot number) }
    ensures only { (m : DefectMap) → IsNumbered size.now slot number m → m.primary ≡ primary.now → m.grown ≡ grown.now
        → m.state ≡ state → result ≡ Some m }
{
    let map = Map::of_lists(*size, primary, grown, number, slot, state)?;
    map.lists_are_valid();
    Some(map)
}

// The lengths of both lists.
fn counts(measures: &Block) -> (usize, usize)
    ensures sectors { result.0 ≡ from_be_bytes w16 (slice_range measures.now 6 8) }
    ensures pairs { result.1 ≡ from_be_bytes w16 (slice_range measures.now 8 10) }
{
    let [_, _, _, _, _, _, s1, s0, p1, p0, ..] = *measures;
    (
        usize::from(u16::from_be_bytes([s1, s0])),
        usize::from(u16::from_be_bytes([p1, p0])),
    )
}

fn sectors_of(block: &Block, count: usize) -> ArrayVec<Psn, PRIMARY_MAX>
    requires { count ≤ PRIMARY_MAX }
    ensures { result.items ≡ sectors_in count block.now }
{
    let mut list = ArrayVec::new();
    for i in 0..count {
        list.push(sector_at(block, 4 * i));
    }
    list
}

// Adds the pairs at the front of a block to a list.
fn read_pairs(list: &mut ArrayVec<Pair, PAIRS_MAX>, block: &Block, count: usize)
    requires held { count ≤ RECORD_PAIRS }
    requires room { length list.old.items + count ≤ PAIRS_MAX }
    ensures { list.new.items ≡ list.old.items ++ pairs_in count block.now }
{
    for i in 0..count {
        list.push(pair_at(block, 8 * i));
    }
}

fn pair_at(block: &Block, at: usize) -> Pair
    requires { at + 8 ≤ BLOCK_LENGTH }
    ensures { result ≡ pair_in (drop at block.now) }
{
    Pair {
        old: sector_at(block, at),
        new: sector_at(block, at + 4),
    }
}

fn sector_at(block: &Block, at: usize) -> Psn
    requires { at + 4 ≤ BLOCK_LENGTH }
    ensures { result ≡ sector_in (drop at block.now) }
{
    let mut bytes = [0; 4];
    bytes.copy_from_slice(&block[at..at + 4]);
    Psn(u32::from_be_bytes(bytes))
}
