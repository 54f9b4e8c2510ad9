ghost use Rattle.std.specs.Prelude.{◌≡◌, ◌+◌, ◌*◌, ◌<◌, ◌≤◌, length, drop, take};
ghost use Rattle.std.specs.List.{flat_map};
ghost use Rattle.map_generations.specs.MapRecord.{map_record as record_of_map};
ghost use Rattle.map_generations.specs.Laws.{RecordsTellMaps};
ghost use Rattle.map_generations.specs.Told.{MapsAreTold};
ghost use Rattle.map_generations.specs.MapRecord.{record_bytes, record_sector as sector_of, measures, sector_bytes, pair_bytes, with_zeros};

use arrayvec::ArrayVec;
use disk_base::{BLOCK_LENGTH, Block, Payload, Psn};
use geometry_map::{Map, PAIRS_MAX, PRIMARY_MAX, Pair};

/// Records of a map: the primary list, the first half of the grown list, the second half, and the measures.
pub const MAP_RECORDS: u8 = 4;

/// How often a slot holds each record.
pub const COPIES: u8 = 2;

/// The version of the records.
pub const RECORD_VERSION: u8 = 1;

/// The state of a map that is in use, the only one that a map has.
pub const IN_USE: u8 = 0;

// Pairs of a record.
pub(crate) const RECORD_PAIRS: usize = 64;

/// What the sector of a record carries, in a copy of the map in its slot.
pub fn map_record(map: &Map, copy: u8, index: u8) -> Payload
    requires copy { copy < COPIES }
    requires index { index < MAP_RECORDS }
    ensures { result ≡ record_of_map map.now copy index }
{
    let p = record_sector(map.slot(), copy, index);
    let block = record_block(map, index);
    Payload::map_record(p, index, map.state(), RECORD_VERSION, map.number(), &block)
}

// The sector that holds a record.
pub(crate) fn record_sector(slot: u8, copy: u8, index: u8) -> Psn
    requires copy { copy < COPIES }
    requires index { index < MAP_RECORDS }
    ensures { result ≡ sector_of slot copy index }
{
    let records = u32::from(MAP_RECORDS);
    let of_slot = u32::from(COPIES) * records * u32::from(slot);
    Psn(of_slot + records * u32::from(copy) + u32::from(index))
}

// The data of a record.
pub(crate) fn record_block(map: &Map, index: u8) -> Block
    requires { index < MAP_RECORDS }
    ensures { result ≡ record_bytes map.now index }
{
    map.lists_are_valid();
    let (first, later) = first_and_later(map.grown());
    match index {
        0 => sectors_block(map.primary()),
        1 => pairs_block(first),
        2 => pairs_block(later),
        _ => measures_block(map),
    }
}

// The pairs of the first record and those behind them.
fn first_and_later(pairs: &[Pair]) -> (&[Pair], &[Pair])
    requires { length pairs.now ≤ PAIRS_MAX }
    ensures first { result.0.now ≡ take RECORD_PAIRS pairs.now }
    ensures later { result.1.now ≡ drop RECORD_PAIRS pairs.now }
    ensures few_first { length result.0.now ≤ RECORD_PAIRS }
    ensures few_later { length result.1.now ≤ RECORD_PAIRS }
{
    pairs.split_at(RECORD_PAIRS.min(pairs.len()))
}

fn sectors_block(sectors: &[Psn]) -> Block
    requires { length sectors.now ≤ PRIMARY_MAX }
    ensures { result ≡ with_zeros (flat_map sector_bytes sectors.now) }
{
    let mut bytes = ArrayVec::<u8, BLOCK_LENGTH>::new();
    for p in sectors {
        let _ = bytes.try_extend_from_slice(&p.0.to_be_bytes());
    }
    zero_filled(bytes.as_slice())
}

fn pairs_block(pairs: &[Pair]) -> Block
    requires { length pairs.now ≤ RECORD_PAIRS }
    ensures { result ≡ with_zeros (flat_map pair_bytes pairs.now) }
{
    let mut bytes = ArrayVec::<u8, BLOCK_LENGTH>::new();
    for pair in pairs {
        let _ = bytes.try_extend_from_slice(&bytes_of_pair(pair));
    }
    zero_filled(bytes.as_slice())
}

fn bytes_of_pair(pair: &Pair) -> [u8; 8]
    ensures { result ≡ pair_bytes pair.now }
{
    let [o3, o2, o1, o0] = pair.old.0.to_be_bytes();
    let [n3, n2, n1, n0] = pair.new.0.to_be_bytes();
    [o3, o2, o1, o0, n3, n2, n1, n0]
}

fn measures_block(map: &Map) -> Block
    ensures { result ≡ with_zeros (measures map.now) }
{
    map.lists_are_valid();
    let size = map.size();
    let [c1, c0] = size.cylinders.to_be_bytes();
    let [r1, r0] = size.reserved.to_be_bytes();
    let [p1, p0] = (map.primary().len() as u16).to_be_bytes();
    let [g1, g0] = (map.grown().len() as u16).to_be_bytes();
    zero_filled(&[c1, c0, size.heads, size.sectors, r1, r0, p1, p0, g1, g0])
}

// The bytes at the front of a block of zeros.
fn zero_filled(bytes: &[u8]) -> Block
    requires { length bytes.now ≤ BLOCK_LENGTH }
    ensures { result ≡ with_zeros bytes.now }
{
    let mut block = [0; BLOCK_LENGTH];
    block[..bytes.len()].copy_from_slice(bytes);
    block
}

/// The data of its four records tell a map: the measures of its drive and both lists.
pub fn records_tell_maps()
    ensures { RecordsTellMaps }
{}

/// A valid map that stands whole in its slot is the one that the slot tells.
pub fn maps_are_told()
    ensures { MapsAreTold }
{}
