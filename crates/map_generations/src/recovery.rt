//! The rule by which recovery takes a map, over what the sectors of the map read as.
ghost use Rattle.std.specs.Prelude.{◌≡◌, ◌<◌, ◌↔◌, ℕ, IsTrue, IfSome};
ghost use Rattle.std.specs.Option.{option_copied};
ghost use Rattle.disk_base.specs.declared.payload.Payload.{Payload};
ghost use Rattle.geometry_map.specs.DefectMap.{DefectMap};
ghost use Rattle.map_generations.specs.MapRecord.{record_sector as sector_of};
ghost use Rattle.map_generations.specs.Recovery.{reads_of, counted, is_record as is_such_record, as_record};
ghost use Rattle.map_generations.specs.Recovery.{record_in as record_in_slot, Carries, IsComplete, LastIsOlder, IsTaken, IsCorrupt};
ghost use Rattle.map_generations.specs.Laws.{DecisionsAgree, WrittenSlotsAreComplete};
ghost use Rattle.map_generations.specs.Reading.{later_map, later_of as later_of_both, AreRecordsOf, IsLatestOf, IsDecidedAlone};

use crate::reading::{Records, map_read};
use crate::record::{COPIES, MAP_RECORDS, RECORD_VERSION, record_block, record_sector};
use disk_base::Payload;
use geometry_map::{Map, Size};

/// What the sectors of the map, 0 to 15, read as.
pub type MapReads = [Option<Payload>; 16];

/// What the reads of the map's sectors come to.
#[derive(Debug, Drop)]
pub enum Decision {
    Take { map: Map },
    /// There is no map to be taken. The slot is one that isn't complete.
    Corrupt { slot: u8 },
}

/// The kind of payload that carries a record.
const MAP_RECORD: u8 = 3;

/// Records of this number and of greater ones don't count.
const NUMBERS_END: u64 = 0x8000_0000_0000_0000;

/// What recovery decides: the map that it takes, or the slot that makes the map corrupt. A record counts where its number is
/// below 2^63, and wherever the payload itself says that it was written.
pub fn decide(reads: &MapReads, size: &Size) -> Decision
    ensures takes { (m : DefectMap) → (result ≡ Decision.Take m) ↔ IsTaken size.now (counted (reads_of reads.now)) m }
    ensures corrupt { (slot : ℕ) → (result ≡ Decision.Corrupt slot) ↔ IsCorrupt size.now (counted (reads_of reads.now)) slot }
{
    match (latest(reads, size, 0), latest(reads, size, 1)) {
        (Some(first), Some(second)) => Decision::Take {
            map: later(first, second),
        },
        (Some(map), None) => alone(reads, 1, map),
        (None, Some(map)) => alone(reads, 0, map),
        (None, None) => Decision::Corrupt { slot: 0 },
    }
}

// The map of the greater number, or the first where both have the same.
fn later(first: Map, second: Map) -> Map
    ensures { result ≡ later_map first second }
{
    if second.number() > first.number() {
        second
    } else {
        first
    }
}

// The same, where either may be missing.
fn later_of(first: Option<Map>, second: Option<Map>) -> Option<Map>
    ensures { result ≡ later_of_both first second }
{
    match (first, second) {
        (Some(first), Some(second)) => Some(later(first, second)),
        (Some(first), None) => Some(first),
        (None, second) => second,
    }
}

// What the latest map of one slot comes to, where the other slot is broken.
fn alone(reads: &MapReads, broken: u8, map: Map) -> Decision
    requires { broken < 2 }
    ensures { IsDecidedAlone (counted (reads_of reads.now)) broken map result }
{
    if last_is_older(reads, broken, map.number()) {
        Decision::Take { map }
    } else {
        Decision::Corrupt { slot: broken }
    }
}

fn last_is_older(reads: &MapReads, slot: u8, number: u64) -> bool
    requires { slot < 2 }
    ensures { IsTrue result ↔ LastIsOlder (counted (reads_of reads.now)) slot number }
{
    match read_at(reads, slot, COPIES - 1, MAP_RECORDS - 1) {
        Some(p) => is_record(p, MAP_RECORDS - 1, p.address) && p.address < number,
        None => false,
    }
}

// A complete slot has the record of index 0 in a copy: so the numbers that those carry are all that may be complete.
fn latest(reads: &MapReads, size: &Size, slot: u8) -> Option<Map>
    requires { slot < 2 }
    ensures { IsLatestOf size.now (counted (reads_of reads.now)) slot result }
{
    later_of(
        numbered_by(reads, size, slot, 0),
        numbered_by(reads, size, slot, 1),
    )
}

// The complete map of the number that the first record of a copy carries.
fn numbered_by(reads: &MapReads, size: &Size, slot: u8, copy: u8) -> Option<Map>
    requires slot { slot < 2 }
    requires copy { copy < COPIES }
    ensures complete { IfSome result (λ m. (m.slot ≡ slot) × IsComplete size.now (counted (reads_of reads.now)) m) }
    ensures only { (m : DefectMap) → (m.slot ≡ slot) → IsComplete size.now (counted (reads_of reads.now)) m → (p : Payload)
        → as_record 0 m.number (counted (reads_of reads.now) (sector_of slot copy 0).0) ≡ Some p → result ≡ Some m }
{
    let first = read_at(reads, slot, copy, 0)?;
    complete_map(reads, size, slot, first.address)
}

// The map of a number, where the slot is complete for it.
fn complete_map(reads: &MapReads, size: &Size, slot: u8, number: u64) -> Option<Map>
    requires { slot < 2 }
    ensures complete { IfSome result (λ m. (m.slot ≡ slot) × (m.number ≡ number) × IsComplete size.now (counted (reads_of reads.now)) m) }
    ensures only { (m : DefectMap) → m.slot ≡ slot → m.number ≡ number → IsComplete size.now (counted (reads_of reads.now)) m
        → result ≡ Some m }
{
    let records = Records {
        sectors: record_in(reads, slot, number, 0)?,
        pairs: record_in(reads, slot, number, 1)?,
        later_pairs: record_in(reads, slot, number, 2)?,
        measures: record_in(reads, slot, number, 3)?,
    };
    let map = map_read(size, slot, number, &records)?;
    if are_of(&map, &records) {
        Some(map)
    } else {
        None
    }
}

fn are_of(map: &Map, records: &Records) -> bool
    ensures { IsTrue result ↔ AreRecordsOf map.now records.now.sectors.now records.now.pairs.now records.now.later_pairs.now
        records.now.measures.now }
{
    carries(map, 0, records.sectors)
        && carries(map, 1, records.pairs)
        && carries(map, 2, records.later_pairs)
        && carries(map, 3, records.measures)
}

// Whether a payload carries the record of an index, its zeros included.
fn carries(map: &Map, index: u8, p: &Payload) -> bool
    requires { index < MAP_RECORDS }
    ensures { IsTrue result ↔ Carries map.now index p.now }
{
    p.version == RECORD_VERSION && p.state == map.state() && p.block == record_block(map, index)
}

// The record of an index and a number in a slot.
fn record_in<'a>(reads: &'a MapReads, slot: u8, number: u64, index: u8) -> Option<&'a Payload>
    requires slot { slot < 2 }
    requires index { index < MAP_RECORDS }
    ensures { option_copied result ≡ record_in_slot (counted (reads_of reads.now)) slot number index }
{
    match record_at(reads, slot, 0, number, index) {
        Some(p) => Some(p),
        None => record_at(reads, slot, 1, number, index),
    }
}

// The record of an index and a number in a copy.
fn record_at<'a>(
    reads: &'a MapReads,
    slot: u8,
    copy: u8,
    number: u64,
    index: u8,
) -> Option<&'a Payload>
    requires slot { slot < 2 }
    requires copy { copy < COPIES }
    requires index { index < MAP_RECORDS }
    ensures { option_copied result ≡ as_record index number (counted (reads_of reads.now) (sector_of slot copy index).0) }
{
    match read_at(reads, slot, copy, index) {
        Some(p) if is_record(p, index, number) => Some(p),
        _ => None,
    }
}

fn is_record(p: &Payload, index: u8, number: u64) -> bool
    ensures { result ≡ is_such_record index number p.now }
{
    p.kind == MAP_RECORD && p.index == index && p.address == number
}

// What the sector of a record reads as, where that counts.
fn read_at<'a>(reads: &'a MapReads, slot: u8, copy: u8, index: u8) -> Option<&'a Payload>
    requires slot { slot < 2 }
    requires copy { copy < COPIES }
    requires index { index < MAP_RECORDS }
    ensures { option_copied result ≡ counted (reads_of reads.now) (sector_of slot copy index).0 }
{
    match &reads[record_sector(slot, copy, index).0 as usize] {
        Some(p) if p.address < NUMBERS_END => Some(p),
        _ => None,
    }
}

/// Law: whatever the sectors read as, the rule allows one decision.
pub fn decisions_agree()
    ensures { DecisionsAgree }
{}

/// Law: where the sectors that read are those of a map that was written, and each record is among them, the slot is
/// complete for that map.
pub fn written_slots_are_complete()
    ensures { WrittenSlotsAreComplete }
{}
