//! What a factory writes.
ghost use Rattle.std.specs.Prelude.{◌≡◌, IfOk};
ghost use Rattle.geometry_map.specs.DefectMap.{factory_map};
ghost use Rattle.geometry_map.specs.Placer.{IsPlacerOf};
ghost use Rattle.sector_store.specs.Maps.{records_of};
ghost use Rattle.sector_store.specs.Factory.{factory_payloads, zero_blocks};

use disk_base::{BLOCK_LENGTH, Lba, NoMemory, Payload};
use geometry_map::{Map, Placer};
use map_generations::map_record;
use std::alloc::Global;

// The number and the slot of the map before the one that a factory leaves.
const FIRST_NUMBER: u64 = 1;

const FIRST_SLOT: u8 = 0;

/// The records of the first two maps, and a block of zeros for each block.
pub(crate) fn payloads(alloc: Global, map: &Map, placer: &Placer) -> Result<Vec<Payload>, NoMemory>
    requires made { map.now ≡ factory_map map.now.size map.now.primary }
    requires placer { IsPlacerOf placer.now map.now }
    ensures { IfOk result (λ list. list.items ≡ factory_payloads map.now.size map.now.primary) }
{
    let first = map.with_number(FIRST_NUMBER, FIRST_SLOT);
    let zeros = zeros(alloc, map, placer)?;
    let mut list = Vec::from_slice(alloc, &records(&first))?;
    list.extend_from_slice(&records(map))?;
    list.extend_from_slice(zeros.as_slice())?;
    Ok(list)
}

/// The records of a map, copy 0 first.
pub(crate) fn records(map: &Map) -> [Payload; 8]
    ensures { result ≡ records_of map.now }
{
    [
        map_record(map, 0, 0),
        map_record(map, 0, 1),
        map_record(map, 0, 2),
        map_record(map, 0, 3),
        map_record(map, 1, 0),
        map_record(map, 1, 1),
        map_record(map, 1, 2),
        map_record(map, 1, 3),
    ]
}

// A block of zeros at the place of each block.
fn zeros(alloc: Global, map: &Map, placer: &Placer) -> Result<Vec<Payload>, NoMemory>
    requires { IsPlacerOf placer.now map.now }
    ensures { IfOk result (λ list. list.items ≡ zero_blocks map.now) }
{
    let mut list = Vec::new(alloc);
    for b in 0..map.size().capacity() {
        let block = Lba(b);
        list.push(Payload::user(placer.place(block), block, &[0; BLOCK_LENGTH]))?;
    }
    Ok(list)
}
