use disk_base::Psn;
use geometry_map::{Map, Size};
use map_generations::*;
use std::test::Fail;

// What the sectors of the map of a new drive read as: map 1 in slot 0 and map 2 in slot 1.
fn fresh(size: Size) -> Option<MapReads> {
    let newer = Map::factory(size, &[Psn(20)])?;
    let older = newer.with_number(1, 0);
    let mut reads = [None; 16];
    for place in 0..8u8 {
        let copy = place / 4;
        reads[usize::from(place)] = Some(map_record(&older, copy, place % 4));
        reads[8 + usize::from(place)] = Some(map_record(&newer, copy, place % 4));
    }
    Some(reads)
}

// The number of the map that is taken and its slot, or the slot that makes the map corrupt.
fn outcome(reads: &MapReads, size: &Size) -> Result<(u64, u8), u8> {
    match decide(reads, size) {
        Decision::Take { map } => Ok((map.number(), map.slot())),
        Decision::Corrupt { slot } => Err(slot),
    }
}

// The reads without those of two sectors.
fn without(all: &MapReads, a: usize, b: usize) -> MapReads {
    let mut reads = *all;
    if let Some(read) = reads.get_mut(a) {
        *read = None;
    }
    if let Some(read) = reads.get_mut(b) {
        *read = None;
    }
    reads
}

// One or two sectors that don't read, and what recovery decides. Slot 0 has its records at 0 to 3 and again at 4 to 7, slot 1 at 8
// to 11 and at 12 to 15. Where slot 1 lacks a record it may have a later map than slot 0, and the map is corrupt; where slot 0 does,
// sector 7, the last that is written of it, tells that its map is the older one, if it reads.
static MISSING: [(usize, usize, Result<(u64, u8), u8>); 24] = [
    (0, 0, Ok((2, 1))),
    (1, 1, Ok((2, 1))),
    (2, 2, Ok((2, 1))),
    (3, 3, Ok((2, 1))),
    (4, 4, Ok((2, 1))),
    (5, 5, Ok((2, 1))),
    (6, 6, Ok((2, 1))),
    (7, 7, Ok((2, 1))),
    (8, 8, Ok((2, 1))),
    (9, 9, Ok((2, 1))),
    (10, 10, Ok((2, 1))),
    (11, 11, Ok((2, 1))),
    (12, 12, Ok((2, 1))),
    (13, 13, Ok((2, 1))),
    (14, 14, Ok((2, 1))),
    (15, 15, Ok((2, 1))),
    (8, 12, Err(1)),
    (9, 13, Err(1)),
    (10, 14, Err(1)),
    (11, 15, Err(1)),
    (0, 4, Ok((2, 1))),
    (1, 5, Ok((2, 1))),
    (2, 6, Ok((2, 1))),
    (3, 7, Err(0)),
];

#[test]
fn sectors_that_do_not_read(rt: HostRuntime) -> Result<(), Fail> {
    let size = Size::new(16, 4, 16, 96).ok_or("measures")?;
    let all = fresh(size).ok_or("a new drive")?;
    assert!(rt; outcome(&all, &size) == Ok((2, 1)));
    for (a, b, decided) in MISSING.iter() {
        assert!(rt; outcome(&without(&all, *a, *b), &size) == *decided);
    }
    Ok(())
}

// Lets those sectors of a slot read whose bits are set.
fn choose(reads: &mut MapReads, all: &MapReads, slot: usize, bits: u32) {
    for place in 0..8usize {
        let p = 8 * (slot % 2) + place;
        reads[p] = if bits >> place & 1 == 1 { all[p] } else { None };
    }
}

// Each record of a slot has two copies, so 3^4 = 81 choices of its 256 leave the slot complete. Slot 1 is then taken where slot 0
// is complete as well, or sector 7 reads: 81 + 128 - 54 = 155 choices. Where slot 0 alone is complete, slot 1 makes the map corrupt
// in all its 175 other choices, as its last sector reads as no older record; all that is left is corrupt by slot 0.
#[test]
fn each_choice_of_sectors_that_read(rt: HostRuntime) -> Result<(), Fail> {
    let size = Size::new(16, 4, 16, 96).ok_or("measures")?;
    let all = fresh(size).ok_or("a new drive")?;
    let mut reads = all;
    let mut newer = 0u32;
    let mut corrupt_1 = 0u32;
    let mut corrupt_0 = 0u32;
    for in_1 in 0..256u32 {
        choose(&mut reads, &all, 1, in_1);
        for in_0 in 0..256u32 {
            choose(&mut reads, &all, 0, in_0);
            match outcome(&reads, &size) {
                Ok((2, 1)) => newer = newer.wrapping_add(1),
                Err(1) => corrupt_1 = corrupt_1.wrapping_add(1),
                Err(0) => corrupt_0 = corrupt_0.wrapping_add(1),
                _ => {}
            }
        }
    }
    assert_eq!(rt; newer, 81 * 155);
    assert_eq!(rt; corrupt_1, 175 * 81);
    assert_eq!(rt; corrupt_0, 65_536 - 81 * 155 - 175 * 81);
    Ok(())
}
