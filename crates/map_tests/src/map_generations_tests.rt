mod recovery;

use disk_base::{Payload, Psn};
use geometry_map::{Map, Pair, Size};
use map_generations::*;
use std::test::Fail;

// The record of a map of a drive of 16 cylinders with 4 heads and 16 sectors on a track, 96 sectors kept back: sector 20
// is a defect of the factory, and sector 16 was moved to 929. Number 3, in slot 1.
fn record(copy: u8, index: u8) -> Option<Payload> {
    let moved = [Pair {
        old: Psn(16),
        new: Psn(929),
    }];
    let map = Map::of_lists(Size::new(16, 4, 16, 96)?, &[Psn(20)], &moved, 3, 1, 0)?;
    if copy < COPIES && index < MAP_RECORDS {
        Some(map_record(&map, copy, index))
    } else {
        None
    }
}

#[test]
fn lists_by_bytes(rt: HostRuntime) -> Result<(), Fail> {
    let sectors = record(0, 0).ok_or("a record")?;
    assert!(rt; sectors.psn == Psn(8));
    assert!(rt;
        sectors.bytes().starts_with(&[
            3, 0, 0, 1, 0, 0, 0, 8, 0, 0, 0, 0, 0, 0, 0, 3, 0, 0, 0, 20, 0, 0, 0, 0,
        ])
    );
    let pairs = record(1, 1).ok_or("a record")?;
    assert!(rt; pairs.psn == Psn(13));
    assert!(rt;
        pairs
            .block()
            .starts_with(&[0, 0, 0, 16, 0, 0, 3, 0xA1, 0, 0, 0, 0])
    );
    Ok(())
}

#[test]
fn measures_by_bytes(rt: HostRuntime) -> Result<(), Fail> {
    let measures = record(1, 3).ok_or("a record")?;
    assert!(rt; measures.psn == Psn(15));
    assert!(rt;
        measures
            .block()
            .starts_with(&[0, 16, 4, 16, 0, 96, 0, 1, 0, 1, 0, 0])
    );
    Ok(())
}
