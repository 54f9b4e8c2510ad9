use disk_base::{Lba, Psn};
use geometry_map::*;
use std::test::Fail;

// The place of a block that the drive has.
fn place(map: &Map, b: u64) -> Option<u32> {
    if b < map.size().capacity() {
        Some(map.place(Lba(b)).0)
    } else {
        None
    }
}

#[test]
fn drive_of_1024_sectors(rt: HostRuntime) -> Result<(), Fail> {
    let size = Size::new(16, 4, 16, 96).ok_or("within the limits")?;
    assert_eq!(rt; (size.total(), size.capacity()), (1024, 912));
    let map = Map::factory(size, &[]).ok_or("no defects")?;
    assert_eq!(rt; (place(&map, 0), place(&map, 911)), (Some(16), Some(927)));
    assert_eq!(rt; map.next_spare(&[]), Some(Psn(928)));
    assert_eq!(rt; map.next_spare(&[Psn(928)]), Some(Psn(929)));
    assert_eq!(rt; map.cylinder_head_sector(Psn(1023)), (15, 3, 15));
    assert_eq!(rt; (map.number(), map.slot(), map.state()), (2, 1, 0));
    let next = map.with_number(3, 0);
    assert_eq!(rt; (next.number(), next.slot()), (3, 0));
    Ok(())
}

#[test]
fn defect_of_the_factory(rt: HostRuntime) -> Result<(), Fail> {
    let size = Size::new(16, 4, 16, 96).ok_or("within the limits")?;
    let map = Map::factory(size, &[Psn(20)]).ok_or("one defect")?;
    assert_eq!(rt; (place(&map, 3), place(&map, 4)), (Some(19), Some(21)));
    assert_eq!(rt; map.next_spare(&[]), Some(Psn(929)));
    assert!(rt; map.primary() == [Psn(20)].as_slice());
    Ok(())
}

#[test]
fn chain_of_pairs(rt: HostRuntime) -> Result<(), Fail> {
    let size = Size::new(16, 4, 16, 96).ok_or("within the limits")?;
    let chain = [
        Pair {
            old: Psn(16),
            new: Psn(928),
        },
        Pair {
            old: Psn(928),
            new: Psn(929),
        },
    ];
    let stored = Map::of_lists(size, &[], &chain, 4, 1, 0).ok_or("a chain")?;
    assert!(rt; stored.grown() == chain.as_slice());
    let factory = Map::factory(size, &[]).ok_or("no defects")?;
    let map = factory.with_pairs(&chain);
    assert_eq!(rt; (place(&map, 0), place(&map, 1)), (Some(929), Some(17)));
    assert_eq!(rt; map.next_spare(&[]), Some(Psn(930)));
    Ok(())
}

#[test]
fn measures_and_lists_that_are_none(rt: HostRuntime) -> Result<(), Fail> {
    assert!(rt; Size::new(1025, 1, 1, 0).is_none());
    assert!(rt; Size::new(1, 1, 48, 32).is_none());
    let size = Size::new(1, 1, 48, 2).ok_or("within the limits")?;
    assert!(rt; Map::factory(size, &[Psn(15)]).is_none());
    assert!(rt; Map::factory(size, &[Psn(16), Psn(16)]).is_none());
    assert!(rt; Map::factory(size, &[Psn(16), Psn(17), Psn(18)]).is_none());
    let twice = [
        Pair {
            old: Psn(16),
            new: Psn(46),
        },
        Pair {
            old: Psn(17),
            new: Psn(46),
        },
    ];
    assert!(rt; Map::of_lists(size, &[], &twice, 2, 1, 0).is_none());
    assert!(rt; Map::of_lists(size, &[], &twice[..1], 2, 1, 0).is_some());
    Ok(())
}

#[test]
fn placer_of_a_slip_and_a_pair(rt: HostRuntime) -> Result<(), Fail> {
    let size = Size::new(16, 4, 16, 96).ok_or("within the limits")?;
    let pairs = [Pair {
        old: Psn(16),
        new: Psn(929),
    }];
    let map = Map::of_lists(size, &[Psn(20)], &pairs, 3, 0, 0).ok_or("a defect and a pair")?;
    let placer = Placer::of(&map);
    assert!(rt; placer.gaps.as_slice() == [4].as_slice());
    assert!(rt; placer.remap.as_slice() == pairs.as_slice());
    assert_eq!(rt; placer.place(Lba(0)), Psn(929));
    assert_eq!(rt; placer.place(Lba(3)), Psn(19));
    assert_eq!(rt; placer.place(Lba(4)), Psn(21));
    Ok(())
}

// A pair of sectors.
fn pair(old: u32, new: u32) -> Pair {
    Pair {
        old: Psn(old),
        new: Psn(new),
    }
}

#[test]
fn routes_by_the_pairs_in_order(rt: HostRuntime) -> Result<(), Fail> {
    let size = Size::new(16, 4, 16, 96).ok_or("within the limits")?;
    let pairs = [pair(16, 929), pair(929, 930), pair(17, 931)];
    let routes = [pair(16, 930), pair(17, 931)];
    let map = Map::of_lists(size, &[Psn(20)], &pairs, 3, 0, 0).ok_or("a chain and a pair")?;
    let placer = Placer::of(&map);
    assert!(rt; placer.remap.as_slice() == routes.as_slice());
    assert_eq!(rt; placer.place(Lba(0)), Psn(930));
    assert_eq!(rt; placer.place(Lba(1)), Psn(931));
    assert_eq!(rt; placer.place(Lba(2)), Psn(18));
    let factory = Map::factory(size, &[Psn(20)]).ok_or("one defect")?;
    let later_first = [pair(17, 931), pair(16, 929), pair(929, 930)];
    let moved = Placer::of(&factory).with_pairs(&later_first);
    assert!(rt; moved.remap.as_slice() == routes.as_slice());
    assert!(rt; moved.gaps.as_slice() == [4].as_slice());
    Ok(())
}

#[test]
fn pairs_that_move_no_block(rt: HostRuntime) -> Result<(), Fail> {
    let size = Size::new(16, 4, 16, 96).ok_or("within the limits")?;
    // The second pair comes when block 0 is at 929; 20 is a defect; no block starts at 950.
    let pairs = [pair(16, 929), pair(16, 930), pair(20, 931), pair(950, 932)];
    let map = Map::of_lists(size, &[Psn(20)], &pairs, 3, 0, 0).ok_or("pairs made by hand")?;
    let placer = Placer::of(&map);
    assert!(rt; placer.remap.as_slice() == [pair(16, 929)].as_slice());
    Ok(())
}

// A chain from sector 16 on through as many spares as a list may have, 824 to 951.
fn longest_chain() -> [Pair; PAIRS_MAX] {
    let mut pairs = [pair(16, 824); PAIRS_MAX];
    for (old, link) in (824..951).zip(pairs[1..].iter_mut()) {
        *link = pair(old, old.wrapping_add(1));
    }
    pairs
}

#[test]
fn all_pairs_as_one_chain(rt: HostRuntime) -> Result<(), Fail> {
    let size = Size::new(16, 4, 16, 200).ok_or("within the limits")?;
    let map = Map::of_lists(size, &[], &longest_chain(), 3, 0, 0).ok_or("a chain")?;
    let placer = Placer::of(&map);
    assert!(rt; placer.remap.as_slice() == [pair(16, 951)].as_slice());
    assert_eq!(rt; placer.place(Lba(0)), Psn(951));
    Ok(())
}

// A user sector of a drive of 48 that follows from a seed.
fn drawn(seed: &mut u32) -> u32 {
    *seed = seed.wrapping_mul(1_664_525).wrapping_add(1_013_904_223);
    16 + (*seed >> 16) % 32
}

// Whether both say the same of the first 20 blocks.
fn agree(map: &Map, placer: &Placer) -> bool {
    for b in 0..20u64 {
        if place(map, b) != Some(placer.place(Lba(b)).0) {
            return false;
        }
    }
    true
}

// Whether both ways say the same of a map whose defect and pairs are drawn; nothing where they make no map.
fn drawn_map_agrees(size: Size, seed: &mut u32) -> Option<bool> {
    let defect = [Psn(drawn(seed))];
    let pairs = [
        pair(drawn(seed), 47),
        pair(drawn(seed), 46),
        pair(drawn(seed), 45),
        pair(drawn(seed), 44),
        pair(drawn(seed), 43),
        pair(drawn(seed), 42),
    ];
    let earlier = Map::of_lists(size, &defect, &pairs[..3], 3, 0, 0)?;
    let map = Map::of_lists(size, &defect, &pairs, 4, 1, 0)?;
    let later = Placer::of(&earlier).with_pairs(&pairs[3..]);
    Some(agree(&map, &Placer::of(&map)) && agree(&map, &later))
}

#[test]
fn places_by_lists_and_by_search(rt: HostRuntime) -> Result<(), Fail> {
    let size = Size::new(1, 1, 48, 12).ok_or("within the limits")?;
    let mut seed = 1;
    let mut maps: u32 = 0;
    for _ in 0..300 {
        if let Some(agrees) = drawn_map_agrees(size, &mut seed) {
            assert!(rt; agrees);
            maps = maps.wrapping_add(1);
        }
    }
    assert!(rt; maps > 200);
    Ok(())
}
