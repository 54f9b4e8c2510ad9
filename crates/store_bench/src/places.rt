//! The kernels of places: a map with all the primary defects and pairs that its lists may have.

use anyhow::{Context, Result};
use disk_base::{Lba, Psn};
use geometry_map::{Map, PAIRS_MAX, PRIMARY_MAX, Pair, Placer, Size};

/// Makes the placer of a full map so many times.
pub fn placers(count: u32) -> Result<u64> {
    let map = full(PAIRS_MAX)?;
    let mut routes: u64 = 0;
    for _ in 0..count {
        routes = routes.wrapping_add(Placer::of(&map).remap.len() as u64);
    }
    Ok(routes)
}

/// Makes the placer of a full map from that of the map without its last pair, so many times.
pub fn moves(count: u32) -> Result<u64> {
    let placer = Placer::of(&full(PAIRS_MAX - 1)?);
    let last = pairs()[PAIRS_MAX - 1];
    let mut routes: u64 = 0;
    for _ in 0..count {
        routes = routes.wrapping_add(placer.with_pairs(&[last]).remap.len() as u64);
    }
    Ok(routes)
}

/// Finds so many places of blocks by the placer of a full map.
pub fn places(count: u32) -> Result<u64> {
    let placer = Placer::of(&full(PAIRS_MAX)?);
    let mut sum: u64 = 0;
    let mut seed: u32 = 1;
    for _ in 0..count {
        seed = seed.wrapping_mul(1_664_525).wrapping_add(1_013_904_223);
        let block = (seed >> 16) % 3824;
        sum = sum.wrapping_add(u64::from(placer.place(Lba(u64::from(block))).0));
    }
    Ok(sum)
}

// The map of the largest drive with all primary defects, below the blocks that so many pairs move, each to a spare of its own.
fn full(count: usize) -> Result<Map> {
    let size = Size::new(64, 1, 64, 256).context("outside the limits")?;
    let pairs = pairs();
    let grown = pairs.get(..count).context("more pairs than there are")?;
    Map::of_lists(size, &defects(), grown, 3, 0, 0).context("no valid map")
}

// Every other sector from 17 on.
fn defects() -> [Psn; PRIMARY_MAX] {
    let mut list = [Psn(0); PRIMARY_MAX];
    let mut at: u32 = 17;
    for defect in list.iter_mut() {
        *defect = Psn(at);
        at = at.wrapping_add(2);
    }
    list
}

// From sector 3000 down, to the spares from 3968 up, so that each new route stands before the others.
fn pairs() -> [Pair; PAIRS_MAX] {
    let mut list = [Pair::default(); PAIRS_MAX];
    let mut old: u32 = 3000;
    let mut new: u32 = 3968;
    for pair in list.iter_mut() {
        pair.old = Psn(old);
        pair.new = Psn(new);
        old = old.wrapping_sub(1);
        new = new.wrapping_add(1);
    }
    list
}
