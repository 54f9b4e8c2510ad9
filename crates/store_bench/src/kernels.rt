//! The kernels.

use anyhow::{Context, Result};
use disk_base::{Lba, Stage};
use geometry_map::Size;
use platter_model::World;
use sector_store::Store;
use std::alloc::Global;

/// Makes the store of the largest drive so many times.
pub fn factories(alloc: Global, count: u32) -> Result<u64> {
    let mut operations = 0;
    for _ in 0..count {
        let store = largest(alloc)?;
        operations = store.platter().ops().len() as u64;
    }
    Ok(operations)
}

/// Tries so many undamaged blocks of the largest drive, one behind the other.
pub fn tries(alloc: Global, count: u32) -> Result<u64> {
    let mut store = largest(alloc)?;
    for turn in 0..count {
        try_one(&mut store, turn)?;
    }
    Ok(store.platter().ops().len() as u64)
}

/// Writes so many blocks of the largest drive, one behind the other.
pub fn writes(alloc: Global, count: u32) -> Result<u64> {
    let mut store = largest(alloc)?;
    for turn in 0..count {
        write_one(&mut store, turn)?;
    }
    Ok(store.platter().ops().len() as u64)
}

/// Commits the map of the largest drive so many times, each time as it was.
pub fn commits(alloc: Global, count: u32) -> Result<u64> {
    let mut store = largest(alloc)?;
    for _ in 0..count {
        commit_one(&mut store)?;
    }
    Ok(store.platter().ops().len() as u64)
}

/// Switches the power of the largest drive off and recovers its map so many times.
pub fn recoveries(alloc: Global, count: u32) -> Result<u64> {
    let mut store = largest(alloc)?;
    for _ in 0..count {
        recover_one(&mut store)?;
    }
    Ok(store.platter().ops().len() as u64)
}

// 4,096 sectors, 80 of which hold no block.
fn largest(alloc: Global) -> Result<Store> {
    let size = Size::new(64, 1, 64, 64).context("outside the limits")?;
    Store::factory(alloc, size, &[])
        .ok()
        .context("there is no store")
}

fn try_one(store: &mut Store, turn: u32) -> Result<()> {
    let b = u64::from(turn % 4016);
    if b < store.map().size().capacity() {
        store.reserve(2).ok().context("there is no memory")?;
        let _ = store.try_block(Lba(b), Stage::default());
    }
    Ok(())
}

fn write_one(store: &mut Store, turn: u32) -> Result<()> {
    let b = u64::from(turn % 4016);
    if b < store.map().size().capacity() {
        store.reserve(2).ok().context("there is no memory")?;
        let _ = store.write_place(Lba(b), &[(turn % 256) as u8; 512]);
    }
    Ok(())
}

fn commit_one(store: &mut Store) -> Result<()> {
    store.map().lists_are_valid();
    if store.is_ready() && store.map().number() < u64::MAX {
        store.reserve(10).ok().context("there is no memory")?;
        let _ = store.commit(&[]);
    }
    Ok(())
}

fn recover_one(store: &mut Store) -> Result<()> {
    store.reserve(1).ok().context("there is no memory")?;
    store.world(&World::Cut);
    if store.platter().is_off() {
        store.reserve(340).ok().context("there is no memory")?;
        let _ = store.recover();
    }
    Ok(())
}
