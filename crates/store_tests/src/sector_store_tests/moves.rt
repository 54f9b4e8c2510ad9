// Blocks that commits move to spares.
ghost use Rattle.std.specs.Prelude.{◌≤◌, ◌<◌, ◌++◌, ◌∷◌, [], IfSome, IfOk};
ghost use Rattle.geometry_map.specs.Size.{capacity_of};
ghost use Rattle.geometry_map.specs.DefectMap.{IsGrownList};
ghost use Rattle.geometry_map.specs.Chains.{IsFreeSpare};

use super::recoveries::{arm, recover};
use super::{first_stage, written};
use disk_base::{Block, Lba, Psn, Value};
use geometry_map::{
    Map, Pair, Size, blocks_are_at_user_sectors, the_next_spare_is_free,
    the_next_spare_makes_a_pair,
};
use platter_model::{Left, World};
use sector_store::*;
use std::alloc::Global;
use std::test::Fail;

// Forty-eight sectors, four of them kept back, and one of these for a bad sector: 28 blocks from sector 16 on, and three
// spares, 45 to 47.
fn fresh_with_spares(alloc: Global) -> Result<Store, Fail> {
    let size = Size::new(1, 1, 48, 4).ok_or("within the limits")?;
    Ok(Store::factory(alloc, size, &[Psn(20)])?)
}

// A spare that is in no pair.
fn free_spare(map: &Map) -> Result<Psn, Fail>
    ensures { IfOk result (λ p. IsFreeSpare map.now p) }
{
    the_next_spare_is_free();
    match map.next_spare(&[]) {
        Some(spare) => Ok(spare),
        None => Err(Fail::from("no spare is left")),
    }
}

// Writes data of a block to the next spare, and finds them there.
fn write_ahead(store: &mut Store, b: u64, v: &Block) -> Result<CheckAnswer, Fail> {
    if b >= store.map().size().capacity() || !store.is_ready() {
        return Err(Fail::from("no block of the drive, or no map"));
    }
    let spare = free_spare(store.map())?;
    store.reserve(4)?;
    if store.write_spare(spare, Lba(b), &Value::Data(*v)) != StoreAnswer::Done {
        return Err(Fail::from("the spare was not written"));
    }
    Ok(store.check_spare(spare, Lba(b), &Value::Data(*v)))
}

// The pair that moves a block to the next spare, where there is one.
fn next_pair(map: &Map, b: Lba) -> Option<Pair>
    requires { b.0 < capacity_of map.now.size }
    ensures { IfSome result (λ pair. IsGrownList map.now.size map.now.primary (map.now.grown ++ pair ∷ [])) }
{
    the_next_spare_makes_a_pair();
    blocks_are_at_user_sectors();
    map.lists_are_valid();
    let old = map.place(b);
    match map.next_spare(&[]) {
        Some(new) => Some(Pair { old, new }),
        None => None,
    }
}

// Commits the pair that moves a block to the next spare.
fn commit_move(store: &mut Store, b: u64) -> Result<CommitAnswer, Fail> {
    if b >= store.map().size().capacity() || !store.is_ready() || store.map().number() > 100 {
        return Err(Fail::from("no move may begin"));
    }
    let pair = next_pair(store.map(), Lba(b)).ok_or("a spare")?;
    store.reserve(10)?;
    Ok(store.commit(&[pair]))
}

// Moves a block with these data.
fn move_on(store: &mut Store, b: u64, v: &Block) -> Result<bool, Fail> {
    let ahead = write_ahead(store, b, v)?;
    Ok(ahead == CheckAnswer::Same && commit_move(store, b)? == CommitAnswer::Done)
}

// Whether a block is at a sector, is read there with its data, and then with the data that are written there.
fn serves_at(store: &mut Store, b: u64, p: u32, found: &Block, new: &Block) -> Result<bool, Fail> {
    if b >= store.map().size().capacity() || store.map().place(Lba(b)) != Psn(p) {
        return Ok(false);
    }
    Ok(
        first_stage(store, b, found)? == Some(0)
            && written(store, b, new)? == StoreAnswer::Done
            && first_stage(store, b, new)? == Some(0),
    )
}

// The power goes and comes.
fn cut_and_recover(store: &mut Store) -> Result<RecoverAnswer, Fail> {
    store.reserve(1)?;
    store.world(&World::Cut);
    recover(store)
}

// Block 0 goes from sector 16 to 45 and on to 46, and block 1 stays at 17.
#[test]
fn a_block_that_is_moved_twice(rt: HostRuntime) -> Result<(), Fail> {
    let mut store = fresh_with_spares(rt.alloc())?;
    assert!(rt; serves_at(&mut store, 0, 16, &[0; 512], &[1; 512])?);
    assert!(rt; move_on(&mut store, 0, &[1; 512])?);
    assert!(rt; serves_at(&mut store, 0, 45, &[1; 512], &[2; 512])?);
    assert!(rt; move_on(&mut store, 0, &[2; 512])?);
    assert!(rt; serves_at(&mut store, 0, 46, &[2; 512], &[3; 512])?);
    assert!(rt; serves_at(&mut store, 1, 17, &[0; 512], &[4; 512])?);
    assert_eq!(rt; (store.map().number(), store.map().slot()), (4, 1));
    Ok(())
}

// The same, and after each move the power goes and comes: each move raises the map's number by one, each recovery by four.
#[test]
fn a_block_that_is_moved_twice_over_recoveries(rt: HostRuntime) -> Result<(), Fail> {
    let mut store = fresh_with_spares(rt.alloc())?;
    assert!(rt; move_on(&mut store, 0, &[1; 512])?);
    assert!(rt; cut_and_recover(&mut store)? == RecoverAnswer::Ready(7));
    assert!(rt; serves_at(&mut store, 0, 45, &[1; 512], &[2; 512])?);
    assert!(rt; move_on(&mut store, 0, &[2; 512])?);
    assert!(rt; cut_and_recover(&mut store)? == RecoverAnswer::Ready(12));
    assert!(rt; serves_at(&mut store, 0, 46, &[2; 512], &[3; 512])?);
    assert!(rt; serves_at(&mut store, 1, 17, &[0; 512], &[4; 512])?);
    Ok(())
}

// Whether the block's data are where a recovery finds the map, after its move was cut off at the `k`-th write of the commit: at
// sector 16 by map 2, and from the last write of the first copy on at 45 by map 3.
fn is_there_after_cut(alloc: Global, k: u32) -> Result<bool, Fail>
    requires { 1 ≤ k }
{
    let mut store = fresh_with_spares(alloc)?;
    let data = [1; 512];
    let _ = written(&mut store, 0, &data)?;
    let _ = write_ahead(&mut store, 0, &data)?;
    arm(&mut store, k, Left::Nothing)?;
    if commit_move(&mut store, 0)? != CommitAnswer::Off {
        return Ok(false);
    }
    let (number, p) = if k < 5 { (6, 16) } else { (7, 45) };
    Ok(
        recover(&mut store)? == RecoverAnswer::Ready(number)
            && serves_at(&mut store, 0, p, &data, &[2; 512])?,
    )
}

#[test]
fn a_move_that_is_cut_off(rt: HostRuntime) -> Result<(), Fail> {
    for k in 1..9 {
        assert!(rt; is_there_after_cut(rt.alloc(), k)?);
    }
    Ok(())
}
