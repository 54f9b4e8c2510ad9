// Cuts in commits and in recoveries.
ghost use Rattle.std.specs.Prelude.{◌≤◌};

use super::fresh;
use disk_base::Psn;
use platter_model::{Damage, Effect, Lasting, Left, Tear, World};
use sector_store::*;
use std::alloc::Global;
use std::test::Fail;

// Arms a cut for the `k`-th write from here.
pub(super) fn arm(store: &mut Store, k: u32, left: Left) -> Result<(), Fail>
    requires { 1 ≤ k }
{
    store.reserve(1)?;
    let tear = Tear { left, scar: 0 };
    store.world(&World::Arm { k, tear });
    Ok(())
}

// A commit without pairs: the next number in the other slot is what tells it.
fn commit(store: &mut Store) -> Result<CommitAnswer, Fail> {
    store.map().lists_are_valid();
    if !store.is_ready() || store.map().number() > 100 {
        return Err(Fail::from("no commit may begin"));
    }
    store.reserve(10)?;
    Ok(store.commit(&[]))
}

pub(super) fn recover(store: &mut Store) -> Result<RecoverAnswer, Fail> {
    if !store.platter().is_off() {
        return Err(Fail::from("the power is on"));
    }
    store.reserve(340)?;
    Ok(store.recover())
}

// A fresh store whose commit of map 3 was cut off at its `k`-th write.
fn cut_in_commit(alloc: Global, k: u32, left: Left) -> Result<Store, Fail>
    requires { 1 ≤ k }
{
    let mut store = fresh(alloc)?;
    arm(&mut store, k, left)?;
    if commit(&mut store)? != CommitAnswer::Off || store.is_ready() {
        return Err(Fail::from("the commit was not cut off"));
    }
    Ok(store)
}

// Whether a commit that was cut off before this write leaves map 2, and from there on map 3.
fn is_next_from(alloc: Global, left: Left, first: u32) -> Result<bool, Fail> {
    for k in 1..9u32 {
        let mut store = cut_in_commit(alloc, k, left)?;
        let (number, slot) = if k < first { (6, 1) } else { (7, 0) };
        if recover(&mut store)? != RecoverAnswer::Ready(number) || store.map().slot() != slot {
            return Ok(false);
        }
    }
    Ok(true)
}

#[test]
fn cuts_in_a_commit(rt: HostRuntime) -> Result<(), Fail> {
    let alloc = rt.alloc();
    assert!(rt; is_next_from(alloc, Left::Nothing, 5)?);
    assert!(rt; is_next_from(alloc, Left::Old, 5)?);
    assert!(rt; is_next_from(alloc, Left::New, 4)?);
    Ok(())
}

// What a second recovery comes to, where the first, of map 3, was cut off at its `k`-th write.
fn after_two_cuts(alloc: Global, k: u32, left: Left) -> Result<RecoverAnswer, Fail>
    requires { 1 ≤ k }
{
    let mut store = cut_in_commit(alloc, 5, Left::Nothing)?;
    arm(&mut store, k, left)?;
    if recover(&mut store)? != RecoverAnswer::Off || store.is_ready() {
        return Err(Fail::from("the recovery was not cut off"));
    }
    recover(&mut store)
}

#[test]
fn cuts_in_a_recovery(rt: HostRuntime) -> Result<(), Fail> {
    let alloc = rt.alloc();
    for k in 1..17u32 {
        let number = match k {
            0..=4 => 7,
            5..=12 => 9,
            _ => 11,
        };
        assert!(rt; after_two_cuts(alloc, k, Left::Nothing)? == RecoverAnswer::Ready(number));
    }
    assert!(rt; after_two_cuts(alloc, 4, Left::New)? == RecoverAnswer::Ready(9));
    assert!(rt; after_two_cuts(alloc, 12, Left::New)? == RecoverAnswer::Ready(11));
    Ok(())
}

// No read of a sector of the maps finds anything.
fn ruin(store: &mut Store, p: Psn) -> Result<(), Fail> {
    if p.0 >= store.map().size().total() {
        return Err(Fail::from("no sector of the drive"));
    }
    store.stands();
    store.reserve(1)?;
    store.world(&World::Damage(Damage {
        p,
        first: 0,
        count: 9478,
        lasting: Lasting::Hard,
        effect: Effect::Drop,
    }));
    Ok(())
}

// Both copies of a record of map 2 are gone, and then the power goes and comes.
#[test]
fn a_corrupt_map(rt: HostRuntime) -> Result<(), Fail> {
    let mut store = fresh(rt.alloc())?;
    ruin(&mut store, Psn(9))?;
    ruin(&mut store, Psn(13))?;
    store.reserve(1)?;
    store.world(&World::Cut);
    assert!(rt; recover(&mut store)? == RecoverAnswer::Corrupt(1));
    assert!(rt; !store.is_ready());
    Ok(())
}
