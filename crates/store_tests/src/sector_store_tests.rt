ghost use Rattle.std.specs.Prelude.{◌≡◌, ◌+◌, ◌≤◌, ◌<◌};

mod moves;
mod recoveries;

use channel_path::{Path, SAMPLES};
use disk_base::{Block, How, Lba, Payload, Psn, Stage, Value};
use geometry_map::Size;
use platter_model::{Damage, Effect, Lasting, Left, Platter, Tear, World, WriteAnswer};
use read_recovery::stages;
use sector_store::*;
use std::alloc::Global;
use std::test::Fail;
use write_cache::{Look, Put};

// Forty-eight sectors, two of them kept back, and one of these for a bad sector.
fn fresh(alloc: Global) -> Result<Store, Fail> {
    let size = Size::new(1, 1, 48, 2).ok_or("within the limits")?;
    Ok(Store::factory(alloc, size, &[Psn(20)])?)
}

fn tried(store: &mut Store, b: u64, stage: Stage) -> Result<TryAnswer, Fail> {
    if b >= store.map().size().capacity() {
        return Err(Fail::from("no block of the drive"));
    }
    store.reserve(2)?;
    Ok(store.try_block(Lba(b), stage))
}

fn written(store: &mut Store, b: u64, v: &Block) -> Result<StoreAnswer, Fail> {
    if b >= store.map().size().capacity() {
        return Err(Fail::from("no block of the drive"));
    }
    store.reserve(2)?;
    Ok(store.write_place(Lba(b), v))
}

// Drops samples of a block's sector.
fn harm(store: &mut Store, b: u64, first: u16, count: u16, lasting: Lasting) -> Result<(), Fail>
    requires { first + count ≤ 9478 }
{
    if b >= store.map().size().capacity() {
        return Err(Fail::from("no block of the drive"));
    }
    let p = store.map().place(Lba(b));
    if p.0 >= store.map().size().total() {
        return Err(Fail::from("no sector of the drive"));
    }
    let damage = Damage {
        p,
        first,
        count,
        lasting,
        effect: Effect::Drop,
    };
    store.stands();
    store.reserve(1)?;
    store.world(&World::Damage(damage));
    Ok(())
}

// The plain read of a search for a block's value, wherever that may come from.
fn sought(store: &mut Store, b: u64, rcd: bool) -> Result<TryAnswer, Fail> {
    if b >= store.map().size().capacity() || store.platter().is_off() {
        return Err(Fail::from("no block of the drive, or no power"));
    }
    store.reserve(2)?;
    Ok(store.seek(Search {
        b: Lba(b),
        medium: false,
        stage: Stage {
            number: 0,
            reread: 0,
            offset: 0,
            how: How::Light,
        },
        rcd,
        keeps: true,
    }))
}

fn written_through(store: &mut Store, b: u64, v: &Block) -> Result<StoreAnswer, Fail> {
    if b >= store.map().size().capacity() {
        return Err(Fail::from("no block of the drive"));
    }
    store.reserve(2)?;
    Ok(store.write_through(Lba(b), v))
}

fn hardened(store: &mut Store, b: u64) -> Result<StoreAnswer, Fail> {
    if b >= store.map().size().capacity() || !store.cached().is_dirty(Lba(b)) {
        return Err(Fail::from("no dirty block of the drive"));
    }
    store.reserve(2)?;
    Ok(store.write_dirty(Lba(b)))
}

// The first stage of one retry that finds these data in a block.
fn first_stage(store: &mut Store, b: u64, v: &Block) -> Result<Option<u8>, Fail> {
    for stage in stages(1).as_slice() {
        if tried(store, b, *stage)? == TryAnswer::Found(Value::Data(*v)) {
            return Ok(Some(stage.number));
        }
    }
    Ok(None)
}

#[test]
fn a_write_is_read_back(rt: HostRuntime) -> Result<(), Fail> {
    let mut store = fresh(rt.alloc())?;
    assert_eq!(rt; store.platter().ops().len(), 46);
    let data = [0x5A; 512];
    assert!(rt; written(&mut store, 4, &data)? == StoreAnswer::Done);
    assert_eq!(rt; first_stage(&mut store, 4, &data)?, Some(0));
    assert_eq!(rt; first_stage(&mut store, 5, &[0; 512])?, Some(0));
    let _ = store.cache().put(Lba(4), &data);
    assert!(rt; store.cached().is_dirty(Lba(4)));
    assert_eq!(rt; store.into_ops().as_slice().len(), 51);
    Ok(())
}

// The factory leaves 46 operations, and a try adds two.
#[test]
fn a_block_on_cache_and_sector(rt: HostRuntime) -> Result<(), Fail> {
    let mut store = fresh(rt.alloc())?;
    let zeros = TryAnswer::Found(Value::Data([0; 512]));
    assert!(rt; sought(&mut store, 4, false)? == zeros);
    assert_eq!(rt; store.platter().ops().len(), 48);
    assert!(rt; sought(&mut store, 4, false)? == zeros);
    assert_eq!(rt; store.platter().ops().len(), 48);
    assert!(rt; sought(&mut store, 4, true)? == zeros);
    assert_eq!(rt; store.platter().ops().len(), 50);

    let data = [0x5A; 512];
    assert_eq!(rt; store.put(Lba(4), &data), Put::Kept);
    assert!(rt; sought(&mut store, 4, true)? == TryAnswer::Found(Value::Data(data)));
    assert_eq!(rt; hardened(&mut store, 4)?, StoreAnswer::Done);
    assert!(rt; store.look(Lba(4), false) == Look::Clean(data));
    assert!(rt; store.look(Lba(4), true) == Look::Absent);

    assert_eq!(rt;
        written_through(&mut store, 4, &[1; 512])?,
        StoreAnswer::Done
    );
    assert!(rt; store.look(Lba(4), false) == Look::Absent);
    assert_eq!(rt; first_stage(&mut store, 4, &[1; 512])?, Some(0));
    assert_eq!(rt; store.put(Lba(5), &data), Put::Kept);
    store.leave_out(Lba(5));
    assert!(rt; store.look(Lba(5), false) == Look::Absent);
    Ok(())
}

// Each stage reads where the ones before it don't. A byte is sixteen samples, and the four interleaves share the bytes in
// turn: 400 dropped samples are 6 or 7 bytes of each, within reach of eight wrong ones, and 800 are 12 or 13, within
// reach as erasures alone.
#[test]
fn stages_and_their_damage(rt: HostRuntime) -> Result<(), Fail> {
    let mut store = fresh(rt.alloc())?;
    let data = [0x11; 512];
    for b in 0..7 {
        assert!(rt; written(&mut store, b, &data)? == StoreAnswer::Done);
    }
    harm(&mut store, 1, 0, 9478, Lasting::Soft(1))?;
    harm(&mut store, 2, 0, 9478, Lasting::Plus)?;
    harm(&mut store, 3, 0, 9478, Lasting::Minus)?;
    harm(&mut store, 4, 1000, 400, Lasting::Hard)?;
    harm(&mut store, 5, 1000, 800, Lasting::Hard)?;
    harm(&mut store, 6, 0, 9478, Lasting::Hard)?;
    for b in 0..6 {
        assert_eq!(rt; first_stage(&mut store, b, &data)?, Some(b as u8));
    }
    assert!(rt; first_stage(&mut store, 6, &data)?.is_none());
    Ok(())
}

#[test]
fn no_primary_list(rt: HostRuntime) -> Result<(), Fail> {
    let size = Size::new(1, 1, 48, 2).ok_or("within the limits")?;
    let refused = Store::factory(rt.alloc(), size, &[Psn(15)]);
    assert!(rt; matches!(refused, Err(StoreFault::Primary)));
    Ok(())
}

#[test]
fn a_fault_and_a_cut(rt: HostRuntime) -> Result<(), Fail> {
    let mut store = fresh(rt.alloc())?;
    if store.map().size().total() <= 19 {
        return Err(Fail::from("no sector of the drive"));
    }
    store.stands();
    store.reserve(1)?;
    store.world(&World::Fault(Psn(19)));
    assert!(rt; written(&mut store, 3, &[1; 512])? == StoreAnswer::Fault);
    assert_eq!(rt; store.put(Lba(3), &[2; 512]), Put::Kept);
    assert_eq!(rt; hardened(&mut store, 3)?, StoreAnswer::Fault);
    assert_eq!(rt;
        written_through(&mut store, 3, &[1; 512])?,
        StoreAnswer::Fault
    );
    assert!(rt; store.look(Lba(3), true) == Look::Dirty([2; 512]));
    store.reserve(1)?;
    store.world(&World::Cut);
    assert!(rt; written(&mut store, 2, &[1; 512])? == StoreAnswer::Off);
    assert!(rt; tried(&mut store, 2, Stage::default())? == TryAnswer::Off);
    Ok(())
}

// A user block for sector 20.
fn of_bytes(byte: u8) -> Payload
    ensures { result.psn.0 ≡ 20 }
{
    Payload::user(Psn(20), Lba(4), &[byte; 512])
}

// Writes 22h to sector 20.
fn write_anew(platter: &mut Platter) -> Result<WriteAnswer, Fail>
    requires { 20 < platter.old.sectors }
    ensures { platter.new.sectors ≡ platter.old.sectors }
{
    platter.reserve(2)?;
    Ok(platter.write(Psn(20), &of_bytes(0x22)))
}

fn switch_on(platter: &mut Platter) -> Result<(), Fail>
    ensures { platter.new.sectors ≡ platter.old.sectors }
{
    platter.reserve(1)?;
    platter.power();
    Ok(())
}

// What the plain read finds on sector 20.
fn read_plainly(platter: &mut Platter, path: &mut Path) -> Result<Option<Payload>, Fail>
    requires { 20 < platter.old.sectors }
{
    platter.reserve(2)?;
    let mut samples = [0; SAMPLES];
    let plain = Stage {
        number: 0,
        reread: 0,
        offset: 0,
        how: How::Light,
    };
    Ok(
        platter
            .try_sector(path, &mut samples, Psn(20), plain)
            .flatten(),
    )
}

// What is found on a sector with 11h after a write of 22h was torn there.
fn found_after(alloc: Global, tear: Tear) -> Result<Option<Payload>, Fail>
    requires { tear.scar ≤ 9478 }
{
    let mut path = Path::new(alloc)?;
    let mut platter = Platter::factory(alloc, 48, &[of_bytes(0x11)])?;
    platter.arm(1, tear);
    if write_anew(&mut platter)? != WriteAnswer::Off {
        return Err(Fail::from("the write was not torn"));
    }
    switch_on(&mut platter)?;
    read_plainly(&mut platter, &mut path)
}

#[test]
fn torn_writes(rt: HostRuntime) -> Result<(), Fail> {
    let alloc = rt.alloc();
    let tear = Tear {
        left: Left::Old,
        scar: 0,
    };
    assert!(rt; found_after(alloc, tear)? == Some(of_bytes(0x11)));
    let new = Tear {
        left: Left::New,
        ..tear
    };
    assert!(rt; found_after(alloc, new)? == Some(of_bytes(0x22)));
    let scarred = Tear { scar: 9478, ..new };
    assert!(rt; found_after(alloc, scarred)?.is_none());
    Ok(())
}

// What is found on sector 20 of a platter that was made with a payload there.
fn kept(alloc: Global, payload: Payload) -> Result<Option<Payload>, Fail>
    requires { payload.psn.0 ≡ 20 }
{
    let mut path = Path::new(alloc)?;
    let mut platter = Platter::factory(alloc, 48, &[payload])?;
    read_plainly(&mut platter, &mut path)
}

#[test]
fn each_kind_is_read_back(rt: HostRuntime) -> Result<(), Fail> {
    let alloc = rt.alloc();
    let user = of_bytes(0x33);
    assert!(rt; kept(alloc, user)? == Some(user));
    let lost = Payload::lost(Psn(20), Lba(4));
    assert!(rt; kept(alloc, lost)? == Some(lost));
    let record = Payload::map_record(Psn(20), 1, 0, 1, 7, &[0x44; 512]);
    assert!(rt; kept(alloc, record)? == Some(record));
    Ok(())
}
