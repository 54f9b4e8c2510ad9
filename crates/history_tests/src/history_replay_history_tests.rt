//! Histories that were worked out by hand.
use block_machine::{BlockState, Entries, Entry, Label, Recovered, Turn, Who};
use disk_base::{Attribute, BLOCK_LENGTH, Cdb, DataOut, Initiator, Lba, Tag, Value};
use history_replay::*;
use platter_model::World;
use sense_data::{Attentions, Reply, Sense};
use std::alloc::Global;
use std::test::Fail;

const ZEROS: Value = Value::Data([0x00; BLOCK_LENGTH]);

const ONES: Value = Value::Data([0x01; BLOCK_LENGTH]);

const ELEVENS: Value = Value::Data([0x11; BLOCK_LENGTH]);

const TWELVES: Value = Value::Data([0x12; BLOCK_LENGTH]);

const TEST_UNIT_READY: [u8; 6] = [0x00, 0, 0, 0, 0, 0];

// A turn with these entries comes after others.
fn add(
    alloc: Global,
    turns: &mut Vec<Turn>,
    label: Label,
    first: Entry,
    second: Option<Entry>,
) -> Result<(), Fail> {
    let mut entries = Entries::new(alloc);
    entries.push(first)?;
    if let Some(second) = second {
        entries.push(second)?;
    }
    turns.push(Turn {
        label,
        ops_from: 0,
        ops_to: 0,
        entries,
    })?;
    Ok(())
}

// A command of initiator 1 comes.
fn comes(
    alloc: Global,
    turns: &mut Vec<Turn>,
    c: u32,
    bytes: &[u8],
    sent: DataOut,
) -> Result<(), Fail> {
    let first = Initiator::new(1).ok_or("the first")?;
    let came = Entry::Arrived {
        c,
        initiator: first,
        tag: Tag((c % 16) as u16),
        attribute: Attribute::Simple,
        cdb: Cdb::new(bytes).ok_or("a command block")?,
        sent,
    };
    add(alloc, turns, Label::Arrive(first), came, None)
}

// A turn of work on a command.
fn works(
    alloc: Global,
    turns: &mut Vec<Turn>,
    c: u32,
    first: Entry,
    second: Option<Entry>,
) -> Result<(), Fail> {
    add(alloc, turns, Label::Work(c), first, second)
}

// A TEST UNIT READY comes and is told that the power came on.
fn told(alloc: Global, turns: &mut Vec<Turn>, c: u32) -> Result<(), Fail> {
    let reply = Reply::check_condition(Sense::new(6, 0x29, 0x01));
    comes(alloc, turns, c, &TEST_UNIT_READY, DataOut::Nothing)?;
    works(
        alloc,
        turns,
        c,
        Entry::Started { c },
        Some(Entry::Ended { c, reply }),
    )
}

fn put(c: u32, b: u64) -> Entry {
    Entry::Put {
        c,
        b: Lba(b),
        value: [0x11; BLOCK_LENGTH],
    }
}

fn good(c: u32) -> Entry {
    Entry::Ended {
        c,
        reply: Reply::good(),
    }
}

// A READ of a block comes, and its only work turn gets this value.
fn reads(alloc: Global, turns: &mut Vec<Turn>, c: u32, b: u8, value: Value) -> Result<(), Fail> {
    let got = Entry::Get {
        c,
        b: Lba(b as u64),
        value,
    };
    let bytes = [0x28, 0, 0, 0, 0, b, 0, 0, 1, 0];
    comes(alloc, turns, c, &bytes, DataOut::Nothing)?;
    works(alloc, turns, c, Entry::Started { c }, None)?;
    works(alloc, turns, c, got, Some(good(c)))
}

// Whether the block at a place has these values, on the medium and newer ones.
fn has(blocks: &[BlockState], b: usize, base: &[Value], newer: &[Value]) -> bool {
    match blocks.get(b) {
        Some(s) => s.base.as_slice() == base && s.newer.as_slice() == newer,
        None => false,
    }
}

// The first history of a disk, whose read of block 0 gets this value.
fn first_read(alloc: Global, value: Value) -> Result<Vec<Turn>, Fail> {
    let mut turns = Vec::new(alloc);
    told(alloc, &mut turns, 1)?;
    reads(alloc, &mut turns, 2, 0, value)?;
    Ok(turns)
}

#[test]
fn a_read_of_zeros_is_legal(rt: HostRuntime) -> Result<(), Fail> {
    let alloc = rt.alloc();
    let turns = first_read(alloc, ZEROS)?;
    assert!(rt; legal(alloc, turns.as_slice(), 912)?);
    let array = replay(alloc, turns.as_slice(), 912)?;
    assert_eq!(rt; array.as_slice().len(), 912);
    assert!(rt; has(array.as_slice(), 0, &[ZEROS], &[]));
    let blocks = replay_blocks(alloc, turns.as_slice(), 912)?;
    assert!(rt; has(blocks.as_slice(), 911, &[ZEROS], &[]));
    // Where nothing waits, nothing is told.
    assert!(rt; !legal_from(alloc, Attentions::none(), turns.as_slice(), 912)?);
    let refused = replay_from(alloc, Attentions::none(), turns.as_slice(), 912).err();
    assert!(rt; refused == Some(ReplayFault::Step { turn: 2 }));
    let turns = first_read(alloc, ONES)?;
    let refused = replay_blocks(alloc, turns.as_slice(), 912).err();
    assert!(rt; refused == Some(ReplayFault::Step { turn: 5 }));
    // The commands don't tell what a block may give.
    assert!(rt; task_legal(alloc, turns.as_slice(), 912)?);
    assert!(rt; !legal(alloc, turns.as_slice(), 912)?);
    let refused = replay(alloc, turns.as_slice(), 912).err();
    assert!(rt; refused == Some(ReplayFault::Step { turn: 5 }));
    Ok(())
}

// A write of two blocks into the cache, and a sync of the whole disk, once nothing waits any more.
fn write_and_sync(alloc: Global) -> Result<Vec<Turn>, Fail> {
    let hard = |b: u64| Entry::Harden {
        who: Who::Command(2),
        b: Lba(b),
    };
    let pass = |from: u64, to: u64| Entry::Passed {
        c: 2,
        from: Lba(from),
        to: Lba(to),
    };
    let mut turns = Vec::new(alloc);
    let write = [0x2A, 0, 0, 0, 0, 5, 0, 0, 2, 0];
    let sync = [0x35, 0, 0, 0, 0, 0, 0, 0, 0, 0];
    comes(alloc, &mut turns, 1, &write, DataOut::Fill(0x11))?;
    comes(alloc, &mut turns, 2, &sync, DataOut::Nothing)?;
    works(alloc, &mut turns, 1, Entry::Started { c: 1 }, None)?;
    works(alloc, &mut turns, 1, put(1, 5), None)?;
    works(alloc, &mut turns, 1, put(1, 6), Some(good(1)))?;
    works(alloc, &mut turns, 2, Entry::Started { c: 2 }, None)?;
    works(alloc, &mut turns, 2, pass(0, 5), Some(hard(5)))?;
    works(alloc, &mut turns, 2, hard(6), None)?;
    works(alloc, &mut turns, 2, pass(7, 912), Some(good(2)))?;
    Ok(turns)
}

#[test]
fn a_write_and_a_sync_are_legal(rt: HostRuntime) -> Result<(), Fail> {
    let alloc = rt.alloc();
    let mut turns = write_and_sync(alloc)?;
    assert!(rt; legal_from(alloc, Attentions::none(), turns.as_slice(), 912)?);
    let array = replay_from(alloc, Attentions::none(), turns.as_slice(), 912)?;
    assert!(rt; has(array.as_slice(), 5, &[ELEVENS], &[]));
    assert!(rt; has(array.as_slice(), 6, &[ELEVENS], &[]));
    // The same command can't end again.
    works(alloc, &mut turns, 2, good(2), None)?;
    assert!(rt; !task_legal_from(alloc, Attentions::none(), turns.as_slice(), 912)?);
    let refused = replay_from(alloc, Attentions::none(), turns.as_slice(), 912).err();
    assert!(rt; refused == Some(ReplayFault::Step { turn: 10 }));
    // What isn't hardened yet is newer.
    turns.truncate(5);
    let array = replay_from(alloc, Attentions::none(), turns.as_slice(), 912)?;
    assert!(rt; has(array.as_slice(), 5, &[ZEROS], &[ELEVENS]));
    Ok(())
}

// A write into the cache, and a power cut.
fn cut(alloc: Global) -> Result<Vec<Turn>, Fail> {
    let mut turns = Vec::new(alloc);
    let write = [0x2A, 0, 0, 0, 0, 5, 0, 0, 1, 0];
    told(alloc, &mut turns, 1)?;
    comes(alloc, &mut turns, 2, &write, DataOut::Fill(0x11))?;
    works(alloc, &mut turns, 2, Entry::Started { c: 2 }, None)?;
    works(alloc, &mut turns, 2, put(2, 5), Some(good(2)))?;
    add(
        alloc,
        &mut turns,
        Label::World(World::Cut),
        Entry::Cut,
        None,
    )?;
    Ok(turns)
}

// The same, and a read of the block after the power came back, which gets this value.
fn cut_and_read(alloc: Global, value: Value) -> Result<Vec<Turn>, Fail> {
    let on = Entry::PoweredOn {
        outcome: Recovered::Ready(6),
    };
    let mut turns = cut(alloc)?;
    add(alloc, &mut turns, Label::World(World::Power), on, None)?;
    told(alloc, &mut turns, 3)?;
    reads(alloc, &mut turns, 4, 5, value)?;
    Ok(turns)
}

#[test]
fn a_cut_leaves_old_newer_or_lost(rt: HostRuntime) -> Result<(), Fail> {
    let alloc = rt.alloc();
    let turns = cut(alloc)?;
    let array = replay(alloc, turns.as_slice(), 912)?;
    let values = [ZEROS, ELEVENS, Value::Lost];
    assert!(rt; has(array.as_slice(), 5, &values, &[]));
    let turns = cut_and_read(alloc, ZEROS)?;
    assert!(rt; legal(alloc, turns.as_slice(), 912)?);
    let turns = cut_and_read(alloc, ELEVENS)?;
    let array = replay(alloc, turns.as_slice(), 912)?;
    assert!(rt; has(array.as_slice(), 5, &[ELEVENS], &[]));
    let turns = cut_and_read(alloc, TWELVES)?;
    let refused = replay(alloc, turns.as_slice(), 912).err();
    assert!(rt; refused == Some(ReplayFault::Step { turn: 12 }));
    Ok(())
}

#[test]
fn a_turn_is_judged_by_itself(rt: HostRuntime) -> Result<(), Fail> {
    let mut turns = Vec::new(rt.alloc());
    told(rt.alloc(), &mut turns, 1)?;
    let first = turns.as_slice().first().ok_or("a turn")?;
    let mut monitor = Monitor::new(rt.alloc(), 2)?;
    assert!(rt; monitor.is_idle());
    assert!(rt; monitor.take(rt.alloc(), first)?);
    assert!(rt; !monitor.is_idle());
    let blocks = monitor.into_blocks();
    assert_eq!(rt; blocks.as_slice().len(), 2);
    Ok(())
}
