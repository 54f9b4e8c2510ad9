//! Events of a small drive, and how it answers them. Whole commands are carried out by the tests of the program's top call.
ghost use Rattle.std.specs.Prelude.{◌≤◌, IsTrue};
ghost use Rattle.drive_core.specs.Served.{is_served_cdb};

use block_machine::{Entry, Turn};
use disk_base::{Attribute, Bytes, Cdb, DataOut, Function, Initiator, Lba, Psn, Tag};
use drive_core::{Arrival, Arriving, Drive, Ended, Event, Holder, Pick, TurnAnswer, Waiting};
use geometry_map::Size;
use platter_model::{Damage, Effect, Lasting, World};
use std::alloc::Global;
use std::test::Fail;

// READ (10) of the first block.
static READ: [u8; 10] = [0x28, 0, 0, 0, 0, 0, 0, 0, 1, 0];

// WRITE (10) of the first block, and its data.
static WRITE: [u8; 10] = [0x2A, 0, 0, 0, 0, 0, 0, 0, 1, 0];

static SEVENS: [u8; 512] = [7; 512];

// MODE SELECT (10) of 28 bytes.
static MODE_SELECT: [u8; 10] = [0x55, 0x10, 0, 0, 0, 0, 0, 0, 28, 0];

// MODE SENSE (10) of the Caching mode page without a block descriptor.
static MODE_SENSE: [u8; 10] = [0x5A, 0x08, 0x08, 0, 0, 0, 0, 0, 255, 0];

// A header, and a Caching mode page with WCE 0.
static NO_WRITE_CACHE: [u8; 28] = [
    0, 0, 0, 0, 0, 0, 0, 0, 0x08, 0x12, 0, 0, 0, 0, 0, 0, 0, 0, 0, 0, 0, 0, 0, 0, 0, 0, 0, 0,
];

// The same as MODE SENSE gives it, with its length and DPOFUA 1.
static NO_WRITE_CACHE_SHOWN: [u8; 28] = [
    0, 0x1A, 0, 0x10, 0, 0, 0, 0, 0x08, 0x12, 0, 0, 0, 0, 0, 0, 0, 0, 0, 0, 0, 0, 0, 0, 0, 0, 0, 0,
];

static NOTHING: Waiting = Waiting {
    arrivals: [false; 8],
    scans: false,
    destages: false,
};

static A_DESTAGE: Waiting = Waiting {
    arrivals: [false; 8],
    scans: false,
    destages: true,
};

// One track of 48 sectors, two of them kept back: 30 blocks. The first attempt to read the first block finds nothing.
fn damaged(alloc: Global) -> Result<(Drive, TurnAnswer), Fail> {
    let size = Size::new(1, 1, 48, 2).ok_or("within the limits")?;
    let mut drive = Drive::factory(alloc, size, &[])?;
    let damage = Damage {
        p: Psn(16),
        first: 0,
        count: 9478,
        lasting: Lasting::Soft(1),
        effect: Effect::Drop,
    };
    let answer = drive.turn(Event::World(World::Damage(damage)))?;
    Ok((drive, answer))
}

// A command arrives with its data.
fn send_with(
    mut drive: Drive,
    from: u8,
    attribute: Attribute,
    bytes: &[u8],
    sent: DataOut,
) -> Result<(Drive, TurnAnswer), Fail>
    requires { IsTrue (is_served_cdb bytes.now) }
{
    let arrival = Arrival::Command(Arriving {
        initiator: Initiator::new(from).ok_or("an initiator")?,
        tag: Tag(1),
        attribute,
        cdb: Cdb::new(bytes).ok_or("a command block")?,
        sent,
    });
    let answer = drive.turn(Event::Arrive(arrival))?;
    Ok((drive, answer))
}

// A command arrives without data.
fn send(
    drive: Drive,
    from: u8,
    attribute: Attribute,
    bytes: &[u8],
) -> Result<(Drive, TurnAnswer), Fail>
    requires { IsTrue (is_served_cdb bytes.now) }
{
    send_with(drive, from, attribute, bytes, DataOut::Nothing)
}

// One turn of work on a command.
fn work(mut drive: Drive, c: u32) -> Result<(Drive, TurnAnswer), Fail> {
    let answer = drive.turn(Event::Work(c))?;
    Ok((drive, answer))
}

// A command of an initiator ended with a status in the turn of this number.
fn ended(number: u64, from: u8, status: u8) -> TurnAnswer
    requires low { 1 ≤ from }
    requires high { from ≤ 8 }
{
    TurnAnswer::Done {
        number,
        ended: Some(Ended {
            initiator: Initiator::new(from).unwrap(),
            tag: Tag(1),
            status,
        }),
        scanned: false,
    }
}

// Whether the last turn gave these data behind a start.
fn is_given(turns: &[Turn], data: &[u8]) -> bool {
    match turns {
        [.., last] => match last.entries.as_slice() {
            [_, Entry::Page { bytes, .. }, ..] => bytes.as_slice() == data,
            _ => false,
        },
        [] => false,
    }
}

// A turn of the only command that is able.
fn any(mut drive: Drive) -> Result<(Drive, TurnAnswer), Fail> {
    let answer = drive.turn(Event::Any(0))?;
    Ok((drive, answer))
}

// An initiator takes its attention by a REQUEST SENSE.
fn told(drive: Drive, from: u8) -> Result<(Drive, TurnAnswer), Fail> {
    let (drive, _) = send(drive, from, Attribute::Simple, &[3, 0, 0, 0, 0, 0])?;
    any(drive)
}

#[test]
fn an_idle_drive(rt: HostRuntime) -> Result<(), Fail> {
    let (drive, _) = damaged(rt.alloc())?;
    let (mut drive, answer) = work(drive, 1)?;
    assert_eq!(rt; answer, TurnAnswer::Idle { coming: 0 });
    assert!(rt; drive.is_idle());
    assert_eq!(rt; drive.pick(&NOTHING, 7), None);
    drive.expect(2);
    let (drive, answer) = work(drive, 1)?;
    assert_eq!(rt; answer, TurnAnswer::Idle { coming: 2 });
    assert_eq!(rt; drive.turns().len(), 1);
    assert_eq!(rt; drive.store().platter().strays(), 0);
    Ok(())
}

// An ORDERED command keeps the one behind it from starting.
#[test]
fn a_dormant_command(rt: HostRuntime) -> Result<(), Fail> {
    let (drive, _) = damaged(rt.alloc())?;
    let (drive, _) = send(drive, 1, Attribute::Ordered, &READ)?;
    let (drive, _) = send(drive, 2, Attribute::Simple, &READ)?;
    let (drive, answer) = work(drive, 2)?;
    assert_eq!(rt; answer, TurnAnswer::Dormant { blocker: 1 });
    assert_eq!(rt; drive.pick(&NOTHING, 7), Some(Pick::Work(1)));
    Ok(())
}

// Two initiators read the first block. The first try of it finds nothing.
fn tried_once(alloc: Global) -> Result<(Drive, TurnAnswer), Fail> {
    let (drive, _) = damaged(alloc)?;
    let (drive, _) = told(drive, 1)?;
    let (drive, _) = told(drive, 2)?;
    let (drive, _) = send(drive, 1, Attribute::Simple, &READ)?;
    let (drive, _) = send(drive, 2, Attribute::Simple, &READ)?;
    let (drive, _) = work(drive, 3)?;
    let (drive, _) = work(drive, 4)?;
    work(drive, 3)
}

// While the sector of a block is read again, another command waits for the block.
#[test]
fn a_held_block(rt: HostRuntime) -> Result<(), Fail> {
    let (drive, _) = tried_once(rt.alloc())?;
    let (drive, answer) = work(drive, 4)?;
    let by = Holder::Command(3);
    assert_eq!(rt; answer, TurnAnswer::Held { b: Lba(0), by });
    let (turns, ops) = drive.into_parts();
    // The factory's sectors, the damage, a fetch and its try.
    assert_eq!(rt; turns.as_slice().len(), 10);
    assert_eq!(rt; ops.as_slice().len(), 16 + 30 + 1 + 2);
    Ok(())
}

// A function leaves no command in, and has the number of its turn.
#[test]
fn a_cleared_task_set(rt: HostRuntime) -> Result<(), Fail> {
    let (drive, _) = damaged(rt.alloc())?;
    let (mut drive, _) = send(drive, 1, Attribute::Simple, &READ)?;
    let initiator = Initiator::new(2).ok_or("an initiator")?;
    let arrival = Arrival::Function {
        initiator,
        what: Function::Clear,
    };
    let answer = drive.turn(Event::Arrive(arrival))?;
    let done = TurnAnswer::Done {
        number: 3,
        ended: None,
        scanned: false,
    };
    assert_eq!(rt; answer, done);
    assert!(rt; drive.is_idle());
    Ok(())
}

// An initiator turns the write cache off by a MODE SELECT (10) of the Caching mode page.
fn selected(alloc: Global, drive: Drive, from: u8) -> Result<(Drive, TurnAnswer), Fail> {
    let list = Vec::from_slice(alloc, &NO_WRITE_CACHE)?;
    let sent = DataOut::Given(Bytes::from_vec(list));
    let (drive, _) = send_with(drive, from, Attribute::Simple, &MODE_SELECT, sent)?;
    any(drive)
}

// The mode values change, a MODE SENSE (10) shows them, and the other initiators are told.
#[test]
fn changed_mode_values(rt: HostRuntime) -> Result<(), Fail> {
    let (drive, _) = damaged(rt.alloc())?;
    let (drive, _) = told(drive, 1)?;
    let (drive, _) = told(drive, 2)?;
    let (drive, answer) = selected(rt.alloc(), drive, 1)?;
    assert_eq!(rt; answer, ended(7, 1, 0));
    let (drive, _) = send(drive, 1, Attribute::Simple, &MODE_SENSE)?;
    let (drive, _) = any(drive)?;
    assert!(rt; is_given(drive.turns(), &NO_WRITE_CACHE_SHOWN));
    let (drive, _) = send(drive, 2, Attribute::Simple, &[0, 0, 0, 0, 0, 0])?;
    let (_, answer) = any(drive)?;
    assert_eq!(rt; answer, ended(11, 2, 2));
    Ok(())
}

// A WRITE (10) leaves the first block dirty.
fn written(alloc: Global) -> Result<(Drive, TurnAnswer), Fail> {
    let (drive, _) = damaged(alloc)?;
    let (drive, _) = told(drive, 1)?;
    let data = Vec::from_slice(alloc, &SEVENS)?;
    let sent = DataOut::Given(Bytes::from_vec(data));
    let (drive, _) = send_with(drive, 1, Attribute::Simple, &WRITE, sent)?;
    let (drive, _) = any(drive)?;
    any(drive)
}

#[test]
fn nothing_to_destage(rt: HostRuntime) -> Result<(), Fail> {
    let (mut drive, _) = damaged(rt.alloc())?;
    let answer = drive.turn(Event::Destage)?;
    assert_eq!(rt; answer, TurnAnswer::Idle { coming: 0 });
    assert_eq!(rt; drive.pick(&A_DESTAGE, 0), None);
    Ok(())
}

#[test]
fn a_move_that_is_not_in_flight(rt: HostRuntime) -> Result<(), Fail> {
    let (mut drive, _) = damaged(rt.alloc())?;
    let answer = drive.turn(Event::Job(1))?;
    assert_eq!(rt; answer, TurnAnswer::Idle { coming: 0 });
    assert_eq!(rt; drive.turns().len(), 1);
    Ok(())
}

// A destage writes the dirty block out, which then is clean.
#[test]
fn a_destage(rt: HostRuntime) -> Result<(), Fail> {
    let (mut drive, answer) = written(rt.alloc())?;
    assert_eq!(rt; answer, ended(6, 1, 0));
    assert!(rt; drive.store().cached().is_dirty(Lba(0)));
    assert_eq!(rt; drive.pick(&NOTHING, 0), None);
    assert_eq!(rt; drive.pick(&A_DESTAGE, 0), Some(Pick::Destage));
    let answer = drive.turn(Event::Destage)?;
    let done = TurnAnswer::Done {
        number: 7,
        ended: None,
        scanned: false,
    };
    assert_eq!(rt; answer, done);
    assert!(rt; !drive.store().cached().is_dirty(Lba(0)));
    Ok(())
}
