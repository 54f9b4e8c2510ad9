use block_machine::{Entry, Label};
use cdb_reader::{Command, Deed, Plan};
use disk_base::{Attribute, BLOCK_LENGTH, Cdb, DataOut, Initiator, Lba, Tag, Value};
use history_replay::*;
use mode_pages::Settings;
use scan_log::ScanLog;
use sense_data::{Attentions, Reply, Sense};
use std::alloc::Global;
use std::test::Fail;
use task_set::TaskSet;

const ZEROS: Value = Value::Data([0x00; BLOCK_LENGTH]);

fn arrived(c: u32, tag: u16, bytes: &[u8]) -> Result<Entry, Fail> {
    Ok(Entry::Arrived {
        c,
        initiator: Initiator::new(1).ok_or("the first")?,
        tag: Tag(tag),
        attribute: Attribute::Simple,
        cdb: Cdb::new(bytes).ok_or("a command block")?,
        sent: DataOut::Nothing,
    })
}

// What a read of block 0 owes at first, on a disk of 912 blocks with default mode values, where these attentions wait.
fn first_of_a_read(alloc: Global, waiting: Attentions) -> Result<Plan, Fail> {
    let known = Known {
        capacity: 912,
        settings: Settings::default_values(),
        waiting,
        corrupt: false,
        scan: Scanning {
            minutes: 0,
            scanned: 0,
            log: ScanLog::new(alloc)?,
        },
    };
    let read = Ok(Command::Read {
        from: 0,
        length: 1,
        fua: false,
    });
    let first = Initiator::new(1).ok_or("the first")?;
    let plan = first_plan(alloc, &known, first, 0x28, &read, &DataOut::Nothing)?;
    Ok(plan)
}

#[test]
fn what_a_read_owes(rt: HostRuntime) -> Result<(), Fail> {
    let got = Deed::Got {
        b: Lba(0),
        value: ZEROS,
        dirty: false,
    };
    let good = Deed::Ended {
        reply: Reply::good(),
        dirty: false,
    };
    let plan = first_of_a_read(rt.alloc(), Attentions::none())?;
    assert!(rt; next(plan, &good).is_none());
    let plan = first_of_a_read(rt.alloc(), Attentions::none())?;
    let plan = next(plan, &got).ok_or("a get")?;
    assert!(rt; matches!(next(plan, &good), Some(Plan::Over)));
    let plan = first_of_a_read(rt.alloc(), Attentions::power_on())?;
    assert!(rt; next(plan, &got).is_none());
    Ok(())
}

// One turn after another of a write of block 5 that comes to an empty set.
#[test]
fn parts_of_a_turn(rt: HostRuntime) -> Result<(), Fail> {
    let first = Initiator::new(1).ok_or("the first")?;
    let mut set = TaskSet::new();
    let came = [arrived(1, 7, &[0x2A, 0, 0, 0, 0, 5, 0, 0, 1, 0])?];
    assert!(rt; arrival_may_come(&set, 0, first, &came));
    assert!(rt; !arrival_may_come(&set, 1, first, &came));
    settle_set(&mut set, 912, &came[0]);
    assert_eq!(rt; set.members().len(), 1);
    let put = Entry::Put {
        c: 1,
        b: Lba(5),
        value: [0x11; BLOCK_LENGTH],
    };
    let asks = Ok(Command::TestUnitReady);
    let label = Label::Work(1);
    let done = deed_of(rt.alloc(), &label, &[], &asks, &[], &put)?;
    assert!(rt;
        matches!(
            done,
            Some(Done {
                c: 1,
                what: Deed::Put { full: false, .. }
            })
        )
    );
    let owes = Some(Plan::Changing);
    let left = left_after(rt.alloc(), &label, &[], &asks, &[], owes, &put)?;
    assert!(rt; left.is_none());
    let mut dirty = Vec::new(rt.alloc());
    settle_dirty(&mut dirty, &put)?;
    assert_eq!(rt; dirty.as_slice(), [5].as_slice());
    Ok(())
}
