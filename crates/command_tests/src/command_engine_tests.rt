ghost use Rattle.std.specs.Prelude.{◌≡◌, [], ◌∷◌};
ghost use Rattle.cdb_reader.specs.Request.{request_of, ReassignBlocks};

use arrayvec::ArrayVec;
use cdb_reader::Command;
use command_engine::*;
use disk_base::{BLOCK_LENGTH, Bytes, DataOut, How, Lba, MoveWhy, Stage, Value};
use mode_pages::Settings;
use sense_data::codes::{
    DEFECT_LIST_NOT_FOUND, NO_DEFECT_SPARE, RECOVERED_WITH_CORRECTION_AND_RETRIES,
    RECOVERED_WITH_NEGATIVE_OFFSET, RECOVERED_WITH_POSITIVE_OFFSET, RECOVERED_WITH_RETRIES,
    UNRECOVERED_READ_ERROR, WRITE_ERROR,
};
use sense_data::{Reply, Sense};
use std::process::Abort;
use std::test::Fail;

const ZEROS: Value = Value::Data([0; BLOCK_LENGTH]);

// Two retries, recovered errors reported, no reallocation.
const REPORTING: Settings = Settings {
    awre: false,
    arre: false,
    per: true,
    retry: 2,
    wce: true,
    rcd: false,
    bms: true,
};

// The stages of two retries behind the plain read: reread, head offset, decoding, and what is reported where one finds.
const STAGES: [(u8, i8, How, Sense); 6] = [
    (1, 0, How::Light, RECOVERED_WITH_RETRIES),
    (2, 0, How::Light, RECOVERED_WITH_RETRIES),
    (2, 1, How::Light, RECOVERED_WITH_POSITIVE_OFFSET),
    (2, -1, How::Light, RECOVERED_WITH_NEGATIVE_OFFSET),
    (2, 0, How::Full, RECOVERED_WITH_CORRECTION_AND_RETRIES),
    (2, 0, How::Erased, RECOVERED_WITH_CORRECTION_AND_RETRIES),
];

// Answers where the need is a block's value, and gives that need.
fn got(rt: &impl Abort, work: &mut Work, value: Value) -> Need {
    let need = work.need();
    match need {
        Need::Take { .. } => work.answer(Answer::Got(value)),
        _ => assert!(rt; false),
    }
    need
}

fn missed(rt: &impl Abort, work: &mut Work) -> Need {
    let need = work.need();
    match need {
        Need::Take { .. } => work.answer(Answer::Missed),
        _ => assert!(rt; false),
    }
    need
}

// Answers where the need is a write, and gives that need.
fn hardened(rt: &impl Abort, work: &mut Work) -> Need {
    let need = work.need();
    match need {
        Need::Put { .. } | Need::PutThrough { .. } | Need::Harden { .. } => {
            work.answer(Answer::Hardened)
        }
        _ => assert!(rt; false),
    }
    need
}

fn faulted(rt: &impl Abort, work: &mut Work) {
    let settings = work.settings();
    match work.need() {
        Need::PutThrough { .. } | Need::Harden { .. } if !settings.awre => {
            work.answer(Answer::WriteFault)
        }
        _ => assert!(rt; false),
    }
}

// Answers where the need is a move, and gives that need.
fn moved(rt: &impl Abort, work: &mut Work) -> Need {
    let need = work.need();
    match need {
        Need::Move { .. } => work.answer(Answer::Moved),
        _ => assert!(rt; false),
    }
    need
}

fn spareless(rt: &impl Abort, work: &mut Work) {
    match work.need() {
        Need::Move { .. } => work.answer(Answer::NoSpare),
        _ => assert!(rt; false),
    }
}

// REASSIGN BLOCKS of two blocks.
fn reassigning(first: u64, second: u64) -> Command
    ensures { request_of result ≡ ReassignBlocks (record { 0 = first } ∷ record { 0 = second } ∷ []) }
{
    let mut blocks = ArrayVec::new();
    blocks.push(Lba(first));
    blocks.push(Lba(second));
    Command::ReassignBlocks { blocks }
}

fn plain(b: u64, medium: bool) -> Need {
    Need::Take {
        b: Lba(b),
        medium,
        stage: Stage::default(),
    }
}

fn at_block(sense: Sense, b: u32) -> Option<Reply> {
    Some(Reply::check_condition(Sense {
        information: Some(b),
        ..sense
    }))
}

#[test]
fn every_stage_that_finds_is_reported(rt: HostRuntime) {
    for (at, (reread, offset, how, sense)) in STAGES.iter().enumerate() {
        let command = Command::Read {
            from: 7,
            length: 2,
            fua: false,
        };
        let mut work = Work::new(command, DataOut::Nothing, REPORTING);
        assert!(rt; work.gives_data());
        assert!(rt; got(&rt, &mut work, ZEROS) == plain(7, false));
        assert!(rt; missed(&rt, &mut work) == plain(8, false));
        for _ in 0..at {
            missed(&rt, &mut work);
        }
        let stage = Stage {
            number: at as u8 + 1,
            reread: *reread,
            offset: *offset,
            how: *how,
        };
        assert!(rt; work.ending().is_none());
        assert!(rt;
            got(&rt, &mut work, ZEROS)
                == Need::Take {
                    b: Lba(8),
                    medium: false,
                    stage
                }
        );
        assert!(rt; work.need() == Need::Nothing);
        assert!(rt; work.ending() == at_block(*sense, 8));
    }
}

#[test]
fn the_last_recovery_is_reported(rt: HostRuntime) {
    let command = Command::Read {
        from: 7,
        length: 3,
        fua: false,
    };
    let mut work = Work::new(command, DataOut::Nothing, REPORTING);
    for misses in [3, 1, 0] {
        for _ in 0..misses {
            missed(&rt, &mut work);
        }
        got(&rt, &mut work, ZEROS);
    }
    assert!(rt; work.ending() == at_block(RECOVERED_WITH_RETRIES, 8));
}

#[test]
fn recoveries_are_not_reported_unless_asked(rt: HostRuntime) {
    let command = Command::Read {
        from: 7,
        length: 1,
        fua: false,
    };
    let mut work = Work::new(command, DataOut::Nothing, Settings::default_values());
    missed(&rt, &mut work);
    got(&rt, &mut work, ZEROS);
    assert!(rt; work.ending() == Some(Reply::good()));
}

#[test]
fn a_read_ends_at_the_first_bad_block(rt: HostRuntime) {
    for lost in [false, true] {
        let command = Command::Read {
            from: 7,
            length: 3,
            fua: false,
        };
        let mut work = Work::new(command, DataOut::Nothing, REPORTING);
        got(&rt, &mut work, ZEROS);
        if lost {
            got(&rt, &mut work, Value::Lost);
        } else {
            for _ in 0..7 {
                assert!(rt; work.ending().is_none());
                missed(&rt, &mut work);
            }
        }
        assert!(rt; work.need() == Need::Nothing);
        assert!(rt; work.ending() == at_block(UNRECOVERED_READ_ERROR, 8));
    }
}

#[test]
fn a_verification_hardens_a_dirty_block_first(rt: HostRuntime) {
    let command = Command::Verify { from: 7, length: 1 };
    let mut work = Work::new(command, DataOut::Nothing, REPORTING);
    assert!(rt; !work.gives_data());
    work.answer(Answer::NextDirty(Some(Lba(7))));
    assert!(rt; hardened(&rt, &mut work) == Need::Harden { b: Lba(7) });
    assert!(rt; got(&rt, &mut work, ZEROS) == plain(7, true));
    assert!(rt; work.ending() == Some(Reply::good()));
}

#[test]
fn a_write_is_put_or_hardened_where_the_cache_is_full(rt: HostRuntime) {
    let command = Command::Write {
        from: 7,
        length: 2,
        fua: false,
    };
    let mut work = Work::new(command, DataOut::Fill(0x11), REPORTING);
    assert!(rt; work.need() == Need::Put { b: Lba(7) });
    assert!(rt; work.value(1) == [0x11; BLOCK_LENGTH]);
    work.answer(Answer::Put);
    assert!(rt; hardened(&rt, &mut work) == Need::Put { b: Lba(8) });
    assert!(rt; work.ending() == Some(Reply::good()));
}

#[test]
fn a_write_through_may_fault(rt: HostRuntime) {
    let command = Command::Write {
        from: 7,
        length: 2,
        fua: true,
    };
    let mut work = Work::new(command, DataOut::Fill(0x11), REPORTING);
    assert!(rt; hardened(&rt, &mut work) == Need::PutThrough { b: Lba(7) });
    faulted(&rt, &mut work);
    assert!(rt; work.ending() == at_block(WRITE_ERROR, 8));
}

#[test]
fn a_write_is_verified_behind_its_last_block(rt: HostRuntime) {
    let command = Command::WriteAndVerify { from: 7, length: 2 };
    let mut work = Work::new(command, DataOut::Fill(0x11), REPORTING);
    assert!(rt; hardened(&rt, &mut work) == Need::PutThrough { b: Lba(7) });
    assert!(rt; hardened(&rt, &mut work) == Need::PutThrough { b: Lba(8) });
    assert!(rt; missed(&rt, &mut work) == plain(7, true));
    got(&rt, &mut work, ZEROS);
    assert!(rt; got(&rt, &mut work, ZEROS) == plain(8, true));
    assert!(rt; work.ending() == at_block(RECOVERED_WITH_RETRIES, 7));
}

#[test]
fn a_sync_passes_what_is_clean(rt: HostRuntime) {
    let command = Command::SynchronizeCache { from: 0, count: 9 };
    let mut work = Work::new(command, DataOut::Nothing, REPORTING);
    work.answer(Answer::NextDirty(Some(Lba(4))));
    assert!(rt; hardened(&rt, &mut work) == Need::Harden { b: Lba(4) });
    assert!(rt;
        work.need()
            == Need::Pass {
                from: Lba(5),
                to: Lba(9)
            }
    );
    work.answer(Answer::NextDirty(None));
    assert!(rt; work.ending() == Some(Reply::good()));
}

#[test]
fn a_sync_whose_write_faults(rt: HostRuntime) {
    let command = Command::SynchronizeCache { from: 0, count: 9 };
    let mut work = Work::new(command, DataOut::Nothing, REPORTING);
    work.answer(Answer::NextDirty(Some(Lba(4))));
    faulted(&rt, &mut work);
    assert!(rt; work.ending() == at_block(WRITE_ERROR, 4));
}

#[test]
fn blocks_of_a_list_are_moved(rt: HostRuntime) {
    let mut work = Work::new(reassigning(5, 9), DataOut::Nothing, REPORTING);
    assert!(rt; work.need() == plain(5, true));
    work.answer(Answer::NextDirty(Some(Lba(5))));
    assert!(rt;
        moved(&rt, &mut work)
            == Need::Move {
                b: Lba(5),
                why: MoveWhy::Dirty
            }
    );
    assert!(rt; got(&rt, &mut work, ZEROS) == plain(9, true));
    assert!(rt; work.ending().is_none());
    assert!(rt;
        moved(&rt, &mut work)
            == Need::Move {
                b: Lba(9),
                why: MoveWhy::Reassign
            }
    );
    assert!(rt; work.need() == Need::Nothing);
    assert!(rt; work.ending() == Some(Reply::good()));
}

#[test]
fn a_list_ends_for_want_of_a_spare(rt: HostRuntime) {
    let mut work = Work::new(reassigning(5, 9), DataOut::Nothing, REPORTING);
    for _ in 0..7 {
        missed(&rt, &mut work);
    }
    assert!(rt;
        moved(&rt, &mut work)
            == Need::Move {
                b: Lba(5),
                why: MoveWhy::GivenUp
            }
    );
    got(&rt, &mut work, ZEROS);
    spareless(&rt, &mut work);
    let sense = Sense {
        specific: 9,
        ..NO_DEFECT_SPARE
    };
    assert!(rt; work.ending() == Some(Reply::check_condition(sense)));
}

#[test]
fn commands_without_blocks(rt: HostRuntime) {
    let defects = Command::ReadDefectData {
        primary: true,
        grown: true,
        format: 0,
        allocation: 255,
    };
    let mut work = Work::new(defects, DataOut::Nothing, REPORTING);
    assert!(rt; work.need() == Need::Page);
    work.answer(Answer::Paged);
    assert!(rt; work.ending() == Some(Reply::check_condition(DEFECT_LIST_NOT_FOUND)));
    let ready = Work::new(Command::TestUnitReady, DataOut::Nothing, REPORTING);
    assert!(rt; ready.ending() == Some(Reply::good()));
    assert!(rt; ready.settings() == REPORTING);
}

#[test]
fn data_are_given_block_by_block(rt: HostRuntime) -> Result<(), Fail> {
    let mut bytes = Bytes::new(rt.alloc());
    bytes.extend(&[1; BLOCK_LENGTH])?;
    bytes.extend(&[2; BLOCK_LENGTH])?;
    let command = Command::Write {
        from: 7,
        length: 2,
        fua: false,
    };
    let work = Work::new(command, DataOut::Given(bytes), REPORTING);
    assert!(rt; work.value(0) == [1; BLOCK_LENGTH]);
    assert!(rt; work.value(1) == [2; BLOCK_LENGTH]);
    Ok(())
}
