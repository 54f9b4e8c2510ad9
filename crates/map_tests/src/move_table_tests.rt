use disk_base::{Lba, MoveWhy, Psn, Value};
use move_jobs::{Job, JobAnswer, JobResult};
use move_table::*;
use std::test::Fail;

#[test]
fn two_moves_in_flight(rt: HostRuntime) -> Result<(), Fail> {
    let mut moves = Moves::new(rt.alloc());
    moves.reserve().ok().ok_or("no memory")?;
    let why = MoveWhy::GivenUp;
    let first = Job::new(Lba(5), Value::Lost, Psn(21), Psn(928), why, Some(3));
    assert_eq!(rt; moves.open(first), 1);
    moves.reserve().ok().ok_or("no memory")?;
    let why = MoveWhy::Write;
    let second = Job::new(Lba(9), Value::Lost, Psn(25), Psn(929), why, Some(4));
    assert_eq!(rt; moves.open(second), 2);

    assert!(rt; moves.opened() == 2 && moves.as_slice().len() == 2);
    assert!(rt; moves.mover(Lba(9)) == Some(2) && moves.mover(Lba(6)) == None);
    assert!(rt; moves.is_awaited(4) && !moves.is_awaited(5));
    assert!(rt; moves.job(2).map(|job| job.spare()) == Some(Psn(929)));
    assert_eq!(rt; moves.spares().as_slice(), [Psn(928), Psn(929)].as_slice());

    // The first spare can't be written, and no other is left.
    assert!(rt; moves.answer(1, JobAnswer::Bad { next: None }) == Some(JobResult::NoSpare));
    assert!(rt; moves.job(1).is_none() && moves.as_slice().len() == 1);
    moves.abort(3);
    assert_eq!(rt; moves.as_slice().len(), 1);
    moves.abort(4);
    assert_eq!(rt; moves.as_slice().len(), 0);
    moves.cut();
    assert_eq!(rt; moves.opened(), 2);
    Ok(())
}

#[test]
fn move_that_goes_on_stays(rt: HostRuntime) -> Result<(), Fail> {
    let mut moves = Moves::new(rt.alloc());
    moves.reserve().ok().ok_or("no memory")?;
    let why = MoveWhy::Reassign;
    let job = Job::new(Lba(5), Value::Lost, Psn(21), Psn(928), why, Some(3));
    assert_eq!(rt; moves.open(job), 1);
    assert!(rt; moves.answer(1, JobAnswer::Done) == None);
    assert!(rt; moves.job(1).is_some() && moves.is_awaited(3));
    Ok(())
}
