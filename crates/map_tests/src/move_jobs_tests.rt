use disk_base::{Lba, MoveWhy, Psn, Value};
use geometry_map::{PAIRS_MAX, Pair};
use move_jobs::*;
use std::process::Abort;

// A move of block 5 from sector 21 to spare 928, for command 3.
fn reassignment() -> Job {
    Job::new(
        Lba(5),
        Value::Lost,
        Psn(21),
        Psn(928),
        MoveWhy::GivenUp,
        Some(3),
    )
}

// Answers that the need was met, and gives the need.
fn met(rt: &impl Abort, job: &mut Job) -> JobNeed {
    let need = job.need();
    match need {
        JobNeed::Ended => assert!(rt; false),
        JobNeed::WriteSpare(_) | JobNeed::CheckSpare(_) | JobNeed::Commit => {
            job.answer(JobAnswer::Done)
        }
    }
    need
}

// Answers that the spare is bad, and gives the need.
fn bad(rt: &impl Abort, job: &mut Job, next: Option<Psn>) -> JobNeed {
    let need = job.need();
    let room = job.pairs().len() < PAIRS_MAX;
    match need {
        JobNeed::WriteSpare(_) | JobNeed::CheckSpare(_) if room => {
            job.answer(JobAnswer::Bad { next })
        }
        _ => assert!(rt; false),
    }
    need
}

#[test]
fn block_goes_to_its_third_spare(rt: HostRuntime) {
    let mut job = reassignment();
    assert!(rt; job.block() == Lba(5) && job.why() == MoveWhy::GivenUp);
    assert!(rt; *job.value() == Value::Lost && job.owner() == Some(3));
    assert!(rt; bad(&rt, &mut job, Some(Psn(930))) == JobNeed::WriteSpare(Psn(928)));
    assert!(rt; met(&rt, &mut job) == JobNeed::WriteSpare(Psn(930)));
    assert!(rt; bad(&rt, &mut job, Some(Psn(931))) == JobNeed::CheckSpare(Psn(930)));
    assert!(rt; met(&rt, &mut job) == JobNeed::WriteSpare(Psn(931)));
    assert!(rt; met(&rt, &mut job) == JobNeed::CheckSpare(Psn(931)));
    assert!(rt; job.result().is_none() && job.spare() == Psn(931));
    assert!(rt; met(&rt, &mut job) == JobNeed::Commit);
    assert!(rt; job.need() == JobNeed::Ended && job.result() == Some(JobResult::Moved));
    let chain = [(21, 928), (928, 930), (930, 931)];
    assert_eq!(rt; job.pairs().len(), chain.len());
    for (pair, (old, new)) in job.pairs().iter().zip(chain.iter()) {
        assert!(rt;
            *pair
                == Pair {
                    old: Psn(*old),
                    new: Psn(*new)
                }
        );
    }
}

#[test]
fn spares_run_out(rt: HostRuntime) {
    let mut job = reassignment();
    let _ = met(&rt, &mut job);
    assert!(rt; bad(&rt, &mut job, None) == JobNeed::CheckSpare(Psn(928)));
    assert!(rt; job.need() == JobNeed::Ended && job.result() == Some(JobResult::NoSpare));
}

// 127 spares turn out bad at their check, by 254 answers, and the last one is good, by 3.
#[test]
fn longest_move_takes_257_answers(rt: HostRuntime) {
    let mut job = reassignment();
    for number in 929..1056 {
        let _ = met(&rt, &mut job);
        let _ = bad(&rt, &mut job, Some(Psn(number)));
    }
    for _ in 0..3 {
        let _ = met(&rt, &mut job);
    }
    assert_eq!(rt; job.pairs().len(), 128);
    assert!(rt; job.result() == Some(JobResult::Moved));
}
