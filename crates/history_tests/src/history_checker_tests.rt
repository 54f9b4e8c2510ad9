//! A worked script with its report, and reports that differ from it. Every text and every answer is written out by hand.
use history_checker::*;
use report_text::{Summary, read_run, read_summary};
use script_text::read_script;
use std::alloc::Global;
use std::test::Fail;

const SCRIPT: &str = "cmd 1 7 S 000000000000
go
cmd 1 8 S 28000000000000000100
go
";

const REPORT: &str = "1 arrive 1 > in 1 1 7 S 000000000000 -
2 work 1 > start 1 > end 1 02 700006000000000A00000000290100000000
3 arrive 1 > in 2 1 8 S 28000000000000000100 -
4 work 2 > start 2
5 work 2 < fetch 16 0 0 < tried 16 0 found > get 2 0 *00 > end 2 00
turns 5 commands 2 good 1 check 1 full 0 aborted 0 cut 0 strays 0
";

// The report of the first phase alone.
const BEGINNING: &str = "1 arrive 1 > in 1 1 7 S 000000000000 -
2 work 1 > start 1 > end 1 02 700006000000000A00000000290100000000
turns 2 commands 1 good 0 check 1 full 0 aborted 0 cut 0 strays 0
";

fn judged(alloc: Global, script: &str, report: &str) -> Result<Verdict, Fail> {
    if report.len() > 1_000_000 {
        return Err("a long report".into());
    }
    let script = read_script(alloc, script.as_bytes())
        .ok()
        .ok_or("no script")?;
    let turns = read_run(alloc, report.as_bytes()).ok().ok_or("no turns")?;
    if turns.as_slice().len() > 1_000_000 {
        return Err("many turns".into());
    }
    Ok(check_turns(alloc, &script, turns.as_slice())?)
}

// The verdict on the whole report, with one text in place of another.
fn judged_with(alloc: Global, old: &str, new: &str) -> Result<Verdict, Fail> {
    let report = REPORT.replace(alloc, old, new)?;
    judged(alloc, SCRIPT, &report)
}

#[test]
fn verdicts(rt: HostRuntime) -> Result<(), Fail> {
    let alloc = rt.alloc();
    assert_eq!(rt; judged(alloc, SCRIPT, REPORT)?, Verdict::Yes);
    let no = |turn: u64, why: Flaw| Verdict::No { turn, why };
    assert_eq!(rt; judged_with(alloc, "*00", "*01")?, no(5, Flaw::Step));
    assert_eq!(rt; judged(alloc, SCRIPT, BEGINNING)?, no(3, Flaw::Left));
    let another_tag = judged_with(alloc, "in 2 1 8 S", "in 2 1 9 S")?;
    assert_eq!(rt; another_tag, no(3, Flaw::Order));
    let cut_in_work = judged_with(alloc, "> start 2", "> start 2 > cut")?;
    assert_eq!(rt; cut_in_work, no(4, Flaw::Order));
    // The script of the first phase alone.
    let first = "cmd 1 7 S 000000000000\ngo\n";
    assert_eq!(rt; judged(alloc, first, BEGINNING)?, Verdict::Yes);
    assert_eq!(rt; judged(alloc, first, REPORT)?, no(3, Flaw::Order));
    // The tag stands for a command of two initiators, and the size is given.
    let small = "disk 2 1 32 8\ncmd 1 7 S 000000000000\n";
    assert_eq!(rt; judged(alloc, small, BEGINNING)?, Verdict::Yes);
    Ok(())
}

#[test]
fn sums(rt: HostRuntime) -> Result<(), Fail> {
    let turns = read_run(rt.alloc(), REPORT.as_bytes())
        .ok()
        .ok_or("no turns")?;
    let summary = read_summary(REPORT.as_bytes()).ok_or("no summary")?;
    let read = Summary {
        turns: 5,
        commands: 2,
        good: 1,
        check: 1,
        full: 0,
        aborted: 0,
        cut: 0,
        strays: 0,
    };
    assert_eq!(rt; summary, read);
    assert!(rt; summary.sums_up(turns.as_slice()));
    Ok(())
}

#[test]
fn laws_hold() {
    good_histories_are_legal();
    good_histories_end_all_commands();
    good_histories_have_all_lines();
    good_histories_have_lines_of_the_script();
    good_histories_leave_lines_by_cuts_alone();
    none_may_follow();
}
