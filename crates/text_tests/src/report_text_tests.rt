//! Worked rows. Every expected text is written out by hand.

use block_machine::{Entries, Label, Turn, Turns};
use disk_base::{BLOCK_LENGTH, Calls, How, Lba, Payload, Psn, Stage};
use outside::{MemorySink, Printed};
use platter_model::{Attempt, Damage, Effect, Lasting, Left, Op, Ops, Tear};
use report_text::*;
use script_text::read_script;
use std::alloc::Global;
use std::test::Fail;

// A command that is told the power on, and a read.
const READ: &str = "1 arrive 1 > in 1 1 7 S 000000000000 -
2 work 1 > start 1 > end 1 02 700006000000000A00000000290100000000
3 arrive 1 > in 2 1 8 S 28000000000000000100 -
4 work 2 > start 2
5 work 2 > get 2 0 *00 > end 2 00
turns 5 commands 2 good 1 check 1 full 0 aborted 0 cut 0 strays 0
";

// Every entry and every label.
const EVERY: &str = "1 arrive 8 > in 4294967295 8 65535 H A00000000000000000FF0000 -
2 arrive 1 > in 1 1 7 O 2A000000000000000100 *FF > end 1 28
3 arrive 1 > in 2 1 0 S 55100000000000000800 =00FF > in 3 1 1 S 000000000000 -
4 work 2 > start 2 > get 2 0 *00 > get 2 18446744073709551615 bad > put 2 4 *0A > hard 2 4 > hard d 4 > pass 2 0 4 > lose 4
5 work 2 > page 2 - > page 2 00FF > end 2 00
6 work 3 > end 3 02 F00003000000070A00000000110000000000
7 arrive 2 > func 2 abort 9 > gone 4294967295
8 arrive 2 > func 2 abortset
9 arrive 2 > func 2 clear
10 arrive 2 > func 2 reset > in 4 8 1 S 000000000000 =
11 job 4294967295 > mode 1 0 1 20 0 1 1
12 scan > scanned 0 skipped > scanned 1 light > scanned 2 heavy > scanned 3 unread
13 minutes 65535 > tick 65535
14 scan > logged 1 7 > logged 2 8 > logged 4 9
15 destage > hard d 9
16 damage 4095 0 9478 soft 255 add -127
17 damage 16 1 9477 hard drop
18 damage 0 5 1 plus add 127
19 damage 0 5 1 minus drop
20 fault 16
21 cut write 4294967295 none 9478
22 cut write 1 old 0
23 cut write 1 new 0
24 cut now > cut
25 power > on ready 18446744073709551615
26 power > on corrupt 1
27 power > on formatting 7
28 work 5 > blank 5 > fresh 5
turns 28 commands 5 good 1 check 1 full 1 aborted 1 cut 1 strays 0
";

// Texts, and the first line that is outside the format.
const REFUSED: [(&str, u32); 12] = [
    ("", 1),
    (
        "turns 0 commands 0 good 0 check 0 full 0 aborted 0 cut 0 strays 0",
        1,
    ),
    (
        "turns 0 commands 0 good 0 check 0 full 0 aborted 0 cut 0 strays 0\n\n",
        2,
    ),
    (
        "turns 0 commands 0 good 0 check 0 full 0 aborted 0 cut 0 strays 18446744073709551616\n",
        1,
    ),
    ("1 work 1 > start 1\n", 2),
    ("2 work 1 > start 1\n", 1),
    ("1 work 01 > start 1\n", 1),
    ("1 work 1 > start 4294967296\n", 1),
    ("1 work 1 > get 1 0 00\n", 1),
    ("1 work 1 > start 1 < cut\n", 1),
    ("1 damage 4096 0 1 hard drop\n", 1),
    (
        "1 work 1 > end 1 02 700006000000000B00000000290100000000\n",
        1,
    ),
];

fn read(alloc: Global, text: &str) -> Result<Turns, ReportFault> {
    if text.len() > 1_000_000 {
        return Err(ReportFault::NoMemory);
    }
    read_run(alloc, text.as_bytes())
}

fn run_of(alloc: Global, turns: Turns, ops: Ops, factory_count: u64) -> Result<Run, Fail> {
    let script = read_script(alloc, b"").ok().ok_or("no script")?;
    Ok(Run {
        script,
        turns,
        ops,
        factory_count,
    })
}

#[test]
fn reports_are_read_and_printed_back(rt: HostRuntime) -> Result<(), Fail> {
    for text in [READ, EVERY] {
        let turns = read(rt.alloc(), text).ok().ok_or("no turns")?;
        let run = run_of(rt.alloc(), turns, Ops::new(rt.alloc()), 0)?;
        let mut sink = MemorySink::new(rt.alloc(), 10000, 1000, Calls::new(rt.alloc()))?;
        assert_eq!(rt; print_run(&run, Form::Whole, &mut sink), Printed::All);
        assert_eq!(rt; sink.bytes(), text.as_bytes());
    }
    Ok(())
}

#[test]
fn refusals(rt: HostRuntime) {
    for (text, line) in REFUSED {
        assert_eq!(rt;
            read(rt.alloc(), text).err(),
            Some(ReportFault::Line(line)),
            "at {text:?}"
        );
    }
}

#[test]
fn summaries_are_read(rt: HostRuntime) -> Result<(), Fail> {
    let summary = read_summary(EVERY.as_bytes()).ok_or("no summary")?;
    let written = Summary {
        turns: 28,
        commands: 5,
        good: 1,
        check: 1,
        full: 1,
        aborted: 1,
        cut: 1,
        strays: 0,
    };
    assert_eq!(rt; summary, written);
    let turns = read(rt.alloc(), EVERY).ok().ok_or("no turns")?;
    assert!(rt; summary.sums_up(turns.as_slice()));
    let turns = read(rt.alloc(), READ).ok().ok_or("no turns")?;
    assert!(rt; !summary.sums_up(turns.as_slice()));
    // What stands before the last line isn't looked at; a line that isn't ended is no last line.
    assert!(rt;
        read_summary(
            b"no turn\nturns 0 commands 0 good 0 check 0 full 0 aborted 0 cut 0 strays 7\n"
        ).is_some()
    );
    for (text, _) in REFUSED {
        assert!(rt; read_summary(text.as_bytes()).is_none(), "at {text:?}");
    }
    Ok(())
}

#[test]
fn sinks_of_each_room(rt: HostRuntime) -> Result<(), Fail> {
    let turns = read(rt.alloc(), READ).ok().ok_or("no turns")?;
    let run = run_of(rt.alloc(), turns, Ops::new(rt.alloc()), 0)?;
    let text = READ.as_bytes();
    for room in 0..=text.len() {
        let mut sink = MemorySink::new(rt.alloc(), room, 7, Calls::new(rt.alloc()))?;
        let whole = print_run(&run, Form::Whole, &mut sink) == Printed::All;
        assert_eq!(rt; whole, room == text.len());
        assert_eq!(rt; sink.bytes(), &text[..room]);
    }
    Ok(())
}

const AGAIN: Attempt = Attempt {
    reread: 2,
    offset: -1,
};

const STAGE: Stage = Stage {
    number: 3,
    reread: 2,
    offset: -1,
    how: How::Light,
};

const DAMAGE: Damage = Damage {
    p: Psn(20),
    first: 0,
    count: 1,
    lasting: Lasting::Hard,
    effect: Effect::Drop,
};

const TEAR: Tear = Tear {
    left: Left::Old,
    scar: 9,
};

// Every operation: the third write of a sector stays, and the try finds another payload than that.
fn every_operation(alloc: Global) -> Result<Ops, Fail> {
    let p = Psn(20);
    let payload = Payload::user(p, Lba(4), &[7; BLOCK_LENGTH]);
    let other = Payload::user(p, Lba(4), &[8; BLOCK_LENGTH]);
    let mut ops = Ops::new(alloc);
    ops.push(Op::Wrote { payload: other })?;
    ops.push(Op::Wrote { payload })?;
    ops.push(Op::Damaged { damage: DAMAGE })?;
    ops.push(Op::Fetched { p, attempt: AGAIN })?;
    ops.push(Op::Tried {
        at: 3,
        p,
        stage: STAGE,
        found: None,
    })?;
    ops.push(Op::Tried {
        at: 3,
        p,
        stage: STAGE,
        found: Some(other),
    })?;
    ops.push(Op::Faulty { p })?;
    ops.push(Op::WriteFailed { p })?;
    ops.push(Op::Torn {
        payload,
        tear: TEAR,
    })?;
    ops.push(Op::Cut)?;
    ops.push(Op::Power)?;
    Ok(ops)
}

#[test]
fn operations_are_printed_and_counted(rt: HostRuntime) -> Result<(), Fail> {
    let ops = every_operation(rt.alloc())?;
    let mut turns = Turns::new(rt.alloc());
    turns.push(Turn {
        label: Label::Destage,
        ops_from: 0,
        ops_to: 10,
        entries: Entries::new(rt.alloc()),
    })?;
    // The first is the factory's.
    let run = run_of(rt.alloc(), turns, ops, 1)?;
    let mut sink = MemorySink::new(rt.alloc(), 10000, 1000, Calls::new(rt.alloc()))?;
    assert_eq!(rt; print_run(&run, Form::Whole, &mut sink), Printed::All);
    let text =
        "1 destage < wrote 20 < damaged 20 < fetch 20 2 -1 < tried 20 3 none < tried 20 3 found < faulty 20 < failed 20 < torn 20 old < cut < power
turns 1 commands 0 good 0 check 0 full 0 aborted 0 cut 0 strays 1
";
    assert_eq!(rt; sink.bytes(), text.as_bytes());
    let again = read(rt.alloc(), text).ok().ok_or("no turns")?;
    assert_eq!(rt; again.as_slice().len(), 1);
    assert_eq!(rt; again.as_slice()[0].ops_from, 0);
    assert_eq!(rt; again.as_slice()[0].ops_to, 10);
    let mut brief = MemorySink::new(rt.alloc(), 1000, 1000, Calls::new(rt.alloc()))?;
    assert_eq!(rt; print_run(&run, Form::Brief, &mut brief), Printed::All);
    assert_eq!(rt;
        brief.bytes(),
        b"turns 1 commands 0 good 0 check 0 full 0 aborted 0 cut 0 strays 1\n".as_slice()
    );
    Ok(())
}

#[test]
fn a_law_holds() {
    reports_read_again();
}
