// Scripts and their reports.
use crate::script_runner_tests::{bytes, calls};
use block_machine::{Turn, Turns};
use disk_base::Bytes;
use history_replay::{ReplayFault, legal, replay};
use outside::{MemorySink, MemorySource};
use report_text::{ReportFault, read_run};
use script_runner::{Outcome, serve_alone};
use std::alloc::Global;
use std::test::Fail;

// A script, its report, and how many blocks its drive has.
#[derive(Clone, Copy)]
struct Example {
    script: &'static str,
    report: &'static str,
    blocks: u64,
}

// A first command takes the attention, and then a block is read.
const READ: Example = Example {
    script: "cmd 1 7 S 000000000000
go
cmd 1 8 S 28000000000000000100
go
",
    report: "1 arrive 1 > in 1 1 7 S 000000000000 -
2 work 1 > start 1 > end 1 02 700006000000000A00000000290100000000
3 arrive 1 > in 2 1 8 S 28000000000000000100 -
4 work 2 > start 2
5 work 2 < fetch 16 0 0 < tried 16 0 found > get 2 0 *00 > end 2 00
turns 5 commands 2 good 1 check 1 full 0 aborted 0 cut 0 strays 0
",
    blocks: 912,
};

// Reads at the end of the drive, past it, and of too many blocks.
const RANGES: Example = Example {
    script: "cmd 1 7 S 000000000000
go
cmd 1 1 S 28000000039000000000
cmd 1 2 S 28000000039000000100
cmd 1 3 S 28000000038F00000100
cmd 1 4 S 28000000039100000000
cmd 1 5 S 8800FFFFFFFFFFFFFFFF000000010000
cmd 1 6 S 28000000000000010100
",
    report: "1 arrive 1 > in 1 1 7 S 000000000000 -
2 work 1 > start 1 > end 1 02 700006000000000A00000000290100000000
3 arrive 1 > in 2 1 1 S 28000000039000000000 -
4 arrive 1 > in 3 1 2 S 28000000039000000100 -
5 arrive 1 > in 4 1 3 S 28000000038F00000100 -
6 arrive 1 > in 5 1 4 S 28000000039100000000 -
7 arrive 1 > in 6 1 5 S 8800FFFFFFFFFFFFFFFF000000010000 -
8 arrive 1 > in 7 1 6 S 28000000000000010100 -
9 work 2 > start 2 > end 2 00
10 work 3 > start 3 > end 3 02 700005000000000A00000000210000000000
11 work 4 > start 4
12 work 4 < fetch 927 0 0 < tried 927 0 found > get 4 911 *00 > end 4 00
13 work 5 > start 5 > end 5 02 700005000000000A00000000210000000000
14 work 6 > start 6 > end 6 02 700005000000000A00000000210000000000
15 work 7 > start 7 > end 7 02 700005000000000A00000000240000000000
turns 15 commands 7 good 2 check 5 full 0 aborted 0 cut 0 strays 0
",
    blocks: 912,
};

// What a system sends as it finds a disk: identity, capacities, pages and defect lists.
const SYSTEM_START: Example = Example {
    script: "cmd 1 1 S 120000002400
go
cmd 1 2 S 000000000000
go
cmd 1 3 S 000000000000
go
cmd 1 4 S 12010000FF00
go
cmd 1 5 S 12018000FF00
go
cmd 1 6 S 12018300FF00
go
cmd 1 7 S 1201B000FF00
go
cmd 1 8 S 1201B100FF00
go
cmd 1 9 S 1A003F00FF00
go
cmd 1 10 S 1A000800FF00
go
cmd 1 11 S 9E100000000000000000000000200000
go
cmd 1 12 S A00000000000000000FF0000
go
cmd 1 13 S 28000000000000000800
go
cmd 1 14 S 25000000000000000000
cmd 1 15 S 37001D0000000000FF00
cmd 1 16 S 3700180000000000FF00
go
minutes 90
cmd 1 17 S 4D00550000000000FF00
cmd 1 18 S 4D00400000000000FF00
cmd 1 19 S 030000001200
go
cmd 1 20 S 5A08080000000000FF00
go
",
    report: "1 arrive 1 > in 1 1 1 S 120000002400 -
2 work 1 > start 1 > page 1 000006021F000002504C41545445522053494D554C41544544204449534B202030313030 > end 1 00
3 arrive 1 > in 2 1 2 S 000000000000 -
4 work 2 > start 2 > end 2 02 700006000000000A00000000290100000000
5 arrive 1 > in 3 1 3 S 000000000000 -
6 work 3 > start 3 > end 3 00
7 arrive 1 > in 4 1 4 S 12010000FF00 -
8 work 4 > start 4 > page 4 00000005008083B0B1 > end 4 00
9 arrive 1 > in 5 1 5 S 12018000FF00 -
10 work 5 > start 5 > page 5 008000083030303030303031 > end 5 00
11 arrive 1 > in 6 1 6 S 12018300FF00 -
12 work 6 > start 6 > page 6 0083001402010010504C4154544552203030303030303031 > end 6 00
13 arrive 1 > in 7 1 7 S 1201B000FF00 -
14 work 7 > start 7 > page 7 00B0003C000000000000010000000000000000000000000000000000000000000000000000000000000000000000000000000000000000000000000000000000 > end 7 00
15 arrive 1 > in 8 1 8 S 1201B100FF00 -
16 work 8 > start 8 > page 8 00B1003C1C2000000000000000000000000000000000000000000000000000000000000000000000000000000000000000000000000000000000000000000000 > end 8 00
17 arrive 1 > in 9 1 9 S 1A003F00FF00 -
18 work 9 > start 9 > page 9 2B0010080000039000000200010AC00500000000000000000812040000000000000000000000000000000000 > end 9 00
19 arrive 1 > in 10 1 10 S 1A000800FF00 -
20 work 10 > start 10 > page 10 1F00100800000390000002000812040000000000000000000000000000000000 > end 10 00
21 arrive 1 > in 11 1 11 S 9E100000000000000000000000200000 -
22 work 11 > start 11 > page 11 000000000000038F000002000000000000000000000000000000000000000000 > end 11 00
23 arrive 1 > in 12 1 12 S A00000000000000000FF0000 -
24 work 12 > start 12 > page 12 00000008000000000000000000000000 > end 12 00
25 arrive 1 > in 13 1 13 S 28000000000000000800 -
26 work 13 > start 13
27 work 13 < fetch 16 0 0 < tried 16 0 found > get 13 0 *00
28 work 13 < fetch 17 0 0 < tried 17 0 found > get 13 1 *00
29 work 13 < fetch 18 0 0 < tried 18 0 found > get 13 2 *00
30 work 13 < fetch 19 0 0 < tried 19 0 found > get 13 3 *00
31 work 13 < fetch 20 0 0 < tried 20 0 found > get 13 4 *00
32 work 13 < fetch 21 0 0 < tried 21 0 found > get 13 5 *00
33 work 13 < fetch 22 0 0 < tried 22 0 found > get 13 6 *00
34 work 13 < fetch 23 0 0 < tried 23 0 found > get 13 7 *00 > end 13 00
35 arrive 1 > in 14 1 14 S 25000000000000000000 -
36 arrive 1 > in 15 1 15 S 37001D0000000000FF00 -
37 arrive 1 > in 16 1 16 S 3700180000000000FF00 -
38 work 14 > start 14 > page 14 0000038F00000200 > end 14 00
39 work 15 > start 15 > page 15 001D0000 > end 15 00
40 work 16 > start 16 > page 16 001D0000 > end 16 02 700001000000000A000000001C0000000000
41 minutes 90 > tick 90
42 arrive 1 > in 17 1 17 S 4D00550000000000FF00 -
43 arrive 1 > in 18 1 18 S 4D00400000000000FF00 -
44 arrive 1 > in 19 1 19 S 030000001200 -
45 work 17 > start 17 > page 17 150000100000030C0000005A0001000000000000 > end 17 00
46 work 18 > start 18 > page 18 000000020015 > end 18 00
47 work 19 > start 19 > page 19 700000000000000A00000000000000000000 > end 19 00
48 arrive 1 > in 20 1 20 S 5A08080000000000FF00 -
49 work 20 > start 20 > page 20 001A0010000000000812040000000000000000000000000000000000 > end 20 00
turns 49 commands 20 good 18 check 2 full 0 aborted 0 cut 0 strays 0
",
    blocks: 912,
};

// CLEAR TASK SET and LOGICAL UNIT RESET, and whom they warn.
const FUNCTIONS: Example = Example {
    script: "disk 3 1 32 40
cmd 1 60001 S 000000000000
cmd 2 60002 S 000000000000
cmd 3 60003 S 000000000000
go
cmd 1 1 O 000000000000
cmd 2 2 S 28000000000000000200
clear 3
go
cmd 2 3 S 000000000000
cmd 1 4 S 000000000000
cmd 3 5 S 000000000000
go
reset 2
go
cmd 1 60001 S 000000000000
cmd 2 60002 S 000000000000
cmd 3 60003 S 000000000000
go
",
    report: "1 arrive 1 > in 1 1 60001 S 000000000000 -
2 arrive 2 > in 2 2 60002 S 000000000000 -
3 arrive 3 > in 3 3 60003 S 000000000000 -
4 work 1 > start 1 > end 1 02 700006000000000A00000000290100000000
5 work 2 > start 2 > end 2 02 700006000000000A00000000290100000000
6 work 3 > start 3 > end 3 02 700006000000000A00000000290100000000
7 arrive 1 > in 4 1 1 O 000000000000 -
8 arrive 2 > in 5 2 2 S 28000000000000000200 -
9 arrive 3 > func 3 clear > gone 4 > gone 5
10 arrive 1 > in 6 1 4 S 000000000000 -
11 arrive 2 > in 7 2 3 S 000000000000 -
12 arrive 3 > in 8 3 5 S 000000000000 -
13 work 6 > start 6 > end 6 02 700006000000000A000000002F0000000000
14 work 7 > start 7 > end 7 02 700006000000000A000000002F0000000000
15 work 8 > start 8 > end 8 00
16 arrive 2 > func 2 reset
17 arrive 1 > in 9 1 60001 S 000000000000 -
18 arrive 2 > in 10 2 60002 S 000000000000 -
19 arrive 3 > in 11 3 60003 S 000000000000 -
20 work 9 > start 9 > end 9 02 700006000000000A00000000290300000000
21 work 10 > start 10 > end 10 02 700006000000000A00000000290300000000
22 work 11 > start 11 > end 11 02 700006000000000A00000000290300000000
turns 22 commands 11 good 1 check 8 full 0 aborted 2 cut 0 strays 0
",
    blocks: 40,
};

// A command is aborted before it starts.
const ABORT: Example = Example {
    script: "cmd 1 60001 S 000000000000
go
cmd 1 1 O 000000000000
abort 1 1
",
    report: "1 arrive 1 > in 1 1 60001 S 000000000000 -
2 work 1 > start 1 > end 1 02 700006000000000A00000000290100000000
3 arrive 1 > in 2 1 1 O 000000000000 -
4 arrive 1 > func 1 abort 1 > gone 2
turns 4 commands 2 good 0 check 1 full 0 aborted 1 cut 0 strays 0
",
    blocks: 912,
};

// Two rereads fail, and the third try finds the data; the second read finds them in the cache.
const SOFT: Example = Example {
    script: "disk 1 1 48 2
cmd 1 7 S 000000000000
go
damage 16 0 9478 soft 2 drop
cmd 1 1 S 28000000000000000100
go
cmd 1 2 S 28000000000000000100
",
    report: "1 arrive 1 > in 1 1 7 S 000000000000 -
2 work 1 > start 1 > end 1 02 700006000000000A00000000290100000000
3 damage 16 0 9478 soft 2 drop < damaged 16
4 arrive 1 > in 2 1 1 S 28000000000000000100 -
5 work 2 > start 2
6 work 2 < fetch 16 0 0 < tried 16 0 none
7 work 2 < fetch 16 1 0 < tried 16 1 none
8 work 2 < fetch 16 2 0 < tried 16 2 found > get 2 0 *00 > end 2 00
9 arrive 1 > in 3 1 2 S 28000000000000000100 -
10 work 3 > start 3
11 work 3 > get 3 0 *00 > end 3 00
turns 11 commands 3 good 2 check 1 full 0 aborted 0 cut 0 strays 0
",
    blocks: 30,
};

// All ten stages of retry count 5 fail: UNRECOVERED READ ERROR at the block.
const HARD: Example = Example {
    script: "disk 1 1 48 2
cmd 1 7 S 000000000000
go
damage 16 0 9478 hard drop
cmd 1 1 S 28000000000000000100
go
",
    report: "1 arrive 1 > in 1 1 7 S 000000000000 -
2 work 1 > start 1 > end 1 02 700006000000000A00000000290100000000
3 damage 16 0 9478 hard drop < damaged 16
4 arrive 1 > in 2 1 1 S 28000000000000000100 -
5 work 2 > start 2
6 work 2 < fetch 16 0 0 < tried 16 0 none
7 work 2 < fetch 16 1 0 < tried 16 1 none
8 work 2 < fetch 16 2 0 < tried 16 2 none
9 work 2 < fetch 16 3 0 < tried 16 3 none
10 work 2 < fetch 16 4 0 < tried 16 4 none
11 work 2 < fetch 16 5 0 < tried 16 5 none
12 work 2 < fetch 16 5 1 < tried 16 6 none
13 work 2 < fetch 16 5 -1 < tried 16 7 none
14 work 2 < fetch 16 5 0 < tried 16 8 none
15 work 2 < fetch 16 5 0 < tried 16 9 none > get 2 0 bad > end 2 02 F00003000000000A00000000110000000000
turns 15 commands 2 good 0 check 2 full 0 aborted 0 cut 0 strays 0
",
    blocks: 30,
};

// With PER 1 the same read has its data, and tells of the recovery.
const REPORTED: Example = Example {
    script: "disk 1 1 48 2
cmd 1 7 S 000000000000
go
cmd 1 8 S 55100000000000001400 =0000000000000000010AC4050000000000000000
go
damage 16 0 9478 soft 2 drop
cmd 1 1 S 28000000000000000100
",
    report: "1 arrive 1 > in 1 1 7 S 000000000000 -
2 work 1 > start 1 > end 1 02 700006000000000A00000000290100000000
3 arrive 1 > in 2 1 8 S 55100000000000001400 =0000000000000000010AC4050000000000000000
4 work 2 > start 2 > mode 1 1 1 5 1 0 1 > end 2 00
5 damage 16 0 9478 soft 2 drop < damaged 16
6 arrive 1 > in 3 1 1 S 28000000000000000100 -
7 work 3 > start 3
8 work 3 < fetch 16 0 0 < tried 16 0 none
9 work 3 < fetch 16 1 0 < tried 16 1 none
10 work 3 < fetch 16 2 0 < tried 16 2 found > get 3 0 *00 > end 3 02 F00001000000000A00000000170100000000
turns 10 commands 3 good 1 check 2 full 0 aborted 0 cut 0 strays 0
",
    blocks: 30,
};

// The write cache is switched off, which the other initiator is told.
const MODES: Example = Example {
    script: "cmd 1 1 S 000000000000
cmd 2 1 S 000000000000
go
cmd 1 2 S 5A08080000000000FF00
go
cmd 1 3 S 55100000000000001C00 =00000000000000000812000000000000000000000000000000000000
go
cmd 1 4 S 000000000000
cmd 2 2 S 000000000000
",
    report: "1 arrive 1 > in 1 1 1 S 000000000000 -
2 arrive 2 > in 2 2 1 S 000000000000 -
3 work 1 > start 1 > end 1 02 700006000000000A00000000290100000000
4 work 2 > start 2 > end 2 02 700006000000000A00000000290100000000
5 arrive 1 > in 3 1 2 S 5A08080000000000FF00 -
6 work 3 > start 3 > page 3 001A0010000000000812040000000000000000000000000000000000 > end 3 00
7 arrive 1 > in 4 1 3 S 55100000000000001C00 =00000000000000000812000000000000000000000000000000000000
8 work 4 > start 4 > mode 1 1 0 5 0 0 1 > end 4 00
9 arrive 1 > in 5 1 4 S 000000000000 -
10 arrive 2 > in 6 2 2 S 000000000000 -
11 work 5 > start 5 > end 5 00
12 work 6 > start 6 > end 6 02 700006000000000A000000002A0100000000
turns 12 commands 6 good 3 check 3 full 0 aborted 0 cut 0 strays 0
",
    blocks: 912,
};

// A write, its sync, and a read of the block.
const SYNC: Example = Example {
    script: "disk 1 1 48 2
cmd 1 7 S 000000000000
go
cmd 1 1 S 2A000000000500000100 *11
cmd 1 2 S 35000000000500000100
cmd 1 3 S 28000000000500000100
go
",
    report: "1 arrive 1 > in 1 1 7 S 000000000000 -
2 work 1 > start 1 > end 1 02 700006000000000A00000000290100000000
3 arrive 1 > in 2 1 1 S 2A000000000500000100 *11
4 arrive 1 > in 3 1 2 S 35000000000500000100 -
5 arrive 1 > in 4 1 3 S 28000000000500000100 -
6 work 2 > start 2
7 work 2 > put 2 5 *11 > end 2 00
8 work 3 > start 3
9 work 3 < wrote 21 > hard 3 5 > end 3 00
10 work 4 > start 4
11 work 4 > get 4 5 *11 > end 4 00
turns 11 commands 4 good 3 check 1 full 0 aborted 0 cut 0 strays 0
",
    blocks: 30,
};

// Three initiators by an order that begins with 7, and by one that begins with 1103.
const ORDER: &str = "disk 1 1 48 2
cmd 1 1 S 000000000000
cmd 2 1 S 000000000000
cmd 3 1 S 000000000000
go
cmd 1 2 S 000000000000
cmd 2 2 S 000000000000
go
";

const ORDER_7_REPORT: &str = "1 arrive 2 > in 1 2 1 S 000000000000 -
2 work 1 > start 1 > end 1 02 700006000000000A00000000290100000000
3 arrive 1 > in 2 1 1 S 000000000000 -
4 arrive 3 > in 3 3 1 S 000000000000 -
5 work 3 > start 3 > end 3 02 700006000000000A00000000290100000000
6 work 2 > start 2 > end 2 02 700006000000000A00000000290100000000
7 arrive 1 > in 4 1 2 S 000000000000 -
8 arrive 2 > in 5 2 2 S 000000000000 -
9 work 5 > start 5 > end 5 00
10 work 4 > start 4 > end 4 00
turns 10 commands 5 good 2 check 3 full 0 aborted 0 cut 0 strays 0
";

const ORDER_1103_REPORT: &str = "1 arrive 3 > in 1 3 1 S 000000000000 -
2 arrive 1 > in 2 1 1 S 000000000000 -
3 arrive 2 > in 3 2 1 S 000000000000 -
4 work 1 > start 1 > end 1 02 700006000000000A00000000290100000000
5 work 2 > start 2 > end 2 02 700006000000000A00000000290100000000
6 work 3 > start 3 > end 3 02 700006000000000A00000000290100000000
7 arrive 1 > in 4 1 2 S 000000000000 -
8 arrive 2 > in 5 2 2 S 000000000000 -
9 work 5 > start 5 > end 5 00
10 work 4 > start 4 > end 4 00
turns 10 commands 5 good 2 check 3 full 0 aborted 0 cut 0 strays 0
";

// What the words and a script come to, and what the sink got.
fn carried_out(alloc: Global, words: &[&str], script: &[u8]) -> Result<(Outcome, Bytes), Fail> {
    let mut source = MemorySource::new(bytes(alloc, script)?, 4096, calls(alloc, &[])?);
    let mut sink = MemorySink::new(alloc, 20_000, 4096, calls(alloc, &[])?)?;
    let outcome = serve_alone(alloc, words, &mut source, &mut sink);
    let got = bytes(alloc, sink.bytes())?;
    Ok((outcome, got))
}

// Whether turns are a legal history of so many blocks.
fn are_legal(alloc: Global, turns: &[Turn], blocks: u64) -> Result<bool, Fail> {
    if blocks == 0 || blocks > 4096 {
        return Err(Fail::from("no drive has so many blocks"));
    }
    Ok(legal(alloc, turns, blocks)?)
}

// Whether a report reads as turns with these labels and operations.
fn reads_as(alloc: Global, report: &[u8], turns: &[Turn]) -> Result<bool, Fail> {
    if report.len() > 20_000 {
        return Err(Fail::from("a short report became long"));
    }
    let read = read_run(alloc, report)?;
    for (own, told) in turns.iter().zip(read.as_slice()) {
        if own.label != told.label || own.ops_from != told.ops_from || own.ops_to != told.ops_to {
            return Ok(false);
        }
    }
    Ok(turns.len() == read.as_slice().len())
}

#[test]
fn reports(rt: HostRuntime) -> Result<(), Fail> {
    for example in [
        READ,
        RANGES,
        SYSTEM_START,
        FUNCTIONS,
        ABORT,
        SOFT,
        REPORTED,
        MODES,
        HARD,
        SYNC,
    ] {
        let (outcome, got) = carried_out(rt.alloc(), &["run"], example.script.as_bytes())?;
        assert_eq!(rt; got.as_slice(), example.report.as_bytes());
        match outcome {
            Outcome::Served(run) => {
                assert!(rt; are_legal(rt.alloc(), run.turns.as_slice(), example.blocks)?);
                assert!(rt; reads_as(rt.alloc(), got.as_slice(), run.turns.as_slice())?);
            }
            _ => return Err(Fail::from("a script was not served")),
        }
    }
    Ok(())
}

#[test]
fn orders(rt: HostRuntime) -> Result<(), Fail> {
    for (number, report) in [("7", ORDER_7_REPORT), ("1103", ORDER_1103_REPORT)] {
        let (_, got) = carried_out(rt.alloc(), &["run", "--order", number], ORDER.as_bytes())?;
        assert_eq!(rt; got.as_slice(), report.as_bytes());
    }
    Ok(())
}

// Of 65 commands in one phase, the first of them ORDERED, the last finds the task set full.
#[test]
fn a_full_task_set(rt: HostRuntime) -> Result<(), Fail> {
    let alloc = rt.alloc();
    let mut script = b"cmd 1 60001 S 000000000000\ngo\ncmd 1 1 O 000000000000\n".to_vec(alloc)?;
    for tag in 2..=65u32 {
        let line = format!(in alloc; "cmd 1 {tag} S 000000000000\n")?;
        script.extend_from_slice(line.as_bytes())?;
    }
    let (_, got) = carried_out(alloc, &["run"], script.as_slice())?;
    let summary = b"\nturns 131 commands 66 good 64 check 1 full 1 aborted 0 cut 0 strays 0\n";
    assert!(rt; got.as_slice().ends_with(summary));
    Ok(())
}

// What the report of READ reads as, with another text in place of one. It stays short enough for its lines to be numbered.
fn read_altered(alloc: Global, old: &str, new: &str) -> Result<Result<Turns, ReportFault>, Fail> {
    let text = READ.report.replace(alloc, old, new)?;
    if text.len() > 1000 {
        return Err(Fail::from("a short report became long"));
    }
    Ok(read_run(alloc, text.as_bytes()))
}

// A report reads back as turns that are a legal history; where the read gives another value, they aren't, from its turn on.
#[test]
fn replays(rt: HostRuntime) -> Result<(), Fail> {
    let alloc = rt.alloc();
    let turns = read_run(alloc, READ.report.as_bytes())?;
    assert!(rt; legal(alloc, turns.as_slice(), 912)?);
    assert!(rt; replay(alloc, turns.as_slice(), 912)?.as_slice().len() == 912);
    let altered = read_altered(alloc, "*00", "*01")??;
    assert!(rt; !legal(alloc, altered.as_slice(), 912)?);
    match replay(alloc, altered.as_slice(), 912) {
        Err(ReplayFault::Step { turn }) => assert_eq!(rt; turn, 5),
        _ => return Err(Fail::from("another value was taken")),
    }
    let second_line = "2 work 1 > start 1 > end 1 02 700006000000000A00000000290100000000\n";
    match read_altered(alloc, second_line, "")? {
        Err(ReportFault::Line(line)) => assert_eq!(rt; line, 2),
        _ => return Err(Fail::from("a report without a line was read")),
    }
    Ok(())
}
