use disk_base::{Bytes, Calls};
use outside::{MemorySink, MemorySource, Printed};
use script_runner::*;
use std::alloc::Global;
use std::process::Abort;
use std::test::Fail;

const EMPTY: &[u8] = b"turns 0 commands 0 good 0 check 0 full 0 aborted 0 cut 0 strays 0\n";

// A drive of 48 sectors, so that its factory is quick.
const SMALL: &[u8] = b"disk 1 1 48 2\n";

// The first command of an initiator is told that the power came on.
const FIRST: &[u8] = b"disk 1 1 48 2\ncmd 1 7 S 000000000000\n";

const FIRST_REPORT: &[u8] = b"1 arrive 1 > in 1 1 7 S 000000000000 -
2 work 1 > start 1 > end 1 02 700006000000000A00000000290100000000
turns 2 commands 1 good 0 check 1 full 0 aborted 0 cut 0 strays 0
";

// A sync hardens one of three dirty blocks, and destages the other two; of three that are asked for none is left to come.
const DESTAGES: &[u8] = b"disk 1 1 48 2
cmd 1 7 S 000000000000
go
cmd 1 8 S 2A000000000500000300 *11
go
cmd 1 9 S 35000000000500000100
destage 1
destage 2
";

const DESTAGES_REPORT: &[u8] = b"1 arrive 1 > in 1 1 7 S 000000000000 -
2 work 1 > start 1 > end 1 02 700006000000000A00000000290100000000
3 arrive 1 > in 2 1 8 S 2A000000000500000300 *11
4 work 2 > start 2
5 work 2 > put 2 5 *11
6 work 2 > put 2 6 *11
7 work 2 > put 2 7 *11 > end 2 00
8 arrive 1 > in 3 1 9 S 35000000000500000100 -
9 work 3 > start 3
10 work 3 < wrote 21 > hard 3 5 > end 3 00
11 destage < wrote 22 > hard d 6
12 destage < wrote 23 > hard d 7
turns 12 commands 3 good 2 check 1 full 0 aborted 0 cut 0 strays 0
";

pub(crate) fn bytes(alloc: Global, text: &[u8]) -> Result<Bytes, Fail> {
    Ok(Bytes::from_vec(text.to_vec(alloc)?))
}

pub(crate) fn calls(alloc: Global, failing: &[u64]) -> Result<Calls, Fail> {
    Ok(Calls::from_vec(failing.to_vec(alloc)?))
}

// So many bytes the sink takes a call.
const TAKEN: u64 = 64;

// The outcome of a script that comes seven bytes a call, and what the sink got.
fn served(
    alloc: Global,
    script: &[u8],
    read_fails: &[u64],
    room: usize,
    write_fails: &[u64],
) -> Result<(Outcome, Bytes), Fail> {
    let mut source = MemorySource::new(bytes(alloc, script)?, 7, calls(alloc, read_fails)?);
    let mut sink = MemorySink::new(alloc, room, TAKEN as usize, calls(alloc, write_fails)?)?;
    let outcome = serve_alone(alloc, &["run"], &mut source, &mut sink);
    let got = bytes(alloc, sink.bytes())?;
    Ok((outcome, got))
}

// The line that an outcome says.
fn said(alloc: Global, outcome: &Outcome) -> Result<Bytes, Fail> {
    let mut sink = MemorySink::new(alloc, 100, 100, calls(alloc, &[])?)?;
    if outcome.say(&mut sink) != Printed::All {
        return Err(Fail::from("a line was not taken"));
    }
    bytes(alloc, sink.bytes())
}

#[test]
fn refusals(rt: HostRuntime) -> Result<(), Fail> {
    for (script, line) in [
        (b"cmd 1 1 S 0000".as_slice(), b"line 1: cdb\n".as_slice()),
        (b"\n\ncmd 1 1\n", b"line 3: shape\n"),
        (b"cmd 9 1 S 28000000000000000100", b"line 1: number\n"),
        (b"cmd 2 1 S 070000000000", b"line 1: later\n"),
        (b"scan 1\n", b"line 1: later\n"),
        (b"fault 16\n", b"line 1: later\n"),
        (b"cut now\n", b"line 1: later\n"),
        (b"cut write 1 none 0\n", b"line 1: later\n"),
        (b"power\n", b"line 1: later\n"),
        (b"disk 1 1 1 0\n", b"line 1: disk\n"),
    ] {
        let (outcome, got) = served(rt.alloc(), script, &[], 1000, &[])?;
        assert_eq!(rt; outcome.status(), 2);
        assert_eq!(rt; got.as_slice(), b"".as_slice());
        assert_eq!(rt; said(rt.alloc(), &outcome)?.as_slice(), line);
    }
    Ok(())
}

#[test]
fn destages_beside_a_sync(rt: HostRuntime) -> Result<(), Fail> {
    let (outcome, got) = served(rt.alloc(), DESTAGES, &[], 1000, &[])?;
    assert_eq!(rt; outcome.status(), 0);
    assert_eq!(rt; got.as_slice(), DESTAGES_REPORT);
    Ok(())
}

fn refused_words(rt: &impl Abort, alloc: Global, words: &[&str], line: &[u8]) -> Result<(), Fail> {
    let mut source = MemorySource::new(bytes(alloc, FIRST)?, 7, calls(alloc, &[])?);
    let mut sink = MemorySink::new(alloc, 1000, 10, calls(alloc, &[])?)?;
    let outcome = serve_alone(alloc, words, &mut source, &mut sink);
    assert_eq!(rt; outcome.status(), 1);
    assert_eq!(rt; sink.bytes(), b"".as_slice());
    assert_eq!(rt; said(alloc, &outcome)?.as_slice(), line);
    Ok(())
}

#[test]
fn words(rt: HostRuntime) -> Result<(), Fail> {
    let alloc = rt.alloc();
    refused_words(&rt, alloc, &[], b"usage: word 1\n")?;
    refused_words(&rt, alloc, &["race"], b"usage: word 1\n")?;
    refused_words(&rt, alloc, &["run", "--brief"], b"usage: word 2\n")?;
    refused_words(&rt, alloc, &["make", "1"], b"usage: word 1\n")?;
    refused_words(&rt, alloc, &["", "run"], b"usage: word 1\n")?;
    refused_words(&rt, alloc, &["run", "--order"], b"usage: word 3\n")?;
    refused_words(&rt, alloc, &["run", "--order", "07"], b"usage: word 3\n")?;
    refused_words(
        &rt,
        alloc,
        &["run", "--order", "2147483648"],
        b"usage: word 3\n",
    )?;
    refused_words(
        &rt,
        alloc,
        &["run", "--order", "7", "x"],
        b"usage: word 4\n",
    )
}

// 37 bytes come in six calls, and the seventh finds the end.
#[test]
fn each_read_fails(rt: HostRuntime) -> Result<(), Fail> {
    for call in 1..=8u64 {
        let (outcome, got) = served(rt.alloc(), FIRST, &[call], 1000, &[])?;
        if call <= 7 {
            assert_eq!(rt; outcome.status(), 3);
            assert_eq!(rt; got.as_slice(), b"".as_slice());
            assert_eq!(rt;
                said(rt.alloc(), &outcome)?.as_slice(),
                b"read fault\n".as_slice()
            );
        } else {
            assert_eq!(rt; outcome.status(), 0);
        }
    }
    Ok(())
}

#[test]
fn each_write_fails(rt: HostRuntime) -> Result<(), Fail> {
    let whole = FIRST_REPORT.len() as u64;
    for call in 1..=whole.div_ceil(TAKEN) + 1 {
        let (outcome, got) = served(rt.alloc(), FIRST, &[], 1000, &[call])?;
        let before = (TAKEN * (call - 1)).min(whole) as usize;
        assert_eq!(rt;
            outcome.status(),
            if call <= whole.div_ceil(TAKEN) { 4 } else { 0 }
        );
        assert!(rt; before <= FIRST_REPORT.len());
        assert_eq!(rt; got.as_slice(), &FIRST_REPORT[..before]);
    }
    Ok(())
}

// A sink with no room left, with room for one byte, for all but one, and for all.
#[test]
fn rooms(rt: HostRuntime) -> Result<(), Fail> {
    for room in [0, 1, EMPTY.len() - 1, EMPTY.len()] {
        let (outcome, got) = served(rt.alloc(), SMALL, &[], room, &[])?;
        assert_eq!(rt; outcome.status(), if room < EMPTY.len() { 4 } else { 0 });
        assert_eq!(rt; got.as_slice(), &EMPTY[..room]);
        if room < EMPTY.len() {
            assert_eq!(rt;
                said(rt.alloc(), &outcome)?.as_slice(),
                b"write fault\n".as_slice()
            );
        }
    }
    Ok(())
}

// A script of so many zero bytes, read a mebibyte a call.
fn served_zeros(alloc: Global, length: usize) -> Result<Outcome, Fail> {
    let zeros = Bytes::from_vec(vec![in alloc; 0u8; length]?);
    let mut source = MemorySource::new(zeros, 1 << 20, calls(alloc, &[])?);
    let mut sink = MemorySink::new(alloc, 100, 100, calls(alloc, &[])?)?;
    Ok(serve_alone(alloc, &["run"], &mut source, &mut sink))
}

#[test]
fn limits(rt: HostRuntime) -> Result<(), Fail> {
    let at_the_limit = served_zeros(rt.alloc(), 4_194_304)?;
    assert_eq!(rt;
        said(rt.alloc(), &at_the_limit)?.as_slice(),
        b"line 1: bytes\n".as_slice()
    );
    let past_it = served_zeros(rt.alloc(), 4_194_305)?;
    assert_eq!(rt; past_it.status(), 2);
    assert_eq!(rt;
        said(rt.alloc(), &past_it)?.as_slice(),
        b"too long\n".as_slice()
    );
    assert_eq!(rt; Outcome::NoMemory.status(), 5);
    assert_eq!(rt;
        said(rt.alloc(), &Outcome::NoMemory)?.as_slice(),
        b"no memory\n".as_slice()
    );
    Ok(())
}
