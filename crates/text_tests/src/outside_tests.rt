use disk_base::{Bytes, Calls, NoMemory};
use outside::{
    FromRead, MemorySink, MemorySource, Printed, ReadAnswer, Reading, Sink, SinkAnswer, Source,
    SteadySink, SteadySource, ToWrite, offer, read_to_end,
};
use std::alloc::Global;
use std::io;
use std::io::{ErrorKind, Read};
use std::test::Fail;

// A reader of std that always fails.
#[derive(Drop)]
struct Broken;

impl Read for Broken {
    fn read(&mut self, _buf: &mut [u8]) -> io::Result<usize> {
        Err(ErrorKind::Other.into())
    }
}

fn bytes_of(alloc: Global, text: &[u8]) -> Result<Bytes, NoMemory> {
    let mut bytes = Bytes::new(alloc);
    bytes.extend(text)?;
    Ok(bytes)
}

fn only(alloc: Global, call: u64) -> Result<Calls, NoMemory> {
    let mut calls = Calls::new(alloc);
    calls.push(call)?;
    Ok(calls)
}

#[test]
fn pieces_over_memory(rt: HostRuntime) -> Result<(), Fail> {
    let failing = only(rt.alloc(), 2)?;
    let mut source = MemorySource::new(bytes_of(rt.alloc(), b"abcde")?, 2, failing);
    for (answer, text) in [
        (ReadAnswer::Got(2), *b"ab--"),
        (ReadAnswer::Failed, *b"----"),
        (ReadAnswer::Got(2), *b"cd--"),
        (ReadAnswer::Got(1), *b"e---"),
        (ReadAnswer::End, *b"----"),
    ] {
        let mut into = *b"----";
        assert_eq!(rt; source.read(&mut into), answer);
        assert_eq!(rt; into, text);
    }

    let mut sink = MemorySink::new(rt.alloc(), 3, 2, only(rt.alloc(), 2)?)?;
    for (piece, answer) in [
        ("abcd", SinkAnswer::Took(2)),
        ("cd", SinkAnswer::Failed),
        ("cd", SinkAnswer::Took(1)),
        ("d", SinkAnswer::Failed),
        ("", SinkAnswer::Took(0)),
    ] {
        assert_eq!(rt; sink.write(piece.as_bytes()), answer, "at {piece:?}");
    }
    assert_eq!(rt; sink.bytes(), b"abc".as_slice());
    Ok(())
}

#[test]
fn sources_to_their_end(rt: HostRuntime) -> Result<(), Fail> {
    for (text, most) in [("", 0), ("abcde", 5), ("abcde", 99)] {
        let mut source = SteadySource::new(bytes_of(rt.alloc(), text.as_bytes())?, 2);
        match read_to_end(rt.alloc(), &mut source, most) {
            Reading::Read(bytes) => assert_eq!(rt; bytes.as_slice(), text.as_bytes()),
            other => panic!(rt; "{other:?}"),
        }
    }

    let mut longer = SteadySource::new(bytes_of(rt.alloc(), b"abcde")?, 2);
    assert!(rt; matches!(read_to_end(rt.alloc(), &mut longer, 4), Reading::TooLong));
    let failing = only(rt.alloc(), 2)?;
    let mut faulty = MemorySource::new(bytes_of(rt.alloc(), b"abcde")?, 2, failing);
    assert!(rt; matches!(read_to_end(rt.alloc(), &mut faulty, 5), Reading::Failed));
    let mut broken = FromRead::new(b"ab".as_slice().chain(Broken));
    assert!(rt; matches!(read_to_end(rt.alloc(), &mut broken, 5), Reading::Failed));
    Ok(())
}

#[test]
fn from_a_reader_to_a_writer(rt: HostRuntime) -> Result<(), Fail> {
    let mut source = FromRead::new(b"hello".as_slice());
    let Reading::Read(bytes) = read_to_end(rt.alloc(), &mut source, 5) else {
        panic!(rt; "not read");
    };
    let mut out = Vec::new(rt.alloc());
    let mut sink = ToWrite::new(&mut out);
    assert_eq!(rt; offer(&mut sink, bytes.as_slice()), Printed::All);
    assert_eq!(rt; out.as_slice(), b"hello".as_slice());

    let mut room = [0; 3];
    let mut full = ToWrite::new(room.as_mut_slice());
    assert_eq!(rt; offer(&mut full, bytes.as_slice()), Printed::Fault);
    assert_eq!(rt;
        offer(&mut SteadySink::new(), bytes.as_slice()),
        Printed::All
    );
    Ok(())
}
