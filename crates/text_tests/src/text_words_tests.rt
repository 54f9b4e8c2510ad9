//! Worked rows. Every expected text is written out by hand.

ghost use Rattle.std.specs.Prelude.{◌≡◌, ◌∷◌, ◌++◌, [], codes, decimal};
ghost use Rattle.std.specs.Io.KnownBytes.{Appends};
ghost use Rattle.outside.specs.Faults.{Rises};
ghost use Rattle.outside.specs.Pieces.{AppendsFront};
ghost use Rattle.text_words.specs.Line.{spaced};
ghost use Rattle.text_words.specs.Written.{Writes};

use arrayvec::ArrayVec;
use disk_base::{BLOCK_LENGTH, Bytes, Calls, DataOut, Value};
use outside::{MemorySink, Printed, Sink};
use std::test::Fail;
use text_words::*;

// A line as a layer above prints one, to any place and to a sink.
fn put_line<O: Out>(out: &mut O, number: u64)
    ensures { Writes O.written out.old out.new (λ text. spaced (text ++ codes "work") (decimal number ∷ decimal 7 ∷ []) ++ 10 ∷ []) }
{
    out.put(b"work");
    put_number(out, number);
    put_number(out, 7);
    out.put(b"\n");
}

fn print_line<K: Sink>(number: u64, sink: &mut K) -> Printed
    ensures all { result ≡ Printed.All → Appends (K.held sink.old) (K.held sink.new) (spaced (codes "work") (decimal number ∷ decimal 7 ∷ []) ++ 10 ∷ []) }
    ensures fault { result ≡ Printed.Fault → Rises (K.faults sink.old) (K.faults sink.new) }
    ensures front { AppendsFront (K.held sink.old) (K.held sink.new) (spaced (codes "work") (decimal number ∷ decimal 7 ∷ []) ++ 10 ∷ []) }
{
    let mut out = ToSink::new(sink);
    put_line(&mut out, number);
    out.finish()
}

fn put_each<O: Out>(out: &mut O, sent: &DataOut) {
    out.put(b"each");
    put_number(out, 0);
    put_signed(out, -127);
    put_byte(out, 0x0A);
    put_hex(out, &[0xAB, 0xCD]);
    put_sent(out, sent);
    put_value(out, &Value::Lost);
    put_value(out, &Value::Data([0xFF; BLOCK_LENGTH]));
}

#[test]
fn a_line_is_printed(rt: HostRuntime) -> Result<(), Fail> {
    let mut sink = MemorySink::new(rt.alloc(), 100, 3, Calls::new(rt.alloc()))?;
    assert_eq!(rt; print_line(12, &mut sink), Printed::All);
    assert_eq!(rt; sink.bytes(), b"work 12 7\n".as_slice());
    Ok(())
}

#[test]
fn a_full_sink_has_a_front(rt: HostRuntime) -> Result<(), Fail> {
    let mut sink = MemorySink::new(rt.alloc(), 6, 4, Calls::new(rt.alloc()))?;
    assert_eq!(rt; print_line(12, &mut sink), Printed::Fault);
    assert_eq!(rt; sink.bytes(), b"work 1".as_slice());
    Ok(())
}

#[test]
fn four_thousand_bytes_are_gathered(rt: HostRuntime) -> Result<(), Fail> {
    let mut failing = Calls::new(rt.alloc());
    failing.push(2)?;
    let mut sink = MemorySink::new(rt.alloc(), 9000, 9000, failing)?;
    let mut out = ToSink::new(&mut sink);
    put_hex(&mut out, &[0xAB; 2000]);
    put_hex(&mut out, &[0xAB; 2000]);
    assert_eq!(rt; out.finish(), Printed::Fault);
    assert_eq!(rt; sink.bytes().len(), 4000);
    Ok(())
}

#[test]
fn words_are_printed(rt: HostRuntime) -> Result<(), Fail> {
    let mut out = ToMemory::new(rt.alloc());
    put_each(&mut out, &DataOut::Fill(0x07));
    put_block(&mut out, &[0x0C; BLOCK_LENGTH]);
    put_sent(&mut out, &DataOut::Nothing);
    put_sent(&mut out, &DataOut::Given(Bytes::new(rt.alloc())));
    let text = out.finish()?;
    assert_eq!(rt;
        text.as_slice(),
        b"each 0 -127 0A ABCD *07 bad *FF *0C - =".as_slice()
    );
    Ok(())
}

#[test]
fn texts_are_compared(rt: HostRuntime) {
    for (text, same) in [
        ("each 0 -127 0A ABCD *07 bad *FF", true),
        ("each 0 -127 0a ABCD *07 bad *FF", false),
        ("each 0 -127 0A ABCD *07 bad *FF ", false),
        ("each 0 -127 0A ABCD *07 bad *F", false),
    ] {
        let mut out = Compare::new(text.as_bytes());
        put_each(&mut out, &DataOut::Fill(0x07));
        assert_eq!(rt; out.is_all(), same, "at {text:?}");
    }
}

#[test]
fn numbers_are_read(rt: HostRuntime) {
    for (word, number) in [
        ("0", Numeral::Outside),
        ("1", Numeral::Within(1)),
        ("65535", Numeral::Within(65535)),
        ("65536", Numeral::Outside),
        ("18446744073709551617", Numeral::Outside),
        ("", Numeral::Malformed),
        ("07", Numeral::Malformed),
        ("+7", Numeral::Malformed),
        ("-7", Numeral::Malformed),
        ("7x", Numeral::Malformed),
    ] {
        assert_eq!(rt;
            read_number(1, 65535, word.as_bytes()),
            number,
            "at {word:?}"
        );
    }
    for (word, number) in [
        ("-127", Some(-127)),
        ("0", Some(0)),
        ("128", None),
        ("-0", None),
        ("-05", None),
        ("+5", None),
    ] {
        assert_eq!(rt; read_signed(127, word.as_bytes()), number, "at {word:?}");
    }
    assert_eq!(rt; Numeral::Within(7).number(), Some(7));
}

#[test]
fn digits_and_data_are_read(rt: HostRuntime) -> Result<(), Fail> {
    assert_eq!(rt; read_byte(b"fF"), Some(255));
    assert_eq!(rt; read_byte(b"F"), None);
    let bytes = read_hex(rt.alloc(), b"0aFF").ok().ok_or("no bytes")?;
    assert_eq!(rt; bytes.as_slice(), [10, 255].as_slice());
    assert_eq!(rt;
        read_hex(rt.alloc(), b"0aF").err(),
        Some(DigitsFault::NotHex)
    );
    assert_eq!(rt; mark_of(b"*00"), Some(Mark::Star));
    assert_eq!(rt; mark_of(b"00"), None);
    assert!(rt;
        matches!(
            read_data(rt.alloc(), Mark::Star, b"*07"),
            Ok(DataOut::Fill(7))
        )
    );
    assert_eq!(rt;
        read_data(rt.alloc(), Mark::Equals, b"=0").err(),
        Some(DigitsFault::NotHex)
    );
    assert_eq!(rt; read_value(b"bad"), Some(Value::Lost));
    assert_eq!(rt; read_value(b"*0A"), Some(Value::Data([10; BLOCK_LENGTH])));
    assert_eq!(rt; read_value(b"00"), None);
    Ok(())
}

#[test]
fn lines_are_split(rt: HostRuntime) -> Result<(), Fail> {
    let words: ArrayVec<&[u8], 3> = read_words(b"scan  7").ok_or("too many")?;
    assert_eq!(rt; words.len(), 3);
    assert_eq!(rt; words.as_slice()[1].len(), 0);
    assert_eq!(rt; words.as_slice()[2], b"7".as_slice());
    let few: Option<ArrayVec<&[u8], 2>> = read_words(b"scan  7");
    assert!(rt; few.is_none());
    let (line, rest) = first_part(b'\n', b"go\nscan 7");
    assert_eq!(rt; line, b"go".as_slice());
    assert_eq!(rt; rest.ok_or("no rest")?, b"scan 7".as_slice());
    Ok(())
}

#[test]
fn laws_hold() {
    numbers_read_again();
    numbers_are_spelled();
    signed_numbers_read_again();
    digits_read_again();
    words_split_again();
    words_are_spelled();
}
