use rll_code::*;
use std::process::Abort;
use std::test::Fail;

// Channel bits from their digits.
fn channel(digits: &[u8; 22]) -> [bool; 22] {
    let mut bits = [false; 22];
    for (k, digit) in digits.iter().enumerate() {
        bits[k] = *digit == b'1';
    }
    bits
}

fn reads(rt: &impl Abort, digits: &[u8; 22], byte: u8, flag: bool) {
    let mut out = [0; 1];
    let mut flags = [!flag; 1];
    decode(&channel(digits), &mut out, &mut flags);
    assert_eq!(rt; out[0], byte);
    assert_eq!(rt; flags[0], flag);
}

fn codes(rt: &impl Abort, byte: u8, digits: &[u8; 22]) {
    let mut chan = [true; 22];
    encode(&[byte], &mut chan);
    assert_eq!(rt; chan.as_slice(), channel(digits).as_slice());
    reads(rt, digits, byte, false);
}

#[test]
fn words_by_hand(rt: HostRuntime) -> Result<(), Fail> {
    codes(&rt, 0x00, b"0001000001000001001000");
    codes(&rt, 0xff, b"1000100010001000001000");
    codes(&rt, 0x25, b"0010010010010001001000");
    Ok(())
}

#[test]
fn damaged_words(rt: HostRuntime) -> Result<(), Fail> {
    // The word of 25 with its first bit turned: a flagged 0, then 010, 010, 10, 11.
    reads(&rt, b"1010010010010001001000", 0x25, true);
    // The word of 00 with its last 1 turned: 000 three times, and two flagged 0s among the last three bits.
    reads(&rt, b"0001000001000001000000", 0x00, false);
    // No 1 at all: a flagged 0 for each two.
    reads(&rt, b"0000000000000000000000", 0x00, true);
    Ok(())
}

#[test]
fn lengths(rt: HostRuntime) -> Result<(), Fail> {
    let mut tail = [true; 6];
    encode(&[], &mut tail);
    assert_eq!(rt;
        tail.as_slice(),
        [false, false, true, false, false, false].as_slice()
    );
    decode(&tail, &mut [], &mut []);

    let mut bytes = [0; 592];
    for (k, byte) in bytes.iter_mut().enumerate() {
        *byte = (k * 37 % 256) as u8;
    }
    let mut chan = [true; 9478];
    encode(&bytes, &mut chan);
    let mut out = [0; 592];
    let mut flags = [true; 592];
    decode(&chan, &mut out, &mut flags);
    assert_eq!(rt; out.as_slice(), bytes.as_slice());
    assert_eq!(rt; flags.as_slice(), [false; 592].as_slice());

    let mut words = [0; 149];
    encode_words(&bytes, &mut words);
    for (k, bit) in chan.iter().enumerate() {
        assert_eq!(rt; words[k / 64] >> (k % 64) & 1 == 1, *bit, "{k}");
    }
    assert!(rt; words[148] < 64);
    // A bit turned at a word's edge reads alike both ways.
    words[70] ^= 1 << 63;
    chan[64 * 71 - 1] ^= true;
    decode_words(&words, &mut out, &mut flags);
    let mut expected = [0; 592];
    let mut marked = [false; 592];
    decode(&chan, &mut expected, &mut marked);
    assert_eq!(rt; out.as_slice(), expected.as_slice());
    assert_eq!(rt; flags.as_slice(), marked.as_slice());
    Ok(())
}
