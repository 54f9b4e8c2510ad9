//! From channel bits to bytes, tolerantly, eight channel bits at a time.

ghost use Rattle.std.specs.Prelude.{◌≡◌, ℕ, ◌+◌, ◌*◌, ◌<◌, length};
ghost use Rattle.rll_code.specs.Bits.{byte_bits};
ghost use Rattle.rll_code.specs.Reading.{bytes_read, flags_read};
ghost use Rattle.rll_code.specs.Steps.{IsState, Settles};

use crate::tables::{BITS, FLAGS, WAITING};

/// Reads channel bits tolerantly: the bytes, and for each whether one of its bits is flagged. Where no right side of the
/// code begins in full, one flagged 0 is read and two channel bits are used up.
pub fn decode(chan: &[bool], out: &mut [u8], flags: &mut [bool])
    requires whole { length chan.now ≡ 2 * (8 * length out.old + 3) }
    requires each { length flags.old ≡ length out.old }
    ensures bytes { out.new ≡ bytes_read chan.now }
    ensures flagged { flags.new ≡ flags_read chan.now }
{
    // There are six channel bits, and then sixteen for each byte. Two 1s in front make eight of the six: no right side
    // begins so, and the one bit that they give stands above the three places that are kept.
    let start = settle(
        0,
        packed(&[
            true, true, chan[0], chan[1], chan[2], chan[3], chan[4], chan[5],
        ]),
    );
    let mut state = start.state;
    let mut bits = u32::from(start.bits) % 8;
    let mut marks = u32::from(start.flags) % 8;
    for i in 0..out.len() {
        let at = 16 * i + 6;
        let first = settle(state, packed(&chan[at..at + 8]));
        let second = settle(first.state, packed(&chan[at + 8..at + 16]));
        let read = joined(bits, first.bits, second.bits);
        let marked = joined(marks, first.flags, second.flags);
        out[i] = (read / 8) as u8;
        flags[i] = marked / 8 != 0;
        bits = read % 8;
        marks = marked % 8;
        state = second.state;
    }
}

/// The bits that eight channel bits settle, which of them are flagged, and the state after them.
#[derive(Drop)]
struct Settled {
    bits: u8,
    flags: u8,
    state: u16,
}

/// A state is where its entries begin in the tables.
#[inline(always)]
fn settle(state: u16, channel: u8) -> Settled
    requires { IsState 10 state }
    ensures { Settles state (byte_bits channel) result.bits result.flags result.state }
{
    let at = state as usize + channel as usize;
    Settled {
        bits: BITS[at],
        flags: FLAGS[at],
        state: WAITING[at],
    }
}

/// The byte with these eight bits, the first the highest: the product moves each to its place in the highest byte.
#[inline(always)]
fn packed(channel: &[bool]) -> u8
    requires { length channel.now ≡ 8 }
    ensures { byte_bits result ≡ channel.now }
{
    let gathered = u64::from(channel[0])
        | u64::from(channel[1]) << 8
        | u64::from(channel[2]) << 16
        | u64::from(channel[3]) << 24
        | u64::from(channel[4]) << 32
        | u64::from(channel[5]) << 40
        | u64::from(channel[6]) << 48
        | u64::from(channel[7]) << 56;
    (gathered.wrapping_mul(0x8040_2010_0804_0201) >> 56) as u8
}

/// The three places that are kept, and behind them the places of two times eight channel bits.
#[inline(always)]
fn joined(kept: u32, first: u8, second: u8) -> u32
    requires { kept < 8 }
    ensures { result ≡ kept * 256 + first * 16 + second }
{
    kept * 256 + u32::from(first) * 16 + u32::from(second)
}
