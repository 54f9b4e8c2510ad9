//! From words of channel bits to bytes, tolerantly, four bytes a word.

ghost use Rattle.std.specs.Prelude.{◌≡◌, ◌+◌, ◌*◌, ◌/◌, ◌%◌, ◌<◌, List, length, take, drop};
ghost use Rattle.bit_words.specs.Words.{first_bits, word_bits};
ghost use Rattle.rll_code.specs.Reading.{BitRead, bytes_read, flags_read};
ghost use Rattle.rll_code.specs.Steps.{IsState, Keeps, Reads, Settles};

use crate::word_tables::{FOLLOWING, SETTLED};

/// The numbers of sixteen bits.
const SIXTEEN: u64 = 0x1_0000;

/// Reads channel bits as `decode` does, out of words: channel bit k is bit k mod 64 of word k div 64, and the last word
/// holds six.
pub fn decode_words(words: &[u64], out: &mut [u8], flags: &mut [bool])
    requires whole { 4 * length words.now ≡ length out.old + 4 }
    requires each { length flags.old ≡ length out.old }
    ensures bytes { out.new ≡ bytes_read (take (16 * length out.old + 6) (word_bits words.now)) }
    ensures flagged { flags.new ≡ flags_read (take (16 * length out.old + 6) (word_bits words.now)) }
{
    // Two 1s in front make eight of the first six channel bits, as in `decode`.
    let start = settle(0, words[0] % 64 * 4 + 3);
    let mut kept = lowest_three(start.read);
    let mut state = start.state;
    for j in 0..words.len() - 1 {
        let channel = sixty_four(words, j);
        let one = read_byte(kept, state, channel % SIXTEEN);
        let two = read_byte(one.kept, one.state, channel / SIXTEEN % SIXTEEN);
        let three = read_byte(two.kept, two.state, (channel >> 32) % SIXTEEN);
        let four = read_byte(three.kept, three.state, channel >> 48);
        out[4 * j] = one.byte;
        out[4 * j + 1] = two.byte;
        out[4 * j + 2] = three.byte;
        out[4 * j + 3] = four.byte;
        flags[4 * j] = one.flagged;
        flags[4 * j + 1] = two.flagged;
        flags[4 * j + 2] = three.flagged;
        flags[4 * j + 3] = four.flagged;
        kept = four.kept;
        state = four.state;
    }
}

/// The channel bits of four bytes, behind the first six.
#[inline(always)]
fn sixty_four(words: &[u64], j: usize) -> u64
    requires { j + 1 < length words.now }
    ensures { first_bits 64 result ≡ take 64 (drop (64 * j + 6) (word_bits words.now)) }
{
    (words[j + 1] % 64 << 58) + (words[j] >> 6)
}

/// A byte, the bits and flags to keep, and the state.
#[derive(Drop)]
struct Byte {
    byte: u8,
    flagged: bool,
    kept: u32,
    state: u64,
}

/// Reads a byte. Bits and flags go side by side in one number, the flags from bit 16 on.
#[inline(always)]
fn read_byte(kept: u32, state: u64, sixteen: u64) -> Byte
    requires state { IsState 10 (64 * state) }
    requires sixteen { sixteen < 65536 }
    requires bits { kept % 65536 < 8 }
    requires flags { kept / 65536 < 8 }
    ensures reads { (before : List BitRead) → Keeps before (64 * state) (kept % 65536) (kept / 65536)
        → Reads before (64 * state) (first_bits 16 sixteen) result.byte result.flagged (64 * result.state) (result.kept % 65536) (result.kept / 65536) }
    ensures state { IsState 10 (64 * result.state) }
    ensures bits { result.kept % 65536 < 8 }
    ensures flags { result.kept / 65536 < 8 }
{
    let first = settle(state, sixteen % 256);
    let second = settle(first.state, sixteen / 256);
    let all = kept * 256 + first.read * 16 + second.read;
    Byte {
        byte: (all / 8 % 256) as u8,
        flagged: all / 65536 / 8 != 0,
        kept: lowest_three(all),
        state: second.state,
    }
}

/// The lowest three bits, and the lowest three from bit 16 on.
#[inline(always)]
fn lowest_three(all: u32) -> u32
    ensures bits { result % 65536 ≡ all % 8 }
    ensures flags { result / 65536 ≡ all / 65536 % 8 }
{
    all / 65536 % 8 * 65536 + all % 8
}

/// The bits that eight channel bits settle, from bit 16 on which of them are flagged, and the state after them.
#[derive(Drop)]
struct Settled {
    read: u32,
    state: u64,
}

/// A state is four times its place in the tables: by that much a row of states is shifted.
#[inline(always)]
fn settle(state: u64, eight: u64) -> Settled
    requires state { IsState 10 (64 * state) }
    requires eight { eight < 256 }
    ensures settles { Settles (64 * state) (first_bits 8 eight) (result.read % 65536) (result.read / 65536) (64 * result.state) }
    ensures bits { result.read % 65536 < 128 }
    ensures flags { result.read / 65536 < 128 }
{
    let at = 16 * eight as usize + state as usize / 4;
    Settled {
        read: SETTLED[at],
        state: (FOLLOWING[eight as usize] >> state) / 4 % 16 * 4,
    }
}
