//! From bytes to words of channel bits, four bytes a word.

ghost use Rattle.std.specs.Prelude.{◌≡◌, ◌+◌, ◌*◌, ◌^◌, ◌<◌, Bool, List, ◌++◌, length};
ghost use Rattle.std.specs.List.{flat_map};
ghost use Rattle.bit_words.specs.Words.{first_bits};
ghost use Rattle.rll_code.specs.Bits.{byte_bits};
ghost use Rattle.rll_code.specs.Code.{tail};
ghost use Rattle.rll_code.specs.Steps.{IsState};
ghost use Rattle.rll_code.specs.Words.{Carries, GoesOn, HoldCode, Places};

use crate::tables::PENDING;
use crate::word_tables::{PLACED, TAILS};

/// Channel bits that a step leaves to be carried.
const SIXTEEN: u64 = 0x1_0000;

/// Writes the code of a message of whole fours of bytes, and of the tail, in words: channel bit k is bit k mod 64 of word
/// k div 64. The last word holds six.
pub fn encode_words(bytes: &[u8], out: &mut [u64])
    requires whole { 4 * length out.old ≡ length bytes.now + 4 }
    requires some { 0 < length bytes.now }
    ensures { HoldCode bytes.now out.new }
{
    // Sixteen channel bits are written a byte later, since up to six of them may wait for it.
    let first = add_byte(0, 0, bytes[0]);
    let mut carry = first.carry;
    let mut state = first.state;
    let last = out.len() - 2;
    for j in 0..last {
        let next = add_four(carry, state, &bytes[4 * j + 1..4 * j + 5]);
        out[j] = next.bits;
        carry = next.carry;
        state = next.state;
    }
    let end = add_end(carry, state, &bytes[4 * last + 1..]);
    out[last] = end.bits;
    out[last + 1] = end.rest;
}

/// The channel bits that are written now, those that are carried, and the state.
#[derive(Drop)]
struct Added {
    bits: u64,
    carry: u64,
    state: u16,
}

/// Four bytes write 64 channel bits.
#[inline(always)]
fn add_four(carry: u64, state: u16, bytes: &[u8]) -> Added
    requires state { IsState 6 state }
    requires carry { carry < 2 ^ 20 }
    requires four { length bytes.now ≡ 4 }
    ensures goes_on { GoesOn state carry (flat_map byte_bits bytes.now) 64 result.bits result.state result.carry }
    ensures state { IsState 6 result.state }
    ensures carry { result.carry < 2 ^ 20 }
{
    let one = add_byte(carry, state, bytes[0]);
    let two = add_byte(one.carry, one.state, bytes[1]);
    let three = add_byte(two.carry, two.state, bytes[2]);
    let four = add_byte(three.carry, three.state, bytes[3]);
    Added {
        bits: side_by_side(one.bits, two.bits, three.bits, four.bits),
        carry: four.carry,
        state: four.state,
    }
}

/// A byte writes sixteen channel bits.
#[inline(always)]
fn add_byte(carry: u64, state: u16, byte: u8) -> Added
    requires state { IsState 6 state }
    requires carry { carry < 2 ^ 20 }
    ensures goes_on { GoesOn state carry (byte_bits byte) 16 result.bits result.state result.carry }
    ensures state { IsState 6 result.state }
    ensures bits { result.bits < 65536 }
    ensures carry { result.carry < 2 ^ 20 }
{
    let found = look_up(state, byte);
    let all = carry + 1024 * u64::from(found.placed);
    Added {
        bits: all % SIXTEEN,
        carry: all / SIXTEEN,
        state: found.state,
    }
}

/// The last channel bits: those of a word, and six more.
#[derive(Drop)]
struct End {
    bits: u64,
    rest: u64,
}

/// Three bytes and the tail write all that is left.
fn add_end(carry: u64, state: u16, bytes: &[u8]) -> End
    requires state { IsState 6 state }
    requires carry { carry < 2 ^ 20 }
    requires three { length bytes.now ≡ 3 }
    ensures { (message written : List Bool) → Carries message written 16 state carry
        → Carries ((message ++ flat_map byte_bits bytes.now) ++ tail) (written ++ first_bits 64 result.bits) 6 0 result.rest }
{
    let one = add_byte(carry, state, bytes[0]);
    let two = add_byte(one.carry, one.state, bytes[1]);
    let three = add_byte(two.carry, two.state, bytes[2]);
    let all = three.carry + 1024 * u64::from(look_up_tail(three.state));
    End {
        bits: side_by_side(one.bits, two.bits, three.bits, all % SIXTEEN),
        rest: all / SIXTEEN,
    }
}

/// The number with these four times sixteen bits, the first the lowest.
#[inline(always)]
fn side_by_side(one: u64, two: u64, three: u64, four: u64) -> u64
    requires one { one < 65536 }
    requires two { two < 65536 }
    requires three { three < 65536 }
    requires four { four < 65536 }
    ensures { first_bits 64 result
        ≡ first_bits 16 one ++ (first_bits 16 two ++ (first_bits 16 three ++ first_bits 16 four)) }
{
    ((four * SIXTEEN + three) * SIXTEEN + two) * SIXTEEN + one
}

/// What the tables hold for a state and a byte: the channel bits that are complete, and the state after it.
#[derive(Drop)]
struct Entry {
    placed: u32,
    state: u16,
}

#[inline(always)]
fn look_up(state: u16, byte: u8) -> Entry
    requires { IsState 6 state }
    ensures places { Places state (byte_bits byte) result.placed result.state }
    ensures small { result.placed < 2 ^ 23 }
{
    let at = state as usize + byte as usize;
    Entry {
        placed: PLACED[at],
        state: PENDING[at],
    }
}

/// The table's entry for a state and the tail.
fn look_up_tail(state: u16) -> u32
    requires { IsState 6 state }
    ensures places { Places state tail result 0 }
    ensures small { result < 2 ^ 23 }
{
    TAILS[state as usize / 256]
}
