//! From bytes to channel bits, a byte at a time.

ghost use Rattle.std.specs.Prelude.{◌≡◌, ℕ, ◌+◌, ◌-◌, ◌*◌, ◌<◌, ◌≤◌, length, take};
ghost use Rattle.rll_code.specs.Bits.{low_bits};
ghost use Rattle.rll_code.specs.Code.{IsCode};
ghost use Rattle.rll_code.specs.Steps.{bits_waiting, IsState, Advances, Finishes};

use crate::tables::{PENDING, SPREAD, WORDS};

/// A byte that begins with the tail.
const TAIL: usize = 0b0110_0000;

/// Writes the code of a message: two channel bits for each bit of the message, the high bit of each byte first, and of
/// the tail.
pub fn encode(bytes: &[u8], out: &mut [bool])
    requires { length out.old ≡ 2 * (8 * length bytes.now + 3) }
    ensures { IsCode bytes.now out.new }
{
    let mut state = 0;
    for i in 0..bytes.len() {
        let at = 16 * i - 2 * waiting(state);
        let step = advance(state, bytes[i]);
        put(&mut out[at..at + 22], step.word);
        state = step.state;
    }
    let at = 16 * bytes.len() - 2 * waiting(state);
    put_end(&mut out[at..], finish(state));
}

/// What a byte completes, from the highest of 24 bits on, and the state after it.
#[derive(Drop)]
struct Step {
    word: u32,
    state: u16,
}

/// A state is where its entries begin in the tables.
#[inline(always)]
fn advance(state: u16, byte: u8) -> Step
    requires { IsState 6 state }
    ensures { Advances state byte result.word result.state }
{
    let at = state as usize + byte as usize;
    Step {
        word: WORDS[at],
        state: PENDING[at],
    }
}

/// What the tail completes, from the highest of 24 bits on.
fn finish(state: u16) -> u32
    requires { IsState 6 state }
    ensures { Finishes state result }
{
    WORDS[state as usize + TAIL]
}

/// How many message bits wait in a state.
#[inline(always)]
fn waiting(state: u16) -> usize
    requires { IsState 6 state }
    ensures { result ≡ length (bits_waiting state) }
{
    (state as usize / 256 + 1) / 2
}

/// Writes the word's highest 22 bits: three bits wait at most, a byte brings eight, and each has two channel bits.
#[inline(always)]
fn put(places: &mut [bool], word: u32)
    requires { length places.old ≡ 22 }
    ensures { places.new ≡ take 22 (low_bits 24 word) }
{
    places[..8].copy_from_slice(&spread(word >> 16));
    places[8..16].copy_from_slice(&spread(word >> 8));
    places[16..22].copy_from_slice(&spread(word)[..6]);
}

/// The lowest eight bits, the highest of them first; by value, since a copy out of the table itself would first be
/// tried for an overlap.
#[inline(always)]
fn spread(word: u32) -> [bool; 8]
    ensures { result ≡ low_bits 8 word }
{
    let at = 8 * (word % 256) as usize;
    let bits = &SPREAD[at..at + 8];
    [
        bits[0], bits[1], bits[2], bits[3], bits[4], bits[5], bits[6], bits[7],
    ]
}

/// Writes the word's highest bits into a few places.
fn put_end(places: &mut [bool], word: u32)
    requires { length places.old ≤ 24 }
    ensures { places.new ≡ take (length places.old) (low_bits 24 word) }
{
    for (k, place) in places.iter_mut().enumerate() {
        *place = word >> (23 - k) & 1 == 1;
    }
}
