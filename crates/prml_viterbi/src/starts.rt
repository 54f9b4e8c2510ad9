//! Where samples begin to differ from 0, in words of bits.

ghost use Rattle.std.specs.Prelude.{◌≡◌, ℕ, ◌*◌, ◌<◌, ◌≤◌, false, length, slice_index_or};
ghost use Rattle.bit_words.specs.Words.{word_bits};
ghost use Rattle.prml_viterbi.specs.Starts.{is_start, MarksMoved, MarksStarts};

use std::simd::prelude::*;

/// Writes a 1 for each place where a sample isn't 0 and the one before it is, and a 0 for all others. Where samples are
/// clean the level changes there: the sample of a change and the next are not 0, and those around them are.
pub(crate) fn write_starts(samples: &[i8], words: &mut [u64])
    requires { length samples.now ≤ 64 * length words.old }
    ensures { (k : ℕ) → slice_index_or (word_bits words.new) k false ≡ is_start samples.now k }
{
    let whole = samples.len() / 64;
    let mut before = 0;
    for j in 0..whole {
        let moved = places_moved(&samples[64 * j..64 * j + 64]);
        words[j] = starts(moved, before);
        before = moved >> 63;
    }
    words[whole..].fill(0);
    if 64 * whole < samples.len() {
        words[whole] = starts(last_places_moved(&samples[64 * whole..]), before);
    }
}

/// A 1 where the word has one and not one before it, of which one bit stands before the word.
#[inline(always)]
fn starts(word: u64, before: u64) -> u64
    requires { before < 2 }
    ensures { MarksStarts word before result }
{
    word & !(word << 1 | before)
}

/// A 1 for each of fewer than 64 samples that isn't 0.
fn last_places_moved(samples: &[i8]) -> u64
    requires { length samples.now < 64 }
    ensures { MarksMoved samples.now result }
{
    let mut filled = [0; 64];
    filled[..samples.len()].copy_from_slice(samples);
    places_moved(&filled)
}

/// A 1 for each of 64 samples that isn't 0.
#[inline(always)]
fn places_moved(samples: &[i8]) -> u64
    requires { length samples.now ≡ 64 }
    ensures { MarksMoved samples.now result }
{
    let first = lanes_moved(&samples[..16]);
    let second = lanes_moved(&samples[16..32]);
    let third = lanes_moved(&samples[32..48]);
    let fourth = lanes_moved(&samples[48..]);
    first | second << 16 | third << 32 | fourth << 48
}

/// A 1 for each of sixteen samples that isn't 0.
#[inline(always)]
fn lanes_moved(samples: &[i8]) -> u64
    requires { length samples.now ≡ 16 }
    ensures { MarksMoved samples.now result }
{
    i8x16::from_slice(samples)
        .simd_ne(i8x16::splat(0))
        .to_bitmask()
}
