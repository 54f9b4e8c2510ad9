//! From words of channel bits to clean samples, 64 places a word.

ghost use Rattle.std.specs.Prelude.{◌≡◌, ℕ, ◌+◌, ◌*◌, ◌/◌, ◌%◌, ◌^◌, ◌<◌, ◌≤◌, length, take, pos, slice_index_or};
ghost use Rattle.bit_words.specs.Words.{word_bits};
ghost use Rattle.prml_viterbi.specs.Levels.{level_word, clean_samples};
ghost use Rattle.prml_viterbi.specs.LevelBits.{GiveLevels, eight_samples, sample_by};

use crate::sample_rows::SAMPLE_ROWS;

/// Writes the samples that a clean read gives of the levels of channel bits, of which bit k is bit k mod 64 of word k
/// div 64.
pub fn samples_of_words(words: &[u64], out: &mut [i8])
    requires { length out.old ≤ 64 * length words.now }
    ensures { out.new ≡ clean_samples (level_word (take (length out.old) (word_bits words.now))) }
{
    let whole = out.len() / 64;
    let mut before = 0;
    for j in 0..whole {
        let levels = levels_after(words[j], before);
        put_word(&mut out[64 * j..64 * j + 64], levels, before);
        before = levels >> 62;
    }
    if 64 * whole == out.len() {
        return;
    }
    let levels = levels_after(words[whole], before);
    put_part(&mut out[64 * whole..], levels, before);
}

/// The levels after 64 channel bits, and two levels before them: a bit 1 is the low level.
#[inline(always)]
pub(crate) fn levels_after(word: u64, before: u64) -> u64
    requires { before < 4 }
    ensures levels { GiveLevels word before result }
    ensures bound { result < 2 ^ 64 }
{
    let flips = flips_so_far(word);
    if before >= 2 { !flips } else { flips }
}

/// For each bit whether the bits up to it have an odd number of 1s.
#[inline(always)]
fn flips_so_far(word: u64) -> u64
    ensures { GiveLevels word 0 result }
{
    let two = word ^ (word << 1);
    let four = two ^ (two << 2);
    let eight = four ^ (four << 4);
    let sixteen = eight ^ (eight << 8);
    let half = sixteen ^ (sixteen << 16);
    half ^ (half << 32)
}

/// Writes 64 samples.
#[inline(always)]
fn put_word(places: &mut [i8], levels: u64, before: u64)
    requires long { length places.old ≡ 64 }
    requires before { before < 4 }
    ensures { (k : ℕ) → k < 64 → slice_index_or places.new k (pos 0) ≡ sample_by (4 * levels + before) k }
{
    for i in 0..8 {
        put_row(&mut places[8 * i..8 * i + 8], ten_levels(levels, before, i));
    }
}

/// Writes eight samples.
#[inline(always)]
fn put_row(places: &mut [i8], levels: u64)
    requires long { length places.old ≡ 8 }
    requires levels { levels < 1024 }
    ensures { places.new ≡ eight_samples levels }
{
    let at = 8 * levels as usize;
    places.copy_from_slice(&SAMPLE_ROWS[at..at + 8]);
}

/// The levels of eight places and of the two before them.
#[inline(always)]
pub(crate) fn ten_levels(levels: u64, before: u64, i: usize) -> u64
    requires before { before < 4 }
    requires inside { i < 8 }
    ensures value { result ≡ (4 * levels + before) / 2 ^ (8 * i) % 1024 }
    ensures ten { result < 1024 }
{
    if i < 7 {
        ((levels % (1 << 62) * 4 + before) >> (8 * i)) % 1024
    } else {
        levels >> 54
    }
}

/// Writes fewer than 64 samples.
fn put_part(places: &mut [i8], levels: u64, before: u64)
    requires few { length places.old ≤ 64 }
    requires before { before < 4 }
    ensures { (k : ℕ) → k < length places.old → slice_index_or places.new k (pos 0) ≡ sample_by (4 * levels + before) k }
{
    for k in 0..places.len() {
        places[k] = sample_in_row(ten_levels(levels, before, k / 8), k % 8);
    }
}

#[inline(always)]
pub(crate) fn sample_in_row(levels: u64, k: usize) -> i8
    requires levels { levels < 1024 }
    requires inside { k < 8 }
    ensures { result ≡ sample_by levels k }
{
    SAMPLE_ROWS[8 * levels as usize + k]
}
