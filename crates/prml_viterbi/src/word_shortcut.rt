//! The way round the search in words: where samples are exactly clean, their channel bits.

ghost use Rattle.std.specs.Prelude.{◌≡◌, ◌↔◌, ℕ, ◌+◌, ◌*◌, ◌^◌, ◌<◌, ◌≤◌, List, ℤ, IsTrue, length, take};
ghost use Rattle.bit_words.specs.Words.{word_bits};
ghost use Rattle.prml_viterbi.specs.Detected.{AreOfAllowed, HaveDetectedBits};
ghost use Rattle.prml_viterbi.specs.Levels.{AreSpaced, level_word, clean_samples};
ghost use Rattle.prml_viterbi.specs.LevelBits.{AreSamplesBy, IsApart};

use crate::starts::write_starts;
use crate::word_samples::{levels_after, sample_in_row, ten_levels};

/// Writes the channel bits of the word that is detected in samples, if these are exactly clean, in words: bit k is bit k
/// mod 64 of word k div 64. False where they aren't, and the words are of no use then.
pub fn channel_of_clean(samples: &[i8], words: &mut [u64]) -> bool
    requires { length samples.now ≤ 64 * length words.old }
    ensures clean { IsTrue result ↔ AreOfAllowed samples.now }
    ensures bits { IsTrue result → HaveDetectedBits samples.now (take (length samples.now) (word_bits words.new)) }
{
    write_starts(samples, words);
    are_spaced(words) && are_samples_of(samples, words)
}

/// Whether each 1 has two 0s before it.
fn are_spaced(words: &[u64]) -> bool
    ensures { IsTrue result ↔ AreSpaced (word_bits words.now) }
{
    let mut before = 0;
    for word in words {
        if !is_apart(*word, before) {
            return false;
        }
        before = *word >> 62;
    }
    true
}

/// Whether each 1 of a word has two 0s before it, of which two bits stand before the word.
#[inline(always)]
fn is_apart(word: u64, before: u64) -> bool
    requires { before < 4 }
    ensures { IsTrue result ↔ IsApart word before }
{
    let two_before = word % (1 << 62) * 4 + before;
    let one_before = word % (1 << 63) * 2 + before / 2;
    word & (two_before | one_before) == 0
}

/// Whether samples are those that a clean read gives of channel bits in words.
fn are_samples_of(samples: &[i8], words: &[u64]) -> bool
    requires { length samples.now ≤ 64 * length words.now }
    ensures { IsTrue result ↔ (samples.now ≡ clean_samples (level_word (take (length samples.now) (word_bits words.now)))) }
{
    let whole = samples.len() / 64;
    let mut before = 0;
    for j in 0..whole {
        let levels = levels_after(words[j], before);
        if !is_clean_word(&samples[64 * j..64 * j + 64], levels, before) {
            return false;
        }
        before = levels >> 62;
    }
    if 64 * whole == samples.len() {
        return true;
    }
    let levels = levels_after(words[whole], before);
    is_clean_part(&samples[64 * whole..], levels, before)
}

/// Whether 64 samples are the clean ones of levels. No place is left out, so that many are looked at together.
#[inline(always)]
fn is_clean_word(samples: &[i8], levels: u64, before: u64) -> bool
    requires long { length samples.now ≡ 64 }
    requires before { before < 4 }
    ensures { IsTrue result ↔ AreSamplesBy samples.now (4 * levels + before) 64 }
{
    let mut clean = true;
    for i in 0..8 {
        clean &= is_row(&samples[8 * i..8 * i + 8], ten_levels(levels, before, i));
    }
    clean
}

/// Whether eight samples are the row of ten levels.
#[inline(always)]
fn is_row(samples: &[i8], levels: u64) -> bool
    requires long { length samples.now ≡ 8 }
    requires levels { levels < 1024 }
    ensures { IsTrue result ↔ AreSamplesBy samples.now levels 8 }
{
    let mut same = true;
    for k in 0..8 {
        same &= samples[k] == sample_in_row(levels, k);
    }
    same
}

/// Whether fewer than 64 samples are the clean ones of levels.
fn is_clean_part(samples: &[i8], levels: u64, before: u64) -> bool
    requires few { length samples.now ≤ 64 }
    requires before { before < 4 }
    ensures { IsTrue result ↔ AreSamplesBy samples.now (4 * levels + before) (length samples.now) }
{
    let mut clean = true;
    for k in 0..samples.len() {
        clean &= samples[k] == sample_in_row(ten_levels(levels, before, k / 8), k % 8);
    }
    clean
}
