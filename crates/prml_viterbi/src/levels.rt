ghost use Rattle.std.specs.Prelude.{◌≡◌, ◌<◌, ◌+◌, length, pos, ◌*ℤ◌, ◌-ℤ◌};
ghost use Rattle.prml_viterbi.specs.Levels.{AreLevels, is_high, level_at, level_for, level_word, channel_bits, clean_samples, InvertEachOther, SpacedGiveAllowed};

/// Writes the level word of channel bits: a bit 1 flips the level, and +1 stands before the first.
pub fn levels_of(chan: &[bool], out: &mut [i8])
    requires { length out.old ≡ length chan.now }
    ensures word { out.new ≡ level_word chan.now }
    ensures levels { AreLevels out.new }
{
    let mut high = true;
    for (k, bit) in chan.iter().enumerate() {
        high ^= *bit;
        out[k] = level(high);
    }
}

/// Writes the channel bits of a level word: 1 where the level differs from the one before it.
pub fn chan_of(levels: &[i8], out: &mut [bool])
    requires long { length out.old ≡ length levels.now }
    requires levels { AreLevels levels.now }
    ensures { out.new ≡ channel_bits levels.now }
{
    let mut high = true;
    for (k, level) in levels.iter().enumerate() {
        let next = *level > 0;
        out[k] = high != next;
        high = next;
    }
}

/// Writes the samples that a clean read of the level word gives.
pub fn samples_of(levels: &[i8], out: &mut [i8])
    requires long { length out.old ≡ length levels.now }
    requires levels { AreLevels levels.now }
    ensures { out.new ≡ clean_samples levels.now }
{
    for (k, level) in levels.iter().enumerate() {
        out[k] = clean_sample(*level > 0, is_high_two_back(levels, k));
    }
}

/// Whether the level two places before a place is the high one.
#[inline(always)]
fn is_high_two_back(levels: &[i8], k: usize) -> bool
    requires place { k < length levels.now }
    requires levels { AreLevels levels.now }
    ensures { result ≡ is_high (level_at levels.now (k + 1)) }
{
    k < 2 || levels[k - 2] > 0
}

/// The level, +1 or -1.
#[inline(always)]
pub(crate) fn level(high: bool) -> i8
    ensures { result ≡ level_for high }
{
    if high { 1 } else { -1 }
}

/// The clean sample of a level and the one two places before.
#[inline(always)]
fn clean_sample(high: bool, two_back: bool) -> i8
    ensures { result ≡ pos 16 *ℤ (level_for high -ℤ level_for two_back) }
{
    match (high, two_back) {
        (true, false) => 32,
        (false, true) => -32,
        _ => 0,
    }
}

/// A law: reading the channel bits of a level word undoes writing it, and the other way round.
pub fn levels_and_channel_bits_invert_each_other()
    ensures { InvertEachOther }
{}

/// A law: what a run-length-limited code writes is an allowed word.
pub fn spaced_channel_bits_give_an_allowed_word()
    ensures { SpacedGiveAllowed }
{}
