//! The way round the search where the samples are exactly clean.

ghost use Rattle.std.specs.Prelude.{◌≡◌, ◌↔◌, ℕ, ◌+◌, ◌-◌, ◌<◌, ◌≤◌, List, ℤ, length, pos, ◌*ℤ◌, ◌-ℤ◌, slice_index_or, IsTrue};
ghost use Rattle.prml_viterbi.specs.Clean.{Follows, IsCleanAt, AreClean, AreRebuilt};
ghost use Rattle.prml_viterbi.specs.Levels.{IsLevel, level_at};

/// The last two levels, the nearer one last.
#[derive(Clone, Copy)]
struct LastTwo {
    two_back: i8,
    one_back: i8,
}

/// How many places are rebuilt before it is looked whether there is a word at all.
const PART: usize = 256;

/// Writes the one word whose clean samples these are, if there is one. False where it is seen on the
/// way that there is none, so that damage costs little before the search; `are_clean` tells the rest.
pub(crate) fn rebuild(samples: &[i8], out: &mut [i8]) -> bool
    requires { length out.old ≡ length samples.now }
    ensures { (word : List ℤ) → length word ≡ length samples.now → AreClean samples.now word
        → IsTrue result × (out.new ≡ word) }
{
    let mut last = LastTwo {
        two_back: 1,
        one_back: 1,
    };
    let mut from = 0;
    while from < samples.len() {
        let to = part_end(from, samples.len());
        last = rebuild_part(samples, out, from, to, last);
        if !last.are_levels() {
            return false;
        }
        from = to;
    }
    true
}

/// Rebuilds the places from one up to another: each level is the one two places before, moved by a
/// sixteenth of the sample.
fn rebuild_part(samples: &[i8], out: &mut [i8], from: usize, to: usize, last: LastTwo) -> LastTwo
    requires long { length out.old ≡ length samples.now }
    requires order { from ≤ to }
    requires inside { to ≤ length samples.now }
    ensures { AreRebuilt samples.now out.old last.two_back last.one_back from
        → AreRebuilt samples.now out.new result.two_back result.one_back to }
{
    let mut two_back = last.two_back;
    let mut one_back = last.one_back;
    for k in from..to {
        let level = moved(two_back, samples[k]);
        out[k] = level;
        two_back = one_back;
        one_back = level;
    }
    LastTwo { two_back, one_back }
}

/// Where the part that begins here ends.
fn part_end(from: usize, len: usize) -> usize
    requires { from < len }
    ensures after { from < result }
    ensures inside { result ≤ len }
{
    if len - from > PART { from + PART } else { len }
}

impl LastTwo {
    fn are_levels(self) -> bool
        ensures { IsTrue result ↔ (IsLevel self.two_back × IsLevel self.one_back) }
    {
        (self.two_back == 1 || self.two_back == -1) && (self.one_back == 1 || self.one_back == -1)
    }
}

/// The level that has this clean sample, by the level two places before. Where there is none the sum
/// may wrap.
#[inline(always)]
fn moved(two_back: i8, sample: i8) -> i8
    ensures { (level : ℤ) → IsLevel level → IsLevel two_back
        → sample ≡ pos 16 *ℤ (level -ℤ two_back) → result ≡ level }
{
    two_back.wrapping_add(sample >> 4)
}

/// Whether the word is allowed, and the samples are its clean ones.
pub(crate) fn are_clean(samples: &[i8], word: &[i8]) -> bool
    requires { length word.now ≡ length samples.now }
    ensures { IsTrue result ↔ AreClean samples.now word.now }
{
    starts_clean(samples, word) && goes_on_clean(samples, word)
}

/// Whether the first three places are clean.
fn starts_clean(samples: &[i8], word: &[i8]) -> bool
    requires { length word.now ≡ length samples.now }
    ensures { IsTrue result
        ↔ ((k : ℕ) → k < 3 → k < length samples.now → IsCleanAt samples.now word.now k) }
{
    let mut clean = true;
    for k in 0..samples.len().min(3) {
        clean &= follows(
            samples[k],
            word[k],
            back(word, k, 1),
            back(word, k, 2),
            back(word, k, 3),
        );
    }
    clean
}

/// Whether each place from the fourth on is clean. Nothing is carried from place to place, and no
/// place is left out, so that many are looked at together.
fn goes_on_clean(samples: &[i8], word: &[i8]) -> bool
    requires { length word.now ≡ length samples.now }
    ensures { IsTrue result
        ↔ ((k : ℕ) → 3 ≤ k → k < length samples.now → IsCleanAt samples.now word.now k) }
{
    let mut clean = true;
    for k in 3..samples.len() {
        clean &= follows(samples[k], word[k], word[k - 1], word[k - 2], word[k - 3]);
    }
    clean
}

/// The level so many places before a place; +1 before the word.
fn back(word: &[i8], k: usize, places: usize) -> i8
    requires inside { k < length word.now }
    requires near { places ≤ 3 }
    ensures { result ≡ level_at word.now (k + 3 - places) }
{
    if k < places { 1 } else { word[k - places] }
}

/// Whether the level may come after the three others, the nearest first, and has this clean sample.
#[inline(always)]
fn follows(sample: i8, level: i8, one: i8, two: i8, three: i8) -> bool
    ensures { IsTrue result ↔ Follows sample level one two three }
{
    let is_level = (level == 1) | (level == -1);
    let run = (level == one) | ((one == two) & (two == three));
    let clean = i16::from(sample) == 16 * (i16::from(level) - i16::from(two));
    is_level & run & clean
}
