//! The search over six states: a level, high or low, and the length of its run, three standing for
//! three and more. The state fixes the clean sample.

ghost use Rattle.std.specs.Prelude.{◌≡◌, ◌+◌, ◌<◌, ◌≤◌, ◌^◌, ℕ, pos, FitsSigned, slice_index_or, length, nat_lt, if◌then◌else◌};
ghost use Rattle.std.specs.Int.{w8};
ghost use Rattle.prml_viterbi.specs.Levels.{AreLevels, level_for};
ghost use Rattle.prml_viterbi.specs.Trellis.{State, low_one, high_one, branch, code, is_high_state, state_before, path, first_levels, survivor, EndsLeast};

/// For each state the least sum of the words that lead to it, or a sum from `FAR` on where none does.
#[derive(Clone, Copy)]
pub(crate) struct Sums {
    low_three: u64,
    low_two: u64,
    low_one: u64,
    high_one: u64,
    high_two: u64,
    high_three: u64,
}

/// A state's code, and its sum.
#[derive(Clone, Copy)]
struct End {
    state: u8,
    sum: u64,
}

/// More than the sum of any word.
const FAR: u64 = 0x4000_0000_0000_0000;

/// What is added to each branch, so that none is negative: a run of three costs this alone.
const SETTLED: u64 = 128;

/// What a branch costs where the sample is 0 and the level differs from the one two places before.
const CHANGED: i64 = 144;

// The codes of the states: where the words of `BEFORE` have their five bits.
const LOW_THREE: u8 = 0;

const LOW_TWO: u8 = 5;

const LOW_ONE: u8 = 10;

const HIGH_ONE: u8 = 15;

const HIGH_TWO: u8 = 20;

const HIGH_THREE: u8 = 25;

/// Searches the samples: writes each step's choices, and answers the code of the state in which the
/// least word ends. The sums fit 64 bits while there are no more than 2^48 samples.
pub(crate) fn search(samples: &[i8], survivors: &mut [u8]) -> u8
    requires room { length samples.now ≤ length survivors.old }
    requires limit { length samples.now ≤ 2 ^ 48 }
    ensures least { EndsLeast samples.now survivors.new result }

    // Each sample is one of an `i8`, which a caller that reads none does not know.
    ensures samples { (k : ℕ) → FitsSigned w8 (slice_index_or samples.now k (pos 0)) }
{
    let mut sums = Sums::START;
    for (k, sample) in samples.iter().enumerate() {
        let (next, kept) = sums.step(*sample);
        survivors[k] = kept;
        sums = next;
    }
    sums.end()
}

/// Writes the levels that the survivors lead back over from a state.
pub(crate) fn trace(survivors: &[u8], end: u8, out: &mut [i8])
    requires room { length out.old ≤ length survivors.now }
    requires state { (state : State) × (code state ≡ end) }
    ensures levels { AreLevels out.new }
    ensures path { (state : State) → code state ≡ end
        → first_levels out.new (length out.new) ≡ path survivors.now (length out.new) state }
{
    let mut state = end;
    for k in (0..out.len()).rev() {
        out[k] = level_in(state);
        state = before(survivors[k], state);
    }
}

impl Sums {
    ghost use Rattle.prml_viterbi.specs.Sums.{HasRoom, Steps, IsEnd};

    /// Before the first sample the level is high, after a long run.
    const START: Sums = Sums {
        low_three: FAR,
        low_two: FAR,
        low_one: FAR,
        high_one: FAR,
        high_two: FAR,
        high_three: 0,
    };

    /// The sums after one sample more, and the choices between two predecessors.
    #[inline(always)]
    fn step(self, sample: i8) -> (Sums, u8)
        requires { HasRoom self }
        ensures steps { Steps self sample result.0 result.1 }
    {
        let low = low_branch(sample);
        let high = high_branch(sample);
        let next = Sums {
            low_three: lesser(self.low_three, self.low_two) + SETTLED,
            low_two: self.low_one + low,
            low_one: self.high_three + low,
            high_one: self.low_three + high,
            high_two: self.high_one + high,
            high_three: lesser(self.high_two, self.high_three) + SETTLED,
        };
        let kept = choices(
            self.low_two < self.low_three,
            self.high_three < self.high_two,
        );
        (next, kept)
    }

    /// The state of the least sum, by code; of equal sums the one whose words come first.
    fn end(self) -> u8
        ensures { IsEnd self result }
    {
        let low_three = End {
            state: LOW_THREE,
            sum: self.low_three,
        };
        let low_two = End {
            state: LOW_TWO,
            sum: self.low_two,
        };
        let low_one = End {
            state: LOW_ONE,
            sum: self.low_one,
        };
        let high_one = End {
            state: HIGH_ONE,
            sum: self.high_one,
        };
        let high_two = End {
            state: HIGH_TWO,
            sum: self.high_two,
        };
        let high_three = End {
            state: HIGH_THREE,
            sum: self.high_three,
        };
        let low = low_three.or(low_two).or(low_one);
        low.or(high_one).or(high_two).or(high_three).state
    }
}

impl End {
    /// The other if its sum is less.
    #[inline(always)]
    fn or(self, other: End) -> End
        ensures { result ≡ (if nat_lt other.sum self.sum then other else self) }
    {
        if other.sum < self.sum { other } else { self }
    }
}

/// The lesser sum.
#[inline(always)]
fn lesser(kept: u64, other: u64) -> u64
    ensures { result ≡ (if nat_lt other kept then other else kept) }
{
    if other < kept { other } else { kept }
}

/// A branch to a low level in a run of one or two.
#[inline(always)]
fn low_branch(sample: i8) -> u64
    ensures value { result ≡ branch low_one sample }
    ensures bound { result < 272 }
{
    (i64::from(sample) + CHANGED) as u64
}

/// A branch to a high level in a run of one or two.
#[inline(always)]
fn high_branch(sample: i8) -> u64
    ensures value { result ≡ branch high_one sample }
    ensures bound { result ≤ 272 }
{
    (CHANGED - i64::from(sample)) as u64
}

/// The two choices of a step in one byte.
#[inline(always)]
fn choices(low: bool, high: bool) -> u8
    ensures { result ≡ survivor low high }
{
    u8::from(low) + 2 * u8::from(high)
}

/// The level in a state.
#[inline(always)]
fn level_in(state: u8) -> i8
    ensures { (s : State) → code s ≡ state → result ≡ level_for (is_high_state s) }
{
    if state < HIGH_ONE { -1 } else { 1 }
}

/// The state before a state.
#[inline(always)]
fn before(kept: u8, state: u8) -> u8
    requires { (s : State) × (code s ≡ state) }
    ensures { (s : State) → code s ≡ state → result ≡ code (state_before kept s) }
{
    ((BEFORE[(kept % 4) as usize] >> state) & 31) as u8
}

/// For each pair of choices the code of the state before, five bits at each state's code.
const BEFORE: [u32; 4] = [0x28f0_6540, 0x28f0_6545, 0x32f0_6540, 0x32f0_6545];
