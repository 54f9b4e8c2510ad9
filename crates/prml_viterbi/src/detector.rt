ghost use Rattle.std.specs.Prelude.{◌≡◌, ◌≤◌, length, IfOk};
ghost use Rattle.prml_viterbi.specs.Detected.{IsDetected, IsUnique, CleanSamplesTell, CleanSamplesHaveOneWord};

use crate::shortcut::{are_clean, rebuild};
use crate::trellis::{search, trace};
use std::alloc::{AllocError, Global};
use std::marker::Model;

/// The most samples that a detector takes: 2^48, more than any machine has room for. Sums over so
/// many fit 64 bits.
const LIMIT: usize = 0x1_0000_0000_0000;

/// The buffers of a detector. A contract sees the number of samples that it has room for.
#[derive(Drop)]
pub struct Work {
    survivors: Vec<u8>,
}

impl Model for Work {
    ghost use Rattle.std.specs.Prelude.{ℕ, ◌≤◌, ◌^◌, vec_len};

    ghost Value = { ℕ };

    ghost view = { λ w. vec_len w.survivors };

    ghost invariant = { λ w. vec_len w.survivors ≤ 2 ^ 48 };
}

impl Work {
    /// The buffers for up to `n` samples.
    ///
    /// # Errors
    ///
    /// Where memory for them can't be had.
    pub fn new(alloc: Global, n: usize) -> Result<Work, AllocError>
        ensures { IfOk result (λ work. work ≡ n) }
    {
        if n > LIMIT {
            return Err(AllocError);
        }
        let survivors = vec![in alloc; 0; n]?;
        Ok(Work { survivors })
    }
}

/// Writes the word that is detected in the samples. Where they are exactly clean there is no search,
/// and it takes a sixth of the time.
pub fn detect(samples: &[i8], work: &mut Work, out: &mut [i8])
    requires long { length out.old ≡ length samples.now }
    requires room { length samples.now ≤ work.old }
    ensures detected { IsDetected samples.now out.new }
    ensures room { work.new ≡ work.old }
{
    if rebuild(samples, out) && are_clean(samples, out) {
        return;
    }
    detect_by_search(samples, work, out);
}

/// Writes the word that is detected in the samples as `detect` does, without a look whether they are clean.
pub fn detect_by_search(samples: &[i8], work: &mut Work, out: &mut [i8])
    requires long { length out.old ≡ length samples.now }
    requires room { length samples.now ≤ work.old }
    ensures detected { IsDetected samples.now out.new }
    ensures room { work.new ≡ work.old }
{
    let survivors = work.survivors.as_mut_slice();
    let end = search(samples, survivors);
    trace(survivors, end, out);
}

/// A law: no two words are detected in the same samples.
pub fn samples_have_one_detected_word()
    ensures { IsUnique }
{}

/// A law: reading clean samples gives back the word that was written.
pub fn clean_samples_give_their_word_back()
    ensures { CleanSamplesTell }
{}

/// A law: a word is at distance 0 from samples exactly where they are its clean samples, and no two words have the same clean
/// samples. So an allowed word whose clean samples these are is the detected one.
pub fn clean_samples_have_one_word()
    ensures { CleanSamplesHaveOneWord }
{}
