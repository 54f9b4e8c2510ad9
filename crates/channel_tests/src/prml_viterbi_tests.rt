//! The worked rows, and the detector against a search of all words. A word is a number here: the bit
//! of a place is 1 where the level is +1, so that of equal distances the least number is detected.

ghost use Rattle.std.specs.Prelude.{◌≡◌, ◌≤◌, ◌<◌, length};

use prml_viterbi::*;
use std::alloc::{AllocError, Global};
use std::process::Abort;
use std::test::Fail;

#[test]
fn a_channel_bit_1_flips_the_level(rt: HostRuntime) {
    let mut levels = [0i8; 4];
    levels_of(&[true, false, false, false], &mut levels);
    assert_eq!(rt; levels, [-1, -1, -1, -1]);
    let mut samples = [0i8; 4];
    samples_of(&[-1, -1, -1, -1], &mut samples);
    assert_eq!(rt; samples, [-32, -32, 0, 0]);
    let mut chan = [false; 4];
    chan_of(&[-1, -1, -1, -1], &mut chan);
    assert_eq!(rt; chan, [true, false, false, false]);
}

#[test]
fn a_length_that_no_machine_has_room_for_is_refused(rt: HostRuntime) {
    assert!(rt; Work::new(rt.alloc(), usize::MAX).is_err());
}

#[test]
fn detects_the_least_of_all_words(rt: HostRuntime) -> Result<(), Fail> {
    let mut work = Work::new(rt.alloc(), 9)?;
    detects(&rt, &mut work, &[-16], 0b0, 256);
    detects(
        &rt,
        &mut work,
        &[-32, -12, 4, 0, 20, 32, 0, 0],
        0b1111_0000,
        560,
    );
    for (n, count) in [1, 3, 9, 27, 81, 243, 729, 2187, 6561, 19683]
        .iter()
        .enumerate()
    {
        let words = allowed_words(rt.alloc(), n)?;
        for number in 0..*count {
            let noisy = spread(number, [-16, 0, 16]);
            let (word, least) = least_word(words.as_slice(), &noisy[..n]);
            detects(&rt, &mut work, &noisy[..n], word, least);
            let clean = spread(number, [-32, 0, 32]);
            let (word, least) = least_word(words.as_slice(), &clean[..n]);
            detects(&rt, &mut work, &clean[..n], word, least);
        }
    }
    Ok(())
}

/// Asserts that this word is detected, and that it is this far from the samples.
fn detects(rt: &impl Abort, work: &mut Work, samples: &[i8], word: u32, far: u32)
    requires long { length samples.now ≤ 9 }
    requires room { length samples.now ≤ work.old }
    ensures { work.new ≡ work.old }
{
    let mut out = [0i8; 9];
    let out = &mut out[..samples.len()];
    detect(samples, work, out);
    for (k, level) in out.iter().enumerate() {
        let expected = if (word >> k) % 2 == 1 { 1 } else { -1 };
        assert_eq!(rt; *level, expected, "{word:b} at {k}");
    }
    assert_eq!(rt; distance(word, samples), far);
}

/// Nine samples, by the digits of a number to the base three.
fn spread(number: u32, values: [i8; 3]) -> [i8; 9] {
    let mut samples = [0i8; 9];
    let mut left = number;
    for sample in samples.iter_mut() {
        *sample = values[(left % 3) as usize];
        left /= 3;
    }
    samples
}

/// The allowed words of this length, the least number first.
fn allowed_words(alloc: Global, n: usize) -> Result<Vec<u32>, AllocError>
    requires { n ≤ 9 }
{
    (0..1u32 << n)
        .filter(|word| is_allowed(*word, n))
        .collect(alloc)
}

/// The first of the words nearest to the samples, and how far it is.
fn least_word(words: &[u32], samples: &[i8]) -> (u32, u32)
    requires { length samples.now ≤ 9 }
{
    let mut least = (0, u32::MAX);
    for word in words {
        let far = distance(*word, samples);
        if far < least.1 {
            least = (*word, far);
        }
    }
    least
}

/// The levels of a word and the three before it, the first lowest.
fn with_preamble(word: u32) -> u32 {
    word.wrapping_mul(8) | 7
}

fn is_allowed(word: u32, n: usize) -> bool
    requires { n ≤ 9 }
{
    let levels = with_preamble(word);
    (0..n).all(|k| matches!((levels >> k) % 16, 0..=3 | 7 | 8 | 12..=15))
}

fn distance(word: u32, samples: &[i8]) -> u32
    requires { length samples.now ≤ 9 }
{
    let levels = with_preamble(word);
    let mut sum = 0u32;
    for (k, sample) in samples.iter().enumerate() {
        let clean = match (levels >> k) / 2 % 8 {
            4 | 6 => 32,
            1 | 3 => -32,
            _ => 0,
        };
        let differs = (clean - i32::from(*sample)).unsigned_abs();
        sum = sum.wrapping_add(differs.wrapping_mul(differs));
    }
    sum
}

#[test]
fn words_of_channel_bits(rt: HostRuntime) {
    let mut chan = [false; 9478];
    let mut words = [0u64; 149];
    for (k, bit) in chan.iter_mut().enumerate() {
        *bit = k % 7 == 3 || k % 11 == 5;
    }
    for (k, bit) in chan.iter().enumerate() {
        words[k / 64] |= u64::from(*bit) << (k % 64);
    }
    for count in [0, 1, 63, 64, 65, 9478] {
        samples_agree(&rt, &chan, &words, count);
    }
}

/// Asserts that the first channel bits give the same samples one by one and in words.
fn samples_agree(rt: &impl Abort, chan: &[bool; 9478], words: &[u64; 149], count: usize) {
    let count = count.min(9478);
    let mut levels = [0i8; 9478];
    let mut expected = [0i8; 9478];
    let mut samples = [1i8; 9478];
    let levels = &mut levels[..count];
    let expected = &mut expected[..count];
    let samples = &mut samples[..count];
    levels_of(&chan[..count], levels);
    samples_of(levels, expected);
    samples_of_words(words, samples);
    for (k, sample) in samples.iter().enumerate() {
        assert_eq!(rt; *sample, expected[k], "at {k}");
    }
}

#[test]
fn clean_samples_give_their_channel_bits(rt: HostRuntime) {
    let mut words = [0u64; 149];
    for k in 0..9478usize {
        words[k / 64] |= u64::from(k % 7 == 3) << (k % 64);
    }
    let mut samples = [0i8; 9478];
    samples_of_words(&words, &mut samples);
    let mut found = [0u64; 149];
    assert!(rt; channel_of_clean(&samples, &mut found));
    assert_eq!(rt; found.as_slice(), words.as_slice());
    for count in [0usize, 1, 63, 64, 65, 128] {
        let mut full = [u64::MAX; 149];
        assert!(rt;
            channel_of_clean(&samples[..count.min(9478)], &mut full),
            "of {count}"
        );
    }
    for k in 0..9478usize {
        let kept = samples[k];
        samples[k] = 31;
        assert!(rt; !channel_of_clean(&samples, &mut found), "at {k}");
        samples[k] = kept;
    }
}
