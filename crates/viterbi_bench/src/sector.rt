//! A sector to run over: channel bits by a fixed generator, two 0s after each 1, and their samples.

ghost use Rattle.std.specs.Prelude.{◌≡◌, length, vec_len};

use prml_viterbi::{levels_of, samples_of};
use std::alloc::{AllocError, Global};

/// The places of a sector.
pub const PLACES: usize = 9478;

#[derive(Drop)]
pub struct Sector {
    pub chan: Vec<bool>,
    /// The samples that a clean read gives.
    pub clean: Vec<i8>,
    /// These with up to 20 added or taken away.
    pub noisy: Vec<i8>,
    ghost chan_long: { vec_len chan ≡ 9478 },
    ghost clean_long: { vec_len clean ≡ 9478 },
    ghost noisy_long: { vec_len noisy ≡ 9478 },
}

impl Sector {
    pub fn new(alloc: Global) -> Result<Self, AllocError> {
        let mut random = Random(0x4d59_5df4_d0f3_3173);
        let mut chan = vec![in alloc; false; PLACES]?;
        set_bits(&mut random, chan.as_mut_slice());
        let mut levels = vec![in alloc; 0i8; PLACES]?;
        let mut clean = vec![in alloc; 0i8; PLACES]?;
        write_samples(chan.as_slice(), levels.as_mut_slice(), clean.as_mut_slice());
        let mut noisy = vec![in alloc; 0i8; PLACES]?;
        add_noise(&mut random, clean.as_slice(), noisy.as_mut_slice());
        Ok(Sector { chan, clean, noisy })
    }
}

/// Numbers by shifts and exclusive or.
#[derive(Drop)]
struct Random(u64);

impl Random {
    fn next(&mut self) -> u64 {
        self.0 ^= self.0.wrapping_mul(1 << 13);
        self.0 ^= self.0 >> 7;
        self.0 ^= self.0.wrapping_mul(1 << 17);
        self.0
    }
}

fn set_bits(random: &mut Random, chan: &mut [bool]) {
    let mut zeros = 2u8;
    for bit in chan.iter_mut() {
        *bit = zeros == 2 && random.next() % 3 == 0;
        zeros = if *bit { 0 } else { (zeros + 1).min(2) };
    }
}

fn write_samples(chan: &[bool], levels: &mut [i8], clean: &mut [i8])
    requires levels { length levels.old ≡ length chan.now }
    requires clean { length clean.old ≡ length chan.now }
{
    levels_of(chan, levels);
    samples_of(levels, clean);
}

fn add_noise(random: &mut Random, clean: &[i8], noisy: &mut [i8])
    requires { length noisy.old ≡ length clean.now }
{
    for (k, sample) in clean.iter().enumerate() {
        let noise = (random.next() % 41) as i8 - 20;
        noisy[k] = sample.saturating_add(noise);
    }
}
