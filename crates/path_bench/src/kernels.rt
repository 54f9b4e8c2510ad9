//! The kernels. Each sums a value of what each turn gave.

use crate::sectors::{Sectors, payload};
use anyhow::{Context, Result};
use channel_path::{Path, SAMPLES, read_samples, write_samples};
use disk_base::{How, Payload, Psn};
use std::alloc::Global;

/// Writes sector 0 so many times. Its block changes by a byte each time.
pub fn written(count: u32) -> u64 {
    let mut payload = payload(0);
    let mut samples = [0; SAMPLES];
    let mut sum = 0;
    for turn in 0..count {
        payload.block[(turn % 512) as usize] = (turn % 256) as u8;
        write_samples(&payload, &mut samples);
        sum = with_sample(sum, samples[turn as usize % SAMPLES]);
    }
    samples
        .iter()
        .fold(sum, |sum, sample| with_sample(sum, *sample))
}

fn with_sample(sum: u64, sample: i8) -> u64 {
    sum.wrapping_mul(31)
        .wrapping_add((i64::from(sample) + 128) as u64)
}

/// Reads so many times, the four sectors by turns.
pub fn read(alloc: Global, sectors: &Sectors, count: u32) -> Result<u64> {
    let mut path = Path::new(alloc).ok().context("there is no memory")?;
    let mut sum = 0;
    for turn in 0..count {
        let number = turn % 4;
        let samples = &sectors[number as usize];
        let payload = read_samples(&mut path, Psn(number), samples, How::Light);
        sum = with_payload(sum, payload, turn);
    }
    Ok(sum)
}

// The sum with a byte of the payload's block, and 256 where there is no payload.
fn with_payload(sum: u64, payload: Option<Payload>, turn: u32) -> u64 {
    let value = match payload {
        Some(payload) => u64::from(payload.block[(turn % 512) as usize]),
        None => 256,
    };
    sum.wrapping_mul(31).wrapping_add(value)
}
