//! Four sectors to run over: user blocks by a fixed generator, and their samples.

use channel_path::{SAMPLES, write_samples};
use disk_base::{Lba, Payload, Psn};

/// The samples of the sectors 0 to 3.
pub type Sectors = [[i8; SAMPLES]; 4];

/// The payload of a sector.
pub fn payload(number: u32) -> Payload {
    let mut block = [0; 512];
    let mut x = number.wrapping_add(7);
    for byte in block.iter_mut() {
        x = x.wrapping_mul(1664525).wrapping_add(1013904223);
        *byte = (x >> 24) as u8;
    }
    Payload::user(Psn(number), Lba(u64::from(number)), &block)
}

/// The samples as they were written.
pub fn undamaged() -> Sectors {
    let mut sectors = [[0; SAMPLES]; 4];
    for (number, samples) in sectors.iter_mut().enumerate() {
        write_samples(&payload(number as u32), samples);
    }
    sectors
}

/// The samples after four short drops, which make four bytes of the first word wrong.
pub fn damaged() -> Sectors {
    let mut sectors = undamaged();
    for samples in sectors.iter_mut() {
        drop_some(samples);
    }
    sectors
}

fn drop_some(samples: &mut [i8; SAMPLES]) {
    for (k, sample) in samples.iter_mut().enumerate() {
        if k < 8192 && (1026..1034).contains(&(k % 2048)) {
            *sample = 0;
        }
    }
}
