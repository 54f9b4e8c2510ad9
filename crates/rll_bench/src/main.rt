//! Runs kernels of the code so many times, for bench/rll: `rll_bench COUNT KERNEL..`, where a kernel is `encode`,
//! `decode` or `damaged`, or one of these over words of channel bits, as `encode_words`. Prints for each a sum over what it
//! gave.
#![tactic(auto)]

use rll_code::{decode, decode_words, encode, encode_words};
use std::{env, io};

const BYTES: usize = 592;

const CHANNEL: usize = 9478;

const WORDS: usize = 149;

fn message() -> [u8; BYTES] {
    let mut bytes = [0; BYTES];
    let mut x: u32 = 1;
    for byte in bytes.iter_mut() {
        x = x.wrapping_mul(1664525).wrapping_add(1013904223);
        *byte = (x >> 24) as u8;
    }
    bytes
}

// The message changes by a byte each time.
fn encodes(count: u64) -> u64 {
    let mut bytes = message();
    let mut chan = [false; CHANNEL];
    let mut sum: u64 = 0;
    for i in 0..count {
        bytes[(i % BYTES as u64) as usize] = (i % 256) as u8;
        encode(&bytes, &mut chan);
        sum = sum.wrapping_add(u64::from(chan[(i % CHANNEL as u64) as usize]));
    }
    sum
}

// The word changes by a bit each time.
fn decodes(chan: &mut [bool; CHANNEL], count: u64) -> u64 {
    let mut out = [0; BYTES];
    let mut flags = [false; BYTES];
    let mut sum: u64 = 0;
    for i in 0..count {
        let at = (i % CHANNEL as u64) as usize;
        let kept = chan[at];
        chan[at] = !kept;
        decode(chan, &mut out, &mut flags);
        chan[at] = kept;
        let byte = (i % BYTES as u64) as usize;
        sum = sum.wrapping_add(u64::from(out[byte]) * 2 + u64::from(flags[byte]));
    }
    sum
}

fn word(damaged: bool) -> [bool; CHANNEL] {
    let mut chan = [false; CHANNEL];
    encode(&message(), &mut chan);
    if damaged {
        for k in 0..CHANNEL / 61 {
            chan[k * 61] = !chan[k * 61];
        }
    }
    chan
}

fn encodes_words(count: u64) -> u64 {
    let mut bytes = message();
    let mut words = [0; WORDS];
    let mut sum: u64 = 0;
    for i in 0..count {
        bytes[(i % BYTES as u64) as usize] = (i % 256) as u8;
        encode_words(&bytes, &mut words);
        let at = i % CHANNEL as u64;
        sum = sum.wrapping_add(words[(at / 64) as usize] >> (at % 64) & 1);
    }
    sum
}

fn decodes_words(chan: &[bool; CHANNEL], count: u64) -> u64 {
    let mut words = words_of(chan);
    let mut out = [0; BYTES];
    let mut flags = [false; BYTES];
    let mut sum: u64 = 0;
    for i in 0..count {
        let at = i % CHANNEL as u64;
        let kept = words[(at / 64) as usize];
        words[(at / 64) as usize] = kept ^ 1 << (at % 64);
        decode_words(&words, &mut out, &mut flags);
        words[(at / 64) as usize] = kept;
        let byte = (i % BYTES as u64) as usize;
        sum = sum.wrapping_add(u64::from(out[byte]) * 2 + u64::from(flags[byte]));
    }
    sum
}

fn words_of(chan: &[bool; CHANNEL]) -> [u64; WORDS] {
    let mut words = [0; WORDS];
    for (k, bit) in chan.iter().enumerate() {
        words[k / 64] |= u64::from(*bit) << (k % 64);
    }
    words
}

fn run(kernel: &str, count: u64) -> Option<u64> {
    match kernel {
        "encode" => Some(encodes(count)),
        "decode" => Some(decodes(&mut word(false), count)),
        "damaged" => Some(decodes(&mut word(true), count)),
        "encode_words" => Some(encodes_words(count)),
        "decode_words" => Some(decodes_words(&word(false), count)),
        "damaged_words" => Some(decodes_words(&word(true), count)),
        _ => None,
    }
}

fn main(rt: HostRuntime) -> io::Result<()> {
    let mut count = 1;
    for arg in env::args(&rt)? {
        let kernel = arg.as_str();
        if let Ok(n) = kernel.parse::<u64>() {
            count = n;
        } else if let Some(sum) = run(kernel, count) {
            println!(rt; "{kernel} {count} {sum}")?;
        }
    }
    Ok(())
}
