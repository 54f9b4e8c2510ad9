//! Outside vectors, each call on its happy path, and random words against plain second ways.
use crate::second_decoder::{mended, shifted_product, sums_by_horner};
use rs_sector::*;

// The generator polynomial of 16 checks below its leading 1, as ISO/IEC 18004, annex A, prints it for the same field and first root.
const GENERATOR: [u8; 16] = [
    0x3B, 0x0D, 0x68, 0xBD, 0x44, 0xD1, 0x1E, 0x08, 0xA3, 0x41, 0x29, 0xE5, 0x62, 0x32, 0x24, 0x3B,
];

// The register of the division by the generator after one byte more.
fn take_in(register: &mut [u8; 16], byte: u8) {
    let lead = register[0] ^ byte;
    for i in 0..16 {
        let below = if i < 15 { register[i + 1] } else { 0 };
        register[i] = below ^ shifted_product(lead, GENERATOR[i]);
    }
}

fn remainder(plain: &[u8; 132]) -> [u8; 16] {
    let mut register = [0; 16];
    for byte in plain {
        take_in(&mut register, *byte);
    }
    register
}

fn random_bytes<const N: usize>(seed: u64) -> [u8; N] {
    let mut bytes = [0; N];
    let mut state = seed;
    for byte in bytes.iter_mut() {
        state = state
            .wrapping_mul(6364136223846793005)
            .wrapping_add(1442695040888963407);
        *byte = (state >> 56) as u8;
    }
    bytes
}

// The zero word with ones at the first places.
fn ones_at_first(count: usize) -> [u8; 148] {
    let mut word = [0; 148];
    for (k, byte) in word.iter_mut().enumerate() {
        if k < count {
            *byte = 1;
        }
    }
    word
}

fn first_erased(count: usize) -> [bool; 148] {
    let mut erased = [false; 148];
    for (k, is_erased) in erased.iter_mut().enumerate() {
        *is_erased = k < count;
    }
    erased
}

// Changes one more byte of the word, at a place that the seed picks.
fn damage(word: &mut [u8; 148], seed: u64) {
    let picked: [u8; 2] = random_bytes(seed);
    let place = picked[0] as usize % 148;
    word[place] ^= picked[1] | 1;
}

// The word with one place changed whose sums are 0, by trying all changes of all places.
fn tried(word: &[u8; 148]) -> Option<[u8; 148]> {
    let sums = sums_by_horner(word);
    for k in 0..148 {
        let mut unit = [0; 148];
        unit[k] = 1;
        let points = sums_by_horner(&unit);
        for change in 0..=255 {
            if sums
                .iter()
                .zip(&points)
                .all(|(sum, x)| shifted_product(change, *x) == *sum)
            {
                let mut other = *word;
                other[k] ^= change;
                return Some(other);
            }
        }
    }
    None
}

#[test]
fn the_field_and_the_encoder_agree_with_plain_ones(rt: HostRuntime) {
    for a in 0..=255 {
        for b in 0..=255 {
            assert_eq!(rt; mul(a, b), shifted_product(a, b));
        }
    }
    assert_eq!(rt; add(0x53, 0xCA), 0x99);
    assert_eq!(rt; inv(2), Some(0x8E));
    assert_eq!(rt; inv(0), None);
    for seed in 0..100 {
        let plain = random_bytes(seed);
        let word = encode(&plain);
        assert!(rt; word[..132] == plain[..]);
        assert!(rt; word[132..] == remainder(&plain)[..]);
        let noise = random_bytes(seed);
        assert!(rt; syndromes(&noise) == sums_by_horner(&noise));
    }
}

#[test]
fn words_with_one_byte_have_the_printed_checks_and_syndromes(rt: HostRuntime) {
    let mut plain = [0; 132];
    plain[131] = 1;
    assert!(rt; encode(&plain)[132..] == GENERATOR[..]);
    let mut last = [0; 148];
    last[147] = 1;
    assert!(rt; syndromes(&last) == [1; 16]);
    let mut next = [0; 148];
    next[146] = 1;
    let powers = [
        0x01, 0x02, 0x04, 0x08, 0x10, 0x20, 0x40, 0x80, 0x1D, 0x3A, 0x74, 0xE8, 0xCD, 0x87, 0x13,
        0x26,
    ];
    assert!(rt; syndromes(&next) == powers);
}

#[test]
fn a_sector_goes_through_its_interleaves(rt: HostRuntime) {
    let payload = random_bytes(7);
    let plain = deal(&payload);
    assert_eq!(rt; plain[3][1], payload[7]);
    let words = encode_sector(&plain);
    assert!(rt; are_codewords(&words));
    let bytes = gather(&words);
    assert_eq!(rt; bytes[7], payload[7]);
    let mut lifted = lift(&bytes);
    assert!(rt; lifted == words);
    assert!(rt; join(&plain) == payload);
    lifted[2][5] ^= 1;
    assert!(rt; !are_codewords(&lifted));
}

#[test]
fn the_zero_word_is_found_within_reach(rt: HostRuntime) {
    let zero = Some([0; 148]);
    assert!(rt; nearest(&ones_at_first(4), 4) == zero);
    assert!(rt; nearest(&ones_at_first(5), 4) == None);
    assert!(rt; nearest(&ones_at_first(5), 8) == zero);
    assert!(rt; nearest(&ones_at_first(8), 4) == None);
    assert!(rt; nearest(&ones_at_first(8), 8) == zero);
    assert!(rt; nearest_erased(&ones_at_first(16), &first_erased(16)) == zero);
    assert!(rt; nearest_erased(&ones_at_first(0), &first_erased(17)) == None);
    assert!(rt; nearest_erased(&ones_at_first(8), &first_erased(0)) == zero);
    assert!(rt; nearest_erased(&ones_at_first(9), &first_erased(2)) == zero);
    assert!(rt; nearest_erased(&ones_at_first(9), &first_erased(1)) == None);
}

#[test]
fn damaged_words_agree_with_the_second_decoder(rt: HostRuntime) {
    for seed in 0..5 {
        let mut word = encode(&random_bytes(seed));
        for wrong in 0..=10 {
            assert!(rt; nearest(&word, 8) == mended(&word, 8));
            assert!(rt; nearest(&word, 4) == mended(&word, 4));
            if seed == 0 && wrong <= 2 {
                assert!(rt; nearest(&word, 1) == tried(&word));
            }
            damage(&mut word, seed * 100 + wrong);
        }
    }
}
