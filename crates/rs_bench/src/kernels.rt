//! The kernels. Each goes through four codewords in turn, or through words that differ, so that no result can be kept from one turn to
//! the next.
use rs_sector::{
    are_codewords, encode, encode_sector, is_codeword, nearest, nearest_erased, syndromes,
};

/// The checksum of so many turns of the kernel.
pub fn run(kernel: &str, count: u32) -> Option<u32> {
    let words = codewords();
    let checksum = match kernel {
        "encode" => encoded(count),
        "syndromes" => summed(&words[0], count),
        "check" => checked(&words, count),
        "check_copy" => checked_and_copied(&words, count),
        "encode_sector" => sectors_encoded(count),
        "check_sector" => sectors_checked(&words, count),
        "clean" => clean(&words, count),
        "wrong1" => mended(&words, count, 1),
        "wrong4" => mended(&words, count, 4),
        "wrong8" => mended(&words, count, 8),
        "erased16" => erased_mended(&words, count),
        _ => return None,
    };
    Some(checksum)
}

fn data(turn: u32) -> [u8; 132] {
    let mut plain = [0; 132];
    for (k, byte) in plain.iter_mut().enumerate() {
        *byte = (k & 0xff) as u8 ^ (turn & 0xff) as u8;
    }
    plain
}

fn codewords() -> [[u8; 148]; 4] {
    [
        encode(&data(3)),
        encode(&data(5)),
        encode(&data(9)),
        encode(&data(17)),
    ]
}

fn mixed(checksum: u32, byte: u8) -> u32 {
    checksum.wrapping_mul(31).wrapping_add(u32::from(byte))
}

fn encoded(count: u32) -> u32 {
    let mut plain = data(0);
    let mut checksum = 0;
    for turn in 0..count {
        plain[0] = (turn & 0xff) as u8;
        plain[1] = ((turn >> 8) & 0xff) as u8;
        checksum = mixed(checksum, encode(&plain)[147]);
    }
    checksum
}

// The check of a clean word and a copy of it, which is what a decoder has to do at least.
fn checked_and_copied(words: &[[u8; 148]; 4], count: u32) -> u32 {
    let mut checksum = 0;
    for turn in 0..count {
        let word = &words[(turn % 4) as usize];
        if is_codeword(word) {
            let copy = *word;
            checksum = mixed(checksum, copy[(turn % 148) as usize]);
        }
    }
    checksum
}

fn sectors_encoded(count: u32) -> u32 {
    let mut plain = [data(0), data(1), data(2), data(3)];
    let mut checksum = 0;
    for turn in 0..count {
        plain[0][0] = (turn & 0xff) as u8;
        plain[1][1] = ((turn >> 8) & 0xff) as u8;
        let words = encode_sector(&plain);
        checksum = mixed(
            checksum,
            words[0][147] ^ words[1][147] ^ words[2][147] ^ words[3][147],
        );
    }
    checksum
}

// The syndromes of a word of which each turn changes a byte.
fn summed(codeword: &[u8; 148], count: u32) -> u32 {
    let mut word = *codeword;
    let mut checksum = 0;
    for turn in 0..count {
        word[(turn % 148) as usize] = (turn & 0xff) as u8;
        let sums = syndromes(&word);
        checksum = mixed(checksum, sums[(turn % 16) as usize]);
    }
    checksum
}

fn checked(words: &[[u8; 148]; 4], count: u32) -> u32 {
    let mut checksum = 0;
    for turn in 0..count {
        let clean = is_codeword(&words[(turn % 4) as usize]);
        checksum = mixed(checksum, if clean { 1 } else { 0 });
    }
    checksum
}

fn sectors_checked(words: &[[u8; 148]; 4], count: u32) -> u32 {
    let mut sector = *words;
    let mut checksum = 0;
    for turn in 0..count {
        sector[(turn % 4) as usize] = words[(turn % 4) as usize];
        let clean = are_codewords(&sector);
        checksum = mixed(checksum, if clean { 1 } else { 0 });
    }
    checksum
}

fn clean(words: &[[u8; 148]; 4], count: u32) -> u32 {
    let mut checksum = 0;
    for turn in 0..count {
        if let Some(found) = &nearest(&words[(turn % 4) as usize], 8) {
            checksum = mixed(checksum, found[(turn % 148) as usize]);
        }
    }
    checksum
}

// The word with so many places from the turn's on, 9 apart, changed.
fn damaged(word: &[u8; 148], turn: u32, wrong: usize) -> [u8; 148] {
    let mut damaged = *word;
    for e in 0..wrong {
        let place = ((turn % 148) as usize + e % 148 * 9) % 148;
        damaged[place] ^= ((turn % 200) as usize + e % 50 + 1) as u8;
    }
    damaged
}

fn mended(words: &[[u8; 148]; 4], count: u32, wrong: usize) -> u32 {
    let mut checksum = 0;
    for turn in 0..count {
        let word = damaged(&words[(turn % 4) as usize], turn, wrong);
        if let Some(found) = nearest(&word, 8) {
            checksum = mixed(checksum, found[(turn % 148) as usize]);
        }
    }
    checksum
}

fn erased_places(turn: u32) -> [bool; 148] {
    let mut erased = [false; 148];
    for e in 0..16usize {
        erased[((turn % 148) as usize + e * 9) % 148] = true;
    }
    erased
}

fn erased_mended(words: &[[u8; 148]; 4], count: u32) -> u32 {
    let mut checksum = 0;
    for turn in 0..count {
        let word = damaged(&words[(turn % 4) as usize], turn, 16);
        if let Some(found) = nearest_erased(&word, &erased_places(turn)) {
            checksum = mixed(checksum, found[(turn % 148) as usize]);
        }
    }
    checksum
}
