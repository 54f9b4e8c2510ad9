//! Codewords: the syndromes, the test and the encoder.
ghost use Rattle.std.specs.Prelude.{◌≡◌, ◌↔◌, ◌++◌, IsTrue};
ghost use Rattle.rs_sector.specs.Code.{syndromes_of, AllAreCodewords, AllEncode, Encodes, IsCodeword};

use crate::lanes::{check_rows, combined, point_powers};

/// The codeword whose data are the 132 bytes. Its 16 check bytes stand behind them.
pub fn encode(plain: &[u8; 132]) -> [u8; 148]
    ensures { Encodes plain.now result }
{
    let sums = combined(plain, point_powers());
    joined(plain, &combined(&sums, check_rows()))
}

// The data with the check bytes behind them.
fn joined(plain: &[u8; 132], checks: &[u8; 16]) -> [u8; 148]
    ensures { result ≡ plain.now ++ checks.now }
{
    let mut word = [0; 148];
    word[..132].copy_from_slice(plain);
    word[132..].copy_from_slice(checks);
    word
}

/// The codewords of the four interleaves of a sector.
pub fn encode_sector(plain: &[[u8; 132]; 4]) -> [[u8; 148]; 4]
    ensures { AllEncode plain.now result }
{
    [
        encode(&plain[0]),
        encode(&plain[1]),
        encode(&plain[2]),
        encode(&plain[3]),
    ]
}

/// The values of the word's polynomial at `2^0` to `2^15`, which are 0 for a codeword.
#[inline(always)]
pub fn syndromes(word: &[u8; 148]) -> [u8; 16]
    ensures { result ≡ syndromes_of word.now }
{
    combined(word, point_powers())
}

/// Whether the word is a codeword.
pub fn is_codeword(word: &[u8; 148]) -> bool
    ensures { IsTrue result ↔ IsCodeword word.now }
{
    syndromes(word) == [0; 16]
}

/// Whether the four words of a sector are codewords.
pub fn are_codewords(words: &[[u8; 148]; 4]) -> bool
    ensures { IsTrue result ↔ AllAreCodewords words.now }
{
    is_codeword(&words[0])
        && is_codeword(&words[1])
        && is_codeword(&words[2])
        && is_codeword(&words[3])
}
