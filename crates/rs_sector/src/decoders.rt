//! The decoders: the codeword in reach, or none.
ghost use Rattle.std.specs.Prelude.{◌≡◌, ◌≤◌, List, ℕ, IfSome};
ghost use Rattle.rs_sector.specs.Code.{syndromes_of};
ghost use Rattle.rs_sector.specs.Decoding.{differing_outside, IsNear, IsNearErased};

use crate::decode::{corrected, count};
use crate::encoder::{is_codeword, syndromes};

static NONE_ERASED: [bool; 148] = [false; 148];

/// The codeword that differs from the word in at most `radius` places, of which there is at most one.
pub fn nearest(word: &[u8; 148], radius: u8) -> Option<[u8; 148]>
    requires { radius ≤ 8 }
    ensures some { IfSome result (IsNear word.now radius) }
    ensures none { (codeword : List ℕ) → IsNear word.now radius codeword → result ≡ Some codeword }
{
    let sums = syndromes(word);
    if sums == [0; 16] {
        return Some(*word);
    }
    mended(word, radius, &sums)
}

// The codeword in reach of a word that has these sums; apart, so that a clean word costs no more than its check.
#[inline(never)]
fn mended(word: &[u8; 148], radius: u8, sums: &[u8; 16]) -> Option<[u8; 148]>
    requires low { radius ≤ 8 }
    requires sums { sums.now ≡ syndromes_of word.now }
    ensures some { IfSome result (IsNear word.now radius) }
    ensures none { (codeword : List ℕ) → IsNear word.now radius codeword → result ≡ Some codeword }
{
    let found = corrected(word, &NONE_ERASED, sums);
    if is_codeword(&found) && wrong_places(word, &found, &NONE_ERASED) <= radius as usize {
        Some(found)
    } else {
        None
    }
}

/// The codeword that differs from the word in `e` places outside the `f` erased ones, with `2 * e + f` at most 16.
/// There is at most one.
pub fn nearest_erased(word: &[u8; 148], erased: &[bool; 148]) -> Option<[u8; 148]>
    ensures some { IfSome result (IsNearErased word.now erased.now) }
    ensures none { (codeword : List ℕ) → IsNearErased word.now erased.now codeword → result ≡ Some codeword }
{
    let erasures = count(erased);
    if erasures > 16 {
        return None;
    }
    let sums = syndromes(word);
    if sums == [0; 16] {
        return Some(*word);
    }
    let found = corrected(word, erased, &sums);
    if is_codeword(&found) && 2 * wrong_places(word, &found, erased) + erasures <= 16 {
        Some(found)
    } else {
        None
    }
}

// In how many places that are not erased the words differ.
fn wrong_places(a: &[u8; 148], b: &[u8; 148], erased: &[bool; 148]) -> usize
    ensures counted { result ≡ differing_outside erased.now a.now b.now }
    ensures few { result ≤ 148 }
{
    let mut count = 0;
    for (k, is_erased) in erased.iter().enumerate() {
        if !*is_erased && a[k] != b[k] {
            count += 1;
        }
    }
    count
}
