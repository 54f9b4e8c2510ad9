//! Laws of the code, of the decoders and of the numbering.
//! Those about definitions alone are each the contract of a function that does nothing.
ghost use Rattle.std.specs.Prelude.{◌≡◌, ◌+◌, ◌*◌, ◌≤◌};
ghost use Rattle.rs_sector.specs.Code.{differing, IsCodeword};
ghost use Rattle.rs_sector.specs.Decoding.{differing_outside, marked};
ghost use Rattle.rs_sector.specs.Laws.{
  AreFarApart,
  DealsAgain,
  HaveOneEncoding,
  HaveOneNear,
  HaveOneNearErased,
  JoinsAgain,
};

use crate::decoders::{nearest, nearest_erased};

/// Two codewords that differ in at most 16 places are equal: the minimum distance is 17.
pub fn codewords_are_far_apart()
    ensures { AreFarApart }
{}

/// There is one codeword with given data.
pub fn data_have_one_encoding()
    ensures { HaveOneEncoding }
{}

/// No word has two codewords in reach, of either decoder.
pub fn words_have_one_codeword_in_reach()
    ensures near { HaveOneNear }
    ensures near_erased { HaveOneNearErased }
{}

/// A codeword with at most 8 wrong places is given back.
pub fn eight_wrong_places_are_undone(codeword: &[u8; 148], word: &[u8; 148]) -> Option<[u8; 148]>
    requires codeword { IsCodeword codeword.now }
    requires wrong { differing word.now codeword.now ≤ 8 }
    ensures { result ≡ Some codeword.now }
{
    nearest(word, 8)
}

/// A codeword with `f` erased and `e` other wrong places is given back where `2 * e + f` is at most 16.
pub fn erased_places_are_undone(
    codeword: &[u8; 148],
    word: &[u8; 148],
    erased: &[bool; 148],
) -> Option<[u8; 148]>
    requires codeword { IsCodeword codeword.now }
    requires wrong { 2 * differing_outside erased.now word.now codeword.now + marked erased.now ≤ 16 }
    ensures { result ≡ Some codeword.now }
{
    nearest_erased(word, erased)
}

/// `deal` and `join` undo each other, and so do `lift` and `gather`.
pub fn numbering_is_undone()
    ensures joined { JoinsAgain }
    ensures dealt { DealsAgain }
{}
