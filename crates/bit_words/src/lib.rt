//! Words of 64 bits as lists of bits: the definition that calls over words and their slow twins over bits share.
#![tactic(auto)]

ghost use Rattle.std.specs.Prelude.{◌≡◌, ℕ, ◌*◌, List, length};
ghost use Rattle.bit_words.specs.Words.{word_bits, HaveBitsInOrder};

/// A law: bit k of the list is bit k mod 64 of word k div 64.
pub fn words_hold_their_bits_in_order()
    ensures long { (words : List ℕ) → length (word_bits words) ≡ 64 * length words }
    ensures each { (words : List ℕ) → HaveBitsInOrder words }
{}
