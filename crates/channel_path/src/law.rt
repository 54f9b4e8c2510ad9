//! Laws of writing and reading a sector, each the contract of a function that only calls the laws that it rests on.
ghost use Rattle.channel_path.specs.Laws.{HasOneEncoding, ReadsBack, ZerosReadAsNothing};

use prml_viterbi::{
    clean_samples_give_their_word_back, levels_and_channel_bits_invert_each_other,
    samples_have_one_detected_word, spaced_channel_bits_give_an_allowed_word,
};
use rll_code::laws::{
    each_message_has_one_code, ones_of_a_code_stand_apart, reading_inverts_the_code,
};
use rs_sector::{data_have_one_encoding, numbering_is_undone, words_have_one_codeword_in_reach};

/// A payload is written in one way.
pub fn payloads_have_one_encoding()
    ensures { HasOneEncoding }
{
    data_have_one_encoding();
    each_message_has_one_code();
}

/// What a payload of a sector was written as reads as that payload, by every way of decoding.
pub fn reading_inverts_writing()
    ensures { ReadsBack }
{
    numbering_is_undone();
    ones_of_a_code_stand_apart();
    reading_inverts_the_code();
    spaced_channel_bits_give_an_allowed_word();
    levels_and_channel_bits_invert_each_other();
    clean_samples_give_their_word_back();
}

/// Samples that are all zero, as those of a sector that was never written, read as no payload of any sector.
pub fn zero_samples_read_as_nothing()
    ensures { ZerosReadAsNothing }
{
    samples_have_one_detected_word();
    clean_samples_give_their_word_back();
    spaced_channel_bits_give_an_allowed_word();
    levels_and_channel_bits_invert_each_other();
    words_have_one_codeword_in_reach();
}
