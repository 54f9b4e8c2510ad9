//! Levels, samples and the maximum-likelihood detector of a partial-response channel whose sample
//! is 16 times what the level differs from the one two places before, over words whose runs have at
//! least three equal levels.
#![tactic(auto)]

mod detector;
mod levels;
mod sample_rows;
mod shortcut;
mod starts;
mod trellis;
mod word_samples;
mod word_shortcut;

pub use detector::{
    Work, clean_samples_give_their_word_back, clean_samples_have_one_word, detect,
    detect_by_search, samples_have_one_detected_word,
};
pub use levels::{
    chan_of, levels_and_channel_bits_invert_each_other, levels_of, samples_of,
    spaced_channel_bits_give_an_allowed_word,
};
pub use word_samples::samples_of_words;
pub use word_shortcut::channel_of_clean;
