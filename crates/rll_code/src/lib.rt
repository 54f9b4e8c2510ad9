//! The (2,7) run-length-limited code, both ways. A message is written as rows of one table, so that two 0s follow each
//! 1 of the channel word; channel bits that are no code are read all the same, and what they give is flagged.
#![tactic(auto)]

mod decoder;
mod encoder;
pub mod laws;
mod tables;
mod word_decoder;
mod word_encoder;
mod word_tables;

pub use decoder::decode;
pub use encoder::encode;
pub use word_decoder::decode_words;
pub use word_encoder::encode_words;
