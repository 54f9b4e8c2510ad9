//! The Reed-Solomon code of a sector: words of 148 bytes over the field of 256 elements, of which the first 132 are data, that are zero at `2^0` to `2^15`.
//! Four of them, dealt byte by byte, make a sector.
//! The definitions stand in `specs/`, and each function is proved against them.
#![tactic(auto)]

mod decode;
mod decoders;
mod encoder;
mod field;
mod lanes;
mod law;
mod locate;
mod sector;
mod solve;
mod tables;

pub use decoders::{nearest, nearest_erased};
pub use encoder::{are_codewords, encode, encode_sector, is_codeword, syndromes};
pub use field::{add, inv, mul};
pub use law::{
    codewords_are_far_apart, data_have_one_encoding, eight_wrong_places_are_undone,
    erased_places_are_undone, numbering_is_undone, words_have_one_codeword_in_reach,
};
pub use sector::{deal, gather, join, lift};
