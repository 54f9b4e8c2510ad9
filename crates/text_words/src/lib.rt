//! The words of a line, printed and read: numbers, hexadecimal digits, data, the value of a block. What prints
//! them writes to any `Out`: a sink through a buffer, a text to compare with, or memory.
#![tactic(auto)]

mod compare;
mod data;
mod digits;
mod gathered;
mod laws;
mod line;
mod number;
mod out;
mod printing;
mod to_memory;
mod to_sink;

pub use compare::Compare;
pub use data::{Mark, mark_of, read_data, read_value};
pub use digits::{DigitsFault, put_digits, read_byte, read_hex};
pub use gathered::GATHERED_MAX;
pub use laws::{
    digits_read_again, numbers_are_spelled, numbers_read_again, signed_numbers_read_again,
    words_are_spelled, words_split_again,
};
pub use line::{first_part, read_words};
pub use number::{Numeral, read_number, read_signed};
pub use out::Out;
pub use printing::{
    put_block, put_byte, put_hex, put_number, put_sent, put_signed, put_value, put_word,
};
pub use to_memory::ToMemory;
pub use to_sink::ToSink;
