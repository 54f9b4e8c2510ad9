ghost use Rattle.std.specs.Prelude.{◌≡◌, drop, option_map, IfOk, Some, None, Err};
ghost use Rattle.std.specs.Result.{result_ok};
ghost use Rattle.hex.specs.Hex.{decode_sized};
ghost use Rattle.text_words.specs.Data.{mark_of, data_of, value_of};

use crate::digits::decode;
use crate::{DigitsFault, read_byte, read_hex};
use disk_base::{BLOCK_LENGTH, DataOut, Value};
use std::alloc::Global;

/// The character that a word of data begins with.
#[derive(Clone, Copy, Debug, PartialEq, Eq)]
pub enum Mark {
    /// `*`, and behind it the digits of one byte, which every byte is.
    Star,
    /// `=`, and behind it the digits of all bytes.
    Equals,
}

pub fn mark_of(word: &[u8]) -> Option<Mark>
    ensures { result ≡ mark_of word.now }
{
    match word {
        [b'*', ..] => Some(Mark::Star),
        [b'=', ..] => Some(Mark::Equals),
        _ => None,
    }
}

/// The data that a word with this mark gives.
pub fn read_data(alloc: Global, mark: Mark, word: &[u8]) -> Result<DataOut, DigitsFault>
    ensures ok { IfOk result (λ sent. data_of mark word.now ≡ Some sent) }
    ensures not_hex { result ≡ Err DigitsFault.NotHex → data_of mark word.now ≡ None }
{
    let digits = behind_mark(word);
    match mark {
        Mark::Star => match read_byte(digits) {
            Some(byte) => Ok(DataOut::Fill(byte)),
            None => Err(DigitsFault::NotHex),
        },
        Mark::Equals => match read_hex(alloc, digits) {
            Ok(bytes) => Ok(DataOut::Given(bytes)),
            Err(fault) => Err(fault),
        },
    }
}

fn behind_mark(word: &[u8]) -> &[u8]
    ensures { result.now ≡ drop 1 word.now }
{
    match word {
        [] => &[],
        [_, digits @ ..] => digits,
    }
}

/// The value of a block that a word gives: `bad`, `*` and a byte, or all bytes.
#[tactic(auto, unfolding(crate::specs::Data::value_of))]
pub fn read_value(word: &[u8]) -> Option<Value>
    ensures { result ≡ value_of word.now }
{
    match word {
        b"bad" => Some(Value::Lost),
        [b'*', digits @ ..] => match read_byte(digits) {
            Some(byte) => Some(Value::Data([byte; BLOCK_LENGTH])),
            None => None,
        },
        digits => block_of(digits),
    }
}

fn block_of(digits: &[u8]) -> Option<Value>
    ensures { result ≡ option_map Value.Data (result_ok (decode_sized digits.now 512)) }
{
    if digits.len() != 2 * BLOCK_LENGTH {
        return None;
    }
    let mut block = [0; BLOCK_LENGTH];
    if decode(digits, &mut block) {
        Some(Value::Data(block))
    } else {
        None
    }
}
