//! Words of hexadecimal digits.
ghost use Rattle.text_words.specs.Digits.{bytes_of};
ghost use Rattle.text_words.specs.Data.{data_of};
ghost use Rattle.script_text.specs.declared.why.Why.TheVariants.{Hex};
ghost use Rattle.script_text.specs.Steps.{or_else};
ghost use Rattle.script_text.specs.Answers.{Gives};

use crate::Why;
use crate::fault::LineFault;
use disk_base::{Bytes, DataOut};
use std::alloc::Global;
use text_words::{DigitsFault, Mark, read_data, read_hex};

/// The bytes that digits of either case give.
pub fn bytes_of(alloc: Global, word: &[u8]) -> Result<Bytes, LineFault>
    ensures { Gives result (or_else Hex (bytes_of word.now)) }
{
    match read_hex(alloc, word) {
        Ok(bytes) => Ok(bytes),
        Err(DigitsFault::NoMemory) => Err(LineFault::NoMemory),
        Err(DigitsFault::NotHex) => Err(LineFault::Refused(Why::Hex)),
    }
}

/// The data that a word with this mark gives.
pub fn data_of(alloc: Global, mark: Mark, word: &[u8]) -> Result<DataOut, LineFault>
    ensures { Gives result (or_else Hex (data_of mark word.now)) }
{
    match read_data(alloc, mark, word) {
        Ok(sent) => Ok(sent),
        Err(DigitsFault::NoMemory) => Err(LineFault::NoMemory),
        Err(DigitsFault::NotHex) => Err(LineFault::Refused(Why::Hex)),
    }
}
