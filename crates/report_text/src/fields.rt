//! The words of an entry, an operation or a label, read.
ghost use Rattle.std.specs.Prelude.{◌≡◌, ◌≤◌, IfSome, IsOk, codes};
ghost use Rattle.text_words.specs.Digits.{bytes_of};
ghost use Rattle.text_words.specs.Line.{texts_of};
ghost use Rattle.report_text.specs.Fields.{number_of, command_of, lone_number, block_of, sector_of, tag_of, signed_of, attribute_of, left_of, sent_of, page_of, sense_from, sense_of};
ghost use Rattle.report_text.specs.Answers.{Gives, line_fault_of};

use crate::fault::LineFault;
use disk_base::{Attribute, Bytes, DataOut, Initiator, Lba, Psn, Tag};
use platter_model::Left;
use sense_data::{SENSE_LENGTH, Sense};
use std::alloc::Global;
use text_words::{DigitsFault, mark_of, read_data, read_hex, read_number};

/// The number from `low` to `high` that a word gives.
pub fn number_of(low: u64, high: u64, word: &[u8]) -> Option<u64>
    ensures value { result ≡ number_of low high word.now }
    ensures within { IfSome result (λ n. (low ≤ n) × (n ≤ high)) }
{
    read_number(low, high, word).number()
}

/// The number of a command or of a move.
pub fn command_of(word: &[u8]) -> Option<u32>
    ensures { result ≡ command_of word.now }
{
    Some(number_of(0, u64::from(u32::MAX), word)? as u32)
}

/// The number of a command or of a move that the only word gives.
pub fn lone_number(words: &[&[u8]]) -> Option<u32>
    ensures { result ≡ lone_number (texts_of words.now) }
{
    match words {
        [word] => command_of(word),
        _ => None,
    }
}

pub fn byte_of(word: &[u8]) -> Option<u8>
    ensures { result ≡ number_of 0 255 word.now }
{
    Some(number_of(0, 255, word)? as u8)
}

pub fn minutes_of(word: &[u8]) -> Option<u16>
    ensures { result ≡ number_of 0 65535 word.now }
{
    Some(number_of(0, 65535, word)? as u16)
}

pub fn initiator_of(word: &[u8]) -> Option<Initiator>
    ensures { result ≡ number_of 1 8 word.now }
{
    Initiator::new(number_of(1, 8, word)? as u8)
}

pub fn block_of(word: &[u8]) -> Option<Lba>
    ensures { result ≡ block_of word.now }
{
    Some(Lba(number_of(0, u64::MAX, word)?))
}

/// A sector from `low` to `high`.
pub fn sector_of(low: u32, high: u32, word: &[u8]) -> Option<Psn>
    ensures { result ≡ sector_of low high word.now }
{
    Some(Psn(number_of(u64::from(low), u64::from(high), word)? as u32))
}

pub fn tag_of(word: &[u8]) -> Option<Tag>
    ensures { result ≡ tag_of word.now }
{
    Some(Tag(number_of(0, 65535, word)? as u16))
}

/// A number from `least` to `above`, or a minus sign before one from 1 to `below`.
pub fn signed_of(below: u8, least: u8, above: u8, word: &[u8]) -> Option<i8>
    requires below { below ≤ 128 }
    requires above { above ≤ 127 }
    ensures { result ≡ signed_of below least above word.now }
{
    match word {
        [b'-', digits @ ..] => Some(-(number_of(1, u64::from(below), digits)? as i16) as i8),
        _ => Some(number_of(u64::from(least), u64::from(above), word)? as i8),
    }
}

pub fn attribute_of(word: &[u8]) -> Attribute
    ensures { result ≡ attribute_of word.now }
{
    if word == b"S".as_slice() {
        Attribute::Simple
    } else if word == b"O".as_slice() {
        Attribute::Ordered
    } else {
        Attribute::Head
    }
}

pub fn left_of(word: &[u8]) -> Left
    ensures { result ≡ left_of word.now }
{
    if word == b"old".as_slice() {
        Left::Old
    } else if word == b"new".as_slice() {
        Left::New
    } else {
        Left::Nothing
    }
}

/// The data sent with a command.
pub fn sent_of(alloc: Global, word: &[u8]) -> Result<DataOut, LineFault>
    ensures sent { Gives result (sent_of word.now) }
    // No data take no memory.
    ensures nothing { word.now ≡ codes "-" → IsOk result }
{
    if word == b"-".as_slice() {
        return Ok(DataOut::Nothing);
    }
    let mark = mark_of(word).ok_or(LineFault::Unreadable)?;
    match read_data(alloc, mark, word) {
        Ok(sent) => Ok(sent),
        Err(fault) => Err(fault_of(fault)),
    }
}

fn fault_of(fault: DigitsFault) -> LineFault
    ensures { result ≡ line_fault_of fault }
{
    match fault {
        DigitsFault::NotHex => LineFault::Unreadable,
        DigitsFault::NoMemory => LineFault::NoMemory,
    }
}

/// The data of a command.
pub fn page_of(alloc: Global, word: &[u8]) -> Result<Bytes, LineFault>
    ensures page { Gives result (page_of word.now) }
    // No data take no memory.
    ensures nothing { word.now ≡ codes "-" → IsOk result }
{
    if word == b"-".as_slice() {
        return Ok(Bytes::new(alloc));
    }
    bytes_of(alloc, word)
}

pub fn bytes_of(alloc: Global, word: &[u8]) -> Result<Bytes, LineFault>
    ensures { Gives result (bytes_of word.now) }
{
    match read_hex(alloc, word) {
        Ok(bytes) => Ok(bytes),
        Err(fault) => Err(fault_of(fault)),
    }
}

#[tactic(auto, unfolding(crate::specs::Fields::sense_of))]
pub fn sense_of(word: &[u8]) -> Option<Sense>
    ensures { result ≡ sense_of word.now }
{
    let mut bytes = [0; SENSE_LENGTH];
    match hex::decode_to_slice(word, &mut bytes) {
        Ok(()) => sense_from(&bytes),
        Err(_) => None,
    }
}

fn sense_from(bytes: &[u8; SENSE_LENGTH]) -> Option<Sense>
    ensures { result ≡ sense_from bytes.now }
{
    Sense::read(bytes)
}
