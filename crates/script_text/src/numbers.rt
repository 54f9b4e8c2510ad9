//! Numbers of a line.
ghost use Rattle.std.specs.Prelude.{◌≡◌, ◌-◌, ◌≤◌, IfOk};
ghost use Rattle.script_text.specs.Numbers.{number_of, tag_of, sector_of, change_of};

use crate::Why;
use disk_base::{Initiator, Psn, Tag};
use text_words::{Numeral, read_number};

/// The number from `low` to `high` that a word gives.
pub fn number_of(low: u64, high: u64, word: &[u8]) -> Result<u64, Why>
    ensures value { result ≡ number_of low high word.now }
    ensures within { IfOk result (λ n. (low ≤ n) × (n ≤ high)) }
{
    match read_number(low, high, word) {
        Numeral::Within(n) => Ok(n),
        Numeral::Outside | Numeral::Malformed => Err(Why::Number),
    }
}

pub fn initiator_of(word: &[u8]) -> Result<Initiator, Why>
    ensures { result ≡ number_of 1 8 word.now }
{
    let number = number_of(1, 8, word)?;
    Initiator::new(number as u8).ok_or(Why::Number)
}

pub fn tag_of(word: &[u8]) -> Result<Tag, Why>
    ensures { result ≡ tag_of word.now }
{
    let number = number_of(0, 65535, word)?;
    Ok(Tag(number as u16))
}

/// The sector from `low` up that a word gives, on a drive of `total` sectors.
pub fn sector_of(low: u32, total: u32, word: &[u8]) -> Result<Psn, Why>
    requires { 1 ≤ total }
    ensures { result ≡ sector_of low total word.now }
{
    let number = number_of(u64::from(low), u64::from(total - 1), word)?;
    Ok(Psn(number as u32))
}

/// The number from -127 to 127, but not 0, that a word gives.
pub fn change_of(word: &[u8]) -> Result<i8, Why>
    ensures { result ≡ change_of word.now }
{
    match word {
        [b'-', digits @ ..] => Ok(-(number_of(1, 127, digits)? as i8)),
        _ => Ok(number_of(1, 127, word)? as i8),
    }
}
