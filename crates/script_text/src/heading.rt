//! The lines before all others: the measures of the drive and the defects of the factory.
ghost use Rattle.std.specs.Prelude.{◌≡◌, ◌≤◌, IfOk};
ghost use Rattle.text_words.specs.Line.{texts_of};
ghost use Rattle.text_words.specs.Number.{number, IsFrom};
ghost use Rattle.script_text.specs.Grammar.{well_formed, fitting, within_limits, measures_from, disk_of, primary_of};
ghost use Rattle.script_text.specs.Answers.{IsSizeOf};

use crate::Why;
use crate::numbers::sector_of;
use disk_base::Psn;
use geometry_map::Size;
use text_words::{Numeral, read_number};

/// `disk C H S R`
pub fn disk_of(words: &[&[u8]]) -> Result<Size, Why>
    ensures { IsSizeOf result (disk_of (texts_of words.now)) }
{
    match words {
        [cylinders, heads, sectors, reserved] => size_of(cylinders, heads, sectors, reserved),
        _ => Err(Why::Shape),
    }
}

#[tactic(auto, unfolding(crate::specs::Grammar::measures_from))]
fn size_of(cylinders: &[u8], heads: &[u8], sectors: &[u8], reserved: &[u8]) -> Result<Size, Why>
    ensures { IsSizeOf result (measures_from (number 0 65535 cylinders.now) (number 0 255 heads.now) (number 0 255 sectors.now) (number 0 65535 reserved.now)) }
{
    let cylinders = read_number(0, u64::from(u16::MAX), cylinders);
    let heads = read_number(0, u64::from(u8::MAX), heads);
    let sectors = read_number(0, u64::from(u8::MAX), sectors);
    let reserved = read_number(0, u64::from(u16::MAX), reserved);
    well_formed(cylinders)?;
    well_formed(heads)?;
    well_formed(sectors)?;
    well_formed(reserved)?;
    let cylinders = fitting(65535, cylinders)? as u16;
    let heads = fitting(255, heads)? as u8;
    let sectors = fitting(255, sectors)? as u8;
    let reserved = fitting(65535, reserved)? as u16;
    size_within(cylinders, heads, sectors, reserved)
}

fn size_within(cylinders: u16, heads: u8, sectors: u8, reserved: u16) -> Result<Size, Why>
    ensures { IsSizeOf result (within_limits (record { cylinders = cylinders; heads = heads; sectors = sectors; reserved = reserved })) }
{
    match Size::new(cylinders, heads, sectors, reserved) {
        Some(size) => Ok(size),
        None => Err(Why::Disk),
    }
}

fn well_formed(numeral: Numeral) -> Result<(), Why>
    ensures { result ≡ well_formed numeral }
{
    match numeral {
        Numeral::Malformed => Err(Why::Number),
        Numeral::Outside | Numeral::Within(_) => Ok(()),
    }
}

// The number, which is at most `high`.
fn fitting(high: u64, numeral: Numeral) -> Result<u64, Why>
    requires { IsFrom 0 high numeral }
    ensures value { result ≡ fitting numeral }
    ensures fits { IfOk result (λ n. n ≤ high) }
{
    match numeral {
        Numeral::Within(n) => Ok(n),
        Numeral::Outside | Numeral::Malformed => Err(Why::Disk),
    }
}

/// `primary P`, on a drive of `total` sectors.
pub fn primary_of(total: u32, words: &[&[u8]]) -> Result<Psn, Why>
    requires { 1 ≤ total }
    ensures { result ≡ primary_of total (texts_of words.now) }
{
    match words {
        [p] => sector_of(16, total, p),
        _ => Err(Why::Shape),
    }
}
