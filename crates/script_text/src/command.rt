//! Lines that wait for `go`: commands, functions and background work.
ghost use Rattle.std.specs.Prelude.{◌≡◌, None, Some, [], ◌∷◌};
ghost use Rattle.std.specs.Option.{option_copied};
ghost use Rattle.text_words.specs.Line.{texts_of};
ghost use Rattle.script_text.specs.Grammar.{attribute_of, mark_of_data, sent_of, command_of, command_line, abort_line, function_line, scan_line, destage_line};
ghost use Rattle.script_text.specs.Answers.{Gives};

use crate::digits::{bytes_of, data_of};
use crate::fault::LineFault;
use crate::numbers::{initiator_of, number_of, tag_of};
use crate::{Line, Why};
use disk_base::{Attribute, Cdb, DataOut, Function};
use std::alloc::Global;
use text_words::{Mark, mark_of};

/// The most background turns that a line may ask for.
const COUNT_MAX: u64 = 60000;

/// `cmd I T A CDB` and `cmd I T A CDB DATA`
pub fn command_line(alloc: Global, words: &[&[u8]]) -> Result<Line, LineFault>
    ensures { Gives result (command_line (texts_of words.now)) }
{
    match words {
        [i, t, a, cdb] => command_of(alloc, i, t, a, cdb, None),
        [i, t, a, cdb, sent] => command_of(alloc, i, t, a, cdb, Some(sent)),
        _ => Err(LineFault::Refused(Why::Shape)),
    }
}

#[tactic(auto, unfolding(crate::specs::Grammar::command_of))]
fn command_of(
    alloc: Global,
    initiator: &[u8],
    tag: &[u8],
    attribute: &[u8],
    cdb: &[u8],
    sent: Option<&[u8]>,
) -> Result<Line, LineFault>
    ensures { Gives result (command_of initiator.now tag.now attribute.now cdb.now (option_copied sent.entry)) }
{
    let attribute = attribute_of(attribute)?;
    let mark = mark_of_data(sent)?;
    let initiator = initiator_of(initiator)?;
    let tag = tag_of(tag)?;
    let block = bytes_of(alloc, cdb)?;
    let sent = sent_of(alloc, mark, sent)?;
    let cdb = Cdb::new(block.as_slice()).ok_or(Why::Cdb)?;
    Ok(Line::Command {
        initiator,
        tag,
        attribute,
        cdb,
        sent,
    })
}

fn attribute_of(word: &[u8]) -> Result<Attribute, Why>
    ensures { result ≡ attribute_of word.now }
{
    if word == b"S".as_slice() {
        Ok(Attribute::Simple)
    } else if word == b"O".as_slice() {
        Ok(Attribute::Ordered)
    } else if word == b"H".as_slice() {
        Ok(Attribute::Head)
    } else {
        Err(Why::Shape)
    }
}

fn mark_of_data(sent: Option<&[u8]>) -> Result<Option<Mark>, Why>
    ensures { result ≡ mark_of_data (option_copied sent.entry) }
{
    match sent {
        None => Ok(None),
        Some(word) => Ok(Some(mark_of(word).ok_or(Why::Shape)?)),
    }
}

fn sent_of(alloc: Global, mark: Option<Mark>, sent: Option<&[u8]>) -> Result<DataOut, LineFault>
    ensures { Gives result (sent_of mark (option_copied sent.entry)) }
{
    match (mark, sent) {
        (Some(mark), Some(word)) => data_of(alloc, mark, word),
        _ => Ok(DataOut::Nothing),
    }
}

/// `abort I T`
pub fn abort_line(words: &[&[u8]]) -> Result<Line, Why>
    ensures { result ≡ abort_line (texts_of words.now) }
{
    match words {
        [i, t] => abort_of(i, t),
        _ => Err(Why::Shape),
    }
}

fn abort_of(initiator: &[u8], tag: &[u8]) -> Result<Line, Why>
    ensures { result ≡ abort_line (initiator.now ∷ tag.now ∷ []) }
{
    let initiator = initiator_of(initiator)?;
    let tag = tag_of(tag)?;
    Ok(Line::Function {
        initiator,
        what: Function::Abort(tag),
    })
}

/// `abortset I`, `clear I` and `reset I`
pub fn function_line(what: Function, words: &[&[u8]]) -> Result<Line, Why>
    ensures { result ≡ function_line what (texts_of words.now) }
{
    match words {
        [i] => function_of(what, i),
        _ => Err(Why::Shape),
    }
}

fn function_of(what: Function, initiator: &[u8]) -> Result<Line, Why>
    ensures { result ≡ function_line what (initiator.now ∷ []) }
{
    let initiator = initiator_of(initiator)?;
    Ok(Line::Function { initiator, what })
}

/// `scan N`
pub fn scan_line(words: &[&[u8]]) -> Result<Line, Why>
    ensures { result ≡ scan_line (texts_of words.now) }
{
    match words {
        [n] => scan_of(n),
        _ => Err(Why::Shape),
    }
}

fn scan_of(count: &[u8]) -> Result<Line, Why>
    ensures { result ≡ scan_line (count.now ∷ []) }
{
    let count = number_of(1, COUNT_MAX, count)? as u32;
    Ok(Line::Scan { count })
}

/// `destage N`
pub fn destage_line(words: &[&[u8]]) -> Result<Line, Why>
    ensures { result ≡ destage_line (texts_of words.now) }
{
    match words {
        [n] => destage_of(n),
        _ => Err(Why::Shape),
    }
}

fn destage_of(count: &[u8]) -> Result<Line, Why>
    ensures { result ≡ destage_line (count.now ∷ []) }
{
    let count = number_of(1, COUNT_MAX, count)? as u32;
    Ok(Line::Destage { count })
}
