//! Lines of a script's body, by their first words.
ghost use Rattle.std.specs.Prelude.{◌≡◌, ◌≤◌, [], ◌∷◌};
ghost use Rattle.text_words.specs.Line.{texts_of};
ghost use Rattle.script_text.specs.Forms.{form_of};
ghost use Rattle.script_text.specs.Grammar.{lone_line, fault_line, left_of, armed, cut_line, minutes_line, line_of};
ghost use Rattle.script_text.specs.Answers.{Gives};

use crate::command::{abort_line, command_line, destage_line, function_line, scan_line};
use crate::damage::{damage_line, fixed};
use crate::fault::LineFault;
use crate::form::Form;
use crate::numbers::{number_of, sector_of};
use crate::{Line, Why};
use disk_base::Function;
use platter_model::{Left, Tear, World};
use std::alloc::Global;

/// The form of a line of the body, by its first word.
#[tactic(auto, unfolding(crate::specs::Forms::form_of))]
pub fn form_of(first: &[u8]) -> Option<Form>
    ensures { result ≡ form_of first.now }
{
    if first == b"cmd".as_slice() {
        Some(Form::Command)
    } else if first == b"go".as_slice() {
        Some(Form::Go)
    } else if first == b"damage".as_slice() {
        Some(Form::Damage)
    } else if first == b"scan".as_slice() {
        Some(Form::Scan)
    } else if first == b"destage".as_slice() {
        Some(Form::Destage)
    } else if first == b"abort".as_slice() {
        Some(Form::Abort)
    } else if first == b"abortset".as_slice() {
        Some(Form::AbortSet)
    } else if first == b"clear".as_slice() {
        Some(Form::Clear)
    } else if first == b"reset".as_slice() {
        Some(Form::Reset)
    } else if first == b"fault".as_slice() {
        Some(Form::Fault)
    } else if first == b"cut".as_slice() {
        Some(Form::Cut)
    } else if first == b"power".as_slice() {
        Some(Form::Power)
    } else if first == b"minutes".as_slice() {
        Some(Form::Minutes)
    } else {
        None
    }
}

/// A line of the body, on a drive of `total` sectors, by its form and the words behind the first.
pub fn line_of(alloc: Global, total: u32, form: Form, words: &[&[u8]]) -> Result<Line, LineFault>
    requires { 1 ≤ total }
    ensures { Gives result (line_of total form (texts_of words.now)) }
{
    match form {
        Form::Command => command_line(alloc, words),
        Form::Abort => Ok(abort_line(words)?),
        Form::AbortSet => Ok(function_line(Function::AbortSet, words)?),
        Form::Clear => Ok(function_line(Function::Clear, words)?),
        Form::Reset => Ok(function_line(Function::Reset, words)?),
        Form::Scan => Ok(scan_line(words)?),
        Form::Destage => Ok(destage_line(words)?),
        Form::Go => Ok(lone_line(Line::Go, words)?),
        Form::Damage => Ok(damage_line(total, words)?),
        Form::Fault => Ok(fault_line(total, words)?),
        Form::Cut => Ok(cut_line(words)?),
        Form::Power => Ok(lone_line(happens(World::Power), words)?),
        Form::Minutes => Ok(minutes_line(words)?),
    }
}

fn lone_line(line: Line, words: &[&[u8]]) -> Result<Line, Why>
    ensures { result ≡ lone_line line (texts_of words.now) }
{
    match words {
        [] => Ok(line),
        _ => Err(Why::Shape),
    }
}

fn happens(world: World) -> Line
    ensures { result ≡ Line.World world }
{
    Line::World { world }
}

fn fault_line(total: u32, words: &[&[u8]]) -> Result<Line, Why>
    requires { 1 ≤ total }
    ensures { result ≡ fault_line total (texts_of words.now) }
{
    match words {
        [p] => fault_of(total, p),
        _ => Err(Why::Shape),
    }
}

fn fault_of(total: u32, p: &[u8]) -> Result<Line, Why>
    requires { 1 ≤ total }
    ensures { result ≡ fault_line total (p.now ∷ []) }
{
    Ok(happens(World::Fault(sector_of(16, total, p)?)))
}

fn cut_line(words: &[&[u8]]) -> Result<Line, Why>
    ensures { result ≡ cut_line (texts_of words.now) }
{
    match words {
        [now] => cut_now(now),
        [write, k, left, scar] => armed(write, k, left, scar),
        _ => Err(Why::Shape),
    }
}

fn cut_now(now: &[u8]) -> Result<Line, Why>
    ensures { result ≡ cut_line (now.now ∷ []) }
{
    fixed(b"now", now)?;
    Ok(happens(World::Cut))
}

#[tactic(auto, unfolding(crate::specs::Grammar::armed))]
fn armed(write: &[u8], k: &[u8], left: &[u8], scar: &[u8]) -> Result<Line, Why>
    ensures { result ≡ armed write.now k.now left.now scar.now }
{
    fixed(b"write", write)?;
    let left = left_of(left)?;
    let k = number_of(1, u64::from(u32::MAX), k)? as u32;
    let scar = number_of(0, 9478, scar)? as u16;
    Ok(happens(World::Arm {
        k,
        tear: Tear { left, scar },
    }))
}

fn left_of(word: &[u8]) -> Result<Left, Why>
    ensures { result ≡ left_of word.now }
{
    if word == b"old".as_slice() {
        Ok(Left::Old)
    } else if word == b"new".as_slice() {
        Ok(Left::New)
    } else if word == b"none".as_slice() {
        Ok(Left::Nothing)
    } else {
        Err(Why::Shape)
    }
}

fn minutes_line(words: &[&[u8]]) -> Result<Line, Why>
    ensures { result ≡ minutes_line (texts_of words.now) }
{
    match words {
        [n] => minutes_of(n),
        _ => Err(Why::Shape),
    }
}

fn minutes_of(n: &[u8]) -> Result<Line, Why>
    ensures { result ≡ minutes_line (n.now ∷ []) }
{
    let minutes = number_of(0, 65535, n)?;
    Ok(happens(World::Minutes(minutes as u16)))
}
