//! Reading an entry. More is taken than what is printed, since the line that is read is compared with the print. An entry is
//! large, so each reader puts it behind those before in place of handing it up.
ghost use Rattle.std.specs.Prelude.{◌≡◌, ◌∷◌, [], option_map};
ghost use Rattle.text_words.specs.Line.{texts_of};
ghost use Rattle.report_text.specs.Answers.{Adds};
ghost use Rattle.report_text.specs.Fields.{lone_number};
ghost use Rattle.report_text.specs.Findings.{finding_of};
ghost use Rattle.report_text.specs.EntryReading.{entry_form, arrived, arrived_words, get_words, put_words, who_of, harden_words, pass_words, lose_words, page_words, end_words, function_of, func_words, flag_of, mode_words, seen_of, scanned_words, logged_words, recovered_of, on_words, cut_words, tick_words, entry_of, entry_from};

use crate::fault::LineFault;
use crate::fields::{
    attribute_of, block_of, byte_of, bytes_of, command_of, initiator_of, lone_number, minutes_of,
    number_of, page_of, sense_of, sent_of, tag_of,
};
use crate::form::EntryForm;
use block_machine::{Entries, Entry, Recovered, Seen, Who};
use disk_base::{Cdb, Function, Lba, Value};
use mode_pages::Settings;
use scan_log::Finding;
use sense_data::Reply;
use sense_data::codes::{
    RECOVERED_AND_REALLOCATED, RECOVERED_RECOMMEND_REASSIGNMENT, UNRECOVERED_READ_ERROR,
};
use std::alloc::Global;
use text_words::{read_byte, read_value};

/// Puts the entry that words give behind those before, where so many minutes have passed since the power came on.
pub fn push_entry(
    alloc: Global,
    minutes: u32,
    words: &[&[u8]],
    entries: &mut Entries,
) -> Result<(), LineFault>
    ensures { Adds entries.old entries.new result (entry_from minutes (texts_of words.now)) }
{
    match words {
        [] => Err(LineFault::Unreadable),
        [first, rest @ ..] => push_behind(alloc, minutes, first, rest, entries),
    }
}

fn push_behind(
    alloc: Global,
    minutes: u32,
    first: &[u8],
    words: &[&[u8]],
    entries: &mut Entries,
) -> Result<(), LineFault>
    ensures { Adds entries.old entries.new result (entry_from minutes (first.now ∷ texts_of words.now)) }
{
    let form = entry_form(first).ok_or(LineFault::Unreadable)?;
    push_of(alloc, minutes, form, words, entries)
}

/// The form of an entry, by its first word.
#[tactic(auto, unfolding(crate::specs::EntryReading::entry_form))]
fn entry_form(first: &[u8]) -> Option<EntryForm>
    ensures { result ≡ entry_form first.now }
{
    if first == b"start".as_slice() {
        Some(EntryForm::Started)
    } else if first == b"get".as_slice() {
        Some(EntryForm::Get)
    } else if first == b"put".as_slice() {
        Some(EntryForm::Put)
    } else if first == b"hard".as_slice() {
        Some(EntryForm::Harden)
    } else if first == b"end".as_slice() {
        Some(EntryForm::Ended)
    } else if first == b"in".as_slice() {
        Some(EntryForm::Arrived)
    } else if first == b"pass".as_slice() {
        Some(EntryForm::Passed)
    } else if first == b"lose".as_slice() {
        Some(EntryForm::GiveUp)
    } else if first == b"page".as_slice() {
        Some(EntryForm::Page)
    } else if first == b"gone".as_slice() {
        Some(EntryForm::Aborted)
    } else if first == b"func".as_slice() {
        Some(EntryForm::Asked)
    } else if first == b"mode".as_slice() {
        Some(EntryForm::Mode)
    } else if first == b"scanned".as_slice() {
        Some(EntryForm::Scanned)
    } else if first == b"logged".as_slice() {
        Some(EntryForm::Logged)
    } else if first == b"cut".as_slice() {
        Some(EntryForm::Cut)
    } else if first == b"on".as_slice() {
        Some(EntryForm::PoweredOn)
    } else if first == b"tick".as_slice() {
        Some(EntryForm::Tick)
    } else if first == b"blank".as_slice() {
        Some(EntryForm::Blank)
    } else if first == b"fresh".as_slice() {
        Some(EntryForm::Fresh)
    } else {
        None
    }
}

// Puts the entry of a form, by the words behind the first.
fn push_of(
    alloc: Global,
    minutes: u32,
    form: EntryForm,
    words: &[&[u8]],
    entries: &mut Entries,
) -> Result<(), LineFault>
    ensures { Adds entries.old entries.new result (entry_of minutes form (texts_of words.now)) }
{
    match form {
        EntryForm::Arrived => arrived_words(alloc, words, entries),
        EntryForm::Page => page_words(alloc, words, entries),
        EntryForm::Started => started(words, entries),
        EntryForm::Get => get_words(words, entries),
        EntryForm::Put => put_words(words, entries),
        EntryForm::Harden => harden_words(words, entries),
        EntryForm::Passed => pass_words(words, entries),
        EntryForm::GiveUp => lose_words(words, entries),
        EntryForm::Ended => end_words(words, entries),
        EntryForm::Aborted => aborted(words, entries),
        EntryForm::Asked => func_words(words, entries),
        EntryForm::Mode => mode_words(words, entries),
        EntryForm::Scanned => scanned_words(words, entries),
        EntryForm::Logged => logged_words(minutes, words, entries),
        EntryForm::Cut => cut_words(words, entries),
        EntryForm::PoweredOn => on_words(words, entries),
        EntryForm::Tick => tick_words(words, entries),
        EntryForm::Blank => blank(words, entries),
        EntryForm::Fresh => fresh(words, entries),
    }
}

fn arrived_words(alloc: Global, words: &[&[u8]], entries: &mut Entries) -> Result<(), LineFault>
    ensures { Adds entries.old entries.new result (arrived_words (texts_of words.now)) }
{
    match words {
        [c, i, t, a, cdb, sent] => arrived(alloc, c, i, t, a, cdb, sent, entries),
        _ => Err(LineFault::Unreadable),
    }
}

#[tactic(auto, unfolding(crate::specs::EntryReading::arrived))]
fn arrived(
    alloc: Global,
    c: &[u8],
    i: &[u8],
    t: &[u8],
    a: &[u8],
    cdb: &[u8],
    sent: &[u8],
    entries: &mut Entries,
) -> Result<(), LineFault>
    ensures { Adds entries.old entries.new result (arrived c.now i.now t.now a.now cdb.now sent.now) }
{
    let c = command_of(c).ok_or(LineFault::Unreadable)?;
    let initiator = initiator_of(i).ok_or(LineFault::Unreadable)?;
    let tag = tag_of(t).ok_or(LineFault::Unreadable)?;
    let block = bytes_of(alloc, cdb)?;
    let cdb = Cdb::new(block.as_slice()).ok_or(LineFault::Unreadable)?;
    let sent = sent_of(alloc, sent)?;
    entries.push(Entry::Arrived {
        c,
        initiator,
        tag,
        attribute: attribute_of(a),
        cdb,
        sent,
    })?;
    Ok(())
}

fn page_words(alloc: Global, words: &[&[u8]], entries: &mut Entries) -> Result<(), LineFault>
    ensures { Adds entries.old entries.new result (page_words (texts_of words.now)) }
{
    match words {
        [c, bytes] => page_entry(alloc, c, bytes, entries),
        _ => Err(LineFault::Unreadable),
    }
}

fn page_entry(alloc: Global, c: &[u8], word: &[u8], entries: &mut Entries) -> Result<(), LineFault>
    ensures { Adds entries.old entries.new result (page_words (c.now ∷ word.now ∷ [])) }
{
    let c = command_of(c).ok_or(LineFault::Unreadable)?;
    let bytes = page_of(alloc, word)?;
    entries.push(Entry::Page { c, bytes })?;
    Ok(())
}

fn started(words: &[&[u8]], entries: &mut Entries) -> Result<(), LineFault>
    ensures { Adds entries.old entries.new result (option_map Entry.Started (lone_number (texts_of words.now))) }
{
    let c = lone_number(words).ok_or(LineFault::Unreadable)?;
    entries.push(Entry::Started { c })?;
    Ok(())
}

fn aborted(words: &[&[u8]], entries: &mut Entries) -> Result<(), LineFault>
    ensures { Adds entries.old entries.new result (option_map Entry.Aborted (lone_number (texts_of words.now))) }
{
    let c = lone_number(words).ok_or(LineFault::Unreadable)?;
    entries.push(Entry::Aborted { c })?;
    Ok(())
}

fn blank(words: &[&[u8]], entries: &mut Entries) -> Result<(), LineFault>
    ensures { Adds entries.old entries.new result (option_map Entry.Blank (lone_number (texts_of words.now))) }
{
    let c = lone_number(words).ok_or(LineFault::Unreadable)?;
    entries.push(Entry::Blank { c })?;
    Ok(())
}

fn fresh(words: &[&[u8]], entries: &mut Entries) -> Result<(), LineFault>
    ensures { Adds entries.old entries.new result (option_map Entry.Fresh (lone_number (texts_of words.now))) }
{
    let c = lone_number(words).ok_or(LineFault::Unreadable)?;
    entries.push(Entry::Fresh { c })?;
    Ok(())
}

fn get_words(words: &[&[u8]], entries: &mut Entries) -> Result<(), LineFault>
    ensures { Adds entries.old entries.new result (get_words (texts_of words.now)) }
{
    match words {
        [c, b, v] => get_entry(c, b, v, entries),
        _ => Err(LineFault::Unreadable),
    }
}

fn get_entry(c: &[u8], b: &[u8], v: &[u8], entries: &mut Entries) -> Result<(), LineFault>
    ensures { Adds entries.old entries.new result (get_words (c.now ∷ b.now ∷ v.now ∷ [])) }
{
    let c = command_of(c).ok_or(LineFault::Unreadable)?;
    let b = block_of(b).ok_or(LineFault::Unreadable)?;
    match read_value(v) {
        Some(value) => {
            entries.push(Entry::Get { c, b, value })?;
            Ok(())
        }
        None => Err(LineFault::Unreadable),
    }
}

fn put_words(words: &[&[u8]], entries: &mut Entries) -> Result<(), LineFault>
    ensures { Adds entries.old entries.new result (put_words (texts_of words.now)) }
{
    match words {
        [c, b, v] => put_entry(c, b, v, entries),
        _ => Err(LineFault::Unreadable),
    }
}

fn put_entry(c: &[u8], b: &[u8], v: &[u8], entries: &mut Entries) -> Result<(), LineFault>
    ensures { Adds entries.old entries.new result (put_words (c.now ∷ b.now ∷ v.now ∷ [])) }
{
    let c = command_of(c).ok_or(LineFault::Unreadable)?;
    let b = block_of(b).ok_or(LineFault::Unreadable)?;
    match read_value(v) {
        Some(Value::Data(value)) => {
            entries.push(Entry::Put { c, b, value })?;
            Ok(())
        }
        _ => Err(LineFault::Unreadable),
    }
}

fn harden_words(words: &[&[u8]], entries: &mut Entries) -> Result<(), LineFault>
    ensures { Adds entries.old entries.new result (harden_words (texts_of words.now)) }
{
    match words {
        [who, b] => harden_entry(who, b, entries),
        _ => Err(LineFault::Unreadable),
    }
}

fn harden_entry(who: &[u8], b: &[u8], entries: &mut Entries) -> Result<(), LineFault>
    ensures { Adds entries.old entries.new result (harden_words (who.now ∷ b.now ∷ [])) }
{
    let who = who_of(who).ok_or(LineFault::Unreadable)?;
    let b = block_of(b).ok_or(LineFault::Unreadable)?;
    entries.push(Entry::Harden { who, b })?;
    Ok(())
}

fn who_of(word: &[u8]) -> Option<Who>
    ensures { result ≡ who_of word.now }
{
    if word == b"d".as_slice() {
        Some(Who::Drive)
    } else {
        Some(Who::Command(command_of(word)?))
    }
}

fn pass_words(words: &[&[u8]], entries: &mut Entries) -> Result<(), LineFault>
    ensures { Adds entries.old entries.new result (pass_words (texts_of words.now)) }
{
    match words {
        [c, from, to] => pass_entry(c, from, to, entries),
        _ => Err(LineFault::Unreadable),
    }
}

fn pass_entry(c: &[u8], from: &[u8], to: &[u8], entries: &mut Entries) -> Result<(), LineFault>
    ensures { Adds entries.old entries.new result (pass_words (c.now ∷ from.now ∷ to.now ∷ [])) }
{
    let c = command_of(c).ok_or(LineFault::Unreadable)?;
    let from = block_of(from).ok_or(LineFault::Unreadable)?;
    let to = block_of(to).ok_or(LineFault::Unreadable)?;
    entries.push(Entry::Passed { c, from, to })?;
    Ok(())
}

fn lose_words(words: &[&[u8]], entries: &mut Entries) -> Result<(), LineFault>
    ensures { Adds entries.old entries.new result (lose_words (texts_of words.now)) }
{
    match words {
        [b] => lose_entry(b, entries),
        _ => Err(LineFault::Unreadable),
    }
}

fn lose_entry(b: &[u8], entries: &mut Entries) -> Result<(), LineFault>
    ensures { Adds entries.old entries.new result (lose_words (b.now ∷ [])) }
{
    let b = block_of(b).ok_or(LineFault::Unreadable)?;
    entries.push(Entry::GiveUp { b })?;
    Ok(())
}

fn end_words(words: &[&[u8]], entries: &mut Entries) -> Result<(), LineFault>
    ensures { Adds entries.old entries.new result (end_words (texts_of words.now)) }
{
    match words {
        [c, ss] => end_plain(c, ss, entries),
        [c, ss, sense] => end_sense(c, ss, sense, entries),
        _ => Err(LineFault::Unreadable),
    }
}

fn end_plain(c: &[u8], ss: &[u8], entries: &mut Entries) -> Result<(), LineFault>
    ensures { Adds entries.old entries.new result (end_words (c.now ∷ ss.now ∷ [])) }
{
    let c = command_of(c).ok_or(LineFault::Unreadable)?;
    let status = read_byte(ss).ok_or(LineFault::Unreadable)?;
    entries.push(Entry::Ended {
        c,
        reply: Reply {
            status,
            sense: None,
        },
    })?;
    Ok(())
}

fn end_sense(c: &[u8], ss: &[u8], sense: &[u8], entries: &mut Entries) -> Result<(), LineFault>
    ensures { Adds entries.old entries.new result (end_words (c.now ∷ ss.now ∷ sense.now ∷ [])) }
{
    let c = command_of(c).ok_or(LineFault::Unreadable)?;
    let status = read_byte(ss).ok_or(LineFault::Unreadable)?;
    let sense = sense_of(sense).ok_or(LineFault::Unreadable)?;
    entries.push(Entry::Ended {
        c,
        reply: Reply {
            status,
            sense: Some(sense),
        },
    })?;
    Ok(())
}

fn function_of(word: &[u8]) -> Function
    ensures { result ≡ function_of word.now }
{
    if word == b"abortset".as_slice() {
        Function::AbortSet
    } else if word == b"clear".as_slice() {
        Function::Clear
    } else {
        Function::Reset
    }
}

fn func_words(words: &[&[u8]], entries: &mut Entries) -> Result<(), LineFault>
    ensures { Adds entries.old entries.new result (func_words (texts_of words.now)) }
{
    match words {
        [i, what] => func_plain(i, what, entries),
        [i, what, t] => func_abort(i, what, t, entries),
        _ => Err(LineFault::Unreadable),
    }
}

fn func_plain(i: &[u8], what: &[u8], entries: &mut Entries) -> Result<(), LineFault>
    ensures { Adds entries.old entries.new result (func_words (i.now ∷ what.now ∷ [])) }
{
    let initiator = initiator_of(i).ok_or(LineFault::Unreadable)?;
    entries.push(Entry::Asked {
        initiator,
        what: function_of(what),
    })?;
    Ok(())
}

fn func_abort(i: &[u8], _what: &[u8], t: &[u8], entries: &mut Entries) -> Result<(), LineFault>
    ensures { Adds entries.old entries.new result (func_words (i.now ∷ _what.now ∷ t.now ∷ [])) }
{
    let initiator = initiator_of(i).ok_or(LineFault::Unreadable)?;
    let tag = tag_of(t).ok_or(LineFault::Unreadable)?;
    entries.push(Entry::Asked {
        initiator,
        what: Function::Abort(tag),
    })?;
    Ok(())
}

fn flag_of(word: &[u8]) -> bool
    ensures { result ≡ flag_of word.now }
{
    word == b"1".as_slice()
}

fn mode_words(words: &[&[u8]], entries: &mut Entries) -> Result<(), LineFault>
    ensures { Adds entries.old entries.new result (mode_words (texts_of words.now)) }
{
    match words {
        [awre, arre, per, retry, wce, rcd, bms] => mode_entry(
            awre, arre, per, retry, wce, rcd, bms, entries,
        ),
        _ => Err(LineFault::Unreadable),
    }
}

fn mode_entry(
    awre: &[u8],
    arre: &[u8],
    per: &[u8],
    retry: &[u8],
    wce: &[u8],
    rcd: &[u8],
    bms: &[u8],
    entries: &mut Entries,
) -> Result<(), LineFault>
    ensures { Adds entries.old entries.new result (mode_words (awre.now ∷ arre.now ∷ per.now ∷ retry.now ∷ wce.now ∷ rcd.now ∷ bms.now ∷ [])) }
{
    let retry = byte_of(retry).ok_or(LineFault::Unreadable)?;
    entries.push(Entry::Mode {
        settings: Settings {
            awre: flag_of(awre),
            arre: flag_of(arre),
            per: flag_of(per),
            retry,
            wce: flag_of(wce),
            rcd: flag_of(rcd),
            bms: flag_of(bms),
        },
    })?;
    Ok(())
}

fn seen_of(word: &[u8]) -> Seen
    ensures { result ≡ seen_of word.now }
{
    if word == b"skipped".as_slice() {
        Seen::Skipped
    } else if word == b"light".as_slice() {
        Seen::Light
    } else if word == b"heavy".as_slice() {
        Seen::Heavy
    } else {
        Seen::Unread
    }
}

fn scanned_words(words: &[&[u8]], entries: &mut Entries) -> Result<(), LineFault>
    ensures { Adds entries.old entries.new result (scanned_words (texts_of words.now)) }
{
    match words {
        [b, what] => scanned_entry(b, what, entries),
        _ => Err(LineFault::Unreadable),
    }
}

fn scanned_entry(b: &[u8], what: &[u8], entries: &mut Entries) -> Result<(), LineFault>
    ensures { Adds entries.old entries.new result (scanned_words (b.now ∷ what.now ∷ [])) }
{
    let b = block_of(b).ok_or(LineFault::Unreadable)?;
    entries.push(Entry::Scanned {
        b,
        what: seen_of(what),
    })?;
    Ok(())
}

fn logged_words(minutes: u32, words: &[&[u8]], entries: &mut Entries) -> Result<(), LineFault>
    ensures { Adds entries.old entries.new result (logged_words minutes (texts_of words.now)) }
{
    match words {
        [status, b] => logged_entry(minutes, status, b, entries),
        _ => Err(LineFault::Unreadable),
    }
}

fn logged_entry(
    minutes: u32,
    status: &[u8],
    b: &[u8],
    entries: &mut Entries,
) -> Result<(), LineFault>
    ensures { Adds entries.old entries.new result (logged_words minutes (status.now ∷ b.now ∷ [])) }
{
    let status = byte_of(status).ok_or(LineFault::Unreadable)?;
    let b = block_of(b).ok_or(LineFault::Unreadable)?;
    let finding = finding_of(minutes, status, b).ok_or(LineFault::Unreadable)?;
    entries.push(Entry::Logged { finding })?;
    Ok(())
}

fn finding_of(minutes: u32, status: u8, b: Lba) -> Option<Finding>
    ensures { result ≡ finding_of minutes status b }
{
    let told = match status {
        1 => UNRECOVERED_READ_ERROR,
        2 => RECOVERED_AND_REALLOCATED,
        4 => RECOVERED_RECOMMEND_REASSIGNMENT,
        _ => return None,
    };
    Some(Finding {
        minutes,
        status,
        key: told.key,
        asc: told.asc,
        ascq: told.ascq,
        b,
    })
}

fn recovered_of(what: &[u8], n: &[u8]) -> Option<Recovered>
    ensures { result ≡ recovered_of what.now n.now }
{
    if what == b"ready".as_slice() {
        Some(Recovered::Ready(number_of(0, u64::MAX, n)?))
    } else if what == b"corrupt".as_slice() {
        Some(Recovered::Corrupt(byte_of(n)?))
    } else {
        Some(Recovered::Formatting(number_of(0, u64::MAX, n)?))
    }
}

fn on_words(words: &[&[u8]], entries: &mut Entries) -> Result<(), LineFault>
    ensures { Adds entries.old entries.new result (on_words (texts_of words.now)) }
{
    match words {
        [what, n] => on_entry(what, n, entries),
        _ => Err(LineFault::Unreadable),
    }
}

fn on_entry(what: &[u8], n: &[u8], entries: &mut Entries) -> Result<(), LineFault>
    ensures { Adds entries.old entries.new result (on_words (what.now ∷ n.now ∷ [])) }
{
    let outcome = recovered_of(what, n).ok_or(LineFault::Unreadable)?;
    entries.push(Entry::PoweredOn { outcome })?;
    Ok(())
}

fn cut_words(words: &[&[u8]], entries: &mut Entries) -> Result<(), LineFault>
    ensures { Adds entries.old entries.new result (cut_words (texts_of words.now)) }
{
    match words {
        [] => {
            entries.push(Entry::Cut)?;
            Ok(())
        }
        _ => Err(LineFault::Unreadable),
    }
}

fn tick_words(words: &[&[u8]], entries: &mut Entries) -> Result<(), LineFault>
    ensures { Adds entries.old entries.new result (tick_words (texts_of words.now)) }
{
    match words {
        [n] => tick_entry(n, entries),
        _ => Err(LineFault::Unreadable),
    }
}

fn tick_entry(n: &[u8], entries: &mut Entries) -> Result<(), LineFault>
    ensures { Adds entries.old entries.new result (tick_words (n.now ∷ [])) }
{
    let minutes = minutes_of(n).ok_or(LineFault::Unreadable)?;
    entries.push(Entry::Tick { minutes })?;
    Ok(())
}
