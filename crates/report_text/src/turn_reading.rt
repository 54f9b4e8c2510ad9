//! Reading the line of a turn: its words are read as label, operations and entries, these are printed again, and the line is
//! that of the turn where the print is the line.
ghost use Rattle.std.specs.Prelude.{◌≡◌, ◌∷◌, ◌++◌, ◌+◌, ◌^◌, ◌<◌, ◌≤◌, [], List, ℕ, length, IfSome, IfOk, IfNone, IsSomeAnd, Some, None, Err};
ghost use Rattle.text_words.specs.Line.{spaced};
ghost use Rattle.text_words.specs.Written.{Writes};
ghost use Rattle.report_text.specs.Turns.{operation_words, marked_entry, entries_words};
ghost use Rattle.report_text.specs.Marks.{before_mark, from_mark, words_in};
ghost use Rattle.report_text.specs.Findings.{minutes_after};
ghost use Rattle.report_text.specs.LabelReading.{label_from};
ghost use Rattle.report_text.specs.Lines.{IsSplit, IsListed, IsFound, minutes_behind, AreEntries, AreShown, IsLineOf, IsTurn};
ghost use Rattle.report_text.specs.OperationReading.{shown_from};
ghost use Rattle.report_text.specs.EntryReading.{entry_from};
ghost use Rattle.report_text.specs.declared.shown.Shown.{Shown as ShownValue};
ghost use Rattle.block_machine.specs.declared.entry.Entry.{Entry as EntryValue};
ghost use Rattle.block_machine.specs.declared.turn.Turn.{Turn as TurnValue};

use crate::entry_reading::push_entry;
use crate::fault::LineFault;
use crate::label_reading::label_from;
use crate::operation_reading::shown_from;
use crate::shown::Shown;
use crate::turn::{put_first, put_label, put_marked, put_op};
use crate::words::{Words, behind_first, behind_word, front};
use block_machine::{Entries, Entry, Label, Turn};
use std::alloc::Global;
use text_words::{Compare, Out};

/// The turn of a number that a line is the line of, and the minutes behind it. So many operations were shown, and so many
/// minutes had passed, before.
pub fn read_turn(
    alloc: Global,
    number: u64,
    minutes: u32,
    from: u64,
    line: &[u8],
) -> Result<(Turn, u32), LineFault>
    requires { from + length line.now < 2 ^ 64 }
    ensures line { IfOk result (λ r. (shown : List ShownValue) × IsTurn minutes r.0 shown × IsLineOf number from line.now r.0 shown) }
    ensures minutes { IfOk result (λ r. r.1 ≡ minutes_behind minutes r.0.entries) }
    ensures bounded { IfOk result (λ r. r.0.ops_to ≤ from + length line.now) }
    ensures found { (turn : TurnValue) (shown : List ShownValue) → IsTurn minutes turn shown → IsLineOf number from line.now turn shown → IsFound result (λ r. r.0 ≡ turn) }
{
    let mut out = Compare::new(line);
    put_first(&mut out, number);
    let (label, words) = match next_label(behind_first(line)) {
        Some((label, words)) => (label, words),
        None => return Err(LineFault::Unreadable),
    };
    put_label(&mut out, &label);
    let (count, words) = match read_ops(&mut out, words) {
        Some((count, words)) => (count, words),
        None => return Err(LineFault::Unreadable),
    };
    match read_entries(alloc, minutes, &mut out, words) {
        Ok((entries, now)) => {
            if out.is_all() {
                let turn = Turn {
                    label,
                    ops_from: from,
                    ops_to: from + count,
                    entries,
                };
                Ok((turn, now))
            } else {
                Err(LineFault::Unreadable)
            }
        }
        Err(fault) => Err(fault),
    }
}

// The label at the front of words, and the words behind it.
fn next_label<'a>(words: Words<'a>) -> Option<(Label, Words<'a>)>
    ensures some { IfSome result (λ r. label_from (before_mark (words_in words.entry)) ≡ Some r.0) }
    ensures rest { IfSome result (λ r. words_in r.1 ≡ from_mark (words_in words.entry)) }
    ensures none { IfNone result (length (before_mark (words_in words.entry)) ≤ 8 → label_from (before_mark (words_in words.entry)) ≡ None) }
{
    match front(words) {
        Some((own, rest)) => match label_from(own.as_slice()) {
            Some(label) => Some((label, rest)),
            None => None,
        },
        None => None,
    }
}

// Reads operations, each behind its mark, and prints them again: how many they are, and the words behind them.
fn read_ops<'a, O: Out>(out: &mut O, words: Words<'a>) -> Option<(u64, Words<'a>)>
    requires { length (words_in words) < 2 ^ 64 }
    ensures few { IfSome result (λ r. r.0 ≤ length (words_in words.entry)) }
    ensures sound { IfSome result (λ r. (shown : List ShownValue) × (length shown ≡ r.0) × AreShown shown × Writes O.written out.old out.new (λ text. spaced text (operation_words shown))) }
    ensures found { (shown : List ShownValue) (more : List (List ℕ)) → IsSplit (words_in words.entry) shown more
        → IsSomeAnd result (λ r. (r.0 ≡ length shown) × (words_in r.1 ≡ more) × Writes O.written out.old out.new (λ text. spaced text (operation_words shown))) }
{
    let mut count = 0;
    let mut left = words;
    while let Some(behind) = behind_word(b"<", left) {
        match next_op(behind) {
            Some((shown, rest)) => {
                put_op(out, &shown);
                left = rest;
            }
            None => return None,
        }
        count += 1;
    }
    Some((count, left))
}

// Reads entries, each behind its mark, and prints them again: what they are, and the minutes behind them. So many minutes
// have passed before.
fn read_entries<'a, O: Out>(
    alloc: Global,
    minutes: u32,
    out: &mut O,
    words: Words<'a>,
) -> Result<(Entries, u32), LineFault>
    ensures written { IfOk result (λ r. Writes O.written out.old out.new (λ text. spaced text (entries_words r.0))) }
    ensures minutes { IfOk result (λ r. r.1 ≡ minutes_behind minutes r.0) }
    ensures proper { IfOk result (λ r. AreEntries minutes r.0) }
    ensures found { (entries : List EntryValue) → IsListed minutes (words_in words.entry) entries → IsFound result (λ r. r.0 ≡ entries) }
{
    let mut entries = Entries::new(alloc);
    let mut now = minutes;
    let mut left = words;
    while let Some(behind) = behind_word(b">", left) {
        match front(behind) {
            Some((own, rest)) => match push_entry(alloc, now, own.as_slice(), &mut entries) {
                Ok(()) => {
                    now = put_last(out, now, entries.as_slice());
                    left = rest;
                }
                Err(fault) => return Err(fault),
            },
            None => return Err(LineFault::Unreadable),
        }
    }
    Ok((entries, now))
}

// Prints the last entry again: the minutes behind it, where so many had passed before.
fn put_last<O: Out>(out: &mut O, minutes: u32, entries: &[Entry]) -> u32
    ensures written { (before : List EntryValue) (last : EntryValue) → entries.now ≡ before ++ last ∷ [] → Writes O.written out.old out.new (λ text. spaced text (marked_entry last)) }
    ensures minutes { (before : List EntryValue) (last : EntryValue) → entries.now ≡ before ++ last ∷ [] → result ≡ minutes_after minutes last }
{
    match entries {
        [.., last] => {
            put_marked(out, last);
            minutes_after(minutes, last)
        }
        [] => minutes,
    }
}

fn minutes_after(minutes: u32, entry: &Entry) -> u32
    ensures { result ≡ minutes_after minutes entry.now }
{
    match entry {
        Entry::Tick { minutes: more } => minutes.saturating_add(u32::from(*more)),
        Entry::PoweredOn { .. } => 0,
        _ => minutes,
    }
}

// The operation behind its mark, and the words behind it.
fn next_op<'a>(words: Words<'a>) -> Option<(Shown, Words<'a>)>
    ensures some { IfSome result (λ r. shown_from (before_mark (words_in words.entry)) ≡ Some r.0) }
    ensures rest { IfSome result (λ r. words_in r.1 ≡ from_mark (words_in words.entry)) }
    ensures none { IfNone result (length (before_mark (words_in words.entry)) ≤ 8 → shown_from (before_mark (words_in words.entry)) ≡ None) }
{
    match front(words) {
        Some((own, rest)) => match shown_from(own.as_slice()) {
            Some(shown) => Some((shown, rest)),
            None => None,
        },
        None => None,
    }
}
