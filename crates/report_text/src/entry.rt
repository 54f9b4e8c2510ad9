//! The text of an entry.
ghost use Rattle.std.specs.Prelude.{◌≡◌, ◌∷◌, [], ◌++◌, decimal};
ghost use Rattle.text_words.specs.Line.{spaced};
ghost use Rattle.text_words.specs.Written.{Writes};
ghost use Rattle.script_text.specs.Spelling.{attribute_word};
ghost use Rattle.report_text.specs.Entries.{who_word, page_word, sense_words, function_words, flag_word, settings_words, seen_word, recovered_words, entry_words};

use block_machine::{Entry, Recovered, Seen, Who};
use disk_base::{Attribute, Bytes, Function};
use mode_pages::Settings;
use sense_data::Sense;
use text_words::{Out, put_block, put_byte, put_hex, put_number, put_sent, put_value, put_word};

/// The words of an entry, each after a blank.
pub fn put_entry<O: Out>(out: &mut O, entry: &Entry)
    ensures { Writes O.written out.old out.new (λ text. spaced text (entry_words entry.now)) }
{
    match entry {
        Entry::Arrived {
            c,
            initiator,
            tag,
            attribute,
            cdb,
            sent,
        } => {
            put_of(out, b"in", *c);
            put_number(out, u64::from(initiator.number()));
            put_number(out, u64::from(tag.0));
            put_word(out, attribute_word(*attribute));
            put_hex(out, cdb.bytes());
            put_sent(out, sent);
        }
        Entry::Started { c } => put_of(out, b"start", *c),
        Entry::Get { c, b, value } => {
            put_of(out, b"get", *c);
            put_number(out, b.0);
            put_value(out, value);
        }
        Entry::Put { c, b, value } => {
            put_of(out, b"put", *c);
            put_number(out, b.0);
            put_block(out, value);
        }
        Entry::Harden { who, b } => {
            put_word(out, b"hard");
            put_who(out, *who);
            put_number(out, b.0);
        }
        Entry::Passed { c, from, to } => {
            put_of(out, b"pass", *c);
            put_number(out, from.0);
            put_number(out, to.0);
        }
        Entry::GiveUp { b } => {
            put_word(out, b"lose");
            put_number(out, b.0);
        }
        Entry::Page { c, bytes } => {
            put_of(out, b"page", *c);
            put_page(out, bytes);
        }
        Entry::Ended { c, reply } => {
            put_of(out, b"end", *c);
            put_byte(out, reply.status);
            put_sense(out, &reply.sense);
        }
        Entry::Aborted { c } => put_of(out, b"gone", *c),
        Entry::Asked { initiator, what } => {
            put_word(out, b"func");
            put_number(out, u64::from(initiator.number()));
            put_function(out, *what);
        }
        Entry::Mode { settings } => {
            put_word(out, b"mode");
            put_settings(out, settings);
        }
        Entry::Scanned { b, what } => {
            put_word(out, b"scanned");
            put_number(out, b.0);
            put_word(out, seen_word(*what));
        }
        Entry::Logged { finding } => {
            put_word(out, b"logged");
            put_number(out, u64::from(finding.status));
            put_number(out, finding.b.0);
        }
        Entry::Cut => put_word(out, b"cut"),
        Entry::PoweredOn { outcome } => {
            put_word(out, b"on");
            put_recovered(out, *outcome);
        }
        Entry::Tick { minutes } => {
            put_word(out, b"tick");
            put_number(out, u64::from(*minutes));
        }
        Entry::Blank { c } => put_of(out, b"blank", *c),
        Entry::Fresh { c } => put_of(out, b"fresh", *c),
    }
}

// A word and the number of a command.
fn put_of<O: Out>(out: &mut O, first: &[u8], c: u32)
    ensures { Writes O.written out.old out.new (λ text. spaced text (first.now ∷ decimal c ∷ [])) }
{
    put_word(out, first);
    put_number(out, u64::from(c));
}

fn attribute_word(attribute: Attribute) -> &'static [u8]
    ensures { result.now ≡ attribute_word attribute }
{
    match attribute {
        Attribute::Simple => b"S",
        Attribute::Ordered => b"O",
        Attribute::Head => b"H",
    }
}

fn put_who<O: Out>(out: &mut O, who: Who)
    ensures { Writes O.written out.old out.new (λ text. spaced text (who_word who ∷ [])) }
{
    match who {
        Who::Command(c) => put_number(out, u64::from(c)),
        Who::Drive => put_word(out, b"d"),
    }
}

fn put_page<O: Out>(out: &mut O, bytes: &Bytes)
    ensures { Writes O.written out.old out.new (λ text. spaced text (page_word bytes.now ∷ [])) }
{
    match bytes.as_slice() {
        [] => put_word(out, b"-"),
        some => put_hex(out, some),
    }
}

fn put_sense<O: Out>(out: &mut O, sense: &Option<Sense>)
    ensures { Writes O.written out.old out.new (λ text. spaced text (sense_words sense.now)) }
{
    match sense {
        Some(sense) => put_hex(out, &sense.bytes()),
        None => {}
    }
}

fn put_function<O: Out>(out: &mut O, what: Function)
    ensures { Writes O.written out.old out.new (λ text. spaced text (function_words what)) }
{
    match what {
        Function::Abort(tag) => {
            put_word(out, b"abort");
            put_number(out, u64::from(tag.0));
        }
        Function::AbortSet => put_word(out, b"abortset"),
        Function::Clear => put_word(out, b"clear"),
        Function::Reset => put_word(out, b"reset"),
    }
}

fn put_settings<O: Out>(out: &mut O, settings: &Settings)
    ensures { Writes O.written out.old out.new (λ text. spaced text (settings_words settings.now)) }
{
    put_word(out, flag_word(settings.awre));
    put_word(out, flag_word(settings.arre));
    put_word(out, flag_word(settings.per));
    put_number(out, u64::from(settings.retry));
    put_word(out, flag_word(settings.wce));
    put_word(out, flag_word(settings.rcd));
    put_word(out, flag_word(settings.bms));
}

fn flag_word(flag: bool) -> &'static [u8]
    ensures { result.now ≡ flag_word flag }
{
    if flag { b"1" } else { b"0" }
}

fn seen_word(what: Seen) -> &'static [u8]
    ensures { result.now ≡ seen_word what }
{
    match what {
        Seen::Skipped => b"skipped",
        Seen::Light => b"light",
        Seen::Heavy => b"heavy",
        Seen::Unread => b"unread",
    }
}

fn put_recovered<O: Out>(out: &mut O, outcome: Recovered)
    ensures { Writes O.written out.old out.new (λ text. spaced text (recovered_words outcome)) }
{
    match outcome {
        Recovered::Ready(number) => {
            put_word(out, b"ready");
            put_number(out, number);
        }
        Recovered::Corrupt(slot) => {
            put_word(out, b"corrupt");
            put_number(out, u64::from(slot));
        }
        Recovered::Formatting(number) => {
            put_word(out, b"formatting");
            put_number(out, number);
        }
    }
}
