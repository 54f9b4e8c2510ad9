//! Printing a script: its heading, then each line of its body in its form.
ghost use Rattle.std.specs.Prelude.{◌≡◌, [], ◌∷◌, ◌++◌, map, decimal, option_map, IfOk};
ghost use Rattle.text_words.specs.Line.{spaced};
ghost use Rattle.text_words.specs.Written.{Writes};
ghost use Rattle.script_text.specs.Measures.{measures_of};
ghost use Rattle.script_text.specs.Spelling.{joined, disk_words, primary_words, attribute_word, sent_words, function_words, effect_words, lasting_words, damage_words, armed_words, left_word, world_words, line_words};
ghost use Rattle.script_text.specs.Print.{text_of_lines, disk_lines, print_of};
ghost use Rattle.script_text.specs.Meaning.{asked_by};

use crate::Line;
use crate::script::Script;
use disk_base::{Attribute, Bytes, DataOut, Function, Initiator, NoMemory, Psn};
use geometry_map::Size;
use platter_model::{Damage, Effect, Lasting, Left, Tear, World};
use std::alloc::Global;
use text_words::{Out, ToMemory, put_hex, put_number, put_sent, put_signed, put_word};

/// The text of a script. That of a script that was read means the same script again, where it has no more lines than a
/// script may have: `scripts_read_again` says so of the definitions.
pub fn print(alloc: Global, script: &Script) -> Result<Bytes, NoMemory>
    ensures { IfOk result (λ text. text ≡ print_of (asked_by script.now)) }
{
    let mut out = ToMemory::new(alloc);
    put_script(&mut out, script);
    out.finish()
}

/// The text of a script, behind what was put before.
pub fn put_script<O: Out>(out: &mut O, script: &Script)
    ensures { Writes O.written out.old out.new (λ text. text ++ print_of (asked_by script.now)) }
{
    put_measures(out, &script.size);
    put_primary_list(out, script.primary.as_slice());
    put_lines(out, script.lines.as_slice());
}

fn put_measures<O: Out>(out: &mut O, size: &Option<Size>)
    ensures { Writes O.written out.old out.new (λ text. text ++ text_of_lines (disk_lines (option_map measures_of size.now))) }
{
    match size {
        Some(size) => put_size(out, size),
        None => {}
    }
}

fn put_size<O: Out>(out: &mut O, size: &Size)
    ensures { Writes O.written out.old out.new (λ text. joined text (disk_words (measures_of size.now)) ++ 10 ∷ []) }
{
    out.put(b"disk");
    put_number(out, u64::from(size.cylinders));
    put_number(out, u64::from(size.heads));
    put_number(out, u64::from(size.sectors));
    put_number(out, u64::from(size.reserved));
    out.put(b"\n");
}

fn put_primary_list<O: Out>(out: &mut O, sectors: &[Psn])
    ensures { Writes O.written out.old out.new (λ text. text ++ text_of_lines (map primary_words sectors.now)) }
{
    for p in sectors {
        put_primary(out, *p);
    }
}

fn put_primary<O: Out>(out: &mut O, p: Psn)
    ensures { Writes O.written out.old out.new (λ text. joined text (primary_words p) ++ 10 ∷ []) }
{
    out.put(b"primary");
    put_number(out, u64::from(p.0));
    out.put(b"\n");
}

fn put_lines<O: Out>(out: &mut O, lines: &[Line])
    ensures { Writes O.written out.old out.new (λ text. text ++ text_of_lines (map line_words lines.now)) }
{
    for line in lines {
        put_ended(out, line);
    }
}

fn put_ended<O: Out>(out: &mut O, line: &Line)
    ensures { Writes O.written out.old out.new (λ text. joined text (line_words line.now) ++ 10 ∷ []) }
{
    put_line(out, line);
    out.put(b"\n");
}

/// The words of a line of the body, without its end.
pub fn put_line<O: Out>(out: &mut O, line: &Line)
    ensures { Writes O.written out.old out.new (λ text. joined text (line_words line.now)) }
{
    match line {
        Line::Command {
            initiator,
            tag,
            attribute,
            cdb,
            sent,
        } => {
            out.put(b"cmd");
            put_number(out, u64::from(initiator.number()));
            put_number(out, u64::from(tag.0));
            put_word(out, attribute_word(*attribute));
            put_hex(out, cdb.bytes());
            put_data(out, sent);
        }
        Line::Function { initiator, what } => put_function(out, *initiator, *what),
        Line::Scan { count } => put_counted(out, b"scan", u64::from(*count)),
        Line::Destage { count } => put_counted(out, b"destage", u64::from(*count)),
        Line::Go => out.put(b"go"),
        Line::World { world } => put_world(out, world),
    }
}

fn put_counted<O: Out>(out: &mut O, first: &[u8], number: u64)
    ensures { Writes O.written out.old out.new (λ text. joined text (first.now ∷ decimal number ∷ [])) }
{
    out.put(first);
    put_number(out, number);
}

fn attribute_word(attribute: Attribute) -> &'static [u8]
    ensures { result.now ≡ attribute_word attribute }
{
    match attribute {
        Attribute::Simple => b"S",
        Attribute::Ordered => b"O",
        Attribute::Head => b"H",
    }
}

fn put_data<O: Out>(out: &mut O, sent: &DataOut)
    ensures { Writes O.written out.old out.new (λ text. spaced text (sent_words sent.now)) }
{
    match sent {
        DataOut::Nothing => {}
        DataOut::Fill(_) | DataOut::Given(_) => put_sent(out, sent),
    }
}

fn put_function<O: Out>(out: &mut O, initiator: Initiator, what: Function)
    ensures { Writes O.written out.old out.new (λ text. joined text (function_words initiator what)) }
{
    let number = u64::from(initiator.number());
    match what {
        Function::Abort(tag) => {
            put_counted(out, b"abort", number);
            put_number(out, u64::from(tag.0));
        }
        Function::AbortSet => put_counted(out, b"abortset", number),
        Function::Clear => put_counted(out, b"clear", number),
        Function::Reset => put_counted(out, b"reset", number),
    }
}

/// The words of a world line, without its end.
pub fn put_world<O: Out>(out: &mut O, world: &World)
    ensures { Writes O.written out.old out.new (λ text. joined text (world_words world.now)) }
{
    match world {
        World::Damage(damage) => put_damage(out, damage),
        World::Fault(p) => put_counted(out, b"fault", u64::from(p.0)),
        World::Cut => {
            out.put(b"cut");
            put_word(out, b"now");
        }
        World::Arm { k, tear } => put_arming(out, *k, tear),
        World::Power => out.put(b"power"),
        World::Minutes(count) => put_counted(out, b"minutes", u64::from(*count)),
    }
}

fn put_damage<O: Out>(out: &mut O, damage: &Damage)
    ensures { Writes O.written out.old out.new (λ text. joined text (damage_words damage.now)) }
{
    out.put(b"damage");
    put_number(out, u64::from(damage.p.0));
    put_number(out, u64::from(damage.first));
    put_number(out, u64::from(damage.count));
    put_lasting(out, damage.lasting);
    put_effect(out, damage.effect);
}

fn put_lasting<O: Out>(out: &mut O, lasting: Lasting)
    ensures { Writes O.written out.old out.new (λ text. spaced text (lasting_words lasting)) }
{
    match lasting {
        Lasting::Hard => put_word(out, b"hard"),
        Lasting::Soft(below) => {
            put_word(out, b"soft");
            put_number(out, u64::from(below));
        }
        Lasting::Plus => put_word(out, b"plus"),
        Lasting::Minus => put_word(out, b"minus"),
    }
}

fn put_effect<O: Out>(out: &mut O, effect: Effect)
    ensures { Writes O.written out.old out.new (λ text. spaced text (effect_words effect)) }
{
    match effect {
        Effect::Drop => put_word(out, b"drop"),
        Effect::Add(change) => {
            put_word(out, b"add");
            put_signed(out, i64::from(change));
        }
    }
}

fn put_arming<O: Out>(out: &mut O, k: u32, tear: &Tear)
    ensures { Writes O.written out.old out.new (λ text. joined text (armed_words k tear.now)) }
{
    out.put(b"cut");
    put_word(out, b"write");
    put_number(out, u64::from(k));
    put_word(out, left_word(tear.left));
    put_number(out, u64::from(tear.scar));
}

fn left_word(left: Left) -> &'static [u8]
    ensures { result.now ≡ left_word left }
{
    match left {
        Left::Old => b"old",
        Left::New => b"new",
        Left::Nothing => b"none",
    }
}
