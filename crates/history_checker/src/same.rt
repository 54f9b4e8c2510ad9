//! When what a turn tells is what a line asks for.
ghost use Rattle.std.specs.Prelude.{◌≡◌};
ghost use Rattle.history_checker.specs.Same.{same_attribute, same_damage, same_data, same_effect, same_function, same_lasting, same_left, same_tear, same_world, tells};

use block_machine::Entry;
use disk_base::{Attribute, DataOut, Function};
use platter_model::{Damage, Effect, Lasting, Left, Tear, World};
use script_text::Line;

/// Whether the entry of an arrival tells the command or function of a line.
pub fn tells(entry: &Entry, line: &Line) -> bool
    ensures { result ≡ tells entry.now line.now }
{
    match (entry, line) {
        (
            Entry::Arrived {
                c: _,
                initiator: i,
                tag: t,
                attribute: a,
                cdb,
                sent,
            },
            Line::Command {
                initiator: j,
                tag: u,
                attribute: b,
                cdb: bytes,
                sent: data,
            },
        ) => {
            i.number() == j.number()
                && t.0 == u.0
                && same_attribute(a, b)
                && cdb.bytes() == bytes.bytes()
                && same_data(sent, data)
        }
        (
            Entry::Asked { initiator: i, what },
            Line::Function {
                initiator: j,
                what: asked,
            },
        ) => i.number() == j.number() && same_function(what, asked),
        _ => false,
    }
}

fn same_attribute(a: &Attribute, b: &Attribute) -> bool
    ensures { result ≡ same_attribute a.now b.now }
{
    match (a, b) {
        (Attribute::Simple, Attribute::Simple)
        | (Attribute::Ordered, Attribute::Ordered)
        | (Attribute::Head, Attribute::Head) => true,
        _ => false,
    }
}

fn same_data(a: &DataOut, b: &DataOut) -> bool
    ensures { result ≡ same_data a.now b.now }
{
    match (a, b) {
        (DataOut::Nothing, DataOut::Nothing) => true,
        (DataOut::Fill(a), DataOut::Fill(b)) => a == b,
        (DataOut::Given(a), DataOut::Given(b)) => a.as_slice() == b.as_slice(),
        _ => false,
    }
}

fn same_function(a: &Function, b: &Function) -> bool
    ensures { result ≡ same_function a.now b.now }
{
    match (a, b) {
        (Function::Abort(a), Function::Abort(b)) => a.0 == b.0,
        (Function::AbortSet, Function::AbortSet)
        | (Function::Clear, Function::Clear)
        | (Function::Reset, Function::Reset) => true,
        _ => false,
    }
}

/// Whether the same happens from outside.
pub fn same_world(a: &World, b: &World) -> bool
    ensures { result ≡ same_world a.now b.now }
{
    match (a, b) {
        (World::Damage(a), World::Damage(b)) => same_damage(a, b),
        (World::Fault(p), World::Fault(q)) => p.0 == q.0,
        (World::Cut, World::Cut) | (World::Power, World::Power) => true,
        (World::Arm { k, tear: a }, World::Arm { k: l, tear: b }) => k == l && same_tear(a, b),
        (World::Minutes(m), World::Minutes(n)) => m == n,
        _ => false,
    }
}

fn same_damage(a: &Damage, b: &Damage) -> bool
    ensures { result ≡ same_damage a.now b.now }
{
    a.p.0 == b.p.0
        && a.first == b.first
        && a.count == b.count
        && same_lasting(&a.lasting, &b.lasting)
        && same_effect(&a.effect, &b.effect)
}

fn same_lasting(a: &Lasting, b: &Lasting) -> bool
    ensures { result ≡ same_lasting a.now b.now }
{
    match (a, b) {
        (Lasting::Hard, Lasting::Hard)
        | (Lasting::Plus, Lasting::Plus)
        | (Lasting::Minus, Lasting::Minus) => true,
        (Lasting::Soft(m), Lasting::Soft(n)) => m == n,
        _ => false,
    }
}

fn same_effect(a: &Effect, b: &Effect) -> bool
    ensures { result ≡ same_effect a.now b.now }
{
    match (a, b) {
        (Effect::Drop, Effect::Drop) => true,
        (Effect::Add(m), Effect::Add(n)) => m == n,
        _ => false,
    }
}

fn same_tear(a: &Tear, b: &Tear) -> bool
    ensures { result ≡ same_tear a.now b.now }
{
    same_left(&a.left, &b.left) && a.scar == b.scar
}

fn same_left(a: &Left, b: &Left) -> bool
    ensures { result ≡ same_left a.now b.now }
{
    match (a, b) {
        (Left::Old, Left::Old) | (Left::New, Left::New) | (Left::Nothing, Left::Nothing) => true,
        _ => false,
    }
}
