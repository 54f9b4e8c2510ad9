//! Lines `damage P F L LASTING EFFECT`.
ghost use Rattle.std.specs.Prelude.{◌≡◌, ◌≤◌, [], ◌∷◌};
ghost use Rattle.text_words.specs.Line.{texts_of};
ghost use Rattle.script_text.specs.Grammar.{damage_line, plain_drop, soft_drop, plain_add, soft_add, damage_at, plain_lasting, soft_lasting, added, fixed};

use crate::numbers::{change_of, number_of, sector_of};
use crate::{Line, Why};
use platter_model::{Damage, Effect, Lasting, World};

/// Samples of a sector.
const SAMPLES: u64 = 9478;

/// `damage P F L LASTING EFFECT`, on a drive of `total` sectors.
pub fn damage_line(total: u32, words: &[&[u8]]) -> Result<Line, Why>
    requires { 1 ≤ total }
    ensures { result ≡ damage_line total (texts_of words.now) }
{
    match words {
        [p, f, l, a, b] => plain_drop(total, p, f, l, a, b),
        [p, f, l, a, b, c] => six_words(total, p, f, l, a, b, c),
        [p, f, l, a, b, c, d] => soft_add(total, p, f, l, a, b, c, d),
        _ => Err(Why::Shape),
    }
}

fn six_words(
    total: u32,
    p: &[u8],
    f: &[u8],
    l: &[u8],
    a: &[u8],
    b: &[u8],
    c: &[u8],
) -> Result<Line, Why>
    requires { 1 ≤ total }
    ensures { result ≡ damage_line total (p.now ∷ f.now ∷ l.now ∷ a.now ∷ b.now ∷ c.now ∷ []) }
{
    if a == b"soft".as_slice() {
        soft_drop(total, p, f, l, b, c)
    } else {
        plain_add(total, p, f, l, a, b, c)
    }
}

// `LASTING drop` behind the samples.
#[tactic(auto, unfolding(crate::specs::Grammar::plain_drop))]
fn plain_drop(
    total: u32,
    p: &[u8],
    f: &[u8],
    l: &[u8],
    lasting: &[u8],
    effect: &[u8],
) -> Result<Line, Why>
    requires { 1 ≤ total }
    ensures { result ≡ plain_drop total p.now f.now l.now lasting.now effect.now }
{
    let lasting = plain_lasting(lasting)?;
    fixed(b"drop", effect)?;
    damage_at(total, p, f, l, lasting, Effect::Drop)
}

// `soft N drop` behind the samples.
#[tactic(auto, unfolding(crate::specs::Grammar::soft_drop))]
fn soft_drop(total: u32, p: &[u8], f: &[u8], l: &[u8], n: &[u8], effect: &[u8]) -> Result<Line, Why>
    requires { 1 ≤ total }
    ensures { result ≡ soft_drop total p.now f.now l.now n.now effect.now }
{
    fixed(b"drop", effect)?;
    let lasting = soft_lasting(n)?;
    damage_at(total, p, f, l, lasting, Effect::Drop)
}

// `LASTING add D` behind the samples.
#[tactic(auto, unfolding(crate::specs::Grammar::plain_add))]
fn plain_add(
    total: u32,
    p: &[u8],
    f: &[u8],
    l: &[u8],
    lasting: &[u8],
    effect: &[u8],
    d: &[u8],
) -> Result<Line, Why>
    requires { 1 ≤ total }
    ensures { result ≡ plain_add total p.now f.now l.now lasting.now effect.now d.now }
{
    let lasting = plain_lasting(lasting)?;
    fixed(b"add", effect)?;
    let change = change_of(d)?;
    damage_at(total, p, f, l, lasting, Effect::Add(change))
}

// `soft N add D` behind the samples.
#[tactic(auto, unfolding(crate::specs::Grammar::soft_add))]
fn soft_add(
    total: u32,
    p: &[u8],
    f: &[u8],
    l: &[u8],
    lasting: &[u8],
    n: &[u8],
    effect: &[u8],
    d: &[u8],
) -> Result<Line, Why>
    requires { 1 ≤ total }
    ensures { result ≡ soft_add total p.now f.now l.now lasting.now n.now effect.now d.now }
{
    fixed(b"soft", lasting)?;
    fixed(b"add", effect)?;
    let lasting = soft_lasting(n)?;
    let change = change_of(d)?;
    damage_at(total, p, f, l, lasting, Effect::Add(change))
}

// Which samples of which sector; they end within the sector's.
#[tactic(auto, unfolding(crate::specs::Grammar::damage_at))]
fn damage_at(
    total: u32,
    p: &[u8],
    f: &[u8],
    l: &[u8],
    lasting: Lasting,
    effect: Effect,
) -> Result<Line, Why>
    requires { 1 ≤ total }
    ensures { result ≡ damage_at total p.now f.now l.now lasting effect }
{
    let p = sector_of(0, total, p)?;
    let first = number_of(0, SAMPLES, f)?;
    let count = number_of(1, SAMPLES, l)?;
    if first + count > SAMPLES {
        return Err(Why::Number);
    }
    let damage = Damage {
        p,
        first: first as u16,
        count: count as u16,
        lasting,
        effect,
    };
    Ok(Line::World {
        world: World::Damage(damage),
    })
}

fn plain_lasting(word: &[u8]) -> Result<Lasting, Why>
    ensures { result ≡ plain_lasting word.now }
{
    if word == b"hard".as_slice() {
        Ok(Lasting::Hard)
    } else if word == b"plus".as_slice() {
        Ok(Lasting::Plus)
    } else if word == b"minus".as_slice() {
        Ok(Lasting::Minus)
    } else {
        Err(Why::Shape)
    }
}

fn soft_lasting(n: &[u8]) -> Result<Lasting, Why>
    ensures { result ≡ soft_lasting n.now }
{
    let below = number_of(1, 255, n)?;
    Ok(Lasting::Soft(below as u8))
}

/// This word has to stand here.
pub fn fixed(wanted: &[u8], word: &[u8]) -> Result<(), Why>
    ensures { result ≡ fixed wanted.now word.now }
{
    if word == wanted {
        Ok(())
    } else {
        Err(Why::Shape)
    }
}
