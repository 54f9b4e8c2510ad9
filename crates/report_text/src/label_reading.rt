//! Reading a label. More is taken than what is printed, since the line that is read is compared with the print; but the numbers
//! of a world line are those that some drive allows.
ghost use Rattle.std.specs.Prelude.{◌≡◌, ◌∷◌, []};
ghost use Rattle.text_words.specs.Line.{texts_of};
ghost use Rattle.report_text.specs.Steps.{of_none};
ghost use Rattle.report_text.specs.LabelReading.{label_form, lasting_of, effect_of, damage_of, damage_words, fault_words, cut_words, minutes_words, arrive_words, label_by, label_from};

use crate::fields::{
    initiator_of, left_of, lone_number, minutes_of, number_of, sector_of, signed_of,
};
use crate::form::LabelForm;
use block_machine::Label;
use platter_model::{Damage, Effect, Lasting, Tear, World};

// The last sector of the greatest drive.
const LAST_SECTOR: u32 = 4095;

// The first sector behind those of the map.
const FIRST_USED: u32 = 16;

// Samples of a sector.
const SAMPLES: u64 = 9478;

/// The label that words give.
pub fn label_from(words: &[&[u8]]) -> Option<Label>
    ensures { result ≡ label_from (texts_of words.now) }
{
    match words {
        [] => None,
        [first, rest @ ..] => label_behind(first, rest),
    }
}

fn label_behind(first: &[u8], words: &[&[u8]]) -> Option<Label>
    ensures { result ≡ label_from (first.now ∷ texts_of words.now) }
{
    let form = label_form(first)?;
    label_by(form, words)
}

/// The form of a label, by its first word.
#[tactic(auto, unfolding(crate::specs::LabelReading::label_form))]
fn label_form(first: &[u8]) -> Option<LabelForm>
    ensures { result ≡ label_form first.now }
{
    if first == b"work".as_slice() {
        Some(LabelForm::Work)
    } else if first == b"arrive".as_slice() {
        Some(LabelForm::Arrive)
    } else if first == b"job".as_slice() {
        Some(LabelForm::Job)
    } else if first == b"scan".as_slice() {
        Some(LabelForm::Scan)
    } else if first == b"destage".as_slice() {
        Some(LabelForm::Destage)
    } else if first == b"damage".as_slice() {
        Some(LabelForm::Damage)
    } else if first == b"fault".as_slice() {
        Some(LabelForm::Fault)
    } else if first == b"cut".as_slice() {
        Some(LabelForm::Cut)
    } else if first == b"power".as_slice() {
        Some(LabelForm::Power)
    } else if first == b"minutes".as_slice() {
        Some(LabelForm::Minutes)
    } else {
        None
    }
}

// The label of a form, by the words behind the first.
fn label_by(form: LabelForm, words: &[&[u8]]) -> Option<Label>
    ensures { result ≡ label_by form (texts_of words.now) }
{
    match form {
        LabelForm::Arrive => arrive_words(words),
        LabelForm::Work => Some(Label::Work(lone_number(words)?)),
        LabelForm::Job => Some(Label::Job(lone_number(words)?)),
        LabelForm::Scan => lone(Label::Scan, words),
        LabelForm::Destage => lone(Label::Destage, words),
        LabelForm::Damage => damage_words(words),
        LabelForm::Fault => fault_words(words),
        LabelForm::Cut => cut_words(words),
        LabelForm::Power => lone(Label::World(World::Power), words),
        LabelForm::Minutes => minutes_words(words),
    }
}

fn lone(label: Label, words: &[&[u8]]) -> Option<Label>
    ensures { result ≡ of_none label (texts_of words.now) }
{
    match words {
        [] => Some(label),
        _ => None,
    }
}

fn arrive_words(words: &[&[u8]]) -> Option<Label>
    ensures { result ≡ arrive_words (texts_of words.now) }
{
    match words {
        [i] => arrive(i),
        _ => None,
    }
}

fn arrive(i: &[u8]) -> Option<Label>
    ensures { result ≡ arrive_words (i.now ∷ []) }
{
    Some(Label::Arrive(initiator_of(i)?))
}

fn minutes_words(words: &[&[u8]]) -> Option<Label>
    ensures { result ≡ minutes_words (texts_of words.now) }
{
    match words {
        [n] => minutes(n),
        _ => None,
    }
}

fn minutes(n: &[u8]) -> Option<Label>
    ensures { result ≡ minutes_words (n.now ∷ []) }
{
    Some(Label::World(World::Minutes(minutes_of(n)?)))
}

fn fault_words(words: &[&[u8]]) -> Option<Label>
    ensures { result ≡ fault_words (texts_of words.now) }
{
    match words {
        [p] => fault(p),
        _ => None,
    }
}

fn fault(p: &[u8]) -> Option<Label>
    ensures { result ≡ fault_words (p.now ∷ []) }
{
    Some(Label::World(World::Fault(sector_of(FIRST_USED, LAST_SECTOR, p)?)))
}

fn cut_words(words: &[&[u8]]) -> Option<Label>
    ensures { result ≡ cut_words (texts_of words.now) }
{
    match words {
        [_] => Some(Label::World(World::Cut)),
        [write, k, left, scar] => armed(write, k, left, scar),
        _ => None,
    }
}

fn armed(write: &[u8], k: &[u8], left: &[u8], scar: &[u8]) -> Option<Label>
    ensures { result ≡ cut_words (write.now ∷ k.now ∷ left.now ∷ scar.now ∷ []) }
{
    let _ = write;
    let k = number_of(1, u64::from(u32::MAX), k)? as u32;
    let scar = number_of(0, SAMPLES, scar)? as u16;
    Some(Label::World(World::Arm {
        k,
        tear: Tear {
            left: left_of(left),
            scar,
        },
    }))
}

fn damage_words(words: &[&[u8]]) -> Option<Label>
    ensures { result ≡ damage_words (texts_of words.now) }
{
    match words {
        [p, f, l, a, b] => damage_of(p, f, l, a, b, b),
        [p, f, l, a, b, last] => damage_of(p, f, l, a, b, last),
        [p, f, l, a, b, _, last] => damage_of(p, f, l, a, b, last),
        _ => None,
    }
}

// Which samples of which sector; they end within the sector's. How long the damage lasts is told by two words, what it does
// by the last.
#[tactic(auto, unfolding(crate::specs::LabelReading::damage_of))]
fn damage_of(p: &[u8], f: &[u8], l: &[u8], kind: &[u8], behind: &[u8], last: &[u8]) -> Option<Label>
    ensures { result ≡ damage_of p.now f.now l.now kind.now behind.now last.now }
{
    let p = sector_of(0, LAST_SECTOR, p)?;
    let first = number_of(0, SAMPLES, f)?;
    let count = number_of(1, SAMPLES, l)?;
    if first + count > SAMPLES {
        return None;
    }
    let lasting = lasting_of(kind, behind)?;
    let effect = effect_of(last)?;
    Some(Label::World(World::Damage(Damage {
        p,
        first: first as u16,
        count: count as u16,
        lasting,
        effect,
    })))
}

fn lasting_of(kind: &[u8], behind: &[u8]) -> Option<Lasting>
    ensures { result ≡ lasting_of kind.now behind.now }
{
    if kind == b"hard".as_slice() {
        Some(Lasting::Hard)
    } else if kind == b"plus".as_slice() {
        Some(Lasting::Plus)
    } else if kind == b"minus".as_slice() {
        Some(Lasting::Minus)
    } else {
        Some(Lasting::Soft(number_of(1, 255, behind)? as u8))
    }
}

fn effect_of(last: &[u8]) -> Option<Effect>
    ensures { result ≡ effect_of last.now }
{
    if last == b"drop".as_slice() {
        Some(Effect::Drop)
    } else {
        Some(Effect::Add(signed_of(127, 1, 127, last)?))
    }
}
