ghost use Rattle.std.specs.Prelude.{◌≡◌, ◌≤◌, nat_lt, OnOk, IfOk};
ghost use Rattle.std.specs.List.{list_all, list_any};
ghost use Rattle.text_words.specs.Line.{texts_of};
ghost use Rattle.script_text.specs.Answers.{Leads};
ghost use Rattle.script_text.specs.Measures.{measures_of, total_of};
ghost use Rattle.script_text.specs.Standing.{drive_of, capacity_of, with_measures, with_primary, with_line, with_words, with_all_words, with_content, with_text, takes_primary, is_world, within_lines, is_empty, is_printable, is_comment};
ghost use Rattle.script_text.specs.Meaning.{asked_by, asked_at_end};

use crate::Why;
use crate::body::{form_of, line_of};
use crate::fault::LineFault;
use crate::heading::{disk_of, primary_of};
use crate::phase::Phase;
use crate::script::{Line, Lines, PRIMARY_MAX, Script};
use crate::served::is_served;
use crate::weight::weight_of;
use arrayvec::ArrayVec;
use disk_base::{NoMemory, Psn};
use geometry_map::Size;
use std::alloc::Global;
use std::marker::Model;
use text_words::read_words;

/// The most lines of a script.
pub const LINES_MAX: u32 = 65536;

/// The most that the lines of a script may weigh.
pub const WEIGHT_MAX: u64 = 60000;

/// The most words of a line.
const WORDS_MAX: usize = 8;

/// Sectors of a drive whose script has no `disk` line.
const DEFAULT_TOTAL: u32 = 1024;

/// Sectors that it keeps back.
const DEFAULT_RESERVED: u16 = 96;

/// Where the reading of a script stands.
#[derive(Drop)]
pub struct Standing {
    alloc: Global,
    size: Option<Size>,
    primary: ArrayVec<Psn, PRIMARY_MAX>,
    lines: Lines,
    phase: Phase,
    weight: u64,
}

impl Model for Standing {
    ghost use Rattle.std.specs.Prelude.{option_map, ◌≤◌};
    ghost use Rattle.script_text.specs.Measures.{measures_of};
    ghost use Rattle.script_text.specs.Standing.{Reading};

    ghost Value = { Reading };

    ghost view = { λ s. record { measures = option_map measures_of s.size; primary = s.primary.items; lines = s.lines; waiting = s.phase; weight = s.weight } };

    ghost invariant = { λ s. s.weight ≤ 60000 };
}

impl Standing {
    ghost use Rattle.script_text.specs.Standing.{at_start};

    /// Before the first line.
    pub fn new(alloc: Global) -> Self
        ensures { result ≡ at_start }
    {
        Standing {
            alloc,
            size: None,
            primary: ArrayVec::new(),
            lines: Lines::new(alloc),
            phase: Phase::new(alloc),
            weight: 0,
        }
    }

    // Sectors of the drive.
    fn total(&self) -> u32
        ensures value { result ≡ total_of (drive_of self.now) }
        ensures some { 48 ≤ result }
    {
        match &self.size {
            Some(size) => size.total(),
            None => DEFAULT_TOTAL,
        }
    }

    // Sectors of the drive that are kept back.
    fn reserved(&self) -> u16
        ensures { result ≡ (drive_of self.now).reserved }
    {
        match &self.size {
            Some(size) => size.reserved,
            None => DEFAULT_RESERVED,
        }
    }

    // Blocks of the drive.
    fn capacity(&self) -> u64
        ensures { result ≡ capacity_of (drive_of self.now) }
    {
        match &self.size {
            Some(size) => size.capacity(),
            None => u64::from(DEFAULT_TOTAL) - 16 - u64::from(DEFAULT_RESERVED),
        }
    }

    // The `disk` line stands first.
    #[tactic(auto, unfolding(crate::specs::Standing::with_measures))]
    fn give_size(&mut self, number: u32, size: Size) -> Result<(), LineFault>
        ensures meaning { Leads result self.new (with_measures number self.old (measures_of size)) }
        ensures few { OnOk result (number ≤ 65536) }
    {
        if self.size.is_some() || !self.primary.is_empty() || !self.lines.as_slice().is_empty() {
            return Err(LineFault::Refused(Why::Place));
        }
        within_lines(number)?;
        self.size = Some(size);
        Ok(())
    }

    // `primary` lines stand before the body.
    #[tactic(auto, unfolding(crate::specs::Standing::with_primary))]
    fn give_primary(&mut self, number: u32, p: Psn) -> Result<(), LineFault>
        ensures meaning { Leads result self.new (with_primary number self.old p) }
        ensures few { OnOk result (number ≤ 65536) }
    {
        if !self.takes_primary(p) {
            return Err(LineFault::Refused(Why::Disk));
        }
        if !self.lines.as_slice().is_empty() {
            return Err(LineFault::Refused(Why::Place));
        }
        within_lines(number)?;
        self.primary.push(p);
        Ok(())
    }

    // Whether a primary defect may follow.
    fn takes_primary(&self, p: Psn) -> bool
        ensures { result ≡ takes_primary self.now p }
    {
        self.primary.len() < PRIMARY_MAX
            && self.primary.len() < usize::from(self.reserved())
            && are_below(self.primary.as_slice(), p)
    }

    // A line of the body.
    #[tactic(auto, unfolding(crate::specs::Standing::with_line))]
    fn give_line(&mut self, number: u32, line: Line) -> Result<(), LineFault>
        ensures meaning { Leads result self.new (with_line number self.old line) }
        ensures few { OnOk result (number ≤ 65536) }
    {
        if is_world(&line) && self.phase.waits() {
            return Err(LineFault::Refused(Why::Place));
        }
        let weight = weight_of(self.capacity(), &line);
        if !self.phase.take(&line)? {
            return Err(LineFault::Refused(Why::Tag));
        }
        if number > LINES_MAX || weight > WEIGHT_MAX - self.weight {
            return Err(LineFault::Refused(Why::Limit));
        }
        if !is_served(&line) {
            return Err(LineFault::Refused(Why::Later));
        }
        self.lines.push(line)?;
        self.weight += weight;
        Ok(())
    }

    // A line's words, the first apart.
    #[tactic(auto, unfolding(crate::specs::Standing::with_words))]
    fn take_words(&mut self, number: u32, first: &[u8], rest: &[&[u8]]) -> Result<(), LineFault>
        ensures meaning { Leads result self.new (with_words number self.old first.now (texts_of rest.now)) }
        ensures few { OnOk result (number ≤ 65536) }
    {
        if first == b"disk".as_slice() {
            let size = disk_of(rest)?;
            return self.give_size(number, size);
        }
        if first == b"primary".as_slice() {
            let p = primary_of(self.total(), rest)?;
            return self.give_primary(number, p);
        }
        let form = form_of(first).ok_or(Why::Shape)?;
        let line = line_of(self.alloc, self.total(), form, rest)?;
        self.give_line(number, line)
    }

    fn take_all_words(&mut self, number: u32, words: &[&[u8]]) -> Result<(), LineFault>
        ensures meaning { Leads result self.new (with_all_words number self.old (texts_of words.now)) }
        ensures few { OnOk result (number ≤ 65536) }
    {
        if has_empty_word(words) {
            return Err(LineFault::Refused(Why::Shape));
        }
        match words {
            [first, rest @ ..] => self.take_words(number, first, rest),
            [] => Err(LineFault::Refused(Why::Shape)),
        }
    }

    // A line of printable bytes.
    fn take_content(&mut self, number: u32, line: &[u8]) -> Result<(), LineFault>
        ensures meaning { Leads result self.new (with_content number self.old line.now) }
        ensures few { OnOk result (number ≤ 65536) }
    {
        if is_comment(line) {
            within_lines(number)?;
            return Ok(());
        }
        match read_words::<WORDS_MAX>(line) {
            Some(words) => self.take_all_words(number, words.as_slice()),
            None => Err(LineFault::Refused(Why::Shape)),
        }
    }

    /// Takes one more line, which has this number.
    #[tactic(auto, unfolding(crate::specs::Standing::with_text))]
    pub fn take(&mut self, number: u32, line: &[u8]) -> Result<(), LineFault>
        ensures meaning { Leads result self.new (with_text number self.old line.now) }
        ensures few { OnOk result (number ≤ 65536) }
    {
        if !is_printable_text(line) {
            return Err(LineFault::Refused(Why::Bytes));
        }
        self.take_content(number, line)
    }

    /// The script where the lines end here: what waits is carried out.
    pub fn finish(self) -> Result<Script, NoMemory>
        ensures { IfOk result (λ script. asked_by script ≡ asked_at_end self) }
    {
        let Standing {
            alloc: _,
            size,
            primary,
            mut lines,
            phase,
            weight: _,
        } = self;
        if phase.waits() {
            lines.push(Line::Go)?;
        }
        Ok(Script {
            size,
            primary,
            lines,
        })
    }
}

fn is_world(line: &Line) -> bool
    ensures { result ≡ is_world line.now }
{
    match line {
        Line::World { .. } => true,
        _ => false,
    }
}

// A line of this number isn't one too many.
fn within_lines(number: u32) -> Result<(), Why>
    ensures value { result ≡ within_lines number }
    ensures few { OnOk result (number ≤ 65536) }
{
    if number <= LINES_MAX {
        Ok(())
    } else {
        Err(Why::Limit)
    }
}

fn are_below(sectors: &[Psn], p: Psn) -> bool
    ensures { result ≡ list_all (λ q. nat_lt q.0 p.0) sectors.now }
{
    sectors.iter().all(|q| q.0 < p.0)
}

fn has_empty_word(words: &[&[u8]]) -> bool
    ensures { result ≡ list_any is_empty (texts_of words.now) }
{
    match words {
        [] => false,
        [first, rest @ ..] => first.is_empty() || has_empty_word(rest),
    }
}

fn is_printable_text(line: &[u8]) -> bool
    ensures { result ≡ list_all is_printable line.now }
{
    line.iter().all(|byte| 0x20 <= *byte && *byte <= 0x7E)
}

// An empty line and one that begins with `#` mean nothing.
fn is_comment(line: &[u8]) -> bool
    ensures { result ≡ is_comment line.now }
{
    match line {
        [] => true,
        [first, ..] => *first == b'#',
    }
}
