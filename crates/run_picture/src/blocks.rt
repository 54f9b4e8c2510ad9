//! The blocks that marks name.
ghost use Rattle.std.specs.Prelude.{◌≡◌, IfOk, OnOk};
ghost use Rattle.run_picture.specs.Blocks.{block_of_event, block_of_subject, block_of, is_in, with_block, blocks_of, place_of};

use crate::event::Event;
use crate::marks::Mark;
use crate::spans::Subject;
use disk_base::{Items, Lba, NoMemory};
use std::alloc::Global;

/// Blocks, each once.
pub type Blocks = Items<Lba>;

/// The blocks that marks name, each once, the one that is named first in front.
pub fn blocks_of(alloc: Global, marks: &[Mark]) -> Result<Blocks, NoMemory>
    ensures { IfOk result (λ blocks. blocks ≡ blocks_of marks.now) }
{
    let mut blocks = Blocks::new(alloc);
    for mark in marks {
        if let Some(b) = block_of(mark) {
            add_block(&mut blocks, b)?;
        }
    }
    Ok(blocks)
}

fn add_block(blocks: &mut Blocks, b: Lba) -> Result<(), NoMemory>
    ensures { OnOk result (blocks.new ≡ with_block b blocks.old) }
{
    if !is_in(b, blocks.as_slice()) {
        blocks.push(b)?;
    }
    Ok(())
}

fn is_in(b: Lba, blocks: &[Lba]) -> bool
    ensures { result ≡ is_in b blocks.now }
{
    blocks.iter().any(|a| a.0 == b.0)
}

// The block that a mark names, where it does.
fn block_of(mark: &Mark) -> Option<Lba>
    ensures { result ≡ block_of mark.now }
{
    match mark {
        Mark::At(point) => block_of_event(&point.event),
        Mark::Over(span) => block_of_subject(&span.subject),
    }
}

/// The block that an event is about, where it has a row of its own.
pub fn block_of_event(event: &Event) -> Option<Lba>
    ensures { result ≡ block_of_event event.now }
{
    match event {
        Event::Got { b, .. } => Some(*b),
        Event::Missed { b, .. } => Some(*b),
        Event::Wrote { b, .. } => Some(*b),
        Event::Hardened { b, .. } => Some(*b),
        Event::GivenUp { b } => Some(*b),
        _ => None,
    }
}

fn block_of_subject(subject: &Subject) -> Option<Lba>
    ensures { result ≡ block_of_subject subject.now }
{
    match subject {
        Subject::Dirty { b } => Some(*b),
        _ => None,
    }
}

/// How many blocks stand before this one.
pub fn place_of(b: Lba, blocks: &[Lba]) -> usize
    ensures { result ≡ place_of b blocks.now }
{
    for (place, a) in blocks.iter().enumerate() {
        if a.0 == b.0 {
            return place;
        }
    }
    blocks.len()
}
