//! A long history, and the script that it walks along.
use anyhow::{Context, Result};
use arrayvec::ArrayVec;
use block_machine::{Entries, Entry, Label, Turn, Turns};
use disk_base::{Attribute, BLOCK_LENGTH, Cdb, DataOut, Initiator, Lba, Tag, Value};
use script_text::{Line, Lines, Script};
use sense_data::{Reply, Sense};
use std::alloc::Global;

// So many blocks are written and read in turn. More than 64 would not all fit into the cache.
const BLOCKS: u32 = 50;

/// A history with its script.
#[derive(Debug, Drop)]
pub struct Made {
    pub script: Script,
    pub turns: Turns,
}

/// A history of at least so many turns: a command that is told that the power came on, and then writes of a block and reads of it,
/// each in a phase of its own.
pub fn history(alloc: Global, count: u32) -> Result<Made> {
    let mut lines = Lines::new(alloc);
    let mut turns = Turns::new(alloc);
    told(alloc, &mut lines, &mut turns)?;
    for c in 2..count / 3 + 2 {
        if c % 2 == 0 {
            writes(alloc, &mut lines, &mut turns, c)?;
        } else {
            reads(alloc, &mut lines, &mut turns, c)?;
        }
    }
    let script = Script {
        size: None,
        primary: ArrayVec::new(),
        lines,
    };
    Ok(Made { script, turns })
}

fn told(alloc: Global, lines: &mut Lines, turns: &mut Turns) -> Result<()> {
    let reply = Reply::check_condition(Sense::new(6, 0x29, 0x01));
    comes(alloc, lines, turns, 1, &[0; 6], &DataOut::Nothing)?;
    let end = Entry::Ended { c: 1, reply };
    add(
        alloc,
        turns,
        Label::Work(1),
        Entry::Started { c: 1 },
        Some(end),
    )
}

// A write of one block into the cache.
fn writes(alloc: Global, lines: &mut Lines, turns: &mut Turns, c: u32) -> Result<()> {
    let block = block_of(c);
    let bytes = [0x2A, 0, 0, 0, 0, block, 0, 0, 1, 0];
    comes(alloc, lines, turns, c, &bytes, &DataOut::Fill(block))?;
    add(alloc, turns, Label::Work(c), Entry::Started { c }, None)?;
    let put = Entry::Put {
        c,
        b: Lba(u64::from(block)),
        value: [block; BLOCK_LENGTH],
    };
    add(alloc, turns, Label::Work(c), put, Some(good(c)))
}

// A read of the block that was written last.
fn reads(alloc: Global, lines: &mut Lines, turns: &mut Turns, c: u32) -> Result<()> {
    let block = block_of(c);
    let bytes = [0x28, 0, 0, 0, 0, block, 0, 0, 1, 0];
    comes(alloc, lines, turns, c, &bytes, &DataOut::Nothing)?;
    add(alloc, turns, Label::Work(c), Entry::Started { c }, None)?;
    let got = Entry::Get {
        c,
        b: Lba(u64::from(block)),
        value: Value::Data([block; BLOCK_LENGTH]),
    };
    add(alloc, turns, Label::Work(c), got, Some(good(c)))
}

fn block_of(c: u32) -> u8 {
    (c / 2 % BLOCKS) as u8
}

fn good(c: u32) -> Entry {
    Entry::Ended {
        c,
        reply: Reply::good(),
    }
}

// A command of the first initiator stands in the script, in a phase of its own, and comes.
fn comes(
    alloc: Global,
    lines: &mut Lines,
    turns: &mut Turns,
    c: u32,
    bytes: &[u8],
    sent: &DataOut,
) -> Result<()> {
    let initiator = Initiator::new(1).context("no initiator")?;
    let tag = Tag((c % 65_536) as u16);
    let line = Line::Command {
        initiator,
        tag,
        attribute: Attribute::Simple,
        cdb: Cdb::new(bytes).context("no command block")?,
        sent: sent.copy(alloc).ok().context("there is no memory")?,
    };
    lines.push(line).ok().context("there is no memory")?;
    lines.push(Line::Go).ok().context("there is no memory")?;
    let came = Entry::Arrived {
        c,
        initiator,
        tag,
        attribute: Attribute::Simple,
        cdb: Cdb::new(bytes).context("no command block")?,
        sent: sent.copy(alloc).ok().context("there is no memory")?,
    };
    add(alloc, turns, Label::Arrive(initiator), came, None)
}

// One turn more.
fn add(
    alloc: Global,
    turns: &mut Turns,
    label: Label,
    first: Entry,
    second: Option<Entry>,
) -> Result<()> {
    let mut entries = Entries::new(alloc);
    entries.push(first).ok().context("there is no memory")?;
    if let Some(second) = second {
        entries.push(second).ok().context("there is no memory")?;
    }
    let turn = Turn {
        label,
        ops_from: 0,
        ops_to: 0,
        entries,
    };
    turns.push(turn).ok().context("there is no memory")?;
    Ok(())
}
