ghost use Rattle.std.specs.Prelude.{◌≡◌, ◌/◌, ◌≤◌, ◌↔◌, length, IsSome, IfSome, IfOk};
ghost use Rattle.disk_base.specs.Cdb.{IsCommandBlock, allows_length};

use crate::{Bytes, NoMemory, Tag};
use std::alloc::Global;
use std::marker::Model;

/// The most bytes that a command block has.
pub const CDB_LENGTH_MAX: usize = 16;

/// A command descriptor block: its bytes, of a length that its first byte allows (SPC-4, 4.3).
#[derive(Debug, Drop)]
pub struct Cdb {
    bytes: [u8; CDB_LENGTH_MAX],
    len: usize,
}

impl Model for Cdb {
    ghost use Rattle.std.specs.Prelude.{List, ℕ, ◌≤◌, take};
    ghost use Rattle.disk_base.specs.Cdb.{IsCommandBlock, allows_length};

    ghost Value = { List ℕ };

    ghost view = { λ c. take c.len c.bytes };

    ghost invariant = { λ c. (c.len ≤ 16) × IsCommandBlock (take c.len c.bytes) };
}

impl Cdb {
    /// The command block of these bytes, where they are one.
    pub fn new(bytes: &[u8]) -> Option<Self>
        ensures valid { IsSome result ↔ IsCommandBlock bytes.now }
        ensures value { IfSome result (λ cdb. cdb ≡ bytes.now) }
    {
        let first = *bytes.first()?;
        if !is_length_of(first, bytes.len()) {
            return None;
        }
        let len = bytes.len();
        let mut all = [0; CDB_LENGTH_MAX];
        all[..len].copy_from_slice(bytes);
        Some(Cdb { bytes: all, len })
    }

    pub fn bytes(&self) -> &[u8]
        ensures value { result.now ≡ self.now }
        ensures valid { IsCommandBlock result.now }
    {
        &self.bytes[..self.len]
    }

    /// An equal command block.
    pub fn copy(&self) -> Self
        ensures { result ≡ self.now }
    {
        Cdb {
            bytes: self.bytes,
            len: self.len,
        }
    }
}

// Whether a command block whose first byte is this may have this length.
fn is_length_of(first: u8, len: usize) -> bool
    ensures { result ≡ allows_length (first / 32) len }
{
    match first / 32 {
        0 => len == 6,
        1 | 2 => len == 10,
        4 => len == 16,
        5 => len == 12,
        _ => len == 6 || len == 10 || len == 12 || len == 16,
    }
}

/// The task attribute of a command (SAM-4, task attributes).
#[derive(Clone, Copy, Debug, Default, PartialEq, Eq)]
pub enum Attribute {
    #[default]
    Simple,
    Ordered,
    Head,
}

/// A task management function (SAM-4, task management functions).
#[derive(Clone, Copy, Debug, PartialEq, Eq)]
pub enum Function {
    /// ABORT TASK of the initiator's command with this tag.
    Abort(Tag),
    /// ABORT TASK SET.
    AbortSet,
    /// CLEAR TASK SET.
    Clear,
    /// LOGICAL UNIT RESET.
    Reset,
}

/// The data that an initiator sends with a command.
#[derive(Debug, Drop)]
pub enum DataOut {
    Nothing,
    /// Every byte is this one, and there are as many as the command takes.
    Fill(u8),
    Given(Bytes),
}

impl DataOut {
    /// Equal data in memory of their own.
    pub fn copy(&self, alloc: Global) -> Result<Self, NoMemory>
        ensures { IfOk result (λ sent. sent ≡ self.now) }
    {
        Ok(match self {
            DataOut::Nothing => DataOut::Nothing,
            DataOut::Fill(byte) => DataOut::Fill(*byte),
            DataOut::Given(bytes) => DataOut::Given(bytes.copy(alloc)?),
        })
    }
}
