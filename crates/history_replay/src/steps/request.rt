//! What a command block asks for.
ghost use Rattle.std.specs.Prelude.{◌≡◌, ◌<◌, ◌≤◌, IfOk, IsTrue, slice_index};
ghost use Rattle.cdb_reader.specs.Read.{has_data, in_range, read_of};
ghost use Rattle.cdb_reader.specs.Request.{outcome_of, request_of};
ghost use Rattle.history_replay.specs.Known.{HasPageControl, NamesFewBlocks};

use cdb_reader::Command;
use disk_base::{Cdb, DataOut};
use sense_data::Sense;

/// What a command block with its data asks for, or why it is refused, on a unit of so many blocks.
pub fn read(cdb: &Cdb, sent: &DataOut, capacity: u64) -> Result<Command, Sense>
    ensures outcome { outcome_of result ≡ read_of cdb.now sent.now capacity }
    ensures range { IfOk result (λ command. IsTrue (in_range (request_of command) capacity)) }
    ensures data_length { IfOk result (λ command. IsTrue (has_data (request_of command) sent.now)) }
    ensures control { IfOk result HasPageControl }
    ensures few { capacity ≤ 4096 → IfOk result NamesFewBlocks }
{
    // The page control field of MODE SENSE stands in byte 2.
    let _control = byte(cdb, 2);
    cdb_reader::read(cdb, sent, capacity)
}

/// A byte of a command block; 0 behind its end.
pub fn byte(cdb: &Cdb, place: usize) -> u8
    ensures value { result ≡ slice_index cdb.now place }
    ensures fits { slice_index cdb.now place < 256 }
{
    match cdb.bytes().get(place) {
        Some(byte) => *byte,
        None => 0,
    }
}
