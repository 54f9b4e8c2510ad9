ghost use Rattle.std.specs.Prelude.{◌≡◌, ◌≢◌, ◌+◌, ◌≤◌, length};
ghost use Rattle.std.specs.Io.KnownBytes.{Consumes, IsAtEnd};
ghost use Rattle.outside.specs.Answers.{IfRead};
ghost use Rattle.outside.specs.Faults.{Rises, counted};
ghost use Rattle.outside.specs.Pieces.{ConsumesAtMost, ConsumesExactly};

use crate::{ReadAnswer, Source};
use disk_base::Bytes;
use std::alloc::Global;

/// What reading a source to its end answers.
#[derive(Debug, Drop)]
pub enum Reading {
    /// All of the bytes.
    Read(Bytes),
    /// More bytes than were wanted.
    TooLong,
    Failed,
    NoMemory,
}

// The most bytes that one read asks for.
const PIECE: usize = 4096;

/// Reads a source to its end, where at most `most` bytes are left. Of a longer one it takes one byte more, and
/// no other. After a read that failed it doesn't read again.
pub fn read_to_end<S: Source>(alloc: Global, source: &mut S, most: usize) -> Reading
    ensures faults_stay { S.faults source.old ≤ S.faults source.new }
    ensures failed { result ≡ Reading.Failed → Rises (S.faults source.old) (S.faults source.new) }
    ensures one_fault { result ≡ Reading.Failed → S.faults source.new ≡ counted (S.faults source.old) }
    ensures no_fault { result ≢ Reading.Failed → S.faults source.new ≡ S.faults source.old }

    ensures read { IfRead result (λ bytes. Consumes (S.left source.old) (S.left source.new) bytes) }
    ensures ended { IfRead result (λ _. IsAtEnd (S.left source.new)) }
    ensures short { IfRead result (λ bytes. length bytes ≤ most) }

    ensures too_long { result ≡ Reading.TooLong → ConsumesExactly (S.left source.old) (S.left source.new) (most + 1) }
    ensures failed_short { result ≡ Reading.Failed → ConsumesAtMost (S.left source.old) (S.left source.new) most }
    ensures no_memory_short { result ≡ Reading.NoMemory → ConsumesAtMost (S.left source.old) (S.left source.new) most }
{
    let mut bytes = Bytes::new(alloc);
    let mut piece = [0; PIECE];
    let mut room = most;
    loop {
        // One byte past the room shows that the source is longer.
        let wanted = room.min(PIECE - 1) + 1;
        match source.read(&mut piece[..wanted]) {
            ReadAnswer::Got(count) if count > room => return Reading::TooLong,
            ReadAnswer::Got(count) => {
                if bytes.extend(&piece[..count]).is_err() {
                    return Reading::NoMemory;
                }
                room -= count;
            }
            ReadAnswer::End => return Reading::Read(bytes),
            ReadAnswer::Failed => return Reading::Failed,
        }
    }
}
