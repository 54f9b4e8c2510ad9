//! What only the drive knows, its sectors and its map: a history tells the form alone.
ghost use Rattle.std.specs.Prelude.{◌≡◌, ◌<◌, length};
ghost use Rattle.block_machine.specs.DriveOnly.{has_defect_length, is_recovery_code, tells_recovery};
ghost use Rattle.cdb_reader.specs.Fields.{two_bytes};

use sense_data::Sense;
use sense_data::codes::RECOVERED_ERROR;

/// Whether the length in bytes 2 and 3 of READ DEFECT DATA is that of whole addresses, and so many bytes follow as far as
/// the allocation length goes (SBC-3, READ DEFECT DATA (10) command).
pub fn has_defect_length(allocation: u16, bytes: &[u8]) -> bool
    ensures { result ≡ has_defect_length allocation bytes.now }
{
    let most = allocation as usize;
    if bytes.len() < 4 {
        return bytes.len() == most;
    }
    let length = defect_length(bytes) as usize;
    length % 8 == 0 && bytes.len() == most.min(4 + length)
}

// Bytes 2 and 3.
fn defect_length(bytes: &[u8]) -> u16
    requires { 3 < length bytes.now }
    ensures { result ≡ two_bytes bytes.now 2 }
{
    u16::from_be_bytes([bytes[2], bytes[3]])
}

/// Whether sense data report that one of the blocks from an address to below another was recovered (SPC-4, additional sense
/// codes): by which stage, and whether it was moved then, only the drive knows.
pub fn tells_recovery(from: u64, end: u64, sense: &Sense) -> bool
    ensures { result ≡ tells_recovery from end sense.now }
{
    sense.key == RECOVERED_ERROR
        && sense.specific == 0
        && is_recovery_code(sense.asc, sense.ascq)
        && match sense.information {
            Some(b) => from <= b as u64 && (b as u64) < end,
            None => false,
        }
}

// Whether these are the codes of a recovery.
fn is_recovery_code(asc: u8, ascq: u8) -> bool
    ensures { result ≡ is_recovery_code asc ascq }
{
    (asc == 0x17 && (ascq == 0x01 || ascq == 0x02 || ascq == 0x03))
        || (asc == 0x18 && (ascq == 0x01 || ascq == 0x02 || ascq == 0x05))
}
