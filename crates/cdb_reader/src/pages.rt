//! Commands about pages and other data that aren't blocks: what each asks for by its fields (SPC-4 and SBC-3, each
//! command's section).

ghost use Rattle.std.specs.Prelude.{◌≡◌, ◌/◌, ◌%◌, slice_index};
ghost use Rattle.cdb_reader.specs.Fields.{bit, two_bytes, four_bytes, is_ten};
ghost use Rattle.cdb_reader.specs.Request as request;
ghost use Rattle.cdb_reader.specs.Request.{request_of, list_length};

use crate::Command;
use crate::fields::{bit, byte, four_bytes, is_ten, list_length, two_bytes};

pub fn request_sense(bytes: &[u8]) -> Command
    ensures { request_of result ≡ request.RequestSense (slice_index bytes.now 4) }
{
    Command::RequestSense {
        allocation: byte(bytes, 4),
    }
}

pub fn inquiry(bytes: &[u8]) -> Command
    ensures { request_of result ≡ request.Inquiry (bit bytes.now 1 0) (slice_index bytes.now 2) (two_bytes bytes.now 3) }
{
    Command::Inquiry {
        evpd: bit(bytes, 1, 0),
        page: byte(bytes, 2),
        allocation: two_bytes(bytes, 3),
    }
}

pub fn mode_select(bytes: &[u8]) -> Command
    ensures { request_of result ≡ request.ModeSelect (is_ten bytes.now) (list_length bytes.now) }
{
    Command::ModeSelect {
        ten: is_ten(bytes),
        length: list_length(bytes),
    }
}

pub fn mode_sense(bytes: &[u8]) -> Command
    ensures { request_of result ≡ request.ModeSense (is_ten bytes.now) (bit bytes.now 1 3) (slice_index bytes.now 2 / 64)
        (slice_index bytes.now 2 % 64) (slice_index bytes.now 3) (list_length bytes.now) }
{
    Command::ModeSense {
        ten: is_ten(bytes),
        dbd: bit(bytes, 1, 3),
        control: byte(bytes, 2) / 64,
        page: byte(bytes, 2) % 64,
        subpage: byte(bytes, 3),
        allocation: list_length(bytes),
    }
}

pub fn read_defect_data(bytes: &[u8]) -> Command
    ensures { request_of result
        ≡ request.ReadDefectData (bit bytes.now 2 4) (bit bytes.now 2 3) (slice_index bytes.now 2 % 8) (two_bytes bytes.now 7) }
{
    Command::ReadDefectData {
        primary: bit(bytes, 2, 4),
        grown: bit(bytes, 2, 3),
        format: byte(bytes, 2) % 8,
        allocation: two_bytes(bytes, 7),
    }
}

pub fn log_sense(bytes: &[u8]) -> Command
    ensures { request_of result
        ≡ request.LogSense (slice_index bytes.now 2 % 64) (slice_index bytes.now 3) (two_bytes bytes.now 5) (two_bytes bytes.now 7) }
{
    Command::LogSense {
        page: byte(bytes, 2) % 64,
        subpage: byte(bytes, 3),
        pointer: two_bytes(bytes, 5),
        allocation: two_bytes(bytes, 7),
    }
}

pub fn read_capacity_16(bytes: &[u8]) -> Command
    ensures { request_of result ≡ request.ReadCapacity16 (four_bytes bytes.now 10) }
{
    Command::ReadCapacity16 {
        allocation: four_bytes(bytes, 10),
    }
}

pub fn report_luns(bytes: &[u8]) -> Command
    ensures { request_of result ≡ request.ReportLuns (slice_index bytes.now 2) (four_bytes bytes.now 6) }
{
    Command::ReportLuns {
        select: byte(bytes, 2),
        allocation: four_bytes(bytes, 6),
    }
}
