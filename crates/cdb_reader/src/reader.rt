ghost use Rattle.std.specs.Prelude.{◌≡◌, false, IfOk, IsTrue};
ghost use Rattle.cdb_reader.specs.Operation.{refuses_field, reaches_past};
ghost use Rattle.cdb_reader.specs.Read.{asked, has_data, has_length, in_range, read_of, refuses_blocks, refuses_list_length};
ghost use Rattle.cdb_reader.specs.Request.{outcome_of, request_of, sync_count};

use crate::Command;
use crate::fields::{bit, byte, has_naca, list_length};
use crate::operation::{Operation, address, block_count};
use crate::pages::{
    inquiry, log_sense, mode_select, mode_sense, read_capacity_16, read_defect_data, report_luns,
    request_sense,
};
use crate::reassign::{list_sent, read_blocks};
use disk_base::{BLOCK_LENGTH, Cdb, DataOut};
use sense_data::Sense;
use sense_data::codes::{
    ADDRESS_OUT_OF_RANGE, INVALID_FIELD_IN_CDB, INVALID_OPERATION_CODE, PARAMETER_LIST_LENGTH_ERROR,
};

/// What a command block asks for, or the first check that refuses it (SPC-4 and SBC-3, each command's section). Page,
/// subpage, page control, select and parameter pointer are left to the calls that make pages, and mode parameters to
/// the call that takes them.
pub fn read(cdb: &Cdb, sent: &DataOut, capacity: u64) -> Result<Command, Sense>
    ensures outcome { outcome_of result ≡ read_of cdb.now sent.now capacity }
    ensures range { IfOk result (λ command. IsTrue (in_range (request_of command) capacity)) }
    ensures data_length { IfOk result (λ command. IsTrue (has_data (request_of command) sent.now)) }
{
    let bytes = cdb.bytes();
    let Some(operation) = Operation::of_code(byte(bytes, 0)) else {
        return Err(INVALID_OPERATION_CODE);
    };
    if has_naca(bytes) || operation.refuses_field(bytes) {
        return Err(INVALID_FIELD_IN_CDB);
    }
    if operation.reaches_past(bytes, capacity) {
        return Err(ADDRESS_OUT_OF_RANGE);
    }
    if refuses_blocks(operation, bytes, sent) {
        return Err(INVALID_FIELD_IN_CDB);
    }
    if refuses_list_length(operation, bytes, sent) {
        return Err(PARAMETER_LIST_LENGTH_ERROR);
    }
    command_of(operation, bytes, sent, capacity)
}

// What a command asks for by its fields.
fn command_of(
    operation: Operation,
    bytes: &[u8],
    sent: &DataOut,
    capacity: u64,
) -> Result<Command, Sense>
    requires fields { refuses_field operation bytes.now ≡ false }
    requires range { reaches_past operation bytes.now capacity ≡ false }
    requires written { refuses_blocks operation bytes.now sent.now ≡ false }
    requires listed { refuses_list_length operation bytes.now sent.now ≡ false }
    ensures outcome { outcome_of result ≡ asked operation bytes.now sent.now capacity }
    ensures in_range { IfOk result (λ command. IsTrue (in_range (request_of command) capacity)) }
    ensures data_length { IfOk result (λ command. IsTrue (has_data (request_of command) sent.now)) }
{
    Ok(match operation {
        Operation::TestUnitReady => Command::TestUnitReady,
        Operation::RequestSense => request_sense(bytes),
        Operation::ReassignBlocks => Command::ReassignBlocks {
            blocks: read_blocks(bytes, list_sent(sent), capacity)?,
        },
        Operation::Inquiry => inquiry(bytes),
        Operation::ModeSelect => mode_select(bytes),
        Operation::ModeSense => mode_sense(bytes),
        Operation::ReadCapacity10 => Command::ReadCapacity10,
        Operation::Read => Command::Read {
            from: address(bytes),
            length: block_count(bytes) as u16,
            fua: bit(bytes, 1, 3),
        },
        Operation::Write => Command::Write {
            from: address(bytes),
            length: block_count(bytes) as u16,
            fua: bit(bytes, 1, 3),
        },
        Operation::WriteAndVerify => Command::WriteAndVerify {
            from: address(bytes),
            length: block_count(bytes) as u16,
        },
        Operation::Verify => Command::Verify {
            from: address(bytes),
            length: block_count(bytes) as u16,
        },
        Operation::SynchronizeCache => Command::SynchronizeCache {
            from: address(bytes),
            count: sync_count(bytes, capacity),
        },
        Operation::ReadDefectData => read_defect_data(bytes),
        Operation::LogSense => log_sense(bytes),
        Operation::ReadCapacity16 => read_capacity_16(bytes),
        Operation::ReportLuns => report_luns(bytes),
    })
}

// Whether the command block and the data differ in how many blocks are written.
fn refuses_blocks(operation: Operation, bytes: &[u8], sent: &DataOut) -> bool
    ensures { result ≡ refuses_blocks operation bytes.now sent.now }
{
    matches!(operation, Operation::Write | Operation::WriteAndVerify)
        && !has_length(sent, BLOCK_LENGTH * block_count(bytes) as usize)
}

// Whether the command block and the data differ in the length of the mode parameter list.
fn refuses_list_length(operation: Operation, bytes: &[u8], sent: &DataOut) -> bool
    ensures { result ≡ refuses_list_length operation bytes.now sent.now }
{
    matches!(operation, Operation::ModeSelect) && !has_length(sent, list_length(bytes) as usize)
}

// Whether the data have so many bytes; one repeated byte has as many as are wanted.
fn has_length(sent: &DataOut, length: usize) -> bool
    ensures { result ≡ has_length sent.now length }
{
    match sent {
        DataOut::Nothing => length == 0,
        DataOut::Fill(_) => true,
        DataOut::Given(bytes) => bytes.as_slice().len() == length,
    }
}

// How many blocks a sync names.
fn sync_count(bytes: &[u8], capacity: u64) -> u64
    ensures { result ≡ sync_count bytes.now capacity }
{
    let count = block_count(bytes);
    if count == 0 {
        capacity.saturating_sub(address(bytes))
    } else {
        count as u64
    }
}
