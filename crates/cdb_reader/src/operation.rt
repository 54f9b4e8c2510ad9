ghost use Rattle.std.specs.Prelude.{◌≡◌, ◌+◌, nat_lt};
ghost use Rattle.cdb_reader.specs.Operation.{operation_of, address, block_count, refuses_field, refuses_transfer, names_range, reaches_past, byte_check};

use crate::fields::{bit, byte, eight_bytes, four_bytes, is_sixteen, two_bytes};

/// The most blocks that a command reads, writes or verifies.
const BLOCKS_PER_COMMAND: u32 = 256;

// SERVICE ACTION of READ CAPACITY(16).
const READ_CAPACITY_16: u8 = 0x10;

/// A command that is known, whatever its form.
#[derive(Clone, Copy, Debug, PartialEq, Eq)]
pub enum Operation {
    TestUnitReady,
    RequestSense,
    ReassignBlocks,
    Inquiry,
    ModeSelect,
    ModeSense,
    ReadCapacity10,
    Read,
    Write,
    WriteAndVerify,
    Verify,
    SynchronizeCache,
    ReadDefectData,
    LogSense,
    ReadCapacity16,
    ReportLuns,
}

impl Operation {
    /// The command of an operation code.
    #[tactic(auto, unfolding(crate::specs::Operation::operation_of))]
    pub fn of_code(code: u8) -> Option<Self>
        ensures { result ≡ operation_of code }
    {
        Some(match code {
            0x00 => Operation::TestUnitReady,
            0x03 => Operation::RequestSense,
            0x07 => Operation::ReassignBlocks,
            0x12 => Operation::Inquiry,
            0x15 | 0x55 => Operation::ModeSelect,
            0x1A | 0x5A => Operation::ModeSense,
            0x25 => Operation::ReadCapacity10,
            0x28 | 0x88 => Operation::Read,
            0x2A | 0x8A => Operation::Write,
            0x2E => Operation::WriteAndVerify,
            0x2F => Operation::Verify,
            0x35 | 0x91 => Operation::SynchronizeCache,
            0x37 => Operation::ReadDefectData,
            0x4D => Operation::LogSense,
            0x9E => Operation::ReadCapacity16,
            0xA0 => Operation::ReportLuns,
            _ => return None,
        })
    }

    /// Whether a field of the command block has a value that is refused, without those that the pages' own calls check.
    pub fn refuses_field(self, bytes: &[u8]) -> bool
        ensures { result ≡ refuses_field self bytes.now }
    {
        match self {
            Operation::RequestSense | Operation::LogSense => bit(bytes, 1, 0),
            Operation::ModeSelect => !bit(bytes, 1, 4) || bit(bytes, 1, 0),
            Operation::Read | Operation::Write => refuses_transfer(bytes),
            Operation::WriteAndVerify | Operation::Verify => {
                byte_check(bytes) != 0 || refuses_transfer(bytes)
            }
            Operation::SynchronizeCache => bit(bytes, 1, 1),
            Operation::ReadCapacity16 => byte(bytes, 1) % 32 != READ_CAPACITY_16,
            Operation::TestUnitReady
            | Operation::ReassignBlocks
            | Operation::Inquiry
            | Operation::ModeSense
            | Operation::ReadCapacity10
            | Operation::ReadDefectData
            | Operation::ReportLuns => false,
        }
    }

    /// Whether the command names blocks that end past the capacity.
    pub fn reaches_past(self, bytes: &[u8], capacity: u64) -> bool
        ensures { result ≡ reaches_past self bytes.now capacity }
    {
        self.names_range() && is_past(address(bytes), block_count(bytes), capacity)
    }

    // Whether the command names blocks by an address and a number of them.
    fn names_range(self) -> bool
        ensures { result ≡ names_range self }
    {
        matches!(
            self,
            Operation::Read
                | Operation::Write
                | Operation::WriteAndVerify
                | Operation::Verify
                | Operation::SynchronizeCache
        )
    }
}

/// The first block that a command names.
pub fn address(bytes: &[u8]) -> u64
    ensures { result ≡ address bytes.now }
{
    if is_sixteen(bytes) {
        eight_bytes(bytes, 2)
    } else {
        four_bytes(bytes, 2) as u64
    }
}

/// How many blocks a command names.
pub fn block_count(bytes: &[u8]) -> u32
    ensures { result ≡ block_count bytes.now }
{
    if is_sixteen(bytes) {
        four_bytes(bytes, 10)
    } else {
        two_bytes(bytes, 7) as u32
    }
}

// A protection field or a length that is refused.
fn refuses_transfer(bytes: &[u8]) -> bool
    ensures { result ≡ refuses_transfer bytes.now }
{
    byte(bytes, 1) / 32 != 0 || block_count(bytes) > BLOCKS_PER_COMMAND
}

// The field BYTCHK.
fn byte_check(bytes: &[u8]) -> u8
    ensures { result ≡ byte_check bytes.now }
{
    byte(bytes, 1) / 2 % 4
}

// Whether so many blocks from an address on end past the capacity.
fn is_past(address: u64, count: u32, capacity: u64) -> bool
    ensures { result ≡ nat_lt capacity (address + count) }
{
    address > capacity || count as u64 > capacity - address
}
