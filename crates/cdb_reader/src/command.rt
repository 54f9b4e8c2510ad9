ghost use Rattle.std.specs.Prelude.{◌≡◌};
ghost use Rattle.cdb_reader.specs.Request.{request_of, touch_of};

use arrayvec::ArrayVec;
use disk_base::Lba;
use task_set::Touch;

/// The most blocks that one REASSIGN BLOCKS names.
pub const DESCRIPTORS_MAX: usize = 256;

/// What a command block asks for (SPC-4 and SBC-3, each command's section). The 10-byte and 16-byte forms of a command
/// give the same.
#[derive(Debug, Drop)]
pub enum Command {
    TestUnitReady,
    RequestSense {
        allocation: u8,
    },
    ReassignBlocks {
        blocks: ArrayVec<Lba, DESCRIPTORS_MAX>,
    },
    Inquiry {
        evpd: bool,
        page: u8,
        allocation: u16,
    },
    ModeSelect {
        ten: bool,
        length: u16,
    },
    ModeSense {
        ten: bool,
        dbd: bool,
        control: u8,
        page: u8,
        subpage: u8,
        allocation: u16,
    },
    ReadCapacity10,
    Read {
        from: u64,
        length: u16,
        fua: bool,
    },
    Write {
        from: u64,
        length: u16,
        fua: bool,
    },
    WriteAndVerify {
        from: u64,
        length: u16,
    },
    Verify {
        from: u64,
        length: u16,
    },
    /// The count of a sync up to the last block is how many these are.
    SynchronizeCache {
        from: u64,
        count: u64,
    },
    ReadDefectData {
        primary: bool,
        grown: bool,
        format: u8,
        allocation: u16,
    },
    LogSense {
        page: u8,
        subpage: u8,
        pointer: u16,
        allocation: u16,
    },
    ReadCapacity16 {
        allocation: u32,
    },
    ReportLuns {
        select: u8,
        allocation: u32,
    },
}

/// The blocks that a command touches.
pub fn touch(command: &Command) -> Touch
    ensures { result ≡ touch_of (request_of command.now) }
{
    match command {
        Command::ReassignBlocks { .. } => Touch::All,
        Command::Read { from, length, .. } | Command::Verify { from, length } => Touch::Range {
            from: *from,
            count: *length as u64,
            writes: false,
        },
        Command::Write { from, length, .. } | Command::WriteAndVerify { from, length } => {
            Touch::Range {
                from: *from,
                count: *length as u64,
                writes: true,
            }
        }
        Command::SynchronizeCache { from, count } => Touch::Range {
            from: *from,
            count: *count,
            writes: false,
        },
        Command::TestUnitReady
        | Command::RequestSense { .. }
        | Command::Inquiry { .. }
        | Command::ModeSelect { .. }
        | Command::ModeSense { .. }
        | Command::ReadCapacity10
        | Command::ReadDefectData { .. }
        | Command::LogSense { .. }
        | Command::ReadCapacity16 { .. }
        | Command::ReportLuns { .. } => Touch::Nothing,
    }
}
