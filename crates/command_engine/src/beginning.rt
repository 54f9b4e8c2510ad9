//! What a command owes as it starts.
ghost use Rattle.std.specs.Prelude.{◌≡◌, ◌+◌, ◌^◌, ◌≤◌, IsTrue, false, Some};
ghost use Rattle.cdb_reader.specs.Plan.{unless_empty, reading_from, writing_from};
ghost use Rattle.cdb_reader.specs.Read.{in_range, has_data};
ghost use Rattle.cdb_reader.specs.Request.{request_of};
ghost use Rattle.command_engine.specs.Standing.{IsUnderWay};
ghost use Rattle.command_engine.specs.Course.{first_plan, gives_data};
ghost use Rattle.command_engine.specs.Owed.{plan_owed, moved_owed};

use crate::owed::Owed;
use crate::reassigning::Reassigning;
use cdb_reader::{Command, Reading, Syncing, Writing};
use disk_base::DataOut;
use mode_pages::Settings;
use sense_data::Reply;
use sense_data::codes::DEFECT_LIST_NOT_FOUND;

// The defect list format in which READ DEFECT DATA answers: the physical sector format (SBC-3, address descriptor formats).
const PHYSICAL_SECTOR_FORMAT: u8 = 5;

pub fn owed_by(command: Command, sent: DataOut, settings: &Settings) -> Owed
    requires range { IsTrue (in_range (request_of command) (2 ^ 32)) }
    ensures plan { plan_owed result ≡ first_plan (request_of command) sent settings.now }
    ensures moved { moved_owed result ≡ 0 }
{
    match command {
        Command::TestUnitReady | Command::ModeSelect { .. } => Owed::Reply(Reply::good()),
        Command::ReassignBlocks { blocks } if blocks.is_empty() => Owed::Reply(Reply::good()),
        Command::ReassignBlocks { blocks } => Owed::Moving(Reassigning {
            blocks,
            hardened: 0,
            moved: 0,
        }),
        Command::Read { from, length, fua } => reading(from, length, fua, settings),
        Command::Verify { from, length } => reading(from, length, true, settings),
        Command::Write { from, length, fua } => {
            writing(from, length, sent, fua || !settings.wce, false, settings)
        }
        Command::WriteAndVerify { from, length } => {
            writing(from, length, sent, true, true, settings)
        }
        Command::SynchronizeCache { count: 0, .. } => Owed::Reply(Reply::good()),
        Command::SynchronizeCache { from, count } => Owed::Syncing(Syncing {
            at: from,
            end: from + count,
        }),
        Command::ReadDefectData { format, .. } if format != PHYSICAL_SECTOR_FORMAT => {
            Owed::Page(Reply::check_condition(DEFECT_LIST_NOT_FOUND))
        }
        Command::RequestSense { .. }
        | Command::Inquiry { .. }
        | Command::ModeSense { .. }
        | Command::ReadCapacity10
        | Command::ReadDefectData { .. }
        | Command::LogSense { .. }
        | Command::ReadCapacity16 { .. }
        | Command::ReportLuns { .. } => Owed::Page(Reply::good()),
    }
}

// Whether the values that a command gets are its data.
pub fn gives_data(command: &Command) -> bool
    ensures { result ≡ gives_data (request_of command.now) }
{
    matches!(command, Command::Read { .. })
}

// A read or a verification.
fn reading(from: u64, length: u16, through: bool, settings: &Settings) -> Owed
    requires { from + length ≤ 2 ^ 32 }
    ensures { Some (plan_owed result) ≡ unless_empty length (reading_from from (from + length) through settings.now.per) }
{
    if length == 0 {
        return Owed::Reply(Reply::good());
    }
    Owed::Reading(Reading {
        at: from,
        end: from + length as u64,
        through,
        reports: settings.per,
        hardened: false,
    })
}

// A write, which a verification may follow.
fn writing(
    from: u64,
    length: u16,
    sent: DataOut,
    through: bool,
    verifies: bool,
    settings: &Settings,
) -> Owed
    requires { from + length ≤ 2 ^ 32 }
    ensures { Some (plan_owed result) ≡ unless_empty length (writing_from from length sent through verifies settings.now.per) }
{
    if length == 0 {
        return Owed::Reply(Reply::good());
    }
    Owed::Writing(Writing {
        from,
        at: from,
        end: from + length as u64,
        sent,
        through,
        verifies,
        reports: settings.per,
        owes_harden: false,
    })
}
