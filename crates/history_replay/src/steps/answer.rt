//! What a command owes whose data, or whose effect, are no blocks: pages, sense data, mode values.
ghost use Rattle.std.specs.Prelude.{◌≡◌, ◌≤◌, ◌^◌, Some, IfOk, take};
ghost use Rattle.sense_data.specs.Sense.{sense_bytes};
ghost use Rattle.cdb_reader.specs.Replies.{good, check_condition};
ghost use Rattle.inquiry_data.specs.Identity.{inquiry_data};
ghost use Rattle.inquiry_data.specs.Capacity.{short_capacity, long_capacity};
ghost use Rattle.inquiry_data.specs.Luns.{reported_luns};
ghost use Rattle.mode_pages.specs.ModeSense.{sensed};
ghost use Rattle.scan_log.specs.Pages.{log_data};
ghost use Rattle.block_machine.specs.DriveOnly.{defect_heading};
ghost use Rattle.block_machine.specs.Plans.{answering, answering_sensed, changing, defect_reply, refusing, sense_shown};
ghost use Rattle.block_machine.specs.Scan.{scan_shown};
ghost use Rattle.block_machine.specs.Settings.{parameter_list, same_flag, same_settings, settings_made};
ghost use Rattle.history_replay.specs.Known.{scan_of, state_of};

use crate::Known;
use cdb_reader::Plan;
use disk_base::{Bytes, DataOut, Initiator, NoMemory};
use mode_pages::{ModeRequest, Settings};
use scan_log::{PageFault, ScanState};
use sense_data::codes::{DEFECT_LIST_NOT_FOUND, NO_ADDITIONAL_SENSE};
use sense_data::{Reply, Sense};
use std::alloc::Global;

// The defect list format in which READ DEFECT DATA answers: the physical sector format (SBC-3, address descriptor formats).
const PHYSICAL_SECTOR_FORMAT: u8 = 5;

// Where the scan's passes end.
const PASSES_MAX: u64 = 65_535;

/// CHECK CONDITION with this sense data, alone.
pub fn refusing(sense: Sense) -> Plan
    ensures { result ≡ refusing sense }
{
    Plan::Ending(Reply::check_condition(sense))
}

/// The first attention that waits for the initiator, or NO SENSE.
pub fn request_sense(
    alloc: Global,
    known: &Known,
    i: Initiator,
    allocation: u8,
) -> Result<Plan, NoMemory>
    ensures { IfOk result (λ plan. plan ≡ answering allocation (Some (sense_bytes (sense_shown (state_of known.now) i)))) }
{
    let sense = known.waiting.first(i).unwrap_or(NO_ADDITIONAL_SENSE);
    let bytes = sense.bytes();
    let most = bytes.len().min(allocation as usize);
    giving(alloc, &bytes[..most], Reply::good())
}

pub fn inquiry(alloc: Global, evpd: bool, page: u8, allocation: u16) -> Result<Plan, NoMemory>
    ensures { IfOk result (λ plan. plan ≡ answering allocation (inquiry_data evpd page)) }
{
    match inquiry_data::inquiry(evpd, page, allocation) {
        Ok(bytes) => giving(alloc, bytes.as_slice(), Reply::good()),
        Err(sense) => Ok(refusing(sense)),
    }
}

pub fn report_luns(alloc: Global, select: u8, allocation: u32) -> Result<Plan, NoMemory>
    ensures { IfOk result (λ plan. plan ≡ answering allocation (reported_luns select)) }
{
    match inquiry_data::report_luns(select, allocation) {
        Ok(bytes) => giving(alloc, bytes.as_slice(), Reply::good()),
        Err(sense) => Ok(refusing(sense)),
    }
}

pub fn read_capacity_10(alloc: Global, capacity: u64) -> Result<Plan, NoMemory>
    requires some { 1 ≤ capacity }
    requires fits { capacity ≤ 2 ^ 32 }
    ensures { IfOk result (λ plan. plan ≡ Plan.Answering (short_capacity capacity) good) }
{
    giving(alloc, &inquiry_data::capacity_10(capacity), Reply::good())
}

pub fn read_capacity_16(alloc: Global, capacity: u64, allocation: u32) -> Result<Plan, NoMemory>
    requires { 1 ≤ capacity }
    ensures { IfOk result (λ plan. plan ≡ answering allocation (Some (long_capacity capacity))) }
{
    let bytes = inquiry_data::capacity_16(capacity, allocation);
    giving(alloc, bytes.as_slice(), Reply::good())
}

/// The mode values of this moment.
pub fn mode_sense(
    alloc: Global,
    settings: &Settings,
    capacity: u64,
    request: &ModeRequest,
) -> Result<Plan, NoMemory>
    requires { request.now.control ≤ 3 }
    ensures { IfOk result (λ plan. plan ≡ answering_sensed (sensed settings.now capacity request.now)) }
{
    match mode_pages::sense(settings, capacity, request) {
        Ok(bytes) => giving(alloc, bytes.as_slice(), Reply::good()),
        Err(sense) => Ok(refusing(sense)),
    }
}

/// The mode values that a MODE SELECT of this parameter list length makes of others, or its refusal.
pub fn settings_made(
    alloc: Global,
    settings: &Settings,
    capacity: u64,
    ten: bool,
    length: u16,
    sent: &DataOut,
) -> Result<Result<Settings, Sense>, NoMemory>
    ensures { IfOk result (λ made. made ≡ settings_made capacity settings.now ten length sent.now) }
{
    match sent {
        DataOut::Nothing => Ok(mode_pages::select(settings, capacity, ten, &[])),
        DataOut::Fill(byte) => {
            let list = vec![in alloc; *byte; length as usize]?;
            Ok(mode_pages::select(settings, capacity, ten, list.as_slice()))
        }
        DataOut::Given(bytes) => Ok(mode_pages::select(settings, capacity, ten, bytes.as_slice())),
    }
}

/// New mode values, where they differ from those that hold.
pub fn changing(settings: &Settings, made: &Result<Settings, Sense>) -> Plan
    ensures { result ≡ changing settings.now made.now }
{
    match made {
        Ok(made) => {
            if same_settings(settings, made) {
                Plan::Ending(Reply::good())
            } else {
                Plan::Changing
            }
        }
        Err(sense) => refusing(*sense),
    }
}

pub fn same_settings(s: &Settings, t: &Settings) -> bool
    ensures { result ≡ same_settings s.now t.now }
{
    same_flag(s.awre, t.awre)
        && same_flag(s.arre, t.arre)
        && same_flag(s.per, t.per)
        && s.retry == t.retry
        && same_flag(s.wce, t.wce)
        && same_flag(s.rcd, t.rcd)
        && same_flag(s.bms, t.bms)
}

/// The heading of READ DEFECT DATA; what follows only the drive knows.
pub fn read_defect_data(
    alloc: Global,
    primary: bool,
    grown: bool,
    format: u8,
    allocation: u16,
) -> Result<Plan, NoMemory>
    ensures { IfOk result (λ plan. plan ≡ Plan.Answering (defect_heading primary grown allocation) (defect_reply format)) }
{
    let heading = [
        0,
        (if primary { 16 } else { 0 }) + (if grown { 8 } else { 0 }) + 5,
    ];
    let most = heading.len().min(allocation as usize);
    let reply = if format == PHYSICAL_SECTOR_FORMAT {
        Reply::good()
    } else {
        Reply::check_condition(DEFECT_LIST_NOT_FOUND)
    };
    giving(alloc, &heading[..most], reply)
}

/// The scan's log as it stands.
pub fn log_sense(
    alloc: Global,
    known: &Known,
    page: u8,
    subpage: u8,
    pointer: u16,
    allocation: u16,
) -> Result<Plan, NoMemory>
    requires { 1 ≤ known.now.capacity }
    ensures { IfOk result (λ plan. plan ≡ answering allocation
        (log_data (scan_shown known.now.capacity known.now.settings.bms (scan_of known.now.scan)) known.now.scan.log page subpage pointer)) }
{
    let state = shown(known);
    let log = &known.scan.log;
    match log.page(alloc, &state, page, subpage, pointer, allocation) {
        Ok(bytes) => Ok(Plan::Answering(bytes, Reply::good())),
        Err(PageFault::Bad(sense)) => Ok(refusing(sense)),
        Err(PageFault::NoMemory) => Err(NoMemory),
    }
}

// How the scan stands, as LOG SENSE shows it.
fn shown(known: &Known) -> ScanState
    requires { 1 ≤ known.now.capacity }
    ensures { result ≡ scan_shown known.now.capacity known.now.settings.bms (scan_of known.now.scan) }
{
    ScanState {
        minutes: known.scan.minutes,
        active: known.settings.bms,
        passes: (known.scan.scanned / known.capacity).min(PASSES_MAX) as u16,
        cursor: known.scan.scanned % known.capacity,
        capacity: known.capacity,
    }
}

// These data, and then this reply.
fn giving(alloc: Global, bytes: &[u8], reply: Reply) -> Result<Plan, NoMemory>
    ensures { IfOk result (λ plan. plan ≡ Plan.Answering bytes.now reply) }
{
    let data = Vec::from_slice(alloc, bytes)?;
    Ok(Plan::Answering(Bytes::from_vec(data), reply))
}

fn same_flag(a: bool, b: bool) -> bool
    ensures { result ≡ same_flag a b }
{
    if a { b } else { !b }
}
