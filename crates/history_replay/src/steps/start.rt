//! What a command owes from its start on: the first rule that applies decides.
ghost use Rattle.std.specs.Prelude.{◌≡◌, ◌+◌, ◌≤◌, length, not, unwrap_or, IfOk, IsTrue};
ghost use Rattle.cdb_reader.specs.Plan.{plan_of, reading_from, unless_empty, writing_from};
ghost use Rattle.cdb_reader.specs.Read.{in_range};
ghost use Rattle.cdb_reader.specs.Request.{outcome_of, request_of};
ghost use Rattle.block_machine.specs.Attentions.{attention_met};
ghost use Rattle.block_machine.specs.Plans.{changing, first_plan, is_medium, plan_asked, plan_with_map};
ghost use Rattle.block_machine.specs.Settings.{settings_made};
ghost use Rattle.history_replay.specs.Known.{HasPageControl, duty_of, moving_blocks, state_of, syncing_from};

use crate::Known;
use crate::steps::answer::{
    changing, inquiry, log_sense, mode_sense, read_capacity_10, read_capacity_16, read_defect_data,
    refusing, report_luns, request_sense, settings_made,
};
use cdb_reader::{Command, Moving, Plan, Reading, Syncing, Writing};
use disk_base::{DataOut, Initiator, Items, Lba, NoMemory};
use mode_pages::ModeRequest;
use sense_data::codes::MEDIUM_FORMAT_CORRUPTED;
use sense_data::{Attentions, Reply, Sense};
use std::alloc::Global;

/// What an initiator's command owes at its start, by its operation code, what it asks for or why it is refused, and its
/// data.
pub fn first_plan(
    alloc: Global,
    known: &Known,
    i: Initiator,
    code: u8,
    asks: &Result<Command, Sense>,
    sent: &DataOut,
) -> Result<Plan, NoMemory>
    requires some { 1 ≤ known.now.capacity }
    requires few { known.now.capacity ≤ 4096 }
    requires range { IfOk asks.now (λ command. IsTrue (in_range (request_of command) known.now.capacity)) }
    requires control { IfOk asks.now HasPageControl }
    ensures { IfOk result (λ plan. plan ≡ first_plan known.now.capacity (state_of known.now) i (duty_of code (outcome_of asks.now) sent.now)) }
{
    if let Some(sense) = attention_met(&known.waiting, i, code) {
        return Ok(refusing(sense));
    }
    match asks {
        Ok(command) => plan_with_map(alloc, known, i, command, sent),
        Err(sense) => Ok(refusing(*sense)),
    }
}

/// The attention with which a command of this operation code ends, where one waits for its initiator.
pub fn attention_met(waiting: &Attentions, i: Initiator, code: u8) -> Option<Sense>
    ensures { result ≡ attention_met waiting.now i code }
{
    if code == 0x12 || code == 0xA0 || code == 0x03 {
        None
    } else {
        waiting.first(i)
    }
}

// Without a map nothing of the medium.
fn plan_with_map(
    alloc: Global,
    known: &Known,
    i: Initiator,
    command: &Command,
    sent: &DataOut,
) -> Result<Plan, NoMemory>
    requires some { 1 ≤ known.now.capacity }
    requires few { known.now.capacity ≤ 4096 }
    requires range { IsTrue (in_range (request_of command.now) known.now.capacity) }
    requires control { HasPageControl command.now }
    ensures { IfOk result (λ plan. plan ≡ plan_with_map known.now.capacity (state_of known.now) i sent.now (request_of command.now)) }
{
    if known.corrupt && is_medium(command) {
        Ok(refusing(MEDIUM_FORMAT_CORRUPTED))
    } else {
        plan_asked(alloc, known, i, command, sent)
    }
}

// Whether a command needs the medium.
fn is_medium(command: &Command) -> bool
    ensures { result ≡ is_medium (request_of command.now) }
{
    match command {
        Command::TestUnitReady
        | Command::ReassignBlocks { .. }
        | Command::Read { .. }
        | Command::Write { .. }
        | Command::WriteAndVerify { .. }
        | Command::Verify { .. }
        | Command::SynchronizeCache { .. }
        | Command::ReadDefectData { .. } => true,
        Command::RequestSense { .. }
        | Command::Inquiry { .. }
        | Command::ModeSelect { .. }
        | Command::ModeSense { .. }
        | Command::ReadCapacity10
        | Command::LogSense { .. }
        | Command::ReadCapacity16 { .. }
        | Command::ReportLuns { .. } => false,
    }
}

// What a command asks for.
fn plan_asked(
    alloc: Global,
    known: &Known,
    i: Initiator,
    command: &Command,
    sent: &DataOut,
) -> Result<Plan, NoMemory>
    requires some { 1 ≤ known.now.capacity }
    requires few { known.now.capacity ≤ 4096 }
    requires range { IsTrue (in_range (request_of command.now) known.now.capacity) }
    requires control { HasPageControl command.now }
    ensures { IfOk result (λ plan. plan ≡ plan_asked known.now.capacity (state_of known.now) i sent.now (request_of command.now)) }
{
    let capacity = known.capacity;
    let settings = &known.settings;
    match command {
        Command::RequestSense { allocation } => request_sense(alloc, known, i, *allocation),
        Command::Inquiry {
            evpd,
            page,
            allocation,
        } => inquiry(alloc, *evpd, *page, *allocation),
        Command::ModeSelect { ten, length } => mode_select(alloc, known, *ten, *length, sent),
        Command::ModeSense {
            ten,
            dbd,
            control,
            page,
            subpage,
            allocation,
        } => {
            let request = ModeRequest {
                ten: *ten,
                dbd: *dbd,
                control: *control,
                page: *page,
                subpage: *subpage,
                allocation: *allocation,
            };
            mode_sense(alloc, settings, capacity, &request)
        }
        Command::ReadCapacity10 => read_capacity_10(alloc, capacity),
        Command::ReadDefectData {
            primary,
            grown,
            format,
            allocation,
        } => read_defect_data(alloc, *primary, *grown, *format, *allocation),
        Command::LogSense {
            page,
            subpage,
            pointer,
            allocation,
        } => log_sense(alloc, known, *page, *subpage, *pointer, *allocation),
        Command::ReadCapacity16 { allocation } => read_capacity_16(alloc, capacity, *allocation),
        Command::ReportLuns { select, allocation } => report_luns(alloc, *select, *allocation),
        Command::TestUnitReady
        | Command::ReassignBlocks { .. }
        | Command::Read { .. }
        | Command::Verify { .. }
        | Command::Write { .. }
        | Command::WriteAndVerify { .. }
        | Command::SynchronizeCache { .. } => plan_on_blocks(alloc, known, command, sent),
    }
}

// New mode values, where they differ from those that hold, or the refusal of their list.
fn mode_select(
    alloc: Global,
    known: &Known,
    ten: bool,
    length: u16,
    sent: &DataOut,
) -> Result<Plan, NoMemory>
    ensures { IfOk result (λ plan. plan ≡ changing known.now.settings (settings_made known.now.capacity known.now.settings ten length sent.now)) }
{
    let settings = &known.settings;
    let made = settings_made(alloc, settings, known.capacity, ten, length, sent)?;
    Ok(changing(settings, &made))
}

// What a command on the medium asks for, or one that only looks whether it is there.
fn plan_on_blocks(
    alloc: Global,
    known: &Known,
    command: &Command,
    sent: &DataOut,
) -> Result<Plan, NoMemory>
    requires few { known.now.capacity ≤ 4096 }
    requires range { IsTrue (in_range (request_of command.now) known.now.capacity) }
    ensures { IfOk result (λ plan. plan ≡ unwrap_or (plan_of (request_of command.now) sent.now (not known.now.settings.wce) known.now.settings.per) Plan.Over) }
{
    let settings = &known.settings;
    match command {
        Command::TestUnitReady => Ok(Plan::Ending(Reply::good())),
        Command::ReassignBlocks { blocks } => moving(alloc, blocks.as_slice()),
        Command::Read { from, length, fua } => Ok(reading(*from, *length, *fua, settings.per)),
        Command::Verify { from, length } => Ok(reading(*from, *length, true, settings.per)),
        Command::Write { from, length, fua } => {
            let through = !settings.wce || *fua;
            writing(alloc, *from, *length, sent, through, false, settings.per)
        }
        Command::WriteAndVerify { from, length } => {
            writing(alloc, *from, *length, sent, true, true, settings.per)
        }
        Command::SynchronizeCache { from, count } => Ok(syncing(*from, *count)),
        _ => Ok(Plan::Over),
    }
}

fn reading(from: u64, length: u16, through: bool, reports: bool) -> Plan
    requires { from + length ≤ 4096 }
    ensures { result ≡ unwrap_or (unless_empty length (reading_from from (from + length) through reports)) Plan.Over }
{
    if length == 0 {
        return Plan::Ending(Reply::good());
    }
    Plan::Reading(Reading {
        at: from,
        end: from + length as u64,
        through,
        reports,
        hardened: false,
    })
}

fn writing(
    alloc: Global,
    from: u64,
    length: u16,
    sent: &DataOut,
    through: bool,
    verifies: bool,
    reports: bool,
) -> Result<Plan, NoMemory>
    requires { from + length ≤ 4096 }
    ensures { IfOk result (λ plan. plan ≡ unwrap_or (unless_empty length (writing_from from length sent.now through verifies reports)) Plan.Over) }
{
    if length == 0 {
        return Ok(Plan::Ending(Reply::good()));
    }
    let sent = sent.copy(alloc)?;
    Ok(Plan::Writing(Writing {
        from,
        at: from,
        end: from + length as u64,
        sent,
        through,
        verifies,
        reports,
        owes_harden: false,
    }))
}

fn syncing(from: u64, count: u64) -> Plan
    requires { from + count ≤ 4096 }
    ensures { result ≡ unwrap_or (unless_empty count (syncing_from from count)) Plan.Over }
{
    if count == 0 {
        return Plan::Ending(Reply::good());
    }
    Plan::Syncing(Syncing {
        at: from,
        end: from + count,
    })
}

fn moving(alloc: Global, blocks: &[Lba]) -> Result<Plan, NoMemory>
    ensures { IfOk result (λ plan. plan ≡ unwrap_or (unless_empty (length blocks.now) (moving_blocks blocks.now)) Plan.Over) }
{
    if blocks.is_empty() {
        return Ok(Plan::Ending(Reply::good()));
    }
    let blocks = Vec::from_slice(alloc, blocks)?;
    Ok(Plan::Moving(Moving {
        blocks: Items::from_vec(blocks),
        hardened: 0,
    }))
}
