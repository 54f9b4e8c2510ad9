//! What an entry makes of the map's state and of the scan; and which turns a start may stand in.
ghost use Rattle.std.specs.Prelude.{◌≡◌, ◌+◌, ◌*◌, ◌/◌, ◌%◌, ◌<◌, ◌≤◌, min, IsTrue, OnOk};
ghost use Rattle.std.specs.List.{list_any};
ghost use Rattle.block_machine.specs.Entries.{outcome_lawful};
ghost use Rattle.block_machine.specs.Scan.{scan_after};
ghost use Rattle.block_machine.specs.Steps.{corrupt_after, is_corrupt};
ghost use Rattle.block_machine.specs.Turns.{is_end, is_start, starts_alone};
ghost use Rattle.history_replay.specs.Kept.{ShowSame};
ghost use Rattle.history_replay.specs.Known.{may_log, scan_of};

use crate::Scanning;
use block_machine::{Entry, Recovered};
use disk_base::NoMemory;
use scan_log::ScanLog;
use std::alloc::Global;

/// Whether the map is one that couldn't be read, after an entry.
pub fn corrupt_after(corrupt: bool, entry: &Entry) -> bool
    ensures { result ≡ corrupt_after corrupt entry.now }
{
    match entry {
        Entry::PoweredOn { outcome } => is_corrupt(outcome),
        _ => corrupt,
    }
}

fn is_corrupt(outcome: &Recovered) -> bool
    ensures { result ≡ is_corrupt outcome.now }
{
    match outcome {
        Recovered::Corrupt(_) => true,
        Recovered::Ready(_) | Recovered::Formatting(_) => false,
    }
}

/// Whether a power on may come out so: no format is cut off yet.
pub fn may_come_out(outcome: &Recovered) -> bool
    ensures { result ≡ outcome_lawful outcome.now }
{
    match outcome {
        Recovered::Ready(_) | Recovered::Corrupt(_) => true,
        Recovered::Formatting(_) => false,
    }
}

/// The scan after an entry, as LOG SENSE shows it on a unit of so many blocks.
pub fn watch_scan(
    alloc: Global,
    scan: &mut Scanning,
    capacity: u64,
    entry: &Entry,
) -> Result<(), NoMemory>
    requires few { capacity ≤ 4096 }
    requires counted { scan.old.scanned < 65536 * capacity }
    requires fits { IsTrue (may_log entry.now) }
    ensures shown { OnOk result (ShowSame capacity (scan_of scan.new) (scan_after (scan_of scan.old) entry.now)) }
    ensures counted { scan.new.scanned < 65536 * capacity }
{
    match entry {
        Entry::Scanned { .. } => scan.scanned = one_more(scan.scanned, capacity),
        Entry::Logged { finding } => scan.log.add(*finding),
        Entry::Tick { minutes } => scan.minutes = scan.minutes.saturating_add(*minutes as u32),
        Entry::Cut => scan.log = ScanLog::new(alloc)?,
        Entry::PoweredOn { .. } => {
            *scan = Scanning {
                minutes: 0,
                scanned: 0,
                log: ScanLog::new(alloc)?,
            }
        }
        _ => {}
    }
    Ok(())
}

// One more block that the scan was done with. Passes end at 65,535, so that the last of them begins again.
fn one_more(scanned: u64, capacity: u64) -> u64
    requires few { capacity ≤ 4096 }
    requires counted { scanned < 65536 * capacity }
    ensures passes { min (result / capacity) 65535 ≡ min ((scanned + 1) / capacity) 65535 }
    ensures cursor { result % capacity ≡ (scanned + 1) % capacity }
    ensures counted { result < 65536 * capacity }
{
    if scanned + 1 == 65536 * capacity {
        65535 * capacity
    } else {
        scanned + 1
    }
}

/// Whether a start among these entries stands alone, or the command ends in the turn.
pub fn starts_alone(entries: &[Entry]) -> bool
    ensures { result ≡ starts_alone entries.now }
{
    !has_start(entries) || entries.len() == 1 || has_end(entries)
}

fn has_start(entries: &[Entry]) -> bool
    ensures { result ≡ list_any is_start entries.now }
{
    entries.iter().any(|entry| is_start(entry))
}

fn has_end(entries: &[Entry]) -> bool
    ensures { result ≡ list_any is_end entries.now }
{
    entries.iter().any(|entry| is_end(entry))
}

fn is_start(entry: &Entry) -> bool
    ensures { result ≡ is_start entry.now }
{
    matches!(entry, Entry::Started { .. })
}

fn is_end(entry: &Entry) -> bool
    ensures { result ≡ is_end entry.now }
{
    matches!(entry, Entry::Ended { .. })
}
