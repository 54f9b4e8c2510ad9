//! The addresses of the dirty blocks.
ghost use Rattle.std.specs.Prelude.{◌≡◌, ◌==◌, OnOk};
ghost use Rattle.std.specs.List.{list_any};
ghost use Rattle.block_machine.specs.Blocks.{dirty_after, with_address, without_address};

use block_machine::Entry;
use disk_base::NoMemory;

/// The addresses of the dirty blocks after an entry; the block that is dirty for the longest time comes first.
pub fn settle_dirty(dirty: &mut Vec<u64>, entry: &Entry) -> Result<(), NoMemory>
    ensures { OnOk result (dirty.new.items ≡ dirty_after dirty.old.items entry.now) }
{
    match entry {
        Entry::Put { b, .. } | Entry::GiveUp { b } => add(dirty, b.0),
        Entry::Harden { b, .. } => {
            take_out(dirty, b.0);
            Ok(())
        }
        Entry::Cut => {
            dirty.clear();
            Ok(())
        }
        _ => Ok(()),
    }
}

// Adds an address at the end, unless it is among them.
fn add(dirty: &mut Vec<u64>, b: u64) -> Result<(), NoMemory>
    ensures { OnOk result (dirty.new.items ≡ with_address b dirty.old.items) }
{
    if is_among(b, dirty.as_slice()) {
        return Ok(());
    }
    dirty.push(b)?;
    Ok(())
}

/// Whether an address is among others.
pub fn is_among(b: u64, dirty: &[u64]) -> bool
    ensures { result ≡ list_any (λ a. a == b) dirty.now }
{
    dirty.iter().any(|a| *a == b)
}

// Takes an address out.
fn take_out(dirty: &mut Vec<u64>, b: u64)
    ensures { dirty.new.items ≡ without_address b dirty.old.items }
{
    dirty.retain(|a| *a != b);
}
