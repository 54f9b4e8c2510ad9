//! What the entries of turns come to.
ghost use Rattle.std.specs.Prelude.{◌≡◌, ◌^◌, ◌+◌, ◌≤◌, ◌<◌, ℕ, fold, length};
ghost use Rattle.report_text.specs.Summary.{tally_at_start, tally_after, with_end, tally_of, IsWithin};

use block_machine::{Entry, Turn};
use sense_data::{CHECK_CONDITION, GOOD, TASK_SET_FULL};

/// Counts of commands by what became of them, over the entries so far.
#[derive(Clone, Copy, Debug, PartialEq, Eq)]
pub struct Tally {
    pub commands: u128,
    /// Those that ended with GOOD.
    pub good: u128,
    /// Those that ended with CHECK CONDITION.
    pub check: u128,
    /// Those that ended with TASK SET FULL.
    pub full: u128,
    /// Those that a function ended.
    pub aborted: u128,
    /// Those that are in.
    pub inside: u128,
    /// Those that were in when the power went off.
    pub cut: u128,
}

/// What turns come to.
pub fn tally_of(turns: &[Turn]) -> Tally
    ensures { result ≡ tally_of turns.now }
{
    let mut tally = at_start();
    for turn in turns {
        tally = tally_behind(tally, turn.entries.as_slice());
    }
    tally
}

fn at_start() -> Tally
    ensures { result ≡ tally_at_start }
{
    Tally {
        commands: 0,
        good: 0,
        check: 0,
        full: 0,
        aborted: 0,
        inside: 0,
        cut: 0,
    }
}

fn tally_behind(before: Tally, entries: &[Entry]) -> Tally
    requires { IsWithin (2 ^ 127) before }
    ensures tally { result ≡ fold tally_after before entries.now }
    ensures short { length entries.now < 2 ^ 64 }
{
    let _count = entries.len();
    let mut tally = before;
    for entry in entries {
        tally = tally_after(tally, entry);
    }
    tally
}

fn tally_after(before: Tally, entry: &Entry) -> Tally
    requires { IsWithin (2 ^ 127 + 2 ^ 64) before }
    ensures { result ≡ tally_after before entry.now }
{
    let mut tally = before;
    match entry {
        Entry::Arrived { .. } => {
            tally.commands += 1;
            tally.inside += 1;
        }
        Entry::Ended { reply, .. } => {
            tally.inside = tally.inside.saturating_sub(1);
            return with_end(reply.status, tally);
        }
        Entry::Aborted { .. } => {
            tally.aborted += 1;
            tally.inside = tally.inside.saturating_sub(1);
        }
        Entry::Cut => {
            tally.cut += tally.inside;
            tally.inside = 0;
        }
        _ => {}
    }
    tally
}

fn with_end(status: u8, before: Tally) -> Tally
    requires { IsWithin (2 ^ 127 + 2 ^ 64) before }
    ensures { result ≡ with_end status before }
{
    let mut tally = before;
    match status {
        GOOD => tally.good += 1,
        CHECK_CONDITION => tally.check += 1,
        TASK_SET_FULL => tally.full += 1,
        _ => {}
    }
    tally
}
