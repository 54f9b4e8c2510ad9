//! The numbers of a report's last line.
ghost use Rattle.std.specs.Prelude.{◌≡◌, IfSome, Some};
ghost use Rattle.report_text.specs.declared.summary.Summary.{Summary as SummaryValue};
ghost use Rattle.report_text.specs.Ending.{EndsInSummary, counts_in, last_line, sums_up};
ghost use Rattle.report_text.specs.Reading.{AreCounts};

use crate::counts::Counts;
use crate::summary_reading::counts_of_line;
use crate::tally::tally_of;
use block_machine::Turn;
use memchr::memrchr;

/// The numbers of a summary that was read.
#[derive(Clone, Copy, Debug, PartialEq, Eq)]
pub struct Summary {
    pub turns: u64,
    /// Commands that came.
    pub commands: u64,
    /// Commands that ended with GOOD, with CHECK CONDITION and with TASK SET FULL.
    pub good: u64,
    pub check: u64,
    pub full: u64,
    /// Commands that a function ended.
    pub aborted: u64,
    /// Commands that were in when the power went off.
    pub cut: u64,
    /// Reads that found another payload than the one meant.
    pub strays: u64,
}

impl Summary {
    /// Whether all its numbers but the strays, which turns don't tell, are those of these turns.
    pub fn sums_up(&self, turns: &[Turn]) -> bool
        ensures { result ≡ sums_up self.now turns.now }
    {
        let tally = tally_of(turns);
        u128::from(self.turns) == turns.len() as u128
            && u128::from(self.commands) == tally.commands
            && u128::from(self.good) == tally.good
            && u128::from(self.check) == tally.check
            && u128::from(self.full) == tally.full
            && u128::from(self.aborted) == tally.aborted
            && u128::from(self.cut) == tally.cut
    }

    // Numbers of 64 bits.
    fn of(counts: &Counts) -> Self
        requires { AreCounts counts.now }
        ensures { counts_in result ≡ counts.now }
    {
        Summary {
            turns: counts.turns as u64,
            commands: counts.commands as u64,
            good: counts.good as u64,
            check: counts.check as u64,
            full: counts.full as u64,
            aborted: counts.aborted as u64,
            cut: counts.cut as u64,
            strays: counts.strays as u64,
        }
    }
}

/// The numbers of the last line of a report, where that is a summary, ended by LF, with numbers below 2^64. What stands before
/// it isn't looked at.
pub fn read_summary(bytes: &[u8]) -> Option<Summary>
    ensures some { IfSome result (EndsInSummary bytes.now) }
    ensures found { (summary : SummaryValue) → EndsInSummary bytes.now summary → result ≡ Some summary }
{
    match bytes.split_last() {
        Some((b'\n', lines)) => match counts_of_line(last_line(lines)) {
            Some(counts) => Some(Summary::of(&counts)),
            None => None,
        },
        _ => None,
    }
}

// What stands behind the last LF of a text.
fn last_line(text: &[u8]) -> &[u8]
    ensures { result.now ≡ last_line text.now }
{
    match memrchr(b'\n', text) {
        Some(at) => &text[at + 1..],
        None => text,
    }
}
