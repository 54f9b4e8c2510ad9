//! Reading a summary: its numbers are read, it is printed again, and the line is a summary where the print is the line.
ghost use Rattle.std.specs.Prelude.{◌≡◌, ◌<◌, ◌^◌, IsTrue, IfSome, Some};
ghost use Rattle.text_words.specs.Line.{texts_of};
ghost use Rattle.report_text.specs.declared.counts.Counts.{Counts as CountsValue};
ghost use Rattle.report_text.specs.Summary.{summary_text};
ghost use Rattle.report_text.specs.SummaryReading.{count_of, counts_by, later_counts, counts_from};
ghost use Rattle.report_text.specs.Reading.{AreCounts};

use crate::counts::{Counts, put_counts};
use crate::fields::number_of;
use arrayvec::ArrayVec;
use text_words::{Compare, read_words};

// The words of a summary.
const SUMMARY_WORDS: usize = 16;

/// Whether a line, without its end, is a summary.
pub fn is_summary(line: &[u8]) -> bool
    ensures yes { IsTrue result → (counts : CountsValue) × AreCounts counts × (line.now ≡ summary_text counts) }
    ensures no { (counts : CountsValue) → AreCounts counts → line.now ≡ summary_text counts → IsTrue result }
{
    match counts_of_line(line) {
        Some(_) => true,
        None => false,
    }
}

/// The numbers of a line, without its end, that is a summary.
pub fn counts_of_line(line: &[u8]) -> Option<Counts>
    ensures some { IfSome result (λ counts. AreCounts counts × (line.now ≡ summary_text counts)) }
    ensures found { (counts : CountsValue) → AreCounts counts → line.now ≡ summary_text counts → result ≡ Some counts }
{
    match line {
        [b't', ..] => printed_counts(line),
        _ => None,
    }
}

fn printed_counts(line: &[u8]) -> Option<Counts>
    ensures some { IfSome result (λ counts. AreCounts counts × (line.now ≡ summary_text counts)) }
    ensures found { (counts : CountsValue) → AreCounts counts → line.now ≡ summary_text counts → result ≡ Some counts }
{
    let words: ArrayVec<&[u8], SUMMARY_WORDS> = match read_words(line) {
        Some(words) => words,
        None => return None,
    };
    match counts_from(words.as_slice()) {
        Some(counts) => {
            let mut out = Compare::new(line);
            put_counts(&mut out, &counts);
            if out.is_all() { Some(counts) } else { None }
        }
        None => None,
    }
}

fn counts_from(words: &[&[u8]]) -> Option<Counts>
    ensures value { result ≡ counts_from (texts_of words.now) }
    ensures small { IfSome result AreCounts }
{
    match words {
        [_, t, _, c, _, g, _, k, rest @ ..] => later_counts(t, c, g, k, rest),
        _ => None,
    }
}

fn later_counts(t: &[u8], c: &[u8], g: &[u8], k: &[u8], words: &[&[u8]]) -> Option<Counts>
    ensures value { result ≡ later_counts t.now c.now g.now k.now (texts_of words.now) }
    ensures small { IfSome result AreCounts }
{
    match words {
        [_, f, _, a, _, x, _, s] => counts_by(t, c, g, k, f, a, x, s),
        _ => None,
    }
}

#[tactic(auto, unfolding(crate::specs::SummaryReading::counts_by))]
fn counts_by(
    t: &[u8],
    c: &[u8],
    g: &[u8],
    k: &[u8],
    f: &[u8],
    a: &[u8],
    x: &[u8],
    s: &[u8],
) -> Option<Counts>
    ensures value { result ≡ counts_by t.now c.now g.now k.now f.now a.now x.now s.now }
    ensures small { IfSome result AreCounts }
{
    let turns = count_of(t)?;
    let commands = count_of(c)?;
    let good = count_of(g)?;
    let check = count_of(k)?;
    let full = count_of(f)?;
    let aborted = count_of(a)?;
    let cut = count_of(x)?;
    let strays = count_of(s)?;
    Some(Counts {
        turns: u128::from(turns),
        commands: u128::from(commands),
        good: u128::from(good),
        check: u128::from(check),
        full: u128::from(full),
        aborted: u128::from(aborted),
        cut: u128::from(cut),
        strays: u128::from(strays),
    })
}

fn count_of(word: &[u8]) -> Option<u64>
    ensures { result ≡ count_of word.now }
{
    number_of(0, u64::MAX, word)
}
