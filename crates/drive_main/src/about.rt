//! What the program says of itself.

/// What is said, and the exit status, where this text can't be written; the top call has the same for a report.
pub const WRITE_FAULT: &[u8] = b"write fault\n";

pub const WRITE_FAULT_STATUS: u8 = 4;

const VERSION: &[u8] = b"neprozul 0.1.0\nwritten for rattle-kit-13f logic dac8208d650f15bf\n";

const HELP: &[u8] = b"drive: the controller firmware of a disk drive, run over a script of commands

usage: drive run < SCRIPT             carries the script out and writes its report
       drive run --order N < SCRIPT   the same, where the turns of a phase come in an order drawn from N, 0 to 2147483647
       drive --help                   this text
       drive --version                the version, and the kit that it is written for

A script has lines of words parted by one space. Served so far are
    disk C H S R, primary P    the measures of the drive and its defects, first of all
    cmd I TAG A CDB [DATA]     a command of initiator I, 1 to 8, with attribute A, S, O or H; any but REASSIGN BLOCKS
    abort I TAG, abortset I, clear I, reset I    a task management function of initiator I
    destage N                  up to N blocks of the cache are written out in the background
    go                         what waits is carried out, as it is at the end
    damage P F L LASTING EFFECT    samples of a sector are lost or changed
    minutes N                  so many minutes pass
and lines that begin with #. Any other line that is in order is refused with the word later.
The report has a line for each turn of the drive, and a summary. docs/FORMATS.md says what stands in it.

exit status: 0 served, 1 wrong words, 2 a script that is refused or too long, 3 a fault of reading,
4 a fault of writing, 5 no memory. At 1 to 5 one line on standard error says what it was.
";

/// The text that is the answer to these words alone.
pub fn text_for(words: &[&str]) -> Option<&'static [u8]> {
    match words {
        [word] if *word == "--help" => Some(HELP),
        [word] if *word == "--version" => Some(VERSION),
        _ => None,
    }
}
