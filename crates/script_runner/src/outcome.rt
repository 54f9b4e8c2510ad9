//! What the top call answers.

ghost use Rattle.std.specs.Prelude.{◌≡◌, ◌≤◌, ◌+◌, ◌++◌, [], ◌∷◌, length, decimal, codes};
ghost use Rattle.arrayvec.specs.ArrayVec.{array_vec_len};
ghost use Rattle.std.specs.Io.KnownBytes.{Appends};
ghost use Rattle.outside.specs.Faults.{Rises};
ghost use Rattle.outside.specs.Pieces.{AppendsFront};
ghost use Rattle.script_runner.specs.Outcome.{status_of, said_of, why_word};

use arrayvec::ArrayVec;
use itoa::Buffer;
use outside::{Printed, Sink, offer};
use report_text::Run;
use script_text::Why;

// Room for the longest line: its words, and a number as `itoa` may give it.
const LINE_LENGTH_MAX: usize = 64;

/// What a call of the drive's program came to.
#[derive(Debug, Drop)]
pub enum Outcome {
    /// The script was carried out, and its report went to the sink.
    Served(Run),
    /// This word, from 1, is the first that breaks the rule of words; a missing word has the number after the last.
    Usage { word: u32 },
    /// The script is longer than 4,194,304 bytes.
    TooLong,
    /// This line, from 1, is the first that is refused.
    Refused { line: u32, why: Why },
    ReadFault,
    /// The script was carried out, and only a front of its report went to the sink.
    WriteFault(Run),
    NoMemory,
}

impl Outcome {
    /// The exit status of the program.
    pub fn status(&self) -> u8
        ensures { result ≡ status_of self.now }
    {
        match self {
            Outcome::Served(_) => 0,
            Outcome::Usage { .. } => 1,
            Outcome::TooLong | Outcome::Refused { .. } => 2,
            Outcome::ReadFault => 3,
            Outcome::WriteFault(_) => 4,
            Outcome::NoMemory => 5,
        }
    }

    /// Writes one line on what went wrong, and nothing at status 0. It takes no memory.
    pub fn say<K: Sink>(&self, sink: &mut K) -> Printed
        ensures faults_stay { K.faults sink.old ≤ K.faults sink.new }
        ensures all { result ≡ Printed.All → Appends (K.held sink.old) (K.held sink.new) (said_of self.now) }
        ensures fault { result ≡ Printed.Fault → Rises (K.faults sink.old) (K.faults sink.new) }
        ensures front { AppendsFront (K.held sink.old) (K.held sink.new) (said_of self.now) }
    {
        offer(sink, &self.line())
    }

    // The line that is said, where there is one.
    fn line(&self) -> ArrayVec<u8, LINE_LENGTH_MAX>
        ensures { result.items ≡ said_of self.now }
    {
        match self {
            Outcome::Served(_) => ArrayVec::new(),
            Outcome::Usage { word } => numbered(b"usage: word ", *word, b"\n"),
            Outcome::TooLong => plain(b"too long\n"),
            Outcome::Refused { line, why } => numbered(b"line ", *line, ending(*why)),
            Outcome::ReadFault => plain(b"read fault\n"),
            Outcome::WriteFault(_) => plain(b"write fault\n"),
            Outcome::NoMemory => plain(b"no memory\n"),
        }
    }
}

// What stands behind the number of a line that is refused.
fn ending(why: Why) -> &'static [u8]
    ensures text { result.now ≡ codes ": " ++ why_word why ++ 10 ∷ [] }
    ensures short { length result.now ≤ 10 }
{
    match why {
        Why::Bytes => b": bytes\n",
        Why::Shape => b": shape\n",
        Why::Number => b": number\n",
        Why::Hex => b": hex\n",
        Why::Cdb => b": cdb\n",
        Why::Disk => b": disk\n",
        Why::Place => b": place\n",
        Why::Tag => b": tag\n",
        Why::Limit => b": limit\n",
        Why::Later => b": later\n",
    }
}

fn plain(text: &[u8]) -> ArrayVec<u8, LINE_LENGTH_MAX>
    requires { length text.now ≤ 24 }
    ensures { result.items ≡ text.now }
{
    let mut line = ArrayVec::new();
    put(&mut line, text);
    line
}

// A line with a number in it.
fn numbered(before: &[u8], number: u32, after: &[u8]) -> ArrayVec<u8, LINE_LENGTH_MAX>
    requires { length before.now + length after.now ≤ 24 }
    ensures { result.items ≡ before.now ++ decimal number ++ after.now }
{
    let mut line = ArrayVec::new();
    put(&mut line, before);
    put(&mut line, Buffer::new().format(number).as_bytes());
    put(&mut line, after);
    line
}

fn put(line: &mut ArrayVec<u8, LINE_LENGTH_MAX>, piece: &[u8])
    requires { array_vec_len line.old + length piece.now ≤ 64 }
    ensures items { line.new.items ≡ line.old.items ++ piece.now }
    ensures len { array_vec_len line.new ≡ array_vec_len line.old + length piece.now }
{
    let _ = line.try_extend_from_slice(piece);
}
