//! The top call: one script in, one report out.

ghost use Rattle.std.specs.Prelude.{◌≡◌, ◌≢◌, ◌↔◌, ℕ, Err, IfOk, IsOk};
ghost use Rattle.outside.specs.Faults.{Rises};
ghost use Rattle.script_runner.specs.Words.{texts_of, order_asked, order_of};
ghost use Rattle.script_runner.specs.Outcome.{SourceOf, SinkOf, IsQuiet, IsWriteFault, IsServedIfMemory, IsBounded, HasFewTurns, HasScript, Ran};

use crate::carrying::run_script;
use crate::order::Order;
use crate::outcome::Outcome;
use crate::words::order_asked;
use outside::{Printed, Reading, Sink, Source, read_to_end};
use report_text::{Form, Run, print_run};
use script_text::{ScriptFault, read_script};
use std::alloc::Global;

/// The most bytes that a script has.
const SCRIPT_LIMIT: usize = 4_194_304;

/// Serves one script: the words are read first, then the source, then the script, then the run, and then the report
/// is printed. The words are `run`, or `run --order` and a number from 0 to 2147483647.
pub fn serve_alone<S: Source, K: Sink>(
    alloc: Global,
    words: &[&str],
    source: &mut S,
    sink: &mut K,
) -> Outcome
    ensures source { SourceOf (order_of (texts_of words.now)) (S.left source.old) (S.left source.new) result }
    ensures sink { SinkOf (K.held sink.old) (K.held sink.new) result }

    ensures usage { (word : ℕ) → (result ≡ Outcome.Usage word) ↔ (order_asked (texts_of words.now) ≡ Err word) }
    ensures unread { (word : ℕ) → result ≡ Outcome.Usage word → source.new ≡ source.old }
    ensures quiet { IsQuiet result → sink.new ≡ sink.old }

    // A script is carried out in a number of turns that its lines bound, by how many they are and what they weigh.
    ensures turns { IsBounded result }

    ensures read_fault { result ≡ Outcome.ReadFault → Rises (S.faults source.old) (S.faults source.new) }
    ensures no_read_fault { result ≢ Outcome.ReadFault → S.faults source.new ≡ S.faults source.old }
    ensures write_fault { IsWriteFault result → Rises (K.faults sink.old) (K.faults sink.new) }
    ensures no_write_fault { (run : _) → result ≡ Outcome.Served run → K.faults sink.new ≡ K.faults sink.old }

    // Lawful words, a script that is served, and no fault give Served, unless memory runs out.
    ensures complete { IsOk (order_asked (texts_of words.now)) → HasScript (S.left source.old)
        → ¬ Rises (S.faults source.old) (S.faults source.new) → ¬ Rises (K.faults sink.old) (K.faults sink.new)
        → IsServedIfMemory result }
{
    let order = match order_asked(words) {
        Ok(x) => Order { x },
        Err(word) => return Outcome::Usage { word },
    };
    let bytes = match read_to_end(alloc, source, SCRIPT_LIMIT) {
        Reading::Read(bytes) => bytes,
        Reading::TooLong => return Outcome::TooLong,
        Reading::Failed => return Outcome::ReadFault,
        Reading::NoMemory => return Outcome::NoMemory,
    };
    let run = match run_bytes(alloc, bytes.as_slice(), order) {
        Ok(run) => run,
        Err(ScriptFault::NoMemory) => return Outcome::NoMemory,
        Err(ScriptFault::Refused { line, why }) => return Outcome::Refused { line, why },
    };
    match print_run(&run, Form::Whole, sink) {
        Printed::All => Outcome::Served(run),
        Printed::Fault => Outcome::WriteFault(run),
    }
}

// The run of a script.
fn run_bytes(alloc: Global, bytes: &[u8], order: Order) -> Result<Run, ScriptFault>
    ensures ran { Ran order.x result bytes.now }
    ensures few { IfOk result HasFewTurns }
{
    match read_script(alloc, bytes) {
        Ok(script) => match run_script(alloc, script, order) {
            Ok(run) => Ok(run),
            Err(_) => Err(ScriptFault::NoMemory),
        },
        Err(fault) => Err(fault),
    }
}
