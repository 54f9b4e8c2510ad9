//! Printing the report of a run.
ghost use Rattle.std.specs.Prelude.{◌≡◌, ◌∷◌, [], ◌++◌, map, drop};
ghost use Rattle.std.specs.Io.KnownBytes.{Appends};
ghost use Rattle.outside.specs.Faults.{Rises};
ghost use Rattle.outside.specs.Pieces.{AppendsFront};
ghost use Rattle.text_words.specs.Written.{Writes};
ghost use Rattle.report_text.specs.Operations.{shown_of};
ghost use Rattle.report_text.specs.Turns.{turn_lines};
ghost use Rattle.report_text.specs.Report.{report_of};

use crate::counts::{counts_of, put_summary};
use crate::run::{Form, Run};
use crate::turn::put_turn;
use block_machine::Turn;
use outside::{Printed, Sink};
use platter_model::Op;
use text_words::{Out, ToSink};

/// Prints the report of a run to a sink. It takes no memory: so many bytes as `text_words` gathers are offered at a
/// time, and what the sink doesn't take of them is offered again.
pub fn print_run<K: Sink>(run: &Run, form: Form, sink: &mut K) -> Printed
    ensures all { result ≡ Printed.All → Appends (K.held sink.old) (K.held sink.new) (report_of form run.now.factory_count run.now.turns run.now.ops) }
    ensures no_fault { result ≡ Printed.All → K.faults sink.new ≡ K.faults sink.old }
    ensures fault { result ≡ Printed.Fault → Rises (K.faults sink.old) (K.faults sink.new) }
    ensures front { AppendsFront (K.held sink.old) (K.held sink.new) (report_of form run.now.factory_count run.now.turns run.now.ops) }
{
    let mut out = ToSink::new(sink);
    put_report(
        &mut out,
        form,
        run.factory_count,
        run.turns.as_slice(),
        run.ops.as_slice(),
    );
    out.finish()
}

// The turns name their operations among those behind so many.
fn put_report<O: Out>(out: &mut O, form: Form, before: u64, turns: &[Turn], ops: &[Op])
    ensures { Writes O.written out.old out.new (λ text. text ++ report_of form before turns.now ops.now) }
{
    let counts = counts_of(turns, ops);
    match form {
        Form::Whole => {
            put_turns(out, turns, behind(before, ops));
            put_summary(out, &counts);
        }
        Form::Brief => put_summary(out, &counts),
    }
}

// The operations behind so many.
fn behind(before: u64, ops: &[Op]) -> &[Op]
    ensures { result.now ≡ drop before ops.now }
{
    &ops[ops.len().min(before as usize)..]
}

fn put_turns<O: Out>(out: &mut O, turns: &[Turn], ops: &[Op])
    ensures { Writes O.written out.old out.new (λ text. text ++ turn_lines 1 (map shown_of ops.now) turns.now) }
{
    for (index, turn) in turns.iter().enumerate() {
        put_turn(out, index as u64 + 1, turn, ops);
    }
}
