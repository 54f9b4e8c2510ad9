ghost use Rattle.std.specs.Prelude.{◌≡◌, ◌≤◌, []};
ghost use Rattle.std.specs.Io.KnownBytes.{Appends};
ghost use Rattle.outside.specs.Faults.{Rises, counted};
ghost use Rattle.outside.specs.Pieces.{AppendsFront};

use crate::{Sink, SinkAnswer};

/// What offering a text to a sink answers.
#[derive(Clone, Copy, Debug, PartialEq, Eq)]
pub enum Printed {
    All,
    Fault,
}

/// Offers a sink a text, and again what it didn't take, until it has all of it. After a fault it isn't offered again.
pub fn offer<K: Sink>(sink: &mut K, text: &[u8]) -> Printed
    ensures faults_stay { K.faults sink.old ≤ K.faults sink.new }
    ensures all { result ≡ Printed.All → Appends (K.held sink.old) (K.held sink.new) text.now }
    ensures fault { result ≡ Printed.Fault → Rises (K.faults sink.old) (K.faults sink.new) }
    ensures one_fault { result ≡ Printed.Fault → K.faults sink.new ≡ counted (K.faults sink.old) }
    ensures no_fault { result ≡ Printed.All → K.faults sink.new ≡ K.faults sink.old }
    ensures empty { text.now ≡ [] → result ≡ Printed.All }
    ensures front { AppendsFront (K.held sink.old) (K.held sink.new) text.now }
{
    let mut at = 0;
    while at < text.len() {
        match sink.write(&text[at..]) {
            SinkAnswer::Took(count) => at += count,
            SinkAnswer::Failed => return Printed::Fault,
        }
    }
    Printed::All
}
