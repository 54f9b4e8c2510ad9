//! Where bytes come from and where they go: sources and sinks that may fail, with a count of their faults.
//! They stand over std's readers and writers, and over memory, which gives and takes in pieces and fails as it
//! is told to. A source is read to its end, and a sink is offered a text, by one call each.
#![tactic(auto)]

mod memory;
mod offering;
mod over_std;
mod reading;
mod sink;
mod source;
mod steady;

pub use memory::{MemorySink, MemorySource};
pub use offering::{Printed, offer};
pub use over_std::{FromRead, ToWrite};
pub use reading::{Reading, read_to_end};
pub use sink::{Sink, SinkAnswer};
pub use source::{ReadAnswer, Source};
pub use steady::{SteadySink, SteadySource};
