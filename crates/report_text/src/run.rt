use block_machine::Turns;
use platter_model::Ops;
use script_text::Script;

/// A script that was carried out: its turns, and all operations of the platter. Each turn names its own by their places
/// among those behind the factory's.
#[derive(Debug, Drop)]
pub struct Run {
    pub script: Script,
    pub turns: Turns,
    pub ops: Ops,
    /// How many operations the factory did.
    pub factory_count: u64,
}

/// How much of a run a report shows.
#[derive(Clone, Copy, Debug, PartialEq, Eq)]
pub enum Form {
    /// Each turn and the summary.
    Whole,
    /// The summary alone.
    Brief,
}
