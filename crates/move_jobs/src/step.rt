/// What is to be done next about a move.
#[derive(Clone, Copy, Debug, PartialEq, Eq)]
pub enum JobStep {
    /// The value is to be written to the spare.
    Writing,
    /// The spare was written, and is to be read back.
    Checking,
    /// The spare carries the value, and the pairs are to be committed.
    Committing,
    /// The move is over.
    Over(JobResult),
}

/// How a move ended.
#[derive(Clone, Copy, Debug, PartialEq, Eq)]
pub enum JobResult {
    /// The block is at the last spare.
    Moved,
    /// A spare was bad and there was no further one. The block stays where it was.
    NoSpare,
}
