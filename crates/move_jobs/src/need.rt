use disk_base::Psn;

/// What a move needs next.
#[derive(Clone, Copy, Debug, PartialEq, Eq)]
pub enum JobNeed {
    /// The value of the move, on this spare.
    WriteSpare(Psn),
    /// Whether this spare carries the value, by its plain read.
    CheckSpare(Psn),
    /// The map with the pairs of the move.
    Commit,
    /// Nothing any more.
    Ended,
}
