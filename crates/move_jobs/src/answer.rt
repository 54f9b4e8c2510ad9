use disk_base::Psn;

/// How a need of a move was met.
#[derive(Clone, Copy, Debug, PartialEq, Eq)]
pub enum JobAnswer {
    Done,
    /// The spare can't be used: its write faulted, or it doesn't read as it was written. `next` is the spare to go on to.
    Bad { next: Option<Psn> },
}
