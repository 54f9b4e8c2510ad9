use move_jobs::Job;

/// A move in flight.
#[derive(Debug, Drop)]
pub struct Flight {
    /// Its number: moves are numbered from 1 in the order in which they are opened.
    pub j: u32,
    pub job: Job,
}
