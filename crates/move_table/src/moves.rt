ghost use Rattle.std.specs.Prelude.{◌≡◌, ◌+◌, ◌-◌, ◌≤◌, ◌<◌, ◌∷◌, ◌++◌, [], IsTrue, IsSomeAnd, length, position, option_copied, OnOk, Some, None};
ghost use Rattle.move_jobs.specs.Job.{Job as Move, fits, answered, result_of};
ghost use Rattle.move_table.specs.Table.{IsTable, flight, job_in, is_numbered, moves_after, mover_of, is_awaited, taken, spares_of, is_new_of, without_new};

use crate::Flight;
use arrayvec::ArrayVec;
use disk_base::{Lba, MoveWhy, NoMemory, Psn};
use geometry_map::PAIRS_MAX;
use move_jobs::{Job, JobAnswer, JobResult};
use std::alloc::Global;
use std::marker::Model;

/// The moves in flight, by number. Contracts see how many were opened, those in flight, and for how many more there is room.
#[derive(Debug, Drop)]
pub struct Moves {
    opened: u32,
    flights: Vec<Flight>,
}

impl Model for Moves {
    ghost use Rattle.std.specs.Prelude.{◌-◌, length, vec_capacity};
    ghost use Rattle.move_table.specs.Table.{Table, IsTable};

    ghost Value = { Table };

    ghost view = { λ m. record { opened = m.opened; flights = m.flights.items; room = vec_capacity m.flights - length m.flights.items } };

    ghost invariant = { λ m. IsTable m.opened m.flights.items };
}

impl Moves {
    /// No move was opened.
    pub fn new(alloc: Global) -> Self
        ensures opened { result.opened ≡ 0 }
        ensures none { result.flights ≡ [] }
    {
        Moves {
            opened: 0,
            flights: Vec::new(alloc),
        }
    }

    /// Makes room for one more move. Want of memory leaves all as it was.
    pub fn reserve(&mut self) -> Result<(), NoMemory>
        ensures opened { self.new.opened ≡ self.old.opened }
        ensures flights { self.new.flights ≡ self.old.flights }
        ensures room { OnOk result (1 ≤ self.new.room) }
    {
        self.flights.reserve(1)?;
        Ok(())
    }

    /// Opens a move, which gets the next number.
    pub fn open(&mut self, job: Job) -> u32
        requires room { 1 ≤ self.old.room }
        requires number { self.old.opened < 4294967295 }
        requires underway { result_of job ≡ None }
        ensures number { result ≡ self.old.opened + 1 }
        ensures opened { self.new.opened ≡ self.old.opened + 1 }
        ensures flights { self.new.flights ≡ self.old.flights ++ flight (self.old.opened + 1) job ∷ [] }
    {
        self.opened += 1;
        self.flights.push_reserved(Flight {
            j: self.opened,
            job,
        });
        self.opened
    }

    /// How many moves were opened so far.
    pub fn opened(&self) -> u32
        ensures { result ≡ self.now.opened }
    {
        self.opened
    }

    /// The moves in flight, in the order in which they were opened.
    pub fn as_slice(&self) -> &[Flight]
        ensures value { result.now ≡ self.now.flights }
        ensures by_number { IsTable self.now.opened self.now.flights }
    {
        self.flights.as_slice()
    }

    /// The move in flight of a number.
    pub fn job(&self, j: u32) -> Option<&Job>
        ensures { option_copied result ≡ job_in self.now.flights j }
    {
        self.flights
            .as_slice()
            .iter()
            .find(|f| f.j == j)
            .map(|f| &f.job)
    }

    /// The number of the move that is on a block.
    pub fn mover(&self, b: Lba) -> Option<u32>
        ensures { result ≡ mover_of self.now.flights b }
    {
        self.flights
            .as_slice()
            .iter()
            .find(|f| f.job.block() == b)
            .map(|f| f.j)
    }

    /// Whether a move that this command opened is in flight.
    pub fn is_awaited(&self, c: u32) -> bool
        ensures { result ≡ is_awaited self.now.flights c }
    {
        self.flights
            .as_slice()
            .iter()
            .any(|f| f.job.owner() == Some(c))
    }

    /// The spares that the moves in flight have taken, those that turned out bad too.
    pub fn spares(&self) -> ArrayVec<Psn, PAIRS_MAX>
        requires { length (taken self.now.flights) ≤ PAIRS_MAX }
        ensures { result.items ≡ taken self.now.flights }
    {
        let mut spares = ArrayVec::new();
        for flight in self.flights.as_slice() {
            add_spares(&mut spares, flight);
        }
        spares
    }

    /// What the move of a number needed was met with this answer. A move that is over leaves; how it ended is told then.
    pub fn answer(&mut self, j: u32, answer: JobAnswer) -> Option<JobResult>
        requires { IsSomeAnd (job_in self.old.flights j) (λ job. IsTrue (fits job answer)) }
        ensures result { (job : Move) → job_in self.old.flights j ≡ Some job → result ≡ result_of (answered job answer) }
        ensures flights { (job : Move) → job_in self.old.flights j ≡ Some job
            → self.new.flights ≡ moves_after j (answered job answer) self.old.flights }
        ensures opened { self.new.opened ≡ self.old.opened }
    {
        match place(self.flights.as_slice(), j) {
            Some(i) => {
                let job = &mut self.flights[i].job;
                job.answer(answer);
                let result = job.result();
                if result.is_some() {
                    let _ = self.flights.remove(i);
                }
                result
            }
            None => unreachable!(),
        }
    }

    /// The command was aborted: its moves of data that it brought are dropped. Its other moves go on.
    pub fn abort(&mut self, c: u32)
        ensures flights { self.new.flights ≡ without_new c self.old.flights }
        ensures opened { self.new.opened ≡ self.old.opened }
    {
        self.flights.retain(|f| !is_new_of(c, f));
    }

    /// The power went: no move is in flight any more.
    pub fn cut(&mut self)
        ensures flights { self.new.flights ≡ [] }
        ensures opened { self.new.opened ≡ self.old.opened }
    {
        self.flights.clear();
    }
}

// Where the move of a number is.
fn place(flights: &[Flight], j: u32) -> Option<usize>
    ensures { result ≡ position (is_numbered j) flights.now }
{
    flights.iter().position(|f| f.j == j)
}

// A move of data that this command brought.
fn is_new_of(c: u32, flight: &Flight) -> bool
    ensures { result ≡ is_new_of c flight.now }
{
    flight.job.why() == MoveWhy::Write && flight.job.owner() == Some(c)
}

// Adds the spares of a move.
fn add_spares(spares: &mut ArrayVec<Psn, PAIRS_MAX>, flight: &Flight)
    requires { length spares.old.items + length flight.now.job.chain ≤ PAIRS_MAX }
    ensures { spares.new.items ≡ spares.old.items ++ spares_of flight.now }
{
    for pair in flight.job.pairs() {
        spares.push(pair.new);
    }
}
