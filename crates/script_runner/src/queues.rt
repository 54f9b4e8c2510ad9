//! What waits outside the drive for the next phase.
ghost use Rattle.std.specs.Prelude.{◌≡◌, ◌+◌, ◌<◌, [], ℕ, length, OnOk, OnErr, IfOk, MatchOption};
ghost use Rattle.script_runner.specs.Arrivals.{sends_of, Added, Taken};
ghost use Rattle.script_runner.specs.Wanted.{IsNothing, wanted_of};
ghost use Rattle.script_runner.specs.Phase.{have_something, waiting_of};

use disk_base::{Initiator, NoMemory};
use drive_core::{Arrival, Waiting};
use std::alloc::Global;
use std::collections::VecDeque;
use std::marker::Model;

const INITIATORS: usize = 8;

/// What waits for `go`: what each initiator is to send, and how many destages are asked for.
#[derive(Drop)]
pub(crate) struct Queued {
    pub(crate) queues: Queues,
    pub(crate) destages: u32,
}

impl Queued {
    /// Nothing waits.
    pub(crate) fn new(alloc: Global) -> Result<Self, NoMemory>
        ensures { IfOk result (λ queued. IsNothing (wanted_of queued)) }
    {
        let queues = Queues::new(alloc)?;
        Ok(Queued {
            queues,
            destages: 0,
        })
    }

    /// What the drive is told of it.
    pub(crate) fn waiting(&self) -> Waiting
        ensures value { result ≡ waiting_of (wanted_of self.now) }
        ensures eight { length self.now.queues ≡ 8 }
    {
        Waiting {
            arrivals: self.queues.have_something(),
            scans: false,
            destages: self.destages != 0,
        }
    }
}

/// Of each of the eight initiators, what it is to send, in order.
#[derive(Drop)]
pub(crate) struct Queues {
    queues: Vec<VecDeque<Arrival>>,
}

impl Model for Queues {
    ghost use Rattle.std.specs.Prelude.{◌≡◌, List, map, vec_len};
    ghost use Rattle.drive_scene.specs.declared.event.Arrival.{Arrival as Sent};

    ghost Value = { List (List Sent) };

    ghost view = { λ s. map (λ q. q.items) s.queues.items };

    ghost invariant = { λ s. vec_len s.queues ≡ 8 };
}

impl Queues {
    /// Nothing waits.
    pub(crate) fn new(alloc: Global) -> Result<Self, NoMemory>
        ensures { IfOk result (λ queues. (i : ℕ) → sends_of queues i ≡ []) }
    {
        let mut queues = Vec::new(alloc);
        for _initiator in 0..INITIATORS {
            queues.push(VecDeque::new(alloc))?;
        }
        Ok(Queues { queues })
    }

    /// The initiator sends this after all else.
    pub(crate) fn put(&mut self, initiator: Initiator, arrival: Arrival) -> Result<(), NoMemory>
        ensures ok { OnOk result (Added self.old self.new initiator arrival) }
        ensures err { OnErr result (self.new ≡ self.old) }
    {
        self.queues[place(initiator)].push_back(arrival)?;
        Ok(())
    }

    /// What the initiator sends next.
    pub(crate) fn take(&mut self, initiator: Initiator) -> Option<Arrival>
        ensures { MatchOption result (sends_of self.old initiator ≡ []) (Taken self.old self.new initiator) }
    {
        self.queues[place(initiator)].pop_front()
    }

    /// Which initiators have something to send.
    fn have_something(&self) -> [bool; INITIATORS]
        ensures value { result ≡ have_something (sends_of self.now) }
        ensures eight { length self.now ≡ 8 }
    {
        let mut arrivals = [false; INITIATORS];
        for (place, queue) in self.queues.iter().enumerate() {
            arrivals[place] = !queue.is_empty();
        }
        arrivals
    }
}

// The place of an initiator among the eight.
fn place(initiator: Initiator) -> usize
    ensures value { result + 1 ≡ initiator }
    ensures within { result < 8 }
{
    usize::from(initiator.number()) - 1
}
