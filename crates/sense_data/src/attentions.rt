ghost use Rattle.std.specs.Prelude.{◌≡◌, ℕ, ◌+◌, ◌-◌, ◌<◌, ◌≤◌, length, map, IsTrue};
ghost use Rattle.sense_data.specs.Attentions.{waiting_for, with_attention, none_twice, attention, attention_sense, raised, raised_where, first_of, first_taken, none_waiting, power_on_waiting, WaitNoMoreThanKnown, KnownStayKnown};

use crate::codes::POWER_ON_OCCURRED;
use crate::queue::{Queue, WAITING_MAX};
use crate::{Attention, Sense};
use arrayvec::ArrayVec;
use disk_base::Initiator;
use std::array;
use std::marker::Model;

/// How many initiators there are.
pub const INITIATORS: usize = 8;

/// The attentions that wait for each initiator, first come first. None waits twice for one initiator.
#[derive(Debug, Drop)]
pub struct Attentions {
    queues: [Queue; INITIATORS],
}

impl Model for Attentions {
    ghost use Rattle.sense_data.specs.Attentions.{Waiting};

    ghost Value = { Waiting };

    ghost view = { λ a. a.queues };
}

impl Attentions {
    /// Nothing waits.
    pub fn none() -> Self
        ensures { result ≡ none_waiting }
    {
        Attentions {
            queues: array::from_fn(|_| Queue::new()),
        }
    }

    /// What waits after power on: that it was, for each initiator.
    pub fn power_on() -> Self
        ensures { result ≡ power_on_waiting }
    {
        Attentions {
            queues: array::from_fn(|_| Queue::alone(POWER_ON_OCCURRED)),
        }
    }

    /// Adds an attention for an initiator, unless it waits already. With it at most eight may wait.
    pub fn raise(&mut self, i: Initiator, asc: u8, ascq: u8)
        requires { length (with_attention (attention asc ascq) (waiting_for self.old i)) ≤ WAITING_MAX }
        ensures { self.new ≡ raised self.old i (attention asc ascq) }
    {
        self.queues[place_of(i)].add(Attention { asc, ascq });
    }

    /// Adds an attention for each initiator whose mark is set, unless it waits there already; the first mark is that of
    /// initiator 1. With it at most eight may wait for each of them.
    pub fn raise_where(&mut self, marks: &[bool; INITIATORS], attention: Attention)
        requires { (i : ℕ) → length (with_attention attention (waiting_for self.old i)) ≤ WAITING_MAX }
        ensures { self.new ≡ raised_where marks.now attention self.old }
    {
        for place in 0..INITIATORS {
            if marks[place] {
                self.raise(initiator_at(place), attention.asc, attention.ascq);
            }
        }
    }

    /// The first attention that waits for an initiator.
    pub fn first(&self, i: Initiator) -> Option<Sense>
        ensures { result ≡ first_of self.now i }
    {
        let attention = self.queues[place_of(i)].as_slice().first()?;
        Some(attention.sense())
    }

    /// Takes away the first attention that waits for an initiator.
    pub fn take(&mut self, i: Initiator) -> Option<Sense>
        ensures first { result ≡ first_of self.old i }
        ensures rest { self.new ≡ first_taken self.old i }
    {
        let attention = self.queues[place_of(i)].take_first()?;
        Some(attention.sense())
    }

    /// All attentions that wait for an initiator, in order.
    pub fn all(&self, i: Initiator) -> ArrayVec<Sense, WAITING_MAX>
        ensures all { result.items ≡ map attention_sense (waiting_for self.now i) }
        ensures once { IsTrue (none_twice (waiting_for self.now i)) }
    {
        let mut all = ArrayVec::new();
        for attention in self.queues[place_of(i)].as_slice() {
            all.push(attention.sense());
        }
        all
    }
}

/// A law on lists of attentions: where none waits twice and each is one of some, no more wait than these. So fewer than
/// eight wait for an initiator where fewer than eight codes are ever raised.
pub fn no_more_wait_than_are_known()
    ensures { WaitNoMoreThanKnown }
{}

/// A law on lists of attentions: where none waits twice and each is one of some, so it is after one of these is raised,
/// and after the first is told.
pub fn known_stay_known()
    ensures { KnownStayKnown }
{}

// The initiator whose list is at a place.
fn initiator_at(place: usize) -> Initiator
    requires { place < INITIATORS }
    ensures { result ≡ place + 1 }
{
    Initiator::new((place + 1) as u8).unwrap()
}

// The place of an initiator's list.
fn place_of(i: Initiator) -> usize
    ensures place { result ≡ i - 1 }
    ensures below { result < INITIATORS }
{
    (i.number() - 1) as usize
}
