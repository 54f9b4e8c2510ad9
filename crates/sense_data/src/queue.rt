ghost use Rattle.std.specs.Prelude.{◌≡◌, ◌≤◌, [], ◌∷◌, drop, length, slice_get, IsTrue};
ghost use Rattle.sense_data.specs.Attentions.{with_attention, none_twice};

use crate::Attention;
use arrayvec::ArrayVec;
use std::marker::Model;

/// The most attentions that wait for one initiator.
pub const WAITING_MAX: usize = 8;

/// The attentions that wait for one initiator, first come first.
#[derive(Debug, Drop)]
pub struct Queue {
    attentions: ArrayVec<Attention, WAITING_MAX>,
}

impl Model for Queue {
    ghost use Rattle.std.specs.Prelude.{List, IsTrue};
    ghost use Rattle.sense_data.specs.declared.attention.Attention.{Attention};
    ghost use Rattle.sense_data.specs.Attentions.{none_twice};

    ghost Value = { List Attention };

    ghost view = { λ q. q.attentions.items };

    ghost invariant = { λ q. IsTrue (none_twice q.attentions.items) };
}

impl Queue {
    /// Nothing waits.
    pub fn new() -> Self
        ensures { result ≡ [] }
    {
        Queue {
            attentions: ArrayVec::new(),
        }
    }

    /// One attention waits.
    pub fn alone(attention: Attention) -> Self
        ensures { result ≡ attention ∷ [] }
    {
        let mut attentions = ArrayVec::new();
        attentions.push(attention);
        Queue { attentions }
    }

    pub fn as_slice(&self) -> &[Attention]
        ensures value { result.now ≡ self.now }
        ensures fits { length result.now ≤ WAITING_MAX }
        ensures once { IsTrue (none_twice self.now) }
    {
        self.attentions.as_slice()
    }

    /// Adds an attention at the end, unless it waits already.
    pub fn add(&mut self, attention: Attention)
        requires { length (with_attention attention self.old) ≤ WAITING_MAX }
        ensures { self.new ≡ with_attention attention self.old }
    {
        if !self.attentions.as_slice().contains(&attention) {
            self.attentions.push(attention);
        }
    }

    /// Takes away the first attention, where one waits.
    pub fn take_first(&mut self) -> Option<Attention>
        ensures first { result ≡ slice_get self.old 0 }
        ensures rest { self.new ≡ drop 1 self.old }
    {
        self.attentions.pop_at(0)
    }
}
