ghost use Rattle.std.specs.Prelude.{◌≡◌, ◌≤◌, ◌↔◌, IsSome, IfSome};

use std::marker::Model;

/// The address of a logical block, from 0 up (SBC-3, 4.5).
#[derive(Clone, Copy, Debug, Default, PartialEq, Eq, PartialOrd, Ord, Hash)]
pub struct Lba(pub u64);

/// The number of a sector of the platter: sectors first, then heads, then cylinders, from 0 up.
#[derive(Clone, Copy, Debug, Default, PartialEq, Eq, PartialOrd, Ord, Hash)]
pub struct Psn(pub u32);

/// The tag by which an initiator names one of its commands (SAM-4, 4.9).
#[derive(Clone, Copy, Debug, Default, PartialEq, Eq, PartialOrd, Ord, Hash)]
pub struct Tag(pub u16);

/// One of the eight initiators, by its number from 1 to 8.
#[derive(Clone, Copy, Debug, PartialEq, Eq, PartialOrd, Ord, Hash)]
pub struct Initiator {
    number: u8,
}

impl Model for Initiator {
    ghost use Rattle.std.specs.Prelude.{ℕ, ◌≤◌};

    ghost Value = { ℕ };

    ghost view = { λ i. i.number };

    ghost invariant = { λ i. (1 ≤ i.number) × (i.number ≤ 8) };

    ghost inverse = { λ n. record { number = n } };
}

impl Initiator {
    /// The initiator of a number, where there is one.
    pub fn new(number: u8) -> Option<Self>
        ensures valid { IsSome result ↔ ((1 ≤ number) × (number ≤ 8)) }
        ensures value { IfSome result (λ i. i ≡ number) }
    {
        if 1 <= number && number <= 8 {
            Some(Initiator { number })
        } else {
            None
        }
    }

    pub fn number(&self) -> u8
        ensures value { result ≡ self.now }
        ensures low { 1 ≤ result }
        ensures high { result ≤ 8 }
    {
        self.number
    }
}

/// The first initiator, for lists of fixed room.
impl Default for Initiator {
    ghost use Rattle.std.specs.Prelude.{◌≡◌};

    ghost is_default = { λ i. i ≡ 1 };

    fn default() -> Self {
        Initiator { number: 1 }
    }
}
