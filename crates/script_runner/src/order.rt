//! The order in which the turns of phases come.
ghost use Rattle.std.specs.Prelude.{◌≡◌};
ghost use Rattle.script_runner.specs.Order.{drawn, number_of};

// The numbers are drawn by the generator that the C standard gives as its example of `rand`.
const MULTIPLIER: u64 = 1_103_515_245;

const INCREMENT: u64 = 12_345;

const MODULUS: u64 = 1 << 31;

// The low bits of what is drawn repeat soon, so the high ones pick.
const LOW_BITS: u32 = 1 << 16;

/// An order that is asked for, so far; where none is, each turn is the first of those that may come.
#[derive(Clone, Copy)]
pub(crate) struct Order {
    pub(crate) x: Option<u32>,
}

impl Order {
    /// The number that picks the next turn.
    pub(crate) fn number(&self) -> u32
        ensures { result ≡ number_of (drawn self.now.x) }
    {
        match drawn(self.x) {
            Some(x) => x / LOW_BITS,
            None => 0,
        }
    }

    /// The next turn was picked.
    pub(crate) fn advance(&mut self)
        ensures { self.new.x ≡ drawn self.old.x }
    {
        self.x = drawn(self.x);
    }
}

fn drawn(x: Option<u32>) -> Option<u32>
    ensures { result ≡ drawn x }
{
    match x {
        Some(x) => Some(((u64::from(x) * MULTIPLIER + INCREMENT) % MODULUS) as u32),
        None => None,
    }
}
