ghost use Rattle.std.specs.Prelude.{◌≡◌, ◌-◌, ◌<◌};

use disk_base::Initiator;
use sense_data::{Attentions, INITIATORS};

/// Who holds the unit, with which type of reservation.
#[derive(Clone, Copy, Debug, PartialEq, Eq)]
pub struct Holder {
    pub initiator: Initiator,
    /// The type's number.
    pub kind: u8,
}

/// What the desk keeps.
#[derive(Debug, Drop)]
pub struct State {
    /// The reservation key of each initiator, 0 of one that isn't registered.
    pub keys: [u64; INITIATORS],
    pub holder: Option<Holder>,
    /// The generation of the registrations.
    pub generation: u32,
    /// The unit attentions that the desk has for initiators.
    pub waiting: Attentions,
}

impl State {
    ghost use Rattle.reservations.specs.Desk.{desk_at_start};

    /// Nobody is registered, and nothing waits.
    pub fn at_start() -> Self
        ensures { result ≡ desk_at_start }
    {
        State {
            keys: [0; INITIATORS],
            holder: None,
            generation: 0,
            waiting: Attentions::none(),
        }
    }
}

/// The place of an initiator's key.
pub fn place_of(i: Initiator) -> usize
    ensures place { result ≡ i - 1 }
    ensures below { result < 8 }
{
    (i.number() - 1) as usize
}
