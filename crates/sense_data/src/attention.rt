ghost use Rattle.std.specs.Prelude.{◌≡◌};
ghost use Rattle.sense_data.specs.Attentions.{attention_sense};

use crate::Sense;
use crate::codes::UNIT_ATTENTION;

/// A unit attention condition, by its additional sense code and qualifier (SAM-4, unit attention condition).
#[derive(Clone, Copy, Debug, Default, PartialEq, Eq)]
pub struct Attention {
    pub asc: u8,
    pub ascq: u8,
}

impl Attention {
    /// The sense data that tell it.
    pub fn sense(&self) -> Sense
        ensures { result ≡ attention_sense self.now }
    {
        Sense::new(UNIT_ATTENTION, self.asc, self.ascq)
    }
}
