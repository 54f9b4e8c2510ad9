use disk_base::NoMemory;
use sense_data::Sense;

/// Why there is no log page.
#[derive(Clone, Copy, Debug, PartialEq, Eq)]
pub enum PageFault {
    NoMemory,
    /// The command is refused with this sense data.
    Bad(Sense),
}

impl From<NoMemory> for PageFault {
    ghost use Rattle.std.specs.Prelude.{◌≡◌};
    ghost use Rattle.scan_log.specs.declared.fault.PageFault.TheVariants.{NoMemory};

    ghost from_gives = { λ _ fault. fault ≡ NoMemory };

    fn from(_: NoMemory) -> Self {
        PageFault::NoMemory
    }
}
