//! What is kept for a sector, so that a fetch encodes nothing and walks no more than the sector's own flaws.
ghost use Rattle.std.specs.Prelude.{◌≡◌, None, Some, false, true, pos, replicate, if◌then◌else◌};
ghost use Rattle.channel_path.specs.Sector.{IsEncoded};
ghost use Rattle.platter_model.specs.Places.{LeavesSamples, changes_meant};

use crate::Left;
use channel_path::{SAMPLES, write_samples};
use disk_base::Payload;

/// What is kept for a sector. Places are those of operations in the platter's list.
#[derive(Drop)]
pub(crate) struct Sector {
    /// The samples of the payload that is meant, without flaws.
    pub(crate) unflawed: [i8; SAMPLES],
    /// The place that settled what is meant.
    pub(crate) meant: Option<usize>,
    /// The place of the newest write.
    pub(crate) written: Option<usize>,
    /// The place of the newest damage or torn write.
    pub(crate) flaw: Option<usize>,
    /// A write fault stands on the sector.
    pub(crate) faulty: bool,
}

impl Sector {
    /// A sector without an operation.
    pub(crate) fn blank() -> Self
        ensures { result ≡ record { unflawed = replicate 9478 (pos 0); meant = None; written = None; flaw = None; faulty = false } }
    {
        Sector {
            unflawed: [0; SAMPLES],
            meant: None,
            written: None,
            flaw: None,
            faulty: false,
        }
    }

    /// A write at a place.
    pub(crate) fn write(&mut self, n: usize, payload: &Payload)
        ensures encoded { IsEncoded payload.now self.new.unflawed }
        ensures rest { self.new ≡ record self.old { unflawed = self.new.unflawed; meant = Some n; written = Some n } }
    {
        write_samples(payload, &mut self.unflawed);
        self.meant = Some(n);
        self.written = Some(n);
    }

    /// A torn write at a place.
    pub(crate) fn tear(&mut self, n: usize, payload: &Payload, left: Left)
        ensures left { LeavesSamples left payload.now self.old.unflawed self.new.unflawed }
        ensures rest { self.new ≡ record self.old {
          unflawed = self.new.unflawed;
          meant = (if changes_meant left then Some n else self.old.meant);
          written = Some n;
          flaw = Some n;
        } }
    {
        match left {
            Left::Old => {}
            Left::New => self.write(n, payload),
            Left::Nothing => self.clear(n),
        }
        self.written = Some(n);
        self.flaw = Some(n);
    }

    // Nothing is meant from a place on.
    fn clear(&mut self, n: usize)
        ensures { self.new ≡ record self.old { unflawed = replicate 9478 (pos 0); meant = Some n } }
    {
        self.unflawed = [0; SAMPLES];
        self.meant = Some(n);
    }
}
