ghost use Rattle.std.specs.Prelude.{◌≡◌, ◌+◌, ◌*◌, ◌≤◌, ◌↔◌, IsSome, IfSome};
ghost use Rattle.geometry_map.specs.Limits.{IsWithinLimits};

use crate::{CYLINDERS_MAX, HEADS_MAX, MAP_SECTORS, SECTORS_MAX, SECTORS_MIN, TRACK_SECTORS_MAX};

/// The measures of a drive. Sectors are numbered through a track, then through the heads, then through the cylinders.
#[derive(Clone, Copy, Debug, PartialEq, Eq)]
pub struct Size {
    pub cylinders: u16,
    pub heads: u8,
    /// Sectors of a track.
    pub sectors: u8,
    /// Sectors kept back for defects, of the factory and grown ones.
    pub reserved: u16,
    ghost within_limits: { IsWithinLimits cylinders heads sectors reserved },
}

impl Size {
    ghost use Rattle.geometry_map.specs.Size.{HasMeasures, total_of, capacity_of};

    /// The measures, where they are within the limits.
    pub fn new(cylinders: u16, heads: u8, sectors: u8, reserved: u16) -> Option<Self>
        ensures valid { IsSome result ↔ IsWithinLimits cylinders heads sectors reserved }
        ensures value { IfSome result (λ size. HasMeasures size cylinders heads sectors reserved) }
    {
        if cylinders == 0 || cylinders > CYLINDERS_MAX {
            return None;
        }
        if heads == 0 || heads > HEADS_MAX || sectors == 0 || sectors > TRACK_SECTORS_MAX {
            return None;
        }
        let total = sectors_in_all(cylinders, heads, sectors);
        if total < SECTORS_MIN
            || total > SECTORS_MAX
            || total <= MAP_SECTORS + u32::from(reserved)
        {
            return None;
        }
        Some(Size {
            cylinders,
            heads,
            sectors,
            reserved,
        })
    }

    /// The number of sectors.
    pub fn total(&self) -> u32
        ensures value { result ≡ total_of self.now }
    {
        sectors_in_all(self.cylinders, self.heads, self.sectors)
    }

    /// The number of blocks.
    pub fn capacity(&self) -> u64
        ensures value { result ≡ capacity_of self.now }
    {
        u64::from(self.blocks())
    }

    pub(crate) fn blocks(&self) -> u32
        ensures value { result ≡ capacity_of self.now }
        ensures fits { 16 + result + self.now.reserved ≡ total_of self.now }
        ensures total { total_of self.now ≤ 4096 }
    {
        self.total() - MAP_SECTORS - u32::from(self.reserved)
    }
}

fn sectors_in_all(cylinders: u16, heads: u8, sectors: u8) -> u32
    ensures { result ≡ cylinders * heads * sectors }
{
    u32::from(cylinders) * u32::from(heads) * u32::from(sectors)
}
