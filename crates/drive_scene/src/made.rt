ghost use Rattle.std.specs.Prelude.{◌≡◌, length};
ghost use Rattle.drive_scene.specs.Scene.{factory_ops};

use disk_base::{Items, Psn};
use geometry_map::Size;

// A factory writes two maps, of eight sectors each, before the blocks.
const MAP_WRITES: u64 = 16;

/// What the factory was told: the drive's measures, and which sectors are bad.
#[derive(Debug, Drop)]
pub struct Made {
    pub size: Size,
    pub primary: Items<Psn>,
}

impl Made {
    /// How many operations the factory did.
    pub fn factory_count(&self) -> u64
        ensures { result ≡ length (factory_ops self.now) }
    {
        MAP_WRITES + self.size.capacity()
    }
}
