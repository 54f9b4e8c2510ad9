//! Reads of the sectors of the maps.
ghost use Rattle.std.specs.Prelude.{◌≡◌, ◌*◌, ◌≤◌, ◌<◌, false, length};
ghost use Rattle.platter_model.specs.TrueLog.{is_off};
ghost use Rattle.read_recovery.specs.Stages.{stages_of};
ghost use Rattle.map_generations.specs.Recovery.{reads_of};
ghost use Rattle.sector_store.specs.Recovering.{IsReadBy, AreReadBy};

use channel_path::{Path, SAMPLES};
use disk_base::{Payload, Psn, Stage};
use map_generations::MapReads;
use platter_model::Platter;
use read_recovery::stages;

// The retry count of the stages by which a recovery reads.
const RETRY: u8 = 5;

/// Reads the sixteen sectors of the maps while the power is on.
pub(crate) fn read_maps(
    platter: &mut Platter,
    path: &mut Path,
    samples: &mut [i8; SAMPLES],
) -> MapReads
    requires on { is_off platter.old.ops ≡ false }
    requires sectors { 16 ≤ platter.old.sectors }
    requires room { 320 ≤ platter.old.room }
    ensures { AreReadBy platter.old 16 (stages_of 5) (reads_of result) platter.new }
{
    let stages = stages(RETRY);
    let mut reads = [None; 16];
    for p in 0..16u8 {
        let sector = Psn(u32::from(p));
        reads[usize::from(p)] = read_sector(platter, path, samples, sector, stages.as_slice());
    }
    reads
}

// Tries a sector by stages while the power is on, up to the first that finds.
fn read_sector(
    platter: &mut Platter,
    path: &mut Path,
    samples: &mut [i8; SAMPLES],
    p: Psn,
    stages: &[Stage],
) -> Option<Payload>
    requires on { is_off platter.old.ops ≡ false }
    requires sector { p.0 < platter.old.sectors }
    requires room { 2 * length stages.now ≤ platter.old.room }
    ensures { IsReadBy platter.old p stages.now result platter.new }
{
    for stage in stages {
        let found = platter.try_sector(path, samples, p, *stage).flatten();
        if found.is_some() {
            return found;
        }
    }
    None
}
