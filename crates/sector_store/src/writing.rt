//! Writes of maps.
ghost use Rattle.std.specs.Prelude.{◌≡◌, ◌≤◌, ◌<◌, ◌++◌, not};
ghost use Rattle.platter_model.specs.TrueLog.{is_off};
ghost use Rattle.sector_store.specs.Maps.{records_of};
ghost use Rattle.sector_store.specs.Writing.{after_writes};

use crate::factory::records;
use geometry_map::Map;
use platter_model::Platter;

/// Writes the records of a map in their order, up to a cut. Whether the power is on at the end, so that all are there.
pub(crate) fn write_records(platter: &mut Platter, map: &Map) -> bool
    requires slot { map.now.slot < 2 }
    requires sectors { 16 ≤ platter.old.sectors }
    requires room { 9 ≤ platter.old.room }
    ensures written { platter.new ≡ after_writes platter.old (records_of map.now) }
    ensures whole { result ≡ not (is_off platter.new.ops) }
{
    let records = records(map);
    for record in &records {
        if platter.is_off() {
            return false;
        }
        let _ = platter.write(record.psn, record);
    }
    !platter.is_off()
}

/// Writes the records of one map and then those of another, up to a cut. Whether the power is on at the end, so that all are there.
pub(crate) fn write_both(platter: &mut Platter, first: &Map, second: &Map) -> bool
    requires first_slot { first.now.slot < 2 }
    requires second_slot { second.now.slot < 2 }
    requires sectors { 16 ≤ platter.old.sectors }
    requires room { 17 ≤ platter.old.room }
    ensures written { platter.new ≡ after_writes platter.old (records_of first.now ++ records_of second.now) }
    ensures whole { result ≡ not (is_off platter.new.ops) }
{
    if !write_records(platter, first) {
        return false;
    }
    write_records(platter, second)
}
