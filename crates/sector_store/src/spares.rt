//! Writes of blocks to spares, and their checks.
ghost use Rattle.std.specs.Prelude.{◌≡◌, ◌≢◌, ◌↔◌, ◌⊎◌, ◌≤◌, ◌<◌, Some, true, false};
ghost use Rattle.platter_model.specs.TrueLog.{is_off};
ghost use Rattle.platter_model.specs.State.{write_answer, after_write};
ghost use Rattle.geometry_map.specs.Size.{capacity_of};
ghost use Rattle.geometry_map.specs.Chains.{IsFreeSpare};
ghost use Rattle.sector_store.specs.Shapes.{payload_on};
ghost use Rattle.sector_store.specs.State.{answer_by};
ghost use Rattle.sector_store.specs.Spares.{KeepsStored, IsCheck};

use crate::law::{
    quiet_operations_keep_maps, spares_are_user_sectors, writes_to_spares_keep_blocks,
};
use crate::store::store_answer;
use crate::{CheckAnswer, Store, StoreAnswer};
use disk_base::{Lba, Payload, Psn, Stage, Value};

impl Store {
    /// Writes a block's value to a spare that is in no pair, in room for two operations. No block lies there.
    pub fn write_spare(&mut self, s: Psn, b: Lba, v: &Value) -> StoreAnswer
        requires free { IsFreeSpare self.old.map s }
        requires ready { (self.old.ready ≡ true) ⊎ (is_off self.old.platter.ops ≡ true) }
        requires block { b.0 < capacity_of self.old.map.size }
        requires room { 2 ≤ self.old.platter.room }
        ensures answer { result ≡ answer_by (write_answer self.old.platter s) }
        ensures after { self.new ≡ record self.old { platter = after_write self.old.platter s (payload_on s b v.now) } }
        ensures keeps { KeepsStored self.old.map self.old.platter.ops self.new.platter.ops }
    {
        self.stands();
        quiet_operations_keep_maps();
        spares_are_user_sectors();
        writes_to_spares_keep_blocks();
        let payload = payload_for(s, b, v);
        store_answer(self.platter.write(s, &payload))
    }

    /// The plain stage tries a spare that is in no pair, in room for two operations: whether it finds what `write_spare` writes.
    pub fn check_spare(&mut self, s: Psn, b: Lba, v: &Value) -> CheckAnswer
        requires free { IsFreeSpare self.old.map s }
        requires ready { (self.old.ready ≡ true) ⊎ (is_off self.old.platter.ops ≡ true) }
        requires block { b.0 < capacity_of self.old.map.size }
        requires room { 2 ≤ self.old.platter.room }
        ensures off { (result ≡ CheckAnswer.Off) ↔ (is_off self.old.platter.ops ≡ true) }
        ensures unchanged { result ≡ CheckAnswer.Off → self.new ≡ self.old }
        ensures tried { is_off self.old.platter.ops ≡ false → IsCheck self.old s (payload_on s b v.now) result self.new }
        ensures keeps { KeepsStored self.old.map self.old.platter.ops self.new.platter.ops }
    {
        self.stands();
        quiet_operations_keep_maps();
        spares_are_user_sectors();
        let payload = payload_for(s, b, v);
        let plain = Stage::default();
        let seen = self
            .platter
            .try_sector(&mut self.path, &mut self.samples, s, plain);
        match seen {
            None => CheckAnswer::Off,
            Some(found) => compared(found, &payload),
        }
    }
}

// What a check comes to by what was found.
fn compared(found: Option<Payload>, payload: &Payload) -> CheckAnswer
    ensures same { (result ≡ CheckAnswer.Same) ↔ (found ≡ Some payload.now) }
    ensures on { result ≢ CheckAnswer.Off }
{
    if found == Some(*payload) {
        CheckAnswer::Same
    } else {
        CheckAnswer::Other
    }
}

// The payload that carries a block's value on a sector: its data, or the mark that it is lost.
fn payload_for(p: Psn, b: Lba, v: &Value) -> Payload
    ensures { result ≡ payload_on p b v.now }
{
    match v {
        Value::Data(bytes) => Payload::user(p, b, bytes),
        Value::Lost => Payload::lost(p, b),
    }
}
