//! Recoveries: when the power comes on, the map of defects is found again.
ghost use Rattle.std.specs.Prelude.{◌≡◌, ◌≤◌, true, false};
ghost use Rattle.platter_model.specs.TrueLog.{is_off};
ghost use Rattle.map_generations.specs.Recovery.{reads_of};
ghost use Rattle.sector_store.specs.Committing.{KeepsReserved, AreSafe};
ghost use Rattle.sector_store.specs.Recovering.{IsReadAnew, IsReadTruly, IsFound, Rewrites, Recovers, RaisesNumbers};

use crate::law::{
    present_maps_are_there, quiet_operations_keep_maps, recovery_ops_stay_safe,
    rewritten_maps_are_present,
};
use crate::reading::read_maps;
use crate::writing::write_both;
use crate::{RecoverAnswer, Store};
use geometry_map::{Map, Placer};
use map_generations::{
    Decision, MapReads, decide, taken_numbers_are_meant, taken_numbers_are_small,
};

impl Store {
    /// Switches the power on and finds the map again, in room for 340 operations. The map that is taken is written to both slots
    /// under greater numbers, so that what an earlier cut left there counts no more.
    pub fn recover(&mut self) -> RecoverAnswer
        requires off { is_off self.old.platter.ops ≡ true }
        requires room { 340 ≤ self.old.platter.room }
        ensures read { Recovers self.old result self.new }
        ensures reserved { KeepsReserved self.old self.new }
        ensures safe { AreSafe self.new }
        ensures numbers { RaisesNumbers self.old self.new }
    {
        let reads = self.read_anew();
        match decide(&reads, &self.map.size()) {
            Decision::Take { map } => self.take(map),
            Decision::Corrupt { slot } => {
                self.stands();
                self.ready = false;
                RecoverAnswer::Corrupt(slot)
            }
        }
    }

    // Switches the power on and reads the sectors of the maps.
    fn read_anew(&mut self) -> MapReads
        requires off { is_off self.old.platter.ops ≡ true }
        requires room { 321 ≤ self.old.platter.room }
        ensures read { IsReadAnew self.old (reads_of result) self.new }
        ensures truly { IsReadTruly self.new (reads_of result) }
        ensures on { is_off self.new.platter.ops ≡ false }
    {
        self.stands();
        quiet_operations_keep_maps();
        self.platter.power();
        read_maps(&mut self.platter, &mut self.path, &mut self.samples)
    }

    // Writes a map that was found to both slots, the other one first, while the power is on.
    fn take(&mut self, map: Map) -> RecoverAnswer
        requires found { IsFound self.old map }
        requires on { is_off self.old.platter.ops ≡ false }
        requires room { 18 ≤ self.old.platter.room }
        ensures { Rewrites self.old map result self.new }
    {
        self.stands();
        recovery_ops_stay_safe();
        rewritten_maps_are_present();
        present_maps_are_there();
        taken_numbers_are_small();
        taken_numbers_are_meant();
        let number = map.number() + 4;
        let first = map.with_number(map.number() + 2, 1 - map.slot());
        let second = map.with_number(number, map.slot());
        if write_both(&mut self.platter, &first, &second) {
            self.placer = Placer::of(&second);
            self.map = second;
            self.next = None;
            self.ready = true;
            return RecoverAnswer::Ready(number);
        }
        self.ready = false;
        RecoverAnswer::Off
    }
}
