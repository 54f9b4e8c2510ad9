//! Commits of the map of defects.
ghost use Rattle.std.specs.Prelude.{◌≡◌, ◌↔◌, ◌⊎◌, ◌++◌, ◌-◌, ◌^◌, ◌≤◌, ◌<◌, true, false};
ghost use Rattle.platter_model.specs.TrueLog.{is_off};
ghost use Rattle.geometry_map.specs.DefectMap.{IsGrownList};
ghost use Rattle.geometry_map.specs.Placer.{IsPlacerOf};
ghost use Rattle.sector_store.specs.Maps.{next_map};
ghost use Rattle.sector_store.specs.Writing.{IsDueWithin};
ghost use Rattle.sector_store.specs.Commits.{IsNextOf};
ghost use Rattle.sector_store.specs.Committing.{IsCommitted, IsCommitCut, Commits, KeepsReserved, KeepsNumbers, AreSafe};

use crate::law::{commit_ops_stay_safe, present_maps_are_there};
use crate::writing::write_records;
use crate::{CommitAnswer, Store};
use geometry_map::{Map, Pair, Placer};

impl Store {
    /// Writes the map with more pairs, under the next number and to the other slot, in room for ten operations. Where a cut ends
    /// it, a recovery finds the one map or the other. Once it is done, places go by the new map.
    pub fn commit(&mut self, pairs: &[Pair]) -> CommitAnswer
        requires fit { IsGrownList self.old.map.size self.old.map.primary (self.old.map.grown ++ pairs.now) }
        requires number { self.old.map.number < 2 ^ 64 - 1 }
        requires ready { (self.old.ready ≡ true) ⊎ (is_off self.old.platter.ops ≡ true) }
        requires room { 10 ≤ self.old.platter.room }
        ensures done { result ≡ CommitAnswer.Done → IsCommitted self.old (next_map self.old.map pairs.now) self.new }
        ensures off { result ≡ CommitAnswer.Off → is_off self.old.platter.ops ≡ false
            → IsCommitCut self.old (next_map self.old.map pairs.now) self.new }
        ensures was_off { is_off self.old.platter.ops ≡ true → (result ≡ CommitAnswer.Off) × (self.new ≡ self.old) }

        // A cut that is armed for one of the next eight writes is the one way in which the power goes.
        ensures due { (result ≡ CommitAnswer.Off) ↔ ((is_off self.old.platter.ops ≡ true) ⊎ IsDueWithin 8 self.old.platter.armed) }
        ensures reserved { KeepsReserved self.old self.new }
        ensures safe { AreSafe self.new }
        ensures numbers { KeepsNumbers self.old self.new }
    {
        self.stands();
        if self.platter.is_off() {
            return CommitAnswer::Off;
        }
        let number = self.map.number() + 1;
        let slot = 1 - self.map.slot();
        let next = self.map.with_pairs(pairs).with_number(number, slot);
        let placer = self.placer.with_pairs(pairs);
        self.commit_map(next, placer)
    }

    // Writes the map that follows the store's, whose placer comes with it, while the power is on.
    fn commit_map(&mut self, next: Map, placer: Placer) -> CommitAnswer
        requires follows { IsNextOf self.old.map next }
        requires placer { IsPlacerOf placer next }
        requires ready { self.old.ready ≡ true }
        requires on { is_off self.old.platter.ops ≡ false }
        requires room { 10 ≤ self.old.platter.room }
        ensures { Commits self.old next result self.new }
    {
        self.stands();
        commit_ops_stay_safe();
        present_maps_are_there();
        if write_records(&mut self.platter, &next) {
            self.placer = placer;
            self.map = next;
            return CommitAnswer::Done;
        }
        self.next = Some(next);
        self.ready = false;
        CommitAnswer::Off
    }
}
