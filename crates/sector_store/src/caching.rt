//! One block on the cache and on its sector.
ghost use Rattle.std.specs.Prelude.{◌≡◌, ◌≢◌, ◌↔◌, ◌≤◌, ◌<◌, ℕ, List, true, false, Some, None, IsSome};
ghost use Rattle.disk_base.specs.declared.block.Value.{Value as BlockValue};
ghost use Rattle.disk_base.specs.declared.block.Value.TheVariants.{Data as BlockData};
ghost use Rattle.platter_model.specs.TrueLog.{is_off};
ghost use Rattle.platter_model.specs.State.{write_answer};
ghost use Rattle.geometry_map.specs.Size.{capacity_of};
ghost use Rattle.geometry_map.specs.DefectMap.{place_of};
ghost use Rattle.write_cache.specs.Contents.{IsCache, IsFullFor, newest, after_look};
ghost use Rattle.sector_store.specs.Stored.{stored, KeepsOthers, StoresAt, MayStoreAt};
ghost use Rattle.sector_store.specs.State.{answer_by};
ghost use Rattle.sector_store.specs.Caching.{seen_at, may_be_dirty, IsLooked, IsUngiven, IsStageTried, IsSought};
ghost use Rattle.sector_store.specs.Caching.{TakesIn, LeavesOut, Settles, IsInCache, IsAtPlace, Hardens, HasFailed, IsCutOff};

use crate::{Store, StoreAnswer, TryAnswer};
use disk_base::{Block, Lba, Stage, Value};
use write_cache::{
    Cache, Look, Put, a_put_is_seen, forgetting_ends_one_block, keeping_changes_no_other,
    settling_ends_one_block,
};

/// A search for the value of a block.
#[derive(Clone, Copy, Debug)]
pub struct Search {
    pub b: Lba,
    /// The value is to come from the medium.
    pub medium: bool,
    /// The stage that tries the block where the cache doesn't give the value.
    pub stage: Stage,
    /// While RCD is 1 the cache gives the value of a dirty block alone.
    pub rcd: bool,
    /// Data that the stage finds are kept clean.
    pub keeps: bool,
}

impl Search {
    // Whether the block may be dirty. Where it may not, the cache isn't looked at.
    fn may_be_dirty(&self) -> bool
        ensures { result ≡ may_be_dirty self.now }
    {
        !self.medium && self.stage.number == 0
    }
}

impl Store {
    /// Looks for a block in the cache. While RCD is 1 only a dirty one is found.
    pub fn look(&mut self, b: Lba, rcd: bool) -> Look
        ensures found { result ≡ seen_at rcd b self.old.cache }
        // A clean block that is found becomes the most recent.
        ensures used { result ≢ Look.Absent → self.new ≡ record self.old { cache = after_look b self.old.cache } }
        ensures absent { result ≡ Look.Absent → self.new ≡ self.old }
    {
        self.cached().holds_each_once();
        if rcd && !self.cached().is_dirty(b) {
            Look::Absent
        } else {
            self.cache().look(b)
        }
    }

    /// A stage tries a block that isn't dirty, while the power is on, in room for two operations. Data that it finds are kept
    /// clean where that is asked for.
    pub fn try_stage(&mut self, b: Lba, stage: Stage, keeps: bool) -> TryAnswer
        requires block { b.0 < capacity_of self.old.map.size }
        requires room { 2 ≤ self.old.platter.room }
        requires powered { is_off self.old.platter.ops ≡ false }
        requires undirty { newest b self.old.cache ≡ None }
        ensures { IsStageTried self.old b stage keeps result self.new }
    {
        match self.try_block(b, stage) {
            TryAnswer::Found(Value::Data(block)) => {
                if keeps {
                    self.cache().keep_clean(b, &block);
                }
                TryAnswer::Found(Value::Data(block))
            }
            TryAnswer::Found(Value::Lost) => TryAnswer::Found(Value::Lost),
            TryAnswer::Nothing => TryAnswer::Nothing,
            TryAnswer::Off => unreachable!(),
        }
    }

    /// Seeks a block's value while the power is on: the cache gives it, or else a stage tries the block, in room for two
    /// operations.
    pub fn seek(&mut self, search: Search) -> TryAnswer
        requires block { search.b.0 < capacity_of self.old.map.size }
        requires room { 2 ≤ self.old.platter.room }
        requires powered { is_off self.old.platter.ops ≡ false }
        requires undirty { may_be_dirty search ≡ false → newest search.b self.old.cache ≡ None }
        ensures { IsSought self.old search result self.new }
    {
        match self.given(&search) {
            Some(block) => TryAnswer::Found(Value::Data(block)),
            None => self.try_stage(search.b, search.stage, search.keeps),
        }
    }

    /// Puts a block's new data into the cache, unless that is full.
    pub fn put(&mut self, b: Lba, block: &Block) -> Put
        ensures full { (result ≡ Put.Full) ↔ IsFullFor b self.old.cache }
        ensures kept { result ≡ Put.Kept → IsInCache b block.now self.old self.new }
        ensures refused { result ≡ Put.Full → self.new ≡ self.old }
        ensures each_once { IsCache self.old.cache }
    {
        take_in(self.cache(), b, block)
    }

    /// Writes a block's new data to its place, in room for two operations. Once that is done the cache has nothing of the block,
    /// neither these data nor older ones.
    pub fn write_through(&mut self, b: Lba, block: &Block) -> StoreAnswer
        requires block { b.0 < capacity_of self.old.map.size }
        requires room { 2 ≤ self.old.platter.room }
        ensures answer { result ≡ answer_by (write_answer self.old.platter (place_of self.old.map b)) }
        ensures done { result ≡ StoreAnswer.Done → IsAtPlace b block.now self.old self.new }
        ensures fault { result ≡ StoreAnswer.Fault → HasFailed b self.old self.new }
        ensures off { result ≡ StoreAnswer.Off → IsCutOff b block.now self.old self.new }

        // By each map that recovery may take from here, while the store is ready.
        ensures stored { self.old.ready ≡ true → result ≡ StoreAnswer.Done
            → StoresAt self.old.map self.new.platter.ops b (BlockData block.now) }
        ensures unchanged { self.old.ready ≡ true → result ≡ StoreAnswer.Fault
            → StoresAt self.old.map self.new.platter.ops b (stored self.old.map self.old.platter.ops b) }
        ensures cut { self.old.ready ≡ true → result ≡ StoreAnswer.Off
            → MayStoreAt self.old.map self.new.platter.ops b (stored self.old.map self.old.platter.ops b) (BlockData block.now) }
        ensures others { self.old.ready ≡ true → KeepsOthers self.old.map self.old.platter.ops self.new.platter.ops b }
    {
        match self.write_place(b, block) {
            StoreAnswer::Done => {
                self.leave_out(b);
                StoreAnswer::Done
            }
            StoreAnswer::Fault => StoreAnswer::Fault,
            StoreAnswer::Off => StoreAnswer::Off,
        }
    }

    /// Writes the newest data of a dirty block to its place, in room for two operations. Once that is done the block isn't dirty;
    /// it is kept clean with these data, where memory allows.
    pub fn write_dirty(&mut self, b: Lba) -> StoreAnswer
        requires block { b.0 < capacity_of self.old.map.size }
        requires dirty { IsSome (newest b self.old.cache) }
        requires room { 2 ≤ self.old.platter.room }
        ensures answer { result ≡ answer_by (write_answer self.old.platter (place_of self.old.map b)) }
        ensures done { (bytes : List ℕ) → newest b self.old.cache ≡ Some bytes → result ≡ StoreAnswer.Done → Hardens self.old b bytes self.new }
        ensures fault { result ≡ StoreAnswer.Fault → HasFailed b self.old self.new }
        ensures off { (bytes : List ℕ) → newest b self.old.cache ≡ Some bytes → result ≡ StoreAnswer.Off → IsCutOff b bytes self.old self.new }

        // By each map that recovery may take from here, while the store is ready.
        ensures stored { self.old.ready ≡ true → (bytes : List ℕ) → newest b self.old.cache ≡ Some bytes → result ≡ StoreAnswer.Done
            → StoresAt self.old.map self.new.platter.ops b (BlockData bytes) }
        ensures unchanged { self.old.ready ≡ true → result ≡ StoreAnswer.Fault
            → StoresAt self.old.map self.new.platter.ops b (stored self.old.map self.old.platter.ops b) }
        ensures cut { self.old.ready ≡ true → (bytes : List ℕ) → newest b self.old.cache ≡ Some bytes → result ≡ StoreAnswer.Off
            → MayStoreAt self.old.map self.new.platter.ops b (stored self.old.map self.old.platter.ops b) (BlockData bytes) }
        ensures others { self.old.ready ≡ true → KeepsOthers self.old.map self.old.platter.ops self.new.platter.ops b }
    {
        let block = self.newest_of(b);
        match self.write_place(b, &block) {
            StoreAnswer::Done => {
                self.settle(b);
                StoreAnswer::Done
            }
            StoreAnswer::Fault => StoreAnswer::Fault,
            StoreAnswer::Off => StoreAnswer::Off,
        }
    }

    /// Leaves a block out of the cache: it is neither dirty nor clean any more.
    pub fn leave_out(&mut self, b: Lba)
        ensures left_out { LeavesOut b self.old.cache self.new.cache }
        ensures same { self.new ≡ record self.old { cache = self.new.cache } }
    {
        take_out(self.cache(), b);
    }

    // The value in the cache, where it is looked for and found.
    fn given(&mut self, search: &Search) -> Option<Block>
        requires { may_be_dirty search.now ≡ false → newest search.now.b self.old.cache ≡ None }
        ensures found { (bytes : List ℕ) → result ≡ Some bytes → IsLooked self.old search.now (TryAnswer.Found (BlockData bytes)) self.new }
        ensures none { result ≡ None → (self.new ≡ self.old) × IsUngiven self.old.cache search.now }
    {
        if !search.may_be_dirty() {
            return None;
        }
        match self.look(search.b, search.rcd) {
            Look::Dirty(block) | Look::Clean(block) => Some(block),
            Look::Absent => None,
        }
    }

    // The newest data of a dirty block.
    fn newest_of(&mut self, b: Lba) -> Block
        requires { IsSome (newest b self.old.cache) }
        ensures newest { newest b self.old.cache ≡ Some result }
        ensures same { self.new ≡ self.old }
    {
        self.cached().holds_each_once();
        match self.cache().look(b) {
            Look::Dirty(block) => block,
            Look::Clean(_) | Look::Absent => unreachable!(),
        }
    }

    // A dirty block isn't dirty any more, and is kept clean.
    fn settle(&mut self, b: Lba)
        ensures settled { (bytes : List ℕ) → newest b self.old.cache ≡ Some bytes → Settles self.old.cache b bytes self.new.cache }
        ensures same { self.new ≡ record self.old { cache = self.new.cache } }
    {
        end_dirty(self.cache(), b);
    }
}

// A block's new data go into the cache, unless that is full.
fn take_in(cache: &mut Cache, b: Lba, block: &Block) -> Put
    ensures full { (result ≡ Put.Full) ↔ IsFullFor b cache.old }
    ensures kept { result ≡ Put.Kept → TakesIn b block.now cache.old cache.new }
    ensures refused { result ≡ Put.Full → cache.new ≡ cache.old }
    ensures each_once { IsCache cache.old }
{
    cache.holds_each_once();
    a_put_is_seen();
    forgetting_ends_one_block();
    cache.put(b, block)
}

// The cache has nothing of a block any more.
fn take_out(cache: &mut Cache, b: Lba)
    ensures { LeavesOut b cache.old cache.new }
{
    settling_ends_one_block();
    forgetting_ends_one_block();
    keeping_changes_no_other();
    cache.holds_each_once();
    cache.settle(b);
    cache.holds_each_once();
    cache.forget(b);
}

// A dirty block isn't dirty any more, and is kept clean.
fn end_dirty(cache: &mut Cache, dirty: Lba)
    ensures { (bytes : List ℕ) → newest dirty cache.old ≡ Some bytes → Settles cache.old dirty bytes cache.new }
{
    settling_ends_one_block();
    keeping_changes_no_other();
    cache.holds_each_once();
    cache.settle(dirty);
}
