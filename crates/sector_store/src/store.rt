//! The store and its calls.
ghost use Rattle.std.specs.Prelude.{◌≡◌, ◌≢◌, ◌↔◌, ◌≤◌, ◌<◌, true, false, IfOk, OnOk, OnErr, MatchResult};
ghost use Rattle.disk_base.specs.declared.block.Value.{Value as BlockValue};
ghost use Rattle.disk_base.specs.declared.block.Value.TheVariants.{Data as BlockData};
ghost use Rattle.platter_model.specs.TrueLog.{is_off, strays};
ghost use Rattle.platter_model.specs.State.{write_answer};
ghost use Rattle.geometry_map.specs.Size.{capacity_of};
ghost use Rattle.geometry_map.specs.DefectMap.{IsPrimaryList, factory_map, place_of};
ghost use Rattle.sector_store.specs.Stored.{stored, KeepsBlocks, KeepsOthers, StoresAt, MayStoreAt};
ghost use Rattle.sector_store.specs.State.{IsStore, IsTry, made_by_factory, with_room_for, answer_for, after_write_of, answer_by};
ghost use Rattle.sector_store.specs.Happening.{MayHappen, after_world};
ghost use Rattle.sector_store.specs.Lending.{LendsCache};
ghost use Rattle.std.specs.Borrow.{sem};

use crate::law::{
    factory_payloads_are_on_sectors, factory_stores_keep_maps, quiet_operations_keep_blocks,
    quiet_operations_keep_maps, tries_find_what_is_stored, writes_store_one_block,
};
use crate::{StoreAnswer, StoreFault, TryAnswer, factory};
use channel_path::{Path, SAMPLES};
use disk_base::{Block, Lba, NoMemory, Payload, Psn, Stage};
use geometry_map::{Map, Placer, Size, blocks_are_at_user_sectors};
use platter_model::{Ops, Platter, World, WriteAnswer};
use std::alloc::Global;
use std::marker::Model;
use write_cache::Cache;

/// The blocks of a drive on the sectors of its platter, and the cache before them. Contracts see the map of its defects, what
/// the cache holds, and the platter.
#[derive(Drop)]
pub struct Store {
    pub(crate) map: Map,
    // Made of the map.
    pub(crate) placer: Placer,
    // The map of a commit that was cut off: its records may be on the sectors of the maps.
    pub(crate) next: Option<Map>,
    // Whether the map is there, so that a recovery takes no other.
    pub(crate) ready: bool,
    pub(crate) cache: Cache,
    pub(crate) platter: Platter,
    pub(crate) path: Path,
    // For use within a try.
    pub(crate) samples: Box<[i8; SAMPLES]>,
}

impl Model for Store {
    ghost use Rattle.geometry_map.specs.Placer.{IsPlacerOf};
    ghost use Rattle.sector_store.specs.State.{Contained, KeepsMaps};

    ghost Value = { Contained };

    ghost view = { λ s. record { map = s.map; next = s.next; ready = s.ready; cache = s.cache; platter = s.platter } };

    ghost invariant = { λ s. record {
      placer : IsPlacerOf s.placer s.map;
      maps : KeepsMaps s.map s.next s.ready s.platter;
    } };
}

impl Store {
    /// Holds of every store: it keeps its maps, and while it is ready, its map is there after its operations.
    pub fn stands(&self)
        ensures { IsStore self.now }
    {
        let _ = &self.map;
    }

    /// A store of this size, whose sectors in the list are bad from the factory on: all its blocks are zeros.
    pub fn factory(alloc: Global, size: Size, primary: &[Psn]) -> Result<Self, StoreFault>
        ensures { MatchResult result
            (λ store. (store ≡ made_by_factory size primary.now) × IsPrimaryList size primary.now)
            (λ fault. (fault ≡ StoreFault.Primary) ↔ (IsPrimaryList size primary.now → ⊥)) }
    {
        match Map::factory(size, primary) {
            None => Err(StoreFault::Primary),
            Some(map) => Ok(Self::of_map(alloc, map)?),
        }
    }

    /// Makes room for so many more operations.
    pub fn reserve(&mut self, ops: usize) -> Result<(), NoMemory>
        ensures ok { OnOk result (self.new ≡ with_room_for self.old ops) }
        ensures err { OnErr result (self.new ≡ self.old) }
    {
        self.platter.reserve(ops)
    }

    /// A stage tries a block's place, in room for two operations. What it found is noted.
    pub fn try_block(&mut self, b: Lba, stage: Stage) -> TryAnswer
        requires block { b.0 < capacity_of self.old.map.size }
        requires room { 2 ≤ self.old.platter.room }
        ensures off { (result ≡ TryAnswer.Off) ↔ (is_off self.old.platter.ops ≡ true) }
        ensures unchanged { result ≡ TryAnswer.Off → self.new ≡ self.old }
        ensures tried { is_off self.old.platter.ops ≡ false → IsTry self.old b stage result self.new }

        // Where the try is no stray, it finds the value that is stored.
        ensures found { (v : BlockValue) → result ≡ TryAnswer.Found v → strays self.new.platter.ops ≡ strays self.old.platter.ops
            → v ≡ stored self.old.map self.old.platter.ops b }
        ensures keeps { self.old.ready ≡ true → KeepsBlocks self.old.map self.old.platter.ops self.new.platter.ops }
    {
        self.stands();
        blocks_are_at_user_sectors();
        quiet_operations_keep_blocks();
        quiet_operations_keep_maps();
        tries_find_what_is_stored();
        let p = self.placer.place(b);
        let seen = self
            .platter
            .try_sector(&mut self.path, &mut self.samples, p, stage);
        answer_of(b, seen)
    }

    /// Writes a block's data to its place, in room for two operations.
    pub fn write_place(&mut self, b: Lba, v: &Block) -> StoreAnswer
        requires block { b.0 < capacity_of self.old.map.size }
        requires room { 2 ≤ self.old.platter.room }
        ensures answer { result ≡ answer_by (write_answer self.old.platter (place_of self.old.map b)) }
        ensures after { self.new ≡ after_write_of self.old b v.now }

        // By each map that recovery may take from here, the block has its data once the write is done; so while the store is ready.
        ensures done { self.old.ready ≡ true → result ≡ StoreAnswer.Done
            → StoresAt self.old.map self.new.platter.ops b (BlockData v.now) }
        ensures fault { self.old.ready ≡ true → result ≡ StoreAnswer.Fault
            → StoresAt self.old.map self.new.platter.ops b (stored self.old.map self.old.platter.ops b) }
        ensures cut { self.old.ready ≡ true → result ≡ StoreAnswer.Off
            → MayStoreAt self.old.map self.new.platter.ops b (stored self.old.map self.old.platter.ops b) (BlockData v.now) }
        ensures others { self.old.ready ≡ true → KeepsOthers self.old.map self.old.platter.ops self.new.platter.ops b }
    {
        self.stands();
        blocks_are_at_user_sectors();
        quiet_operations_keep_maps();
        writes_store_one_block();
        let p = self.placer.place(b);
        let payload = Payload::user(p, b, v);
        store_answer(self.platter.write(p, &payload))
    }

    /// Whether the store's map is there, so that a recovery takes no other.
    pub fn is_ready(&self) -> bool
        ensures { result ≡ self.now.ready }
    {
        self.ready
    }

    pub fn map(&self) -> &Map
        ensures { result.now ≡ self.now.map }
    {
        &self.map
    }

    pub fn cache(&mut self) -> &mut Cache
        ensures* writes_back { sem 𝓛 (LendsCache self.entry result) }
        ensures value { result.now ≡ self.old.cache }
    {
        &mut self.cache
    }

    /// The cache, to be looked at.
    pub fn cached(&self) -> &Cache
        ensures { result.now ≡ self.now.cache }
    {
        &self.cache
    }

    pub fn platter(&self) -> &Platter
        ensures { result.now ≡ self.now.platter }
    {
        &self.platter
    }

    /// All operations of the platter, the factory's first.
    pub fn into_ops(self) -> Ops
        ensures { result ≡ self.platter.ops }
    {
        let Store { platter, .. } = self;
        platter.into_ops()
    }

    /// Something happens from outside, in room for one operation.
    pub fn world(&mut self, w: &World)
        requires room { 1 ≤ self.old.platter.room }
        requires may { MayHappen self.old.platter w.now }
        ensures after { self.new ≡ record self.old { platter = after_world self.old.platter w.now } }
        ensures keeps { self.old.ready ≡ true → KeepsBlocks self.old.map self.old.platter.ops self.new.platter.ops }
    {
        self.stands();
        quiet_operations_keep_blocks();
        quiet_operations_keep_maps();
        happen(&mut self.platter, w);
    }

    // A fresh store by the map that a factory leaves.
    fn of_map(alloc: Global, map: Map) -> Result<Self, NoMemory>
        requires { map ≡ factory_map map.size map.primary }
        ensures { IfOk result (λ store. store ≡ made_by_factory map.size map.primary) }
    {
        map.lists_are_valid();
        factory_stores_keep_maps();
        factory_payloads_are_on_sectors();
        let placer = Placer::of(&map);
        let payloads = factory::payloads(alloc, &map, &placer)?;
        let platter = Platter::factory(alloc, map.size().total(), payloads.as_slice())?;
        Ok(Store {
            map,
            placer,
            next: None,
            ready: true,
            cache: Cache::new(alloc)?,
            platter,
            path: Path::new(alloc)?,
            samples: Box::new(alloc, [0; SAMPLES])?,
        })
    }
}

fn answer_of(b: Lba, seen: Option<Option<Payload>>) -> TryAnswer
    ensures { result ≡ answer_for b seen }
{
    match seen {
        None => TryAnswer::Off,
        Some(None) => TryAnswer::Nothing,
        Some(Some(payload)) => TryAnswer::Found(payload.value(b)),
    }
}

pub(crate) fn store_answer(answer: WriteAnswer) -> StoreAnswer
    ensures { result ≡ answer_by answer }
{
    match answer {
        WriteAnswer::Written => StoreAnswer::Done,
        WriteAnswer::Fault => StoreAnswer::Fault,
        WriteAnswer::Off => StoreAnswer::Off,
    }
}

fn happen(platter: &mut Platter, w: &World)
    requires room { 1 ≤ platter.old.room }
    requires may { MayHappen platter.old w.now }
    ensures { platter.new ≡ after_world platter.old w.now }
{
    match w {
        World::Damage(d) => platter.damage(*d),
        World::Fault(p) => platter.write_fault(*p),
        World::Cut => platter.cut(),
        World::Arm { k, tear } => platter.arm(*k, *tear),
        World::Power | World::Minutes(_) => {}
    }
}
