ghost use Rattle.std.specs.Prelude.{◌≡◌, ◌++◌, ◌<◌, ◌≤◌, ◌↔◌, [], length, IsSome, IfSome};
ghost use Rattle.geometry_map.specs.Size.{capacity_of, LiesAt};
ghost use Rattle.geometry_map.specs.Laws.{BlocksHaveOwnSectors, BlocksLieOnUserSectors};
ghost use Rattle.geometry_map.specs.Laws.{GivenSparesAreFree, GivenSparesMakePairs};
ghost use Rattle.geometry_map.specs.DefectMap.{DefectMap, map_of, factory_map, with_pairs as with_these_pairs};
ghost use Rattle.geometry_map.specs.DefectMap.{IsPrimaryList, IsGrownList, IsValidMap};
ghost use Rattle.geometry_map.specs.DefectMap.{place_of, slip_place, next_spare_of};
ghost use Rattle.geometry_map.specs.ValidMap.{TestTellsValidMaps};

use crate::lists::{is_grown_list, is_primary_list};
use crate::sectors::Sectors;
use crate::slips::{first_open, first_spare, go_through, slip};
use crate::{MAP_SECTORS, PAIRS_MAX, Pair, Size};
use arrayvec::ArrayVec;
use disk_base::{Lba, Psn};
use std::marker::Model;

/// The map of a drive's defects: those of the factory (the primary list) and those found since (the grown list), with
/// the number under which it was written, the slot that holds it, and its state.
#[derive(Debug, Drop)]
pub struct Map {
    size: Size,
    primary: Sectors,
    grown: ArrayVec<Pair, PAIRS_MAX>,
    number: u64,
    slot: u8,
    state: u8,
}

impl Model for Map {
    ghost use Rattle.geometry_map.specs.DefectMap.{DefectMap, map_of, IsValidMap};

    ghost Value = { DefectMap };

    ghost view = { λ m. map_of m.size m.primary m.grown.items m.number m.slot m.state };

    ghost invariant = { λ m. IsValidMap (map_of m.size m.primary m.grown.items m.number m.slot m.state) };
}

impl Map {
    /// The map that the factory leaves: number 2 in slot 1, without grown defects.
    pub fn factory(size: Size, primary: &[Psn]) -> Option<Self>
        ensures valid { IsSome result ↔ IsPrimaryList size primary.now }
        ensures value { IfSome result (λ m. m ≡ factory_map size primary.now) }
    {
        Self::of_lists(size, primary, &[], 2, 1, 0)
    }

    /// The map of these lists, where they are those of a valid one.
    pub fn of_lists(
        size: Size,
        primary: &[Psn],
        grown: &[Pair],
        number: u64,
        slot: u8,
        state: u8,
    ) -> Option<Self>
        ensures valid { IsSome result ↔ IsValidMap (map_of size primary.now grown.now number slot state) }
        ensures value { IfSome result (λ m. m ≡ map_of size primary.now grown.now number slot state) }
    {
        if !is_primary_list(&size, primary) || !is_grown_list(&size, primary, grown) {
            return None;
        }
        Some(Map {
            size,
            primary: Sectors::from_slice(primary)?,
            grown: ArrayVec::try_from(grown).ok()?,
            number,
            slot,
            state,
        })
    }

    pub fn size(&self) -> Size
        ensures { result ≡ self.now.size }
    {
        self.size
    }

    /// The factory's defects, ascending.
    pub fn primary(&self) -> &[Psn]
        ensures { result.now ≡ self.now.primary }
    {
        self.primary.as_slice()
    }

    /// The pairs of grown defects, in order of making.
    pub fn grown(&self) -> &[Pair]
        ensures { result.now ≡ self.now.grown }
    {
        self.grown.as_slice()
    }

    pub fn number(&self) -> u64
        ensures { result ≡ self.now.number }
    {
        self.number
    }

    /// The slot of the map's sectors that holds it, 0 or 1.
    pub fn slot(&self) -> u8
        ensures { result ≡ self.now.slot }
    {
        self.slot
    }

    pub fn state(&self) -> u8
        ensures { result ≡ self.now.state }
    {
        self.state
    }

    /// What each map keeps.
    pub fn lists_are_valid(&self)
        ensures { IsValidMap self.now }
    {
        let _ = &self.size;
    }

    /// The sector that a block is at.
    pub fn place(&self, b: Lba) -> Psn
        requires { b.0 < capacity_of self.now.size }
        ensures { result ≡ place_of self.now b }
    {
        go_through(self.grown(), self.start(b))
    }

    /// The sector at which a block starts, before its pairs.
    pub(crate) fn start(&self, b: Lba) -> Psn
        requires { b.0 < capacity_of self.now.size }
        ensures { result ≡ slip_place self.now.size self.now.primary b }
    {
        self.lists_are_valid();
        Psn(slip(self.primary(), MAP_SECTORS + b.0 as u32))
    }

    /// The next spare to move a block to; `taken` are those that moves in flight have.
    pub fn next_spare(&self, taken: &[Psn]) -> Option<Psn>
        ensures { result ≡ next_spare_of self.now taken.now }
    {
        self.lists_are_valid();
        if taken.len() >= PAIRS_MAX - self.grown().len() {
            return None;
        }
        let first = first_spare(&self.size(), self.primary());
        first_open(
            first,
            self.size().total(),
            self.primary(),
            self.grown(),
            taken,
        )
    }

    /// The same map with more pairs, which have spares of their own.
    pub fn with_pairs(&self, pairs: &[Pair]) -> Self
        requires { IsGrownList self.now.size self.now.primary (self.now.grown ++ pairs.now) }
        ensures { result ≡ with_these_pairs self.now pairs.now }
    {
        Map {
            size: self.size,
            primary: self.primary.copy(),
            grown: joined(self.grown(), pairs),
            number: self.number,
            slot: self.slot,
            state: self.state,
        }
    }

    /// The same map under another number in another slot.
    pub fn with_number(&self, number: u64, slot: u8) -> Self
        ensures { result ≡ record self.now { number = number; slot = slot } }
    {
        Map {
            size: self.size,
            primary: self.primary.copy(),
            grown: joined(self.grown(), &[]),
            number,
            slot,
            state: self.state,
        }
    }

    /// The cylinder of a sector, the head, and the sector's number on its track.
    pub fn cylinder_head_sector(&self, p: Psn) -> (u32, u8, u32)
        ensures { LiesAt self.now.size p.0 result.0 result.1 result.2 }
    {
        let sectors = u32::from(self.size.sectors);
        let heads = u32::from(self.size.heads);
        let track = p.0 / sectors;
        (track / heads, (track % heads) as u8, p.0 % sectors)
    }
}

fn joined(pairs: &[Pair], more: &[Pair]) -> ArrayVec<Pair, PAIRS_MAX>
    requires { length (pairs.now ++ more.now) ≤ PAIRS_MAX }
    ensures { result.items ≡ pairs.now ++ more.now }
{
    let mut list = ArrayVec::new();
    let _ = list.try_extend_from_slice(pairs);
    let _ = list.try_extend_from_slice(more);
    list
}

/// Two blocks are never at one sector.
pub fn two_blocks_are_never_at_one_sector()
    ensures { BlocksHaveOwnSectors }
{}

/// A block is never at a sector of the map or past the drive.
pub fn blocks_are_at_user_sectors()
    ensures { BlocksLieOnUserSectors }
{}

/// The next spare is at no block's place.
pub fn no_block_is_at_the_next_spare()
    ensures { GivenSparesAreFree }
{}

/// The next spare makes a pair that `with_pairs` takes.
pub fn the_next_spare_makes_a_pair()
    ensures { GivenSparesMakePairs }
{}

/// The test of a valid map, which computes, tells the valid maps.
pub fn the_test_tells_valid_maps()
    ensures { TestTellsValidMaps }
{}
