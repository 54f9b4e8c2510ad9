ghost use Rattle.std.specs.Prelude.{get_or, ◌≡◌, ◌≢◌, ◌++◌, ◌∷◌, [], ◌+◌, ◌==◌, ◌<◌, ◌≤◌, ◌↔◌, ℕ, List, true, false, nat_le, length, map as map_over, IsTrue, MatchOption};
ghost use Rattle.std.specs.List.{list_any};
ghost use Rattle.std.specs.Ordering.{nat_cmp};
ghost use Rattle.std.specs.List.Sorted.{IsNonDecreasingBy, IsPartitionedBy, IsPartitionPoint, IsSearchInRange, IsBinarySearchResult};
ghost use Rattle.disk_base.specs.declared.address.Psn.{Psn as Sector};
ghost use Rattle.geometry_map.specs.DefectMap.{DefectMap, place_of, AscendsWithin, IsGrownList, IsValidMap, with_pairs as with_these_pairs};
ghost use Rattle.geometry_map.specs.Size.{capacity_of};
ghost use Rattle.geometry_map.specs.Slips.{slipped};
ghost use Rattle.geometry_map.specs.Placer.{gaps_of, remap_of, followed, IsStart, IsPlacerOf, RoutesAscend};

use crate::{MAP_SECTORS, Map, PAIRS_MAX, PRIMARY_MAX, Pair, SECTORS_MAX};
use arrayvec::ArrayVec;
use disk_base::{Lba, Psn};

/// The places of a map's blocks, found by halving in place of going through its lists.
#[derive(Debug, Drop)]
pub struct Placer {
    /// How many blocks start below each primary defect, ascending.
    pub gaps: ArrayVec<u32, PRIMARY_MAX>,
    /// Where each block that was moved starts, and where it is; strictly ascending by start.
    pub remap: ArrayVec<Pair, PAIRS_MAX>,
    /// How many blocks there are, which tells the start of a block from a spare.
    pub blocks: u32,
}

impl Placer {
    /// The lists of a map, made by going through the map's own.
    pub fn of(map: &Map) -> Self
        ensures { IsPlacerOf result map.now }
    {
        map.lists_are_valid();
        let unmoved = Placer {
            gaps: gaps(map.primary(), map.size().total()),
            remap: ArrayVec::new(),
            blocks: map.size().blocks(),
        };
        unmoved.with_pairs(map.grown())
    }

    /// The lists of the map with more pairs, made from these by going through the pairs.
    pub fn with_pairs(&self, pairs: &[Pair]) -> Self
        ensures { (m : DefectMap) → IsPlacerOf self.now m → IsGrownList m.size m.primary (m.grown ++ pairs.now)
            → IsPlacerOf result (with_these_pairs m pairs.now) }
    {
        let mut placer = self.copy();
        for pair in pairs {
            placer.follow(pair);
        }
        placer
    }

    fn copy(&self) -> Self
        ensures gaps { result.gaps.items ≡ self.now.gaps.items }
        ensures remap { result.remap.items ≡ self.now.remap.items }
        ensures blocks { result.blocks ≡ self.now.blocks }
    {
        Placer {
            gaps: copy_of(&self.gaps),
            remap: copy_of(&self.remap),
            blocks: self.blocks,
        }
    }

    // Takes one more pair of the map: the block that is at its old goes on to its new.
    fn follow(&mut self, pair: &Pair)
        ensures { (m : DefectMap) → IsPlacerOf self.old m → IsGrownList m.size m.primary (m.grown ++ pair.now ∷ [])
            → IsPlacerOf self.new (with_these_pairs m (pair.now ∷ [])) }
    {
        if ends_at(&self.remap, pair.old) {
            lead_on(self.remap.as_mut_slice(), pair);
        } else if self.starts_a_block(pair.old) {
            begin_route(&mut self.remap, pair);
        }
    }

    // Whether a block starts at a sector.
    fn starts_a_block(&self, p: Psn) -> bool
        ensures { (m : DefectMap) → IsPlacerOf self.now m → IsTrue result ↔ IsStart m p }
    {
        match block_from(&self.gaps, p) {
            Some(b) => b < self.blocks,
            None => false,
        }
    }

    /// The sector that a block is at by the map that this was made of.
    pub fn place(&self, b: Lba) -> Psn
        requires { b.0 < SECTORS_MAX }
        ensures { (m : DefectMap) → IsPlacerOf self.now m → b.0 < capacity_of m.size
            → result ≡ place_of m b }
    {
        let block = b.0 as u32;
        let slips = gaps_up_to(&self.gaps, block);
        let start = Psn(MAP_SECTORS + block + slips as u32);
        match route_from(&self.remap, start) {
            Ok(i) => self.remap[i].new,
            Err(_) => start,
        }
    }
}

/// The routes of a placer ascend by start, so that they can be halved.
pub fn routes_of_a_placer_ascend()
    ensures { RoutesAscend }
{}

// How many gaps are at most `block`, where they ascend.
fn gaps_up_to(gaps: &[u32], block: u32) -> usize
    ensures bound { result ≤ length gaps.now }
    ensures split { IsPartitionedBy (λ gap. nat_le gap block) gaps.now
        → IsPartitionPoint (λ gap. nat_le gap block ≡ true) (λ gap. nat_le gap block ≡ false)
        gaps.now result }
{
    gaps.partition_point(|gap| *gap <= block)
}

// The place in the list of the route from `start`, or where it would stand.
fn route_from(remap: &[Pair], start: Psn) -> Result<usize, usize>
    ensures bound { IsSearchInRange result (length remap.now) }
    ensures position { IsBinarySearchResult (λ route. nat_cmp route.old.0 start.0) remap.now result }
{
    remap.binary_search_by_key(&start.0, |route| route.old.0)
}

fn gaps(primary: &[Psn], total: u32) -> ArrayVec<u32, PRIMARY_MAX>
    requires ascending { AscendsWithin 16 total primary.now }
    requires few { length primary.now ≤ PRIMARY_MAX }
    ensures { result.items ≡ gaps_of primary.now }
{
    let mut gaps = ArrayVec::new();
    for (i, defect) in primary.iter().enumerate() {
        gaps.push(defect.0 - MAP_SECTORS - i as u32);
    }
    gaps
}

// The block that starts at a sector past its gaps, were the drive large enough.
fn block_from(gaps: &[u32], p: Psn) -> Option<u32>
    ensures { (primary : List Sector) (high : ℕ) → AscendsWithin 16 high primary → gaps.now ≡ gaps_of primary
        → MatchOption result ((b : ℕ) → slipped (16 + b) primary ≢ p.0) (λ b. slipped (16 + b) primary ≡ p.0) }
{
    let offset = p.0.checked_sub(MAP_SECTORS)?;
    let below = defects_below(gaps, offset);
    if below < gaps.len() && u64::from(gaps[below]) + below as u64 == u64::from(offset) {
        return None;
    }
    Some(offset - below as u32)
}

// How many of the defects that gaps stand for lie before a sector of this offset, where the gaps don't fall: the defect of a gap
// is as many sectors further on as there are gaps before it.
fn defects_below(gaps: &[u32], offset: u32) -> usize
    ensures bound { result ≤ length gaps.now }
    ensures few { result ≤ offset }
    ensures below { IsNonDecreasingBy (λ gap. gap) gaps.now → (i : ℕ) → i < result → get_or gaps.now i 0 + i < offset }
    ensures at { result < length gaps.now → offset ≤ get_or gaps.now result 0 + result }
{
    let mut low = 0;
    let mut high = gaps.len();
    while low < high {
        let middle = low + (high - low) / 2;
        if u64::from(gaps[middle]) + (middle as u64) < u64::from(offset) {
            low = middle + 1;
        } else {
            high = middle;
        }
    }
    low
}

fn ends_at(remap: &[Pair], p: Psn) -> bool
    ensures { result ≡ list_any (λ route. route.new.0 == p.0) remap.now }
{
    remap.iter().any(|route| route.new.0 == p.0)
}

// The route that ends at a pair's old goes on to its new.
fn lead_on(remap: &mut [Pair], pair: &Pair)
    ensures { remap.new ≡ map_over (followed pair.now) remap.old }
{
    for route in remap.iter_mut() {
        if route.new.0 == pair.old.0 {
            route.new = pair.new;
        }
    }
}

// A block that is where it starts goes on by a pair: the pair is its route, unless it has one that leads elsewhere.
fn begin_route(remap: &mut ArrayVec<Pair, PAIRS_MAX>, pair: &Pair)
    ensures { (m : DefectMap) → IsValidMap m → remap.old.items ≡ remap_of m → IsStart m pair.now.old
        → list_any (λ route. route.new.0 == pair.now.old.0) remap.old.items ≡ false
        → IsGrownList m.size m.primary (m.grown ++ pair.now ∷ [])
        → remap.new.items ≡ remap_of (with_these_pairs m (pair.now ∷ [])) }
{
    if let Err(i) = route_from(remap.as_slice(), pair.old) {
        let _ = remap.try_insert(i, *pair);
    }
}

fn copy_of<T: Copy + Default, const N: usize>(list: &ArrayVec<T, N>) -> ArrayVec<T, N>
    ensures { result.items ≡ list.now.items }
{
    let mut copy = ArrayVec::new();
    let _ = copy.try_extend_from_slice(list.as_slice());
    copy
}
