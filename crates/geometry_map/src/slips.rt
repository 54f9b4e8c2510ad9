//! Places past the primary defects, which both lists of a map are about.
ghost use Rattle.std.specs.Prelude.{◌≡◌, ◌+◌, ◌-◌, ◌^◌, ◌<◌, ◌==◌, length, find};
ghost use Rattle.std.specs.List.{list_any, range_with_len};
ghost use Rattle.std.specs.Option.{option_map};
ghost use Rattle.geometry_map.specs.DefectMap.{is_listed as is_listed_in, is_in_a_pair as is_in_some_pair, is_open};
ghost use Rattle.geometry_map.specs.DefectMap.{sector, through, spares, IsPrimaryList};
ghost use Rattle.geometry_map.specs.Size.{capacity_of};
ghost use Rattle.geometry_map.specs.Slips.{slipped};

use crate::{MAP_SECTORS, Pair, Size};
use disk_base::Psn;

/// The sector that is left of `at` once each primary defect at or below it, in ascending order, moves it up by one.
pub fn slip(primary: &[Psn], at: u32) -> u32
    requires { at + length primary.now < 2 ^ 32 }
    ensures { result ≡ slipped at primary.now }
{
    let mut place = at;
    for defect in primary {
        if defect.0 > place {
            return place;
        }
        place += 1;
    }
    place
}

pub fn is_listed(p: Psn, sectors: &[Psn]) -> bool
    ensures { result ≡ is_listed_in p.0 sectors.now }
{
    sectors.iter().any(|q| q.0 == p.0)
}

fn is_in_a_pair(p: Psn, pairs: &[Pair]) -> bool
    ensures { result ≡ is_in_some_pair p.0 pairs.now }
{
    pairs
        .iter()
        .any(|pair| pair.old.0 == p.0 || pair.new.0 == p.0)
}

/// The first sector from `from` to below `to` that is in none of the lists.
pub fn first_open(from: u32, to: u32, primary: &[Psn], pairs: &[Pair], taken: &[Psn]) -> Option<Psn>
    ensures { result ≡ option_map sector
        (find (is_open primary.now pairs.now taken.now) (range_with_len from (to - from))) }
{
    for p in from..to {
        let spare = Psn(p);
        if !is_listed(spare, primary) && !is_in_a_pair(spare, pairs) && !is_listed(spare, taken) {
            return Some(spare);
        }
    }
    None
}

/// Where the pairs, in order, take a block.
pub fn go_through(pairs: &[Pair], at: Psn) -> Psn
    ensures { result ≡ through pairs.now at }
{
    pairs.iter().fold(
        at,
        |at, pair| if at.0 == pair.old.0 { pair.new } else { at },
    )
}

/// The first sector past the places of all blocks, a spare where the drive has any.
pub fn first_spare(size: &Size, primary: &[Psn]) -> u32
    requires { IsPrimaryList size.now primary.now }
    ensures { result ≡ slipped (16 + capacity_of size.now) primary.now }
{
    slip(primary, MAP_SECTORS + size.blocks())
}

pub fn is_spare(p: Psn, size: &Size, primary: &[Psn]) -> bool
    requires { IsPrimaryList size.now primary.now }
    ensures { result ≡ list_any (λ q. q == p.0) (spares size.now primary.now) }
{
    if p.0 < first_spare(size, primary) || p.0 >= size.total() {
        return false;
    }
    !is_listed(p, primary)
}
