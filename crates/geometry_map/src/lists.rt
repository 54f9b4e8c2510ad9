//! What the lists of a map may be.
ghost use Rattle.std.specs.Prelude.{◌≡◌, ◌==◌, ◌↔◌, IsTrue, All, AllPairs};
ghost use Rattle.std.specs.List.{list_any};
ghost use Rattle.geometry_map.specs.DefectMap.{IsPrimaryList, AscendsWithin, IsPair, IsGrownList, HaveOwnSpares};
ghost use Rattle.geometry_map.specs.Size.{total_of};

use crate::slips::is_spare;
use crate::{MAP_SECTORS, PAIRS_MAX, PRIMARY_MAX, Pair, Size};
use disk_base::Psn;

pub fn is_primary_list(size: &Size, primary: &[Psn]) -> bool
    ensures { IsTrue result ↔ IsPrimaryList size.now primary.now }
{
    primary.len() <= PRIMARY_MAX
        && primary.len() <= usize::from(size.reserved)
        && ascends_within(MAP_SECTORS, size.total(), primary)
}

fn ascends_within(low: u32, high: u32, sectors: &[Psn]) -> bool
    ensures { IsTrue result ↔ AscendsWithin low high sectors.now }
{
    let mut from = low;
    for p in sectors {
        if p.0 < from || p.0 >= high {
            return false;
        }
        from = p.0 + 1;
    }
    true
}

pub fn is_grown_list(size: &Size, primary: &[Psn], grown: &[Pair]) -> bool
    requires { IsPrimaryList size.now primary.now }
    ensures { IsTrue result ↔ IsGrownList size.now primary.now grown.now }
{
    grown.len() <= PAIRS_MAX
        && grown.iter().all(|pair| is_pair(size, primary, pair))
        && have_own_spares(grown)
}

fn is_pair(size: &Size, primary: &[Psn], pair: &Pair) -> bool
    requires { IsPrimaryList size.now primary.now }
    ensures { IsTrue result ↔ IsPair size.now primary.now pair.now }
{
    MAP_SECTORS <= pair.old.0 && pair.old.0 < size.total() && is_spare(pair.new, size, primary)
}

fn have_own_spares(pairs: &[Pair]) -> bool
    ensures { IsTrue result ↔ AllPairs HaveOwnSpares pairs.now }
{
    for (i, pair) in pairs.iter().enumerate() {
        if has_spare(&pairs[..i], pair.new) {
            return false;
        }
    }
    true
}

fn has_spare(pairs: &[Pair], spare: Psn) -> bool
    ensures { result ≡ list_any (λ pair. pair.new.0 == spare.0) pairs.now }
{
    pairs.iter().any(|pair| pair.new.0 == spare.0)
}
