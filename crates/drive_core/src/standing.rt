//! What holds of every store and of every task set.
ghost use Rattle.std.specs.Prelude.{◌≡◌, ◌^◌, ◌<◌, true};
ghost use Rattle.sector_store.specs.Maps.{MayBeRecovered};
ghost use Rattle.sector_store.specs.State.{IsStore};
ghost use Rattle.sector_store.specs.Stored.{KeepsBlocks};
ghost use Rattle.task_set.specs.Members.{IsByAge};

use map_generations::present_maps_may_be_taken;
use sector_store::{Store, recovery_finds_what_is_stored};
use task_set::TaskSet;

/// It keeps its maps. While it is ready, its map is there, recovery may take it, and whatever recovery takes has the values that are
/// stored by it.
pub fn stands(store: &Store)
    ensures there { IsStore store.now }
    ensures finds { store.now.ready ≡ true → KeepsBlocks store.now.map store.now.platter.ops store.now.platter.ops }
    ensures may { store.now.ready ≡ true → store.now.map.number < 2 ^ 63
        → MayBeRecovered store.now.map.size store.now.platter.ops store.now.map }
{
    store.stands();
    present_maps_may_be_taken();
    recovery_finds_what_is_stored();
}

/// Its commands are by age, so each has a number of its own.
pub fn stands_by_age(set: &TaskSet)
    ensures { IsByAge set.now }
{
    set.members();
}
