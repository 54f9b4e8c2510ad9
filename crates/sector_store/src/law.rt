//! Laws of stores, each the contract of a function that only calls the laws that it rests on.
ghost use Rattle.sector_store.specs.Spares.{SparesAreUserSectors, WritesToSparesKeepBlocks};
ghost use Rattle.sector_store.specs.Commits.{CommitOpsStaySafe, RecoveryOpsStaySafe, RewrittenMapsArePresent};
ghost use Rattle.sector_store.specs.Histories.{RecoveriesTakeLastMaps};
ghost use Rattle.sector_store.specs.Laws.{FactoryMapsAreThere, FactoryPayloadsAreOnSectors, FactoryStoresKeepMaps, PresentMapsAreThere, QuietOpsKeepBlocks, QuietOpsKeepMaps, RecoveryFindsWhatIsStored, TriesFindWhatIsStored, WritesStoreOneBlock};

use geometry_map::{
    blocks_are_at_user_sectors, no_block_is_at_a_free_spare, two_blocks_are_never_at_one_sector,
};
use map_generations::{
    commits_stay_safe, present_maps_are_safe_alone, present_maps_are_taken, recoveries_stay_safe,
    recovery_takes_kept_maps, recovery_takes_the_present_map, safety_is_by_place,
    torn_writes_keep_maps_safe, written_maps_are_present,
};

/// Where a map is there, each map that recovery may take has its values for all blocks. So what stands can be read off the map
/// that is there.
pub fn recovery_finds_what_is_stored()
    ensures { RecoveryFindsWhatIsStored }
{
    recovery_takes_the_present_map();
}

/// A valid map that is present and in use is there.
pub fn present_maps_are_there()
    ensures { PresentMapsAreThere }
{
    present_maps_are_safe_alone();
    present_maps_are_taken();
}

/// Operations that change nothing of what is meant, as damage, faults, cuts and tries, leave the map there, and each map that
/// recovery may take has the same values as before.
pub fn quiet_operations_keep_blocks()
    ensures { QuietOpsKeepBlocks }
{
    present_maps_are_safe_alone();
    present_maps_are_taken();
    recovery_takes_the_present_map();
    safety_is_by_place();
}

/// Operations that change nothing on the sectors of the maps leave a store with the maps that it keeps, and these safe.
pub fn quiet_operations_keep_maps()
    ensures { QuietOpsKeepMaps }
{
    present_maps_are_safe_alone();
    present_maps_are_taken();
    recovery_takes_the_present_map();
    safety_is_by_place();
}

/// A write of a block's data to its place leaves the map there and the other blocks as they were.
pub fn writes_store_one_block()
    ensures { WritesStoreOneBlock }
{
    blocks_are_at_user_sectors();
    two_blocks_are_never_at_one_sector();
    present_maps_are_safe_alone();
    present_maps_are_taken();
    recovery_takes_the_present_map();
    safety_is_by_place();
}

/// A try that is no stray finds the value that is stored.
pub fn tries_find_what_is_stored()
    ensures { TriesFindWhatIsStored }
{}

/// The map that a factory leaves is there after what it writes.
pub fn factory_maps_are_there()
    ensures { FactoryMapsAreThere }
{
    blocks_are_at_user_sectors();
    present_maps_are_safe_alone();
    present_maps_are_taken();
    safety_is_by_place();
    written_maps_are_present();
}

/// A store as a factory makes it keeps its map.
pub fn factory_stores_keep_maps()
    ensures { FactoryStoresKeepMaps }
{
    factory_maps_are_there();
}

/// A factory writes to sectors of the drive alone.
pub fn factory_payloads_are_on_sectors()
    ensures { FactoryPayloadsAreOnSectors }
{
    blocks_are_at_user_sectors();
}

/// The writes of a commit keep the maps safe, wherever a cut ends them, and in the end the next map is present.
pub fn commit_ops_stay_safe()
    ensures { CommitOpsStaySafe }
{
    commits_stay_safe();
    torn_writes_keep_maps_safe();
    safety_is_by_place();
}

/// The writes of a recovery keep the maps safe, wherever a cut ends them, and in the end the map that was taken is present.
pub fn recovery_ops_stay_safe()
    ensures { RecoveryOpsStaySafe }
{
    recoveries_stay_safe();
    torn_writes_keep_maps_safe();
    safety_is_by_place();
}

/// Once all writes of a recovery are there, the map that was taken is present, whatever stood there before.
pub fn rewritten_maps_are_present()
    ensures { RewrittenMapsArePresent }
{
    written_maps_are_present();
    safety_is_by_place();
}

/// Over any number of commits and recoveries, each cut off at any write, and whatever damage comes: a recovery takes the map that
/// was committed last or the one that was being committed as the power went, or it finds the map corrupt; while no try is a stray.
pub fn recoveries_take_last_maps()
    ensures { RecoveriesTakeLastMaps }
{
    recovery_takes_kept_maps();
}

/// A spare is a sector of the drive, past those of the maps.
pub fn spares_are_user_sectors()
    ensures { SparesAreUserSectors }
{}

/// A write to a spare that is in no pair keeps what is stored for each block.
pub fn writes_to_spares_keep_blocks()
    ensures { WritesToSparesKeepBlocks }
{
    no_block_is_at_a_free_spare();
}
