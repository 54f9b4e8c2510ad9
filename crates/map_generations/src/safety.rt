//! Laws on the sectors of the maps. Where what is meant there is safe for a kept pair of maps, recovery takes no map but
//! a kept one, whichever sectors can be read. The other laws say how writes keep it so, one by one, through a commit,
//! which writes the next map to one slot, and through a recovery, which writes the map that it took to both. No function
//! here does anything: what counts is its clause, whose words stand in specs/.
ghost use Rattle.map_generations.specs.SafetyLaws.{RecoveryTakesKeptMaps, OneSlotIsWorn, RecoveryTakesThePresentMap};
ghost use Rattle.map_generations.specs.SafetyLaws.{PresentMapsAreTaken, PresentMapsMayBeTaken, TakenNumbersAreSmall};
ghost use Rattle.map_generations.specs.SafetyLaws.{PresentMapsAreSafe, PresentMapsAreSafeAlone, PairsMayGrow};
ghost use Rattle.map_generations.specs.SafetyLaws.{CommitsBegin, RecoveriesBegin, RecoveriesGoOn};
ghost use Rattle.map_generations.specs.SafetyLaws.{WritesKeepMapsSafe, TornWritesKeepMapsSafe, RecordsStand, OtherSlotsStand};
ghost use Rattle.map_generations.specs.SafetyLaws.{WrittenMapsArePresent, CommitsStaySafe, RecoveriesStaySafe};
ghost use Rattle.map_generations.specs.SafetyLaws.{SafetyIsByPlace, RecordsHaveOwnSectors};
ghost use Rattle.map_generations.specs.SafetyLaws.{TakenNumbersAreMeant, WritesKeepNumbers, NumbersAreByPlace};

/// Where the maps are safe, recovery takes a kept map, whichever sectors can be read.
pub fn recovery_takes_kept_maps()
    ensures { RecoveryTakesKeptMaps }
{}

/// Where the maps are safe, the slot that isn't worn carries no stale number.
pub fn one_slot_is_worn()
    ensures { OneSlotIsWorn }
{}

/// Where a map is present, recovery takes no other, its number and slot included.
pub fn recovery_takes_the_present_map()
    ensures { RecoveryTakesThePresentMap }
{}

/// Where a map is present and in use, the rule takes it from what is meant.
pub fn present_maps_are_taken()
    ensures { PresentMapsAreTaken }
{}

/// And recovery may take it, where its number is below 2^63.
pub fn present_maps_may_be_taken()
    ensures { PresentMapsMayBeTaken }
{}

/// Recovery takes no number from 2^63 up, so there is room for what it adds.
pub fn taken_numbers_are_small()
    ensures { TakenNumbersAreSmall }
{}

/// A map that may be taken has a number that is meant: it is at most what all those are.
pub fn taken_numbers_are_meant()
    ensures { TakenNumbersAreMeant }
{}

/// A write of a record of a map, whole or cut off, brings no greater number than the map's.
pub fn writes_keep_numbers()
    ensures { WritesKeepNumbers }
{}

/// A present map is safe in each pair that keeps it, whatever is kept beside it.
pub fn present_maps_are_safe()
    ensures { PresentMapsAreSafe }
{}

/// A present map alone is safe. So the map before it may go at the end of a commit, and at the end of a recovery all but
/// the map that was taken.
pub fn present_maps_are_safe_alone()
    ensures { PresentMapsAreSafeAlone }
{}

/// A pair may gain a map where it has none for that number.
pub fn pairs_may_grow()
    ensures { PairsMayGrow }
{}

/// A commit may begin where a map is present: with the next map kept beside it, that map may be written.
pub fn commits_begin()
    ensures { CommitsBegin }
{}

/// A recovery may begin with a map that was taken: it may be written to the other slot, with two more as its number.
pub fn recoveries_begin()
    ensures { RecoveriesBegin }
{}

/// A recovery goes on: the same map may be written to its own slot, with two more again.
pub fn recoveries_go_on()
    ensures { RecoveriesGoOn }
{}

/// A write of a record of a map that may be written keeps the maps safe, and the next may follow.
pub fn writes_keep_maps_safe()
    ensures { WritesKeepMapsSafe }
{}

/// So does one that is cut off, whether it leaves the old, the new or nothing.
pub fn torn_writes_keep_maps_safe()
    ensures { TornWritesKeepMapsSafe }
{}

/// A write of the next record of a map leaves those before it, and one more stands.
pub fn records_stand()
    ensures { RecordsStand }
{}

/// And it leaves the records of a map in the other slot.
pub fn other_slots_stand()
    ensures { OtherSlotsStand }
{}

/// A map is present when it is written after an older one, each whole and to a slot of its own: so a factory's second.
pub fn written_maps_are_present()
    ensures { WrittenMapsArePresent }
{}

/// A commit, whole: the maps are safe at each moment, and in the end the next map is present.
pub fn commits_stay_safe()
    ensures { CommitsStaySafe }
{}

/// A recovery, whole: the maps are safe at each moment, and in the end the map that was taken is present.
pub fn recoveries_stay_safe()
    ensures { RecoveriesStaySafe }
{}

/// Only what is meant on the sixteen sectors of the maps counts: where it is the same, as after the write of a block, the
/// maps are as safe, and the same map is present.
pub fn safety_is_by_place()
    ensures { SafetyIsByPlace }
{}

/// So are the numbers.
pub fn numbers_are_by_place()
    ensures { NumbersAreByPlace }
{}

/// The sixteen records have sectors of their own.
pub fn records_have_own_sectors()
    ensures { RecordsHaveOwnSectors }
{}
