//! The map of a drive's defects on its first sixteen sectors, in two slots of two copies each: what its records carry, which map
//! recovery takes from what the sectors read as, and when the map is corrupt. In specs/ stand the bytes of a record, field by
//! field, and the rule of recovery.
#![tactic(auto)]

mod reading;
mod record;
mod recovery;
mod safety;

pub use record::{
    COPIES, IN_USE, MAP_RECORDS, RECORD_VERSION, map_record, maps_are_told, records_tell_maps,
};
pub use recovery::{Decision, MapReads, decide, decisions_agree, written_slots_are_complete};
pub use safety::{
    commits_begin, commits_stay_safe, numbers_are_by_place, one_slot_is_worn, other_slots_stand,
    pairs_may_grow, present_maps_are_safe, present_maps_are_safe_alone, present_maps_are_taken,
    present_maps_may_be_taken, records_have_own_sectors, records_stand, recoveries_begin,
    recoveries_go_on, recoveries_stay_safe, recovery_takes_kept_maps,
    recovery_takes_the_present_map, safety_is_by_place, taken_numbers_are_meant,
    taken_numbers_are_small, torn_writes_keep_maps_safe, writes_keep_maps_safe,
    writes_keep_numbers, written_maps_are_present,
};
