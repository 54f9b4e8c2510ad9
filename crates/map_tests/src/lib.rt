//! Tests of places, records of the map, the cache, moves, and the moves in flight.
#![tactic(auto)]

#[cfg(test)]
mod defect_lists_tests;
#[cfg(test)]
mod geometry_map_tests;
#[cfg(test)]
mod map_generations_tests;
#[cfg(test)]
mod move_jobs_tests;
#[cfg(test)]
mod move_table_tests;
#[cfg(test)]
mod write_cache_tests;
