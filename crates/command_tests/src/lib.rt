//! Tests of the types that every layer shares, and of commands: what a block asks for, sense data, pages, the set, and what comes next.
#![tactic(auto)]

#[cfg(test)]
mod cdb_reader_tests;
#[cfg(test)]
mod command_engine_tests;
#[cfg(test)]
mod disk_base_tests;
#[cfg(test)]
mod inquiry_data_tests;
#[cfg(test)]
mod mode_pages_tests;
#[cfg(test)]
mod reservations_tests;
#[cfg(test)]
mod scan_log_tests;
#[cfg(test)]
mod scanner_core_tests;
#[cfg(test)]
mod sense_data_tests;
#[cfg(test)]
mod task_set_tests;
