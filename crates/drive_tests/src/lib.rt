//! Tests of the drive's turns.
#![tactic(auto)]

#[cfg(test)]
mod drive_core_turn_tests;
