//! Tests of blocks on their sectors.
#![tactic(auto)]

#[cfg(test)]
mod sector_store_tests;
