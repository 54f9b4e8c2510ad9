//! Tests of pictures of turns.
#![tactic(auto)]

#[cfg(test)]
mod run_picture_tests;
