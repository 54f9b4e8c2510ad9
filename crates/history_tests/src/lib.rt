//! Tests of histories and of what a script allows.
#![tactic(auto)]

#[cfg(test)]
mod history_checker_tests;
#[cfg(test)]
mod history_replay_history_tests;
#[cfg(test)]
mod history_replay_tests;
