//! Tests of whole runs.
#![tactic(auto)]

#[cfg(test)]
mod script_runner_order_tests;
#[cfg(test)]
mod script_runner_report_tests;
#[cfg(test)]
mod script_runner_tests;
