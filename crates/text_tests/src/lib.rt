//! Tests of sources and sinks, scripts and reports.
#![tactic(auto)]

#[cfg(test)]
mod outside_tests;
#[cfg(test)]
mod report_text_tests;
#[cfg(test)]
mod script_text_tests;
#[cfg(test)]
mod text_words_tests;
