//! Tests of the codes of the channel, of a sector's path, and of the platter.
#![tactic(auto)]

#[cfg(test)]
mod channel_path_tests;
#[cfg(test)]
mod platter_model_tests;
#[cfg(test)]
mod prml_viterbi_tests;
#[cfg(test)]
mod read_recovery_tests;
#[cfg(test)]
mod rll_code_tests;
#[cfg(test)]
mod rs_sector_tests;
#[cfg(test)]
mod second_decoder;
