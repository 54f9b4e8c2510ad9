//! The path of a sector through the channel: a payload to samples and samples to a payload, over the Reed-Solomon code, the
//! run-length-limited code and the detector.
#![tactic(auto)]

mod law;
mod reading;
mod writing;

pub use law::{payloads_have_one_encoding, reading_inverts_writing, zero_samples_read_as_nothing};
pub use reading::{Path, read_samples};
pub use writing::{SAMPLES, write_samples};
