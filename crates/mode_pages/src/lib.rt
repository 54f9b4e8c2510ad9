//! Mode parameters: the drive's settings, their mode pages, and the bytes that MODE SENSE gives and MODE SELECT takes
//! (SPC-4, mode parameters). The pages are Read-Write Error Recovery, Caching and Background Control (SBC-3).
#![tactic(auto)]

mod flags;
mod laws;
mod page;
mod request;
mod selecting;
mod sensing;
mod settings;

pub use laws::what_is_shown_is_taken_without_a_change;
pub use request::ModeRequest;
pub use selecting::select;
pub use sensing::{MODE_DATA_MAX, sense};
pub use settings::Settings;
