//! Persistent reservations, judged at a desk in front of the drive (SPC-4, reservations): of each command that arrives,
//! whether it is admitted, or how it is answered and by which rule. In specs/ stand the rules, and what users may
//! count on over any list of arrivals and power cuts.
#![tactic(auto)]

mod acting;
mod conflict;
mod desk;
mod laws;
mod request;
mod showing;
mod state;
mod verdict;

pub use desk::Desk;
pub use laws::{
    asking_changes_nothing, holders_are_registered, keys_are_their_own, others_are_kept_out,
    reservations_are_their_own, the_desk_is_shown,
};
pub use state::{Holder, State};
pub use verdict::{PAGE_LENGTH_MAX, Rule, Verdict};
