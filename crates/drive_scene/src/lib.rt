//! What a drive promises of each turn: the events that it is told, its answers, and in specs/ what turns and operations come
//! to together, what one turn has to show of its operations, and which turns may come. Nothing here names the drive itself.
#![tactic(auto)]

mod answer;
mod event;
mod in_flight;
mod laws;
mod made;
mod moves;

pub use answer::{Ended, Pick, TurnAnswer, Waiting};
pub use event::{Arrival, Arriving, Event, Holder};
pub use in_flight::{flights_fit, no_flights_are_valid, others_leave_flights, turns_keep_flights};
pub use laws::{
    damage_turns_are_good, destages_are_good, destages_leave_commands, factories_leave_zeros,
    gets_are_halves, halves_are_good, hardens_are_halves, maps_stay, passes_are_halves,
    passes_to_harden_are_halves, puts_are_halves, puts_through_are_halves, still_turns_are_good,
    tries_are_halves,
};
pub use made::Made;
pub use moves::{
    commit_turns_stand, commits_leave_others, commits_may_be_told, flights_are_ready_to_commit,
    flights_stay, moves_are_good, moves_go_on, moves_leave_others,
};
