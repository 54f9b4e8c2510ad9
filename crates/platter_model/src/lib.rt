//! The platter: sectors that samples are written to and read from, with damage, write faults and power cuts. It is its list of
//! operations: what a sector gives is read off that list.
#![tactic(auto)]

mod answer;
mod damage;
mod flaws;
mod found;
mod kept;
mod law;
mod op;
mod platter;
mod sector;
mod trying;
mod world;

pub use answer::WriteAnswer;
pub use damage::{Arming, Attempt, Damage, Effect, Lasting, Left, Tear};
pub use law::{nothing_is_read_where_nothing_is_meant, sectors_give_one_thing};
pub use op::{Op, Ops};
pub use platter::Platter;
pub use world::World;
