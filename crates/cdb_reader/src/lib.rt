//! Command blocks: what a command asks for, or the first reason to refuse it. In specs/ stand the fields of each
//! command and the checks in their order.
#![tactic(auto)]

mod command;
mod fields;
mod operation;
mod pages;
mod plan;
mod reader;
mod reassign;

pub use command::{Command, touch};
pub use plan::{Deed, Moving, Plan, Reading, Syncing, Writing};
pub use reader::read;
