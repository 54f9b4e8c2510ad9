//! Scripts: what a drive is asked to do, as lines of text. In specs/ stand the spelling of each line, the meaning of a
//! line's words as steps in the order of the refusals, and the meaning of a script as the fold over its lines.
#![tactic(auto)]

mod body;
mod command;
mod damage;
mod digits;
mod fault;
mod form;
mod heading;
mod laws;
mod numbers;
mod phase;
mod printing;
mod read;
mod script;
mod served;
mod standing;
mod weight;
mod why;

pub use laws::{comments_mean_nothing, lines_read_again, scripts_read_again};
pub use printing::{print, put_line, put_world};
pub use read::read_script;
pub use script::{Line, Lines, PRIMARY_MAX, Script};
pub use why::{ScriptFault, Why};
