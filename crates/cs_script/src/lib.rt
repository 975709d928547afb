//! The command `script`: the messages that a script's connections send, one a line, answered by a
//! world in which all states of a trace are published.
#![tactic(auto)]

mod printing;
mod program;
mod publishing;
mod reading;
mod running;
mod script;

pub use program::{script_of, script_over, script_with};
pub use publishing::world_of;
