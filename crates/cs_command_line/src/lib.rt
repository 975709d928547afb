//! The command line: its commands and options, and what its words ask for.
#![tactic(auto)]

mod command_line;
mod commands;
mod version;

pub use command_line::ask_of;
