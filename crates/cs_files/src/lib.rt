//! The files that the command line names, read, and standard output with the fault of its writes.
#![tactic(auto)]

mod files;
mod output;
mod users;

pub use files::{FAULT, InputFiles, out_of_memory};
pub use output::Output;
pub use users::users_of_trace;
