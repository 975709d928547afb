//! The command `tar`: the trees of crash states, written as one archive. The form of an archive is
//! in cs_tar, and the command line is read in cs_command_line.
#![tactic(auto)]

mod command;
mod fault;
mod states;

pub use command::tar_of;
pub use cs_options::{StateRange, States};
pub use fault::ArchiveFault;
pub use states::write_states;
