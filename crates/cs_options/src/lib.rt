//! What a command line can ask for, as plain data: the options of each command. The words are read
//! in cs_command_line; each command takes its own options.
#![tactic(auto)]

mod ask;
mod list;
mod picks;
mod serve;
mod tar;

pub use ask::{Ask, Job, Wanted};
pub use list::ListOptions;
pub use picks::{PicksOptions, ProfileName, Sample};
pub use serve::{Client, Serving};
pub use tar::{StateRange, States, TarOptions};
