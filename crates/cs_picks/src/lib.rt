//! The command `picks`: sets of a trace's micro-operations that a crash may leave, as lines of a
//! picks file. They are families of sets, all sets, those of all that leave different states, sets
//! drawn at random, or only how many there are.
#![tactic(auto)]

mod changes;
mod command;
pub mod covering;
mod different;
mod family;
mod fault;
mod files;
mod left;
mod losses;
mod lost;
mod sets;
mod under;

pub use command::picks_of;
pub use cs_trace::Profile;
pub use family::{Family, write_family};
pub use lost::least_with;
pub use sets::{PickSets, write_sets};
