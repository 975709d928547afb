//! Sets of places as lines of a picks file: lists of them, and all sets that an order of places
//! allows, printed, counted, or drawn at random.
#![tactic(auto)]

mod bytes;
mod counted;
mod drawn;
mod fault;
mod line;
mod printed;

pub use counted::{has_more_than, write_count};
pub use drawn::write_sample;
pub use fault::EveryFault;
pub use printed::{write_every, write_pick, write_rows, write_set};
