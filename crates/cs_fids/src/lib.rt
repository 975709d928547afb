//! The fids of a connection by their numbers (intro(5)). The state of a fid is a type: one that was
//! attached or walked to, and one that is open.
#![tactic(auto)]

mod entry;
mod fault;
mod fid;
mod opens;
mod place;
mod slot;
mod table;

pub use entry::FidEntry;
pub use fault::FidFault;
pub use fid::{Fid, NOFID, Opened, Walked};
pub use place::Place;
pub use table::FidTable;
