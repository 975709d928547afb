//! No command uses this crate, only tests and users of the library. A tree that no longer changes,
//! read as if nothing had ever changed it: the tree itself, and two tables that translate its
//! numbers.
#![tactic(auto)]

mod lower;
mod numbering;

pub use lower::{Lower, freeze};
