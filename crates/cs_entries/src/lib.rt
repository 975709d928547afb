//! Entries of directories: what an operation does to them, when it is legal, and what a set of
//! operations leaves of them.
#![tactic(auto)]

mod changes;
mod directories;
pub mod entry;
pub mod laws;
pub mod node;
pub mod table;

pub use entry::{DirEntry, Entry};
pub use node::{FileKind, Node};
pub use table::Directories;
