//! Which states of a plan have equal trees. First their digests are compared (modules digests,
//! entries, contents), then what their micro-operations leave in slots and files (parts, leaving),
//! and at last whole trees (trees). Each error here is that memory ran out; then what the call had
//! made is dropped, and what it was given can still be used, unless its comment says otherwise. In
//! comments, a file may be a symbolic link, and `members` has for each micro-operation whether a
//! state has it.
#![tactic(auto)]

mod changes;
mod contents;
mod differing;
mod digests;
mod entries;
mod leaving;
mod members;
pub mod metadata;
mod mixing;
mod pairs;
mod parts;
mod reaching;
mod slots;
pub mod starts;
pub mod states;
mod touched;
pub mod trees;
mod windows;

pub use parts::Parts;
pub use reaching::changed_file;
pub use states::{are_same_states, are_seen_same, first_same};
pub use trees::are_same_trees;
