//! The command `list`: the micro-operations of a trace and the states that a crash may leave, as
//! plain lines, or as JSON. Options add the trace's line of each micro-operation, which states have
//! equal trees, and the states of further families of sets.
#![tactic(auto)]

mod additions;
mod entries;
mod json;
mod json_listing;
mod lines;
mod listing;
mod marked_listing;
mod paths;
mod printed;
mod profiles;
mod text;
mod tree_paths;

pub use cs_options::ListOptions;
pub use lines::lines_of;
pub use listing::{list_of, list_to, list_with};
pub use printed::{OpLine, Origin, StateLine};
