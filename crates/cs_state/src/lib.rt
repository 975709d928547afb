//! The crash states of a trace, as stores that share what all of them have. A state itself has only
//! the members of its set, and what is in the entries that some micro-operation touches. Each error
//! here is that memory ran out; what the call had made is then dropped, and nothing else changes.
//!
//! Places and ids: the **place** of an entry is among all entries of the trace, which are in the
//! order of their directories' numbers and then of names. Its **id** is its place, from 1, in the
//! order of the paths that all entries have in a state; the root has the id 0. The **number** of a
//! file or directory counts only what a state has, in the order of paths, from 0, the root.
#![tactic(auto)]

pub mod atlas;
mod building;
mod bytes;
pub mod file_part;
mod file_steps;
mod kept_ids;
mod marks;
mod members;
mod names;
mod numbers;
mod owner_steps;
mod parts;
mod reading;
mod shares;
mod state;
pub mod state_tree;

pub use atlas::{Atlas, Built};
pub use state_tree::StateTree;
