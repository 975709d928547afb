//! The conditions of a store's calls as tests of a tree, for crates that test stores.
#![tactic(auto)]

mod allowed;

pub use allowed::{
    can_leave, has_bytes, takes_changes, takes_entries, takes_length, takes_mode, takes_name,
};
