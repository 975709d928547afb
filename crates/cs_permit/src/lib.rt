//! The calls on a run as plain values, and the rules of every call: those that look at a
//! connection's fids, and those that look at a run's tree, its opens and the users. This crate
//! decides about a call, and changes nothing. A user's rights on a file are worked out in cs_users.
#![tactic(auto)]

pub mod call;
pub mod changes;
pub mod fault;
mod first;
pub mod laws;
pub mod mode;
mod read;
pub mod request;
pub mod rules;
pub mod sent_bytes;
pub mod sent_stat;
mod shown;
mod table;
mod tree_name;
mod walk;
mod wstat;

pub use call::{
    AttachCall, Call, CloseCall, CreateCall, OpenCall, OpenFile, ReadCall, RemoveCall, StatCall,
    WalkCall, WriteCall, WstatCall,
};
pub use changes::{new_group, new_length, new_mode, new_mtime, new_name};
pub use fault::{FindFault, PassFault};
pub use first::{failing_rule, first_of_walk, write_start};
pub use read::name_before;
pub use request::Request;
pub use sent_bytes::SentBytes;
pub use sent_stat::SentStat;
pub use shown::{
    entry_size, entry_stat, qid_at, qid_of, qid_or_zeros, shown_length, shown_name, stat_of_file,
    stat_ref,
};
pub use table::first_table_rule;
pub use tree_name::TreeName;
pub use walk::{walk_element, walk_element_at};
