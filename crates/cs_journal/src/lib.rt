//! Runs with journals: a working copy of a tree that several clients change together, with an entry
//! for every call. What a call does to the tree is in cs_run; the lock around a run is in
//! cs_shared_runs.
#![tactic(auto)]

mod auditing;
mod counts;
mod entering;
mod entry;
mod growing;
mod journal;
mod keep_call;
mod kept_call;
pub mod laws;
mod matching;
mod pass;
mod receipt;
mod replaying;
mod room;
mod run;
mod stepping;
mod summary;
mod user_text;
mod written;

pub use auditing::AuditFault;
pub use cs_permit::PassFault;
pub use entry::Entry;
pub use growing::can_grow;
pub use pass::Pass;
pub use receipt::Receipt;
pub use run::Run;
