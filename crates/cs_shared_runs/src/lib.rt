//! Runs that threads share, each under its own lock, and their registry under another. No call of
//! this crate holds two locks.
#![tactic(auto)]

mod answering;
mod by_key;
mod locked;
mod look;
mod registry;
mod served;
mod shared_registry;
mod shared_run;

pub use answering::AnswersCalls;
pub use look::{AuditBy, Look};
pub use registry::{LoadedUsers, Registry};
pub use served::{AnyScene, ServerBrand};
pub use shared_registry::SharedRegistry;
pub use shared_run::SharedRun;
