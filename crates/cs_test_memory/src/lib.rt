//! Memory that runs out at a place that is chosen: for tests of what a call does when one of its
//! growths is refused.
#![tactic(auto)]

mod hoard;
mod sweeping;

pub use hoard::{GAP, Hoard};
pub use sweeping::{End, Look, Subject, SweepFault, sweep};
