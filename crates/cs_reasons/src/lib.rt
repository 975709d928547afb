//! Why a command ended with a fault, in words: what more can be said of a line of the trace, of the
//! plan, of a pick, or of the number of a state.
#![tactic(auto)]

mod line_reason;
mod pick_reason;
mod reason;

pub use reason::explain;
