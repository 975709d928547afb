//! The model of application persistence (APM): which micro-operation of a trace needs which, which
//! sets have all that their members need, and the tree that each of these sets leaves. The rules
//! have the numbers P1 to P13 of docs/MODEL.md. Each error here is that memory ran out; what the
//! call had made is then dropped.
#![tactic(auto)]

pub mod content;
mod files;
mod flags;
mod found;
mod held;
mod homes;
pub mod laws;
mod logs;
pub mod making;
mod makings;
pub mod order;
pub mod owners;
mod places;
pub mod profiles;
mod rights;
mod rows;
mod rules;
pub mod slot;
mod start;
pub mod state;
mod steps;
pub mod tables;
mod touching;
pub mod walk;

pub use cs_sets::Order;
pub use order::{order_by, order_of};
pub use profiles::may_be_left;
pub use rules::{is_covered, is_first_half};
pub use state::build;
