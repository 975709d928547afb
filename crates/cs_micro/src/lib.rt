//! The operations of a trace, broken into micro-operations: steps that reach the disk whole or not
//! at all. docs/MODEL.md, "Micro-operations", has the table. Each error but TooMany is that memory
//! ran out; what was made so far is then dropped.
#![tactic(auto)]

mod attributes;
mod blocks;
mod breaking;
mod copies;
mod counting;
pub mod fault;
pub mod laws;
pub mod micro_op;
pub mod micros;
mod moving;
pub mod pages;
mod resizing;
mod starts;
pub mod sync_point;

pub use blocks::blocks_make_up_a_write;
pub use counting::micro_count;
pub use fault::MicroFault;
pub use micro_op::MicroOp;
pub use micros::{Micros, break_up};
pub use sync_point::SyncPoint;
