//! A tree that changes, over a lower one that is shared and never changes. It stores only what
//! differs: a node for each file that changed, and in it the file's blocks, or the directory's
//! answers for names, that changed.
#![tactic(auto)]

mod answers;
mod block;
mod entry;
mod growing;
pub mod laws;
mod listing;
mod node;
mod overlay;
mod patched;
mod reading;
mod table;
mod writing;

pub use overlay::Overlay;
