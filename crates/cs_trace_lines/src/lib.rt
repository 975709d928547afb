//! Reads one line of a trace by itself: its JSON, its keys and the form of their values, as
//! docs/reference/trace.md describes them. Whether its names are legal, and whether it fits the
//! lines before it, is checked in cs_trace. After a fault nothing is left of the line.
#![tactic(auto)]

mod digits;
pub mod fault;
mod fields;
mod header;
pub mod line;
mod operation;
mod parts;
pub mod profile;
pub mod sparse;
mod start;
pub mod values;
mod verb;
pub mod version;

pub use fault::LineFault;
pub use line::{Change, Claims, Line, OperationLine, StartContent, StartLine, is_blank, read_line};
pub use profile::Profile;
pub use sparse::{Part, SparseBytes};
pub use values::TARGET_BYTES;
pub use version::{BlockSize, Version};
