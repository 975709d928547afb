//! Reads and checks the trace of a storage application: the files, symbolic links and directories
//! at its start, and its operations. docs/reference/trace.md describes the text. How a line is read
//! by itself is in cs_trace_lines; how the start is kept, in cs_start; what the entries of
//! directories hold, in cs_entries. After a fault nothing is left: the caller gets only the fault.
#![tactic(auto)]

mod attributes;
pub mod fault;
mod homes;
mod judge;
mod limits;
mod lines;
mod making;
mod moves;
mod names;
pub mod operation;
mod put_start;
mod renaming;
mod resolve;
mod rights;
mod start;
mod start_entries;
mod state;
pub mod trace;
mod tree;

pub use cs_entries::{DirEntry, FileKind, Node};
pub use cs_start::{Rights, Start};
pub use cs_trace_lines::{BlockSize, Profile, Version};
pub use fault::{TraceFault, TraceFaultKind};
pub use limits::{LARGE_FILE_BYTES, most_bytes};
pub use operation::{Covers, Operation, Target};
pub use trace::{Trace, read_trace};
