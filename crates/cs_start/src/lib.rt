//! How the files, symbolic links and directories at the start of a trace are kept: by their paths,
//! in the order of the paths. What operations do to them is in cs_trace. Here an entry is what the
//! start has at a path (`StartEntry`); an entry of cs_entries, a directory with a name, is another
//! thing. Each error is that memory ran out; the reader of the trace then drops all that it has, so
//! contracts say nothing of what is left, unless a comment does.
#![tactic(auto)]

mod by_path;
pub mod entry;
pub mod last_directory;
pub mod path_text;
pub mod rights;
pub mod shared;
mod siblings;
pub mod start_lists;
pub mod start_map;
pub mod start_records;

pub use entry::StartEntry;
pub use last_directory::LastDirectory;
pub use path_text::PathText;
pub use rights::Rights;
pub use shared::Shared;
pub use start_lists::StartLists;
pub use start_map::StartMap;
pub use start_records::Start;
