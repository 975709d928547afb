//! Streams of bytes that count their calls, and `write_all`, which writes all bytes or fails.
#![tactic(auto)]

pub mod counted;
pub mod stream;

pub use counted::{Counted, TwoEnded};
pub use stream::{Counts, Stream, Transfer, WriteFault, write_all};
