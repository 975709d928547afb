//! The messages of 9P2000 as bytes: one grammar for decoding and encoding, and a buffer that finds
//! the messages in a stream. Whether the server grants a request is decided elsewhere.
#![tactic(auto)]

mod copying;
mod cursor;
mod cutting;
mod display;
mod fault;
mod few;
mod fitting;
mod framer;
mod kind;
mod message;
mod reading;
mod replies;
mod requests;
mod stat;
mod table;
mod writing;

pub use cutting::{any_cutting, what_fits_is_whole};
pub use fault::WireFault;
pub use framer::{FrameFault, Framer};
pub use kind::{RKind, TKind};
pub use message::{Qid, RBody, RMessage, Stat, TBody, TMessage};
pub use reading::{decode_reply, decode_request, one_spelling, what_is_written_is_read};
pub use stat::StatRef;
pub use writing::{encode_reply, encode_request};
