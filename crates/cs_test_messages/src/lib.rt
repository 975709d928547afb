//! Messages by their words, as bytes: for tests.
#![tactic(auto)]

mod asking;

pub use asking::message_of;
