//! Connections that are served at the same time, over runs that their threads share. One connection
//! is in `connection`, the threads of `serve_streams`, which no command calls, are in `streams`;
//! `crashfs serve` has its own threads. What a connection answers is in cs_session.
#![tactic(auto)]

mod connection;
mod given;
mod kept;
mod port;
mod server;
mod streams;

pub use connection::{Connection, serve_connection};
pub use given::GivenPasses;
pub use kept::{ConnectionRuns, GivenPass};
pub use port::SharedPort;
pub use server::Server;
pub use streams::serve_streams;
