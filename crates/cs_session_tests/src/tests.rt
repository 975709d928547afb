//! Messages as bytes, a connection's fids, and connections over streams, hostile ones too.

mod asking;
mod connections;
mod copies;
mod failing;
mod fake_port;
mod fids;
mod framing;
mod lone_run;
mod messages;
mod streams;
