//! Connections of many threads over shared runs, streams that fail, and a world's steps: what no
//! command shows.

mod audits;
mod bounds;
mod commands;
mod looking;
mod ports;
mod returns;
mod server;
mod stepping;
mod steps;
