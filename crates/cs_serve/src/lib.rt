//! The command `serve`: the states that a crash may leave, served over TCP by threads that each
//! serve one connection at a time. What a connection is answered is cs_connection's; here are the
//! sockets, the threads, and what is printed.
//!
//! Most functions have no clause: what they do happens at a socket, a file, a clock or in another
//! thread, of which contracts say little. Tests hold them: tools/tests over loopback, with the
//! built program, and `tests`, with real threads. The clauses say what needs none of these: the
//! lines of the runs, the users that a file spells, and that the states are those of the server's
//! own scene. `serve_streams`, `publish_all` and `publish_into` are public for other programs: no
//! command calls them.
#![tactic(auto)]

mod accepting;
mod address;
mod connection;
mod entrance;
mod for_linux;
mod log;
mod logged;
mod pending;
mod progress;
mod publishing;
mod reloading;
mod serving;
mod site;
mod slots;
mod summary;
mod waiting;
mod wall_clock;

// library surface: no command calls `serve_streams`, `publish_all` or `publish_into`
pub use cs_connection::serve_streams;
pub use cs_inputs::{Inputs, ProgramFault};
pub use cs_options::{Client, Serving};
pub use cs_publish::{PublishAllFault, publish_all, publish_into};
pub use reloading::ReadsFiles;
pub use serving::serve_of;

#[cfg(test)]
mod tests;
