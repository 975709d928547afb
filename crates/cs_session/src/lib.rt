//! A connection of a client, from the bytes of its messages to the bytes of its replies. Each
//! message is a few steps, and each step asks the connection's port at most one question. The laws
//! of these steps are here too. The ports themselves are in the crates that keep runs.
#![tactic(auto)]

mod answering;
mod attaching;
mod awaited;
pub mod clock;
mod closing;
mod fid_changes;
pub mod laws;
pub mod message;
mod opening;
pub mod port;
mod question;
pub mod reading;
mod receiving;
mod removing;
pub mod reply;
pub mod serving;
pub mod session;
mod stating;
mod versions;
mod walking;
mod writing;

pub use clock::Clock;
pub use cs_permit::{FindFault, PassFault};
pub use laws::{calls_are_of_their_fids, message_is_steps, own_denials_are_the_first_rule};
pub use message::{
    AttachMessage, CallMessage, CreateMessage, Message, OpenMessage, ReadMessage, TableStep,
    WalkMessage, WriteMessage, WstatMessage,
};
pub use port::Port;
pub use reply::Reply;
pub use serving::{ServeFault, serve_stream};
pub use session::Session;
