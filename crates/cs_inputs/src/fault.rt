//! Why the program ends with a fault.
use crate::picks_fault::PicksFault;
use cs_plan::SceneFault;
use cs_trace::TraceFault;
use cs_users::UsersFault;
use thiserror::Error;

/// Why a command ends with status 1. Its text comes after `crashfs: ` on standard error.
#[derive(Debug, Drop, Error)]
pub enum ProgramFault {
    /// The trace isn't UTF-8.
    #[error("trace: NotText")]
    TraceNotText,
    /// A line of the trace is at fault.
    #[error("{0}")]
    Trace(TraceFault),
    /// The users file, or a line of it, is at fault.
    #[error("{0}")]
    Users(UsersFault),
    /// A line of the picks is at fault.
    #[error("{0}")]
    Picks(PicksFault),
    /// No plan of states can be made of the trace and the picks.
    #[error("{0}")]
    Scene(SceneFault),
    /// A line of the script is at fault; lines count from 1.
    #[error("script line {0}: Syntax")]
    Script(usize),
    /// No connection can be accepted at the address.
    #[error("cannot listen")]
    Listen,
    /// Not all states were published.
    #[error("publishing failed")]
    Publishing,
    /// Standard input can't be read to its end.
    #[error("input failed")]
    Input,
    /// Standard output can't be written or flushed.
    #[error("output failed")]
    Output,
    /// An allocation failed.
    #[error("out of memory")]
    Memory,
}
