//! The faults of the command.
use cs_every::EveryFault;
use cs_inputs::ProgramFault;
use thiserror::Error;

/// Why the command ends with status 1. Its text follows `crashfs: ` on standard error.
#[derive(Debug, Drop, Error)]
pub(crate) enum CommandFault {
    /// No scene could be made: memory ran out, the trace is at fault, or it has no plan of states.
    #[error("{0}")]
    Inputs(#[from] ProgramFault),
    /// The trace's version has no such profile.
    #[error("no such profile")]
    NoProfile,
    /// Not all that was asked for is printed.
    #[error("{0}")]
    Sets(#[from] EveryFault),
}
