//! Why not all of an archive is written, and why the command fails.
ghost use Rattle.std.specs.Prelude.{◌≡◌};
ghost use Rattle.cs_tar_states.specs.Faults.{of_writing};

use cs_inputs::ProgramFault;
use cs_tar::TarFault;
use thiserror::Error;

/// Why not all of an archive is written.
#[derive(Clone, Copy, Debug, PartialEq, Eq, Error)]
pub enum ArchiveFault {
    /// One of the states is past the plan's end.
    #[error("no such state")]
    NoSuchState,
    /// Memory ran out.
    #[error("out of memory")]
    Memory,
    /// A write failed, took no byte, or was interrupted 1,000 times in a row, or the flush failed.
    #[error("output failed")]
    Output,
}

impl From<TarFault> for ArchiveFault {
    ghost from_gives = { λ given fault. fault ≡ of_writing given };

    /// The fault of the same name.
    fn from(fault: TarFault) -> ArchiveFault {
        match fault {
            TarFault::Memory => ArchiveFault::Memory,
            TarFault::Output => ArchiveFault::Output,
        }
    }
}

/// Why the command ends with status 1. Its text comes after `crashfs: ` on standard error.
#[derive(Debug, Drop, Error)]
pub(crate) enum CommandFault {
    /// No scene could be made: memory ran out, the trace or the picks are at fault, or there is no
    /// plan of states.
    #[error("{0}")]
    Inputs(#[from] ProgramFault),
    /// Not all of the archive is written.
    #[error("{0}")]
    Archive(#[from] ArchiveFault),
}
