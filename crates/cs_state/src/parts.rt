//! A trace with all that its states share. (The parts of cs_same_states are other things.)

use crate::file_steps::FileSteps;
use crate::owner_steps::OwnerSteps;
use crate::shares::Shares;
use cs_apm::tables::Tables;
use cs_micro::Micros;
use cs_trace::Trace;

/// A trace with what is computed once for all its states. Nothing changes it afterwards. Functions
/// that take it ask in `requires` (`AreParts`) that the rest is computed from the trace.
#[derive(Drop)]
pub struct Parts {
    /// The trace, from which all the rest is computed.
    pub trace: Trace,
    /// Its micro-operations and sync points.
    pub micros: Micros,
    /// Its tables: what each entry holds at the start, what each micro-operation does there, and
    /// more.
    pub tables: Tables,
    /// The orders of paths, and at which ids every state has the same.
    pub shares: Shares,
    /// For each file, by its number, the places of the micro-operations that change it.
    pub steps: Vec<FileSteps>,
    /// The places of the micro-operations that set the owner, group and permissions of files and
    /// directories.
    pub owner_steps: OwnerSteps,
}
