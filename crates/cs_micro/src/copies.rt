//! Copies of parts of a trace's operations, for its micro-operations and sync points.
//! An error is that memory ran out for a path.
ghost use Rattle.std.specs.Prelude.{◌≡◌, IfOk};

use cs_trace::{Covers, Target};
use std::alloc::{AllocError, Global};

/// A copy of the target of a chmod or a chown. Only that of a directory allocates, for its path.
pub fn copy_target(alloc: Global, target: &Target) -> Result<Target, AllocError>
    ensures { IfOk result (λ copy. copy ≡ target.now) }
{
    match target {
        Target::File(file) => Ok(Target::File(*file)),
        Target::Directory { number, path } => Ok(Target::Directory {
            number: *number,
            path: path.try_clone(alloc)?,
        }),
    }
}

/// A copy of what a sync covers. Only that of a directory allocates, for its path.
pub fn copy_covers(alloc: Global, covers: &Covers) -> Result<Covers, AllocError>
    ensures { IfOk result (λ copy. copy ≡ covers.now) }
{
    match covers {
        Covers::All => Ok(Covers::All),
        Covers::File(file) => Ok(Covers::File(*file)),
        Covers::Data(file) => Ok(Covers::Data(*file)),
        Covers::Range {
            file,
            offset,
            length,
        } => Ok(Covers::Range {
            file: *file,
            offset: *offset,
            length: *length,
        }),
        Covers::Directory { number, path } => Ok(Covers::Directory {
            number: *number,
            path: path.try_clone(alloc)?,
        }),
    }
}
