//! Why a text is no trace.
ghost use Rattle.std.specs.Prelude.{◌≡◌, Some};
ghost use Rattle.cs_trace.specs.Faults.{fault_text, kind_text};
ghost use Rattle.cs_trace.specs.declared.fault.TraceFaultKind.TheVariants.{Memory};

use std::alloc::AllocError;
use std::fmt;

/// What is wrong with a line of a trace. If it has several faults, it is the first in this order,
/// with two exceptions: a link and a rename look up the path `from` first, and then the new path;
/// and for a rename of a directory below itself, BadName comes after NoParent and NotDir.
#[derive(Clone, Copy, Debug, PartialEq, Eq)]
pub enum TraceFaultKind {
    /// No line of the trace's version has this form, or none may have it at this place.
    Syntax,
    /// The operation, or the kind of start line, isn't in the trace's version.
    UnknownOp,
    /// A path, or the name of an owner or a group, isn't legal; or a directory would be renamed to
    /// a path below itself.
    BadName,
    /// Nothing is at the path of a new entry's directory.
    NoParent,
    /// A file or a symbolic link is at a path that must be a directory's: that above a new entry,
    /// that of an rmdir, or that of a directory which a rename of a directory replaces.
    NotDir,
    /// Something is at the path of a new entry.
    Exists,
    /// Nothing is at another path that the line needs.
    Missing,
    /// A directory is at a path that must be a file's; or a symbolic link at one that must be a
    /// regular file's.
    NotFile,
    /// A directory that would be removed or replaced has an entry.
    NotEmpty,
    /// A path of more than TRACE_PATH_NAMES names, more than TREE_RECORDS records, a file of more
    /// than `most_bytes`, or a say of a text of more than SAY_BYTES bytes.
    TooLarge,
    /// Memory ran out. Then the line may have another fault, which wasn't looked for.
    Memory,
}

impl fmt::Display for TraceFaultKind {
    ghost output = { λ kind. Some (kind_text kind) };

    /// Prints the kind's name; Memory is `out of memory`.
    fn fmt<W: fmt::Write>(&self, f: &mut fmt::Formatter<W>) -> fmt::Result {
        f.write_str(match self {
            TraceFaultKind::Syntax => "Syntax",
            TraceFaultKind::UnknownOp => "UnknownOp",
            TraceFaultKind::BadName => "BadName",
            TraceFaultKind::NoParent => "NoParent",
            TraceFaultKind::NotDir => "NotDir",
            TraceFaultKind::Exists => "Exists",
            TraceFaultKind::Missing => "Missing",
            TraceFaultKind::NotFile => "NotFile",
            TraceFaultKind::NotEmpty => "NotEmpty",
            TraceFaultKind::TooLarge => "TooLarge",
            TraceFaultKind::Memory => "out of memory",
        })
    }
}

impl From<AllocError> for TraceFaultKind {
    ghost from_gives = { λ _ kind. kind ≡ Memory };

    /// A failed allocation is Memory.
    fn from(_refused: AllocError) -> TraceFaultKind {
        TraceFaultKind::Memory
    }
}

/// The first fault of a trace: no line before this one has one.
#[derive(Clone, Copy, Debug, PartialEq, Eq)]
pub struct TraceFault {
    /// The number of the line at fault; the first line has number 1, and blank lines are counted.
    /// If memory ran out, the line that was being read.
    pub line: usize,
    /// What is wrong with it.
    pub kind: TraceFaultKind,
}

impl fmt::Display for TraceFault {
    ghost output = { λ fault. Some (fault_text fault.line fault.kind) };

    /// Prints `trace line N: KIND`, or only `out of memory`.
    fn fmt<W: fmt::Write>(&self, f: &mut fmt::Formatter<W>) -> fmt::Result {
        match self.kind {
            TraceFaultKind::Memory => f.write_str("out of memory"),
            kind => write!(f, "trace line {}: {kind}", self.line),
        }
    }
}

impl std::error::Error for TraceFault {}
