//! Why bytes aren't a users file.
ghost use Rattle.std.specs.Prelude.{◌≡◌, Some};
ghost use Rattle.cs_users.specs.Faults.{fault_text};
ghost use Rattle.cs_users.specs.declared.fault.UsersFault.TheVariants.{Memory};

use std::alloc::{AllocError, AllocFailed};
use std::fmt;

/// Why bytes were not read as a users file: their first fault, or Memory if they have none and
/// there is no memory for the users. A number is that of the line: lines count from 1, and skipped
/// lines count too.
#[derive(Clone, Copy, Debug, PartialEq, Eq)]
pub enum UsersFault {
    /// The bytes are not UTF-8, or have a NUL.
    NotText,
    /// The line hasn't exactly four fields, with three colons between them.
    FieldCount(usize),
    /// The name on the line is empty.
    EmptyName(usize),
    /// The name on the line is longer than USER_NAME_BYTES bytes.
    LongName(usize),
    /// An earlier line has the same name; the number is that of the later line.
    Twice(usize),
    /// Out of memory; the file itself has no fault.
    Memory,
}

impl fmt::Display for UsersFault {
    ghost output = { λ fault. Some (fault_text fault) };

    /// Writes `users line 3: Twice` or the like; NotText has no line, and Memory is `out of
    /// memory`.
    fn fmt<W: fmt::Write>(&self, f: &mut fmt::Formatter<W>) -> fmt::Result {
        match self {
            UsersFault::NotText => f.write_str("users: NotText"),
            UsersFault::FieldCount(line) => write!(f, "users line {line}: FieldCount"),
            UsersFault::EmptyName(line) => write!(f, "users line {line}: EmptyName"),
            UsersFault::LongName(line) => write!(f, "users line {line}: LongName"),
            UsersFault::Twice(line) => write!(f, "users line {line}: Twice"),
            UsersFault::Memory => f.write_str("out of memory"),
        }
    }
}

impl std::error::Error for UsersFault {}

impl From<AllocError> for UsersFault {
    ghost from_gives = { λ _ fault. fault ≡ Memory };

    /// Memory, since a failed allocation says nothing about the file.
    fn from(_refused: AllocError) -> UsersFault {
        UsersFault::Memory
    }
}

impl<T: Drop> From<AllocFailed<T>> for UsersFault {
    ghost from_gives = { λ _ fault. fault ≡ Memory };

    /// Memory. The value that the failed call gave back is dropped.
    fn from(_refused: AllocFailed<T>) -> UsersFault {
        UsersFault::Memory
    }
}
