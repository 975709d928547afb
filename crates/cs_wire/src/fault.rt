//! Why bytes aren't a message.

ghost use Rattle.std.specs.Prelude.{◌≡◌};
ghost use Rattle.cs_wire.specs.declared.fault.WireFault.TheVariants.{Memory};

use std::alloc::{AllocError, AllocFailed};
use std::fmt;

/// Why bytes aren't a message: the first fault, in the order that `decode_request` gives.
#[derive(Clone, Copy, Debug, PartialEq, Eq)]
pub enum WireFault {
    /// Fewer than 7 bytes, or a field that runs past the end of the message. (Past the end of a
    /// stat's entry it is SizeLies.)
    Short,
    /// The message's size is not the number of its bytes, or a stat's entry is not as long as its
    /// two sizes say.
    SizeLies,
    /// No row of the table has the type's number.
    UnknownType,
    /// A text is not UTF-8, or has a NUL.
    BadText,
    /// The count of a walk's names, or of its qids, is above 16.
    TooManyNames,
    /// There are bytes after the last field.
    Trailing,
    /// The bytes are a message, but there is no memory for it.
    Memory,
}

impl fmt::Display for WireFault {
    /// Prints in words why the bytes aren't a message.
    fn fmt<W: fmt::Write>(&self, f: &mut fmt::Formatter<W>) -> fmt::Result {
        match self {
            WireFault::Short => write!(f, "a field runs past the end"),
            WireFault::SizeLies => write!(f, "a size is not the length"),
            WireFault::UnknownType => write!(f, "unknown message type"),
            WireFault::BadText => write!(f, "a text is not UTF-8 without NUL"),
            WireFault::TooManyNames => write!(f, "more than 16 names in a walk"),
            WireFault::Trailing => write!(f, "bytes after the last field"),
            WireFault::Memory => write!(f, "out of memory"),
        }
    }
}

impl From<AllocError> for WireFault {
    ghost from_gives = { λ _ e. e ≡ Memory };

    /// An allocation that fails is Memory.
    fn from(_refused: AllocError) -> WireFault {
        WireFault::Memory
    }
}

impl<T: Drop> From<AllocFailed<T>> for WireFault {
    ghost from_gives = { λ _ e. e ≡ Memory };

    /// An allocation that fails is Memory. The value that needed the memory is dropped.
    fn from(_refused: AllocFailed<T>) -> WireFault {
        WireFault::Memory
    }
}
