//! Why a trace can't be broken into micro-operations. Then nothing is left of what was made.
ghost use Rattle.std.specs.Prelude.{◌≡◌, Some};
ghost use Rattle.cs_micro.specs.Texts.{fault_text};
ghost use Rattle.cs_micro.specs.declared.fault.MicroFault.TheVariants.{Memory};

use std::alloc::AllocError;
use std::fmt;

/// Why a trace can't be broken into micro-operations.
#[derive(Clone, Copy, Debug, PartialEq, Eq)]
pub enum MicroFault {
    /// The trace has more than MICRO_OPERATIONS micro-operations. It is found before memory is
    /// taken.
    TooMany,
    /// Out of memory.
    Memory,
}

impl fmt::Display for MicroFault {
    ghost output = { λ fault. Some (fault_text fault) };

    /// Prints `too many micro-operations` or `out of memory`.
    fn fmt<W: fmt::Write>(&self, f: &mut fmt::Formatter<W>) -> fmt::Result {
        f.write_str(match self {
            MicroFault::TooMany => "too many micro-operations",
            MicroFault::Memory => "out of memory",
        })
    }
}

impl From<AllocError> for MicroFault {
    ghost from_gives = { λ _ fault. fault ≡ Memory };

    /// A failed allocation is Memory.
    fn from(_refused: AllocError) -> MicroFault {
        MicroFault::Memory
    }
}

impl std::error::Error for MicroFault {}
