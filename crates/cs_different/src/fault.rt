//! Why the sets that differ aren't found.
ghost use Rattle.std.specs.Prelude.{◌≡◌};
ghost use Rattle.cs_different.specs.declared.fault.DifferentFault.TheVariants.{Memory};

use std::alloc::AllocError;

/// Why the sets that differ aren't found. Then none of them is returned.
#[derive(Clone, Copy, Debug, PartialEq, Eq)]
pub enum DifferentFault {
    /// More than this many sets differ: as many as the caller allows.
    More(u32),
    /// At some place the sets fall into more classes than are followed, `CLASSES`. How many sets
    /// differ isn't known.
    TooMany,
    /// Memory ran out.
    Memory,
}

impl From<AllocError> for DifferentFault {
    ghost from_gives = { λ _ fault. fault ≡ Memory };

    /// A failed allocation is Memory.
    fn from(_refused: AllocError) -> DifferentFault {
        DifferentFault::Memory
    }
}
