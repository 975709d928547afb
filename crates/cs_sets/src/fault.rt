//! Why allowed sets can't be counted or drawn.
ghost use Rattle.std.specs.Prelude.{◌≡◌};
ghost use Rattle.cs_sets.specs.declared.fault.CountFault.TheVariants.{Memory};

use std::alloc::AllocError;

/// Why allowed sets can't be counted or drawn.
#[derive(Clone, Copy, Debug, PartialEq, Eq)]
pub enum CountFault {
    /// For some place, the sets of the places below it have more than FUTURES different futures;
    /// or, if sets are drawn by their numbers, there are 2^64 sets or more.
    TooMany,
    /// Memory ran out.
    Memory,
}

impl From<AllocError> for CountFault {
    ghost from_gives = { λ _ fault. fault ≡ Memory };

    /// An allocation that fails is Memory.
    fn from(_refused: AllocError) -> CountFault {
        CountFault::Memory
    }
}
