//! The faults of printing, counting and drawing sets, with their texts.
ghost use Rattle.std.specs.Prelude.{◌≡◌};
ghost use Rattle.cs_every.specs.Counted.{of_count};
ghost use Rattle.cs_every.specs.declared.fault.EveryFault.TheVariants.{Memory};

use cs_sets::CountFault;
use std::alloc::AllocError;
use thiserror::Error;

/// Why not all sets that were asked for are printed. Each function says which faults it has.
#[derive(Clone, Copy, Debug, PartialEq, Eq, Error)]
pub enum EveryFault {
    /// There are more sets than may be printed: more than this many. Nothing was printed. (The
    /// command `picks` finds this, by `has_more_than`.)
    #[error("more than {0} sets")]
    More(u32),
    /// The sets can't be counted (too many different futures), or there are too many to draw one.
    #[error("too many sets to count")]
    TooMany,
    /// The sets can't be compared: those of the places before some place are in too many classes.
    /// (cs_different finds this.)
    #[error("too many sets to compare")]
    TooManyClasses,
    /// An allocation failed.
    #[error("out of memory")]
    Memory,
    /// A line can't be written, or the output can't be flushed.
    #[error("output failed")]
    Output,
}

impl From<AllocError> for EveryFault {
    ghost from_gives = { λ _ fault. fault ≡ Memory };

    /// An allocation that fails is Memory.
    fn from(_refused: AllocError) -> EveryFault {
        EveryFault::Memory
    }
}

impl From<CountFault> for EveryFault {
    ghost from_gives = { λ given fault. fault ≡ of_count given };

    /// The fault of the same name.
    fn from(fault: CountFault) -> EveryFault {
        match fault {
            CountFault::TooMany => EveryFault::TooMany,
            CountFault::Memory => EveryFault::Memory,
        }
    }
}
