//! Why a picks file can't be read.
ghost use Rattle.std.specs.Prelude.{◌≡◌, Some};
ghost use Rattle.cs_inputs.specs.PicksFaults.{fault_text};
ghost use Rattle.cs_inputs.specs.declared.picks_fault.PicksFault.TheVariants.{Memory};

use std::alloc::AllocError;
use std::fmt;

/// Why a picks file can't be read.
#[derive(Clone, Copy, Debug, PartialEq, Eq)]
pub enum PicksFault {
    /// The line of this number, from 1, isn't an array of places. It is the first such line.
    Syntax(usize),
    /// An allocation failed.
    Memory,
}

impl fmt::Display for PicksFault {
    ghost output = { λ fault. Some (fault_text fault) };

    /// Writes `picks line 3: Syntax` or the like; Memory is `out of memory`.
    fn fmt<W: fmt::Write>(&self, f: &mut fmt::Formatter<W>) -> fmt::Result {
        match self {
            PicksFault::Syntax(line) => write!(f, "picks line {line}: Syntax"),
            PicksFault::Memory => f.write_str("out of memory"),
        }
    }
}

impl From<AllocError> for PicksFault {
    ghost from_gives = { λ _ fault. fault ≡ Memory };

    /// An allocation that fails is Memory.
    fn from(_refused: AllocError) -> PicksFault {
        PicksFault::Memory
    }
}

impl std::error::Error for PicksFault {}
