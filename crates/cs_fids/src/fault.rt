//! The faults of a table of fids.
ghost use Rattle.std.specs.Prelude.{◌≡◌, Some};
ghost use Rattle.cs_fids.specs.declared.fault.FidFault.TheVariants.{Memory};
ghost use Rattle.cs_fids.specs.Faults.{fault_text};

use std::alloc::AllocError;
use std::fmt;

/// Why a table of fids refused a call. A call that is refused changes no fid.
#[derive(Clone, Copy, Debug, PartialEq, Eq)]
pub enum FidFault {
    /// The table has FIDS fids, the most that it may have.
    TableFull,
    /// The table has no fid of this number.
    Unknown,
    /// The fid is open.
    AlreadyOpen,
    /// The fid isn't open.
    NotOpen,
    /// The table has a fid of this number already.
    InUse,
    /// There is no memory for one fid more. Only `reserve` has this fault.
    Memory,
}

impl fmt::Display for FidFault {
    ghost output = { λ fault. Some (fault_text fault) };

    /// Writes in a few words what is wrong, without the fid's number.
    fn fmt<W: fmt::Write>(&self, f: &mut fmt::Formatter<W>) -> fmt::Result {
        f.write_str(match self {
            FidFault::TableFull => "fid table full",
            FidFault::Unknown => "unknown fid",
            FidFault::AlreadyOpen => "fid is open",
            FidFault::NotOpen => "fid not open",
            FidFault::InUse => "fid in use",
            FidFault::Memory => "out of memory",
        })
    }
}

impl std::error::Error for FidFault {}

impl From<AllocError> for FidFault {
    ghost from_gives = { λ _ fault. fault ≡ Memory };

    /// An allocation that fails is Memory.
    fn from(_refused: AllocError) -> FidFault {
        FidFault::Memory
    }
}
