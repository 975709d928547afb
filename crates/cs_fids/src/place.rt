//! The place at which the reads of a directory continue (read(5)).
ghost use Rattle.std.specs.Prelude.{◌≡◌, IfOk};

use cs_names::Name;
use std::alloc::AllocError;

/// The place at which a fid's reads of a directory continue. At the directory's start it has 0 and
/// None.
#[derive(Debug, Drop)]
pub struct Place {
    /// The offset at which the last read ended, in bytes; the next one must have it, or 0.
    pub end: u64,
    /// The last name that a read returned; None if there was none since the start.
    pub last: Option<Name>,
}

impl Place {
    ghost use Rattle.cs_fids.specs.Fids.{first_place};

    /// The place before a directory's first entry.
    pub fn start() -> Place
        ensures { result ≡ first_place }
    {
        Place { end: 0, last: None }
    }

    /// A copy of the place. Only the name takes memory. (`try_clone_place` of cs_session has the
    /// same body; its contract also says when memory can run out.)
    pub fn try_clone(&self) -> Result<Place, AllocError>
        ensures { IfOk result (λ place. place ≡ self.now) }
    {
        let last = match &self.last {
            Some(name) => Some(name.try_clone()?),
            None => None,
        };
        Ok(Place {
            end: self.end,
            last,
        })
    }
}
