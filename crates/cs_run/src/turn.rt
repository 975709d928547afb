//! The turn of a call in its run: its time, its place and its pass.
ghost use Rattle.std.specs.Prelude.{◌≡◌, IfOk};
ghost use Rattle.cs_run.specs.Effects.{stamp};

use cs_names::UserName;
use cs_tree_model::Stamp;
use std::alloc::AllocError;

/// When a run does a call, as which of its calls, and under which pass.
#[derive(Clone, Copy, Debug, PartialEq, Eq)]
pub struct Turn {
    /// The moment, in seconds since 1970.
    pub moment: u32,
    /// The place of the call among all calls of the run: the number of an open that it makes.
    pub place: u32,
    /// The number of the pass under which the call comes.
    pub pass: u32,
}

/// The stamp of a change that the user makes in this turn: the moment, and a copy of the name. The
/// error is out of memory.
pub(crate) fn stamp_of(turn: Turn, user: &UserName) -> Result<Stamp, AllocError>
    ensures { IfOk result (λ made. made ≡ stamp turn user.now) }
{
    Ok(Stamp {
        now: turn.moment,
        user: user.try_clone()?,
    })
}
