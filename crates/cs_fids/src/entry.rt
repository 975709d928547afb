//! What a table has at a fid's number: the fid, in one of its two states.
ghost use Rattle.std.specs.Prelude.{◌≡◌, option_copied};

use crate::fid::{Fid, Opened, Walked};
use cs_names::UserName;

/// A fid in one of its two states. `run`, `pass`, `number`, `user` and `into_user` are those of the
/// fid, in either state.
#[derive(Debug, Drop)]
pub enum FidEntry {
    /// It was attached or walked to, and isn't open.
    Walked(Fid<Walked>),
    /// It was opened, or made by a create.
    Opened(Fid<Opened>),
}

impl FidEntry {
    ghost use Rattle.cs_fids.specs.Entries.{as_opened, as_walked, number_of, pass_of, run_of};
    ghost use Rattle.cs_fids.specs.Entries.{user_of};

    /// The index of the fid's run at the port, whether the fid is open or not.
    pub fn run(&self) -> u32
        ensures { result ≡ run_of self.now }
    {
        match self {
            FidEntry::Walked(fid) => fid.run(),
            FidEntry::Opened(fid) => fid.run(),
        }
    }

    /// The index of the fid's pass at the port, whether the fid is open or not.
    pub fn pass(&self) -> u32
        ensures { result ≡ pass_of self.now }
    {
        match self {
            FidEntry::Walked(fid) => fid.pass(),
            FidEntry::Opened(fid) => fid.pass(),
        }
    }

    /// The number of the fid's file in its run, whether the fid is open or not.
    pub fn number(&self) -> u64
        ensures { result ≡ number_of self.now }
    {
        match self {
            FidEntry::Walked(fid) => fid.number(),
            FidEntry::Opened(fid) => fid.number(),
        }
    }

    /// The user for whom the fid, open or not, was made: the one of its attach; lent.
    pub fn user(&self) -> &UserName
        ensures { result.now ≡ user_of self.now }
    {
        match self {
            FidEntry::Walked(fid) => fid.user(),
            FidEntry::Opened(fid) => fid.user(),
        }
    }

    /// The user for whom the fid, open or not, was made; moved out, and the rest of the fid is
    /// dropped.
    pub fn into_user(self) -> UserName
        ensures { result ≡ user_of self }
    {
        match self {
            FidEntry::Walked(fid) => fid.into_user(),
            FidEntry::Opened(fid) => fid.into_user(),
        }
    }

    /// Lends the fid if it isn't open; None if it is. No command calls this.
    pub fn as_walked(&self) -> Option<&Fid<Walked>>
        ensures { option_copied result ≡ as_walked self.now }
    {
        match self {
            FidEntry::Walked(fid) => Some(fid),
            FidEntry::Opened(_) => None,
        }
    }

    /// Lends the fid if it is open; None if it isn't.
    pub fn as_opened(&self) -> Option<&Fid<Opened>>
        ensures { option_copied result ≡ as_opened self.now }
    {
        match self {
            FidEntry::Walked(_) => None,
            FidEntry::Opened(fid) => Some(fid),
        }
    }
}
