//! Fids, whose states are types: a call that needs an open fid takes a `Fid<Opened>`.
ghost use Rattle.std.specs.Prelude.{◌≡◌, IfOk};

use crate::place::Place;
use cs_names::UserName;
use std::alloc::AllocError;
use std::marker::Model;

/// The number that no fid has. In an attach it says that there is no authentication fid
/// (attach(5)).
pub const NOFID: u32 = 0xFFFF_FFFF;

/// The state of a fid that was attached or walked to, and isn't open.
#[derive(Clone, Copy, Debug)]
pub struct Walked;

/// The state of a fid that is open (open(5)).
#[derive(Debug, Drop)]
pub struct Opened {
    /// The mode of the open, with all its bits.
    pub mode: u8,
    /// The number that the run gave to the open.
    pub open_number: u32,
    /// The place at which the fid's reads of a directory continue; of no use for a file.
    pub place: Place,
}

/// A fid: a file of a run, for a user, in a state. Contracts see a record of its fields.
#[derive(Debug, Drop)]
pub struct Fid<S> {
    // the index of its run at the connection's port
    run: u32,
    // the index, at the port, of the pass by which the user calls the run
    pass: u32,
    // the number of its file in the run; the file may be gone
    number: u64,
    // the user of the attach from which it comes
    user: UserName,
    // `Walked` or `Opened`
    state: S,
}

impl<S> Model for Fid<S> {
    ghost use Rattle.cs_fids.specs.FidOf.{FidOf};

    ghost Value = { FidOf S };

    ghost view = { λ fid. record {
      run = fid.run;
      pass = fid.pass;
      number = fid.number;
      user =
          fid.user;
      state = fid.state;
    } };
}

impl<S> Fid<S> {
    /// The index of the fid's run at the port.
    pub fn run(&self) -> u32
        ensures { result ≡ self.now.run }
    {
        self.run
    }

    /// The index of the fid's pass at the port.
    pub fn pass(&self) -> u32
        ensures { result ≡ self.now.pass }
    {
        self.pass
    }

    /// The number of the fid's file in its run. The file may be gone by now.
    pub fn number(&self) -> u64
        ensures { result ≡ self.now.number }
    {
        self.number
    }

    /// The user for whom the fid was made: the one of its attach; lent.
    pub fn user(&self) -> &UserName
        ensures { result.now ≡ self.now.user }
    {
        &self.user
    }
}

impl<S: Drop> Fid<S> {
    /// The user for whom the fid was made; moved out, and the rest of the fid is dropped.
    pub fn into_user(self) -> UserName
        ensures { result ≡ self.user }
    {
        self.user
    }
}

impl Fid<Walked> {
    ghost use Rattle.cs_fids.specs.Fids.{moved_to, opened_fid, walked_fid};

    /// Makes a fid for this user; the fid isn't open. `run` and `pass` are indexes at the port, and
    /// `number` is that of the fid's file in the run.
    pub fn new(run: u32, pass: u32, number: u64, user: UserName) -> Fid<Walked>
        ensures { result ≡ walked_fid run pass number user }
    {
        Fid {
            run,
            pass,
            number,
            user,
            state: Walked,
        }
    }

    /// The same fid, but of another file of its run, as after a walk (walk(5)). Whether there is
    /// such a file isn't checked.
    pub fn moved_to(mut self, number: u64) -> Fid<Walked>
        ensures { result ≡ moved_to self number }
    {
        self.number = number;
        self
    }

    /// Opens the fid in this mode (open(5)). `open_number` is the number that its run gave to the
    /// open. Reads of a directory begin at the directory's start.
    pub fn open(self, mode: u8, open_number: u32) -> Fid<Opened>
        ensures { result ≡ opened_fid self mode open_number }
    {
        Fid {
            run: self.run,
            pass: self.pass,
            number: self.number,
            user: self.user,
            state: Opened {
                mode,
                open_number,
                place: Place::start(),
            },
        }
    }

    /// A copy of the fid, for a walk to another fid. Only the user's name takes memory.
    pub fn try_clone(&self) -> Result<Fid<Walked>, AllocError>
        ensures { IfOk result (λ fid. fid ≡ self.now) }
    {
        Ok(Fid {
            run: self.run,
            pass: self.pass,
            number: self.number,
            user: self.user.try_clone()?,
            state: Walked,
        })
    }
}

impl Fid<Opened> {
    ghost use Rattle.cs_fids.specs.Fids.{with_place};

    /// The mode of the fid's open (open(5)).
    pub fn mode(&self) -> u8
        ensures { result ≡ self.now.state.mode }
    {
        self.state.mode
    }

    /// The number of the fid's open in its run.
    pub fn open_number(&self) -> u32
        ensures { result ≡ self.now.state.open_number }
    {
        self.state.open_number
    }

    /// The place at which the fid's reads of a directory continue; lent.
    pub fn place(&self) -> &Place
        ensures { result.now ≡ self.now.state.place }
    {
        &self.state.place
    }

    /// The same fid, but its reads of a directory continue at this place; the old place is dropped.
    pub(crate) fn with_place(mut self, place: Place) -> Fid<Opened>
        ensures { result ≡ with_place self place }
    {
        self.state.place = place;
        self
    }
}
