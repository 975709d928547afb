//! The calls that a session makes on a run after the message passed the connection's rules. A call
//! names a file by its number, which may be gone by now: then the call's first rule denies it.
//! `user` is the user of the fid.
ghost use Rattle.std.specs.Prelude.{◌≡◌, IfOk};

use crate::sent_bytes::SentBytes;
use crate::sent_stat::SentStat;
use cs_fids::Place;
use cs_names::{Name, Text, Texts, UserName};
use std::alloc::{AllocError, Global};

/// Attaches a user to the root of the run (attach(5)).
#[derive(Debug, Drop)]
pub struct AttachCall {
    /// The uname as it came: the run's rules decide whether it is known.
    pub user: Text,
}

/// Walks from a file, by a name at a time (walk(5)).
#[derive(Debug, Drop)]
pub struct WalkCall {
    /// The number of the file from which the walk begins.
    pub number: u64,
    pub user: UserName,
    /// The names as they came: the run's rules decide whether they are legal.
    pub names: Texts,
}

/// Opens a file (open(5)). The connection's rules have checked that the mode has no unknown bit.
#[derive(Debug, Drop)]
pub struct OpenCall {
    pub number: u64,
    pub user: UserName,
    /// The mode of the open, with its bits OTRUNC and ORCLOSE.
    pub mode: u8,
}

/// Makes a file in a directory, and opens it (open(5)). The connection's rules have checked name,
/// permissions and mode by themselves.
#[derive(Debug, Drop)]
pub struct CreateCall {
    /// The directory.
    pub number: u64,
    pub user: UserName,
    pub name: Name,
    /// The permissions and high bits that the client wants. Those of the directory restrict them.
    pub perm: u32,
    /// The mode of the open, with its bits OTRUNC and ORCLOSE.
    pub mode: u8,
}

/// Reads an open file, or the entries of an open directory (read(5)). It has no user: the rights
/// were asked when the file was opened.
#[derive(Debug, Drop)]
pub struct ReadCall {
    pub number: u64,
    /// The first byte to return, from 0. In a directory it is 0 or the end of the last read.
    pub offset: u64,
    /// The most bytes to return: what the client asks for, or what fits a reply if that is less.
    pub count: u32,
    /// The place at which the fid's reads of a directory continue; of no use for a file.
    pub place: Place,
}

/// Writes into an open file (read(5)). The rights were asked when the file was opened; `user`
/// becomes the file's last writer.
#[derive(Debug, Drop)]
pub struct WriteCall<'a> {
    pub number: u64,
    pub user: UserName,
    /// Where the bytes go, unless the file is append-only: then they go to its end.
    pub offset: u64,
    /// What is written, as it came.
    pub bytes: SentBytes<'a>,
}

/// Ends an open, which may remove the file (clunk(5)).
#[derive(Debug, Drop)]
pub struct CloseCall {
    /// The number of the open in the run.
    pub open_number: u32,
    pub user: UserName,
}

/// Removes a file, and ends the open of its fid even if the file can't be removed (remove(5)).
#[derive(Debug, Drop)]
pub struct RemoveCall {
    pub number: u64,
    pub user: UserName,
    /// The number of the fid's open in the run; None if the fid isn't open.
    pub open_number: Option<u32>,
}

/// Asks for the stat of a file (stat(5)).
#[derive(Debug, Drop)]
pub struct StatCall {
    pub number: u64,
}

/// Changes fields of a file's stat (stat(5)).
#[derive(Debug, Drop)]
pub struct WstatCall {
    pub number: u64,
    pub user: UserName,
    /// The stat as it came: a number with all bits set, or an empty text, says "don't touch".
    pub stat: SentStat,
}

/// A call on a run. Only a write may borrow: its bytes, from the message.
#[derive(Debug, Drop)]
pub enum Call<'a> {
    Attach(AttachCall),
    Walk(WalkCall),
    Open(OpenCall),
    Create(CreateCall),
    Read(ReadCall),
    Write(WriteCall<'a>),
    Close(CloseCall),
    Remove(RemoveCall),
    Stat(StatCall),
    Wstat(WstatCall),
}

/// An open of a run, which a create or an open makes and a close or a remove ends.
#[derive(Clone, Copy, Debug, PartialEq, Eq)]
pub struct OpenFile {
    /// Its number, by which a close names it.
    pub number: u32,
    /// The number of its file.
    pub file: u64,
    pub mode: u8,
    /// The pass under which it was made: only calls of this pass can end it.
    pub pass: u32,
}

impl AttachCall {
    /// A copy of the call and its text. The only error is that memory runs out.
    fn try_clone(&self) -> Result<AttachCall, AllocError>
        ensures { IfOk result (λ copy. copy ≡ self.now) }
    {
        Ok(AttachCall {
            user: self.user.try_clone()?,
        })
    }
}

impl WalkCall {
    /// A copy of the call, its user and its names. The only error is that memory runs out.
    fn try_clone(&self, alloc: Global) -> Result<WalkCall, AllocError>
        ensures { IfOk result (λ copy. copy ≡ self.now) }
    {
        Ok(WalkCall {
            number: self.number,
            user: self.user.try_clone()?,
            names: self.names.try_clone(alloc)?,
        })
    }
}

impl OpenCall {
    /// A copy of the call and its user. The only error is that memory runs out.
    fn try_clone(&self) -> Result<OpenCall, AllocError>
        ensures { IfOk result (λ copy. copy ≡ self.now) }
    {
        Ok(OpenCall {
            number: self.number,
            user: self.user.try_clone()?,
            mode: self.mode,
        })
    }
}

impl CreateCall {
    /// A copy of the call, its user and its name. The only error is that memory runs out.
    fn try_clone(&self) -> Result<CreateCall, AllocError>
        ensures { IfOk result (λ copy. copy ≡ self.now) }
    {
        Ok(CreateCall {
            number: self.number,
            user: self.user.try_clone()?,
            name: self.name.try_clone()?,
            perm: self.perm,
            mode: self.mode,
        })
    }
}

impl ReadCall {
    /// A copy of the call and its place. The only error is that memory runs out.
    fn try_clone(&self) -> Result<ReadCall, AllocError>
        ensures { IfOk result (λ copy. copy ≡ self.now) }
    {
        Ok(ReadCall {
            number: self.number,
            offset: self.offset,
            count: self.count,
            place: self.place.try_clone()?,
        })
    }
}

impl WriteCall<'_> {
    /// A copy of the call, which borrows nothing. The only error is that memory runs out.
    fn try_clone(&self, alloc: Global) -> Result<WriteCall<'static>, AllocError>
        ensures { IfOk result (λ copy. copy ≡ self.now) }
    {
        Ok(WriteCall {
            number: self.number,
            user: self.user.try_clone()?,
            offset: self.offset,
            bytes: self.bytes.try_clone(alloc)?,
        })
    }
}

impl CloseCall {
    /// A copy of the call and its user. The only error is that memory runs out.
    fn try_clone(&self) -> Result<CloseCall, AllocError>
        ensures { IfOk result (λ copy. copy ≡ self.now) }
    {
        Ok(CloseCall {
            open_number: self.open_number,
            user: self.user.try_clone()?,
        })
    }
}

impl RemoveCall {
    /// A copy of the call and its user. The only error is that memory runs out.
    fn try_clone(&self) -> Result<RemoveCall, AllocError>
        ensures { IfOk result (λ copy. copy ≡ self.now) }
    {
        Ok(RemoveCall {
            number: self.number,
            user: self.user.try_clone()?,
            open_number: self.open_number,
        })
    }
}

impl WstatCall {
    /// A copy of the call, its user and its stat. The only error is that memory runs out.
    fn try_clone(&self) -> Result<WstatCall, AllocError>
        ensures { IfOk result (λ copy. copy ≡ self.now) }
    {
        Ok(WstatCall {
            number: self.number,
            user: self.user.try_clone()?,
            stat: self.stat.try_clone()?,
        })
    }
}

impl<'a> Call<'a> {
    /// A copy of the call, which borrows nothing. The only error is that memory runs out; a part of
    /// a copy is dropped then.
    pub fn try_clone(&self, alloc: Global) -> Result<Call<'static>, AllocError>
        ensures { IfOk result (λ copy. copy ≡ self.now) }
    {
        Ok(match self {
            Call::Attach(call) => Call::Attach(call.try_clone()?),
            Call::Walk(call) => Call::Walk(call.try_clone(alloc)?),
            Call::Open(call) => Call::Open(call.try_clone()?),
            Call::Create(call) => Call::Create(call.try_clone()?),
            Call::Read(call) => Call::Read(call.try_clone()?),
            Call::Write(call) => Call::Write(call.try_clone(alloc)?),
            Call::Close(call) => Call::Close(call.try_clone()?),
            Call::Remove(call) => Call::Remove(call.try_clone()?),
            Call::Stat(call) => Call::Stat(StatCall {
                number: call.number,
            }),
            Call::Wstat(call) => Call::Wstat(call.try_clone()?),
        })
    }
}
