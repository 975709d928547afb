//! A client's messages to its session, as plain values. Their bytes are decoded in `receiving`. The
//! fields are those of the manual pages' messages, by the same names, as the client sent them: no
//! rule was asked yet, so a fid may be unknown and a name illegal.
ghost use Rattle.std.specs.Prelude.{◌≡◌, IfOk};

use cs_names::{Text, Texts};
use cs_permit::{SentBytes, SentStat};
use std::alloc::{AllocError, Global};

/// A Tattach (attach(5)).
#[derive(Debug, Drop)]
pub struct AttachMessage {
    /// The fid that is attached to the root.
    pub fid: u32,
    /// NOFID, 4,294,967,295, unless the client wants to authenticate, which is refused.
    pub afid: u32,
    /// The user.
    pub uname: Text,
    /// The run: the number of its state, and after a slash its name.
    pub aname: Text,
}

/// A Twalk (walk(5)).
#[derive(Debug, Drop)]
pub struct WalkMessage {
    /// The fid that the walk begins at.
    pub fid: u32,
    /// The fid of the last file: free, or `fid` itself.
    pub newfid: u32,
    /// One name for each step; none for a copy of the fid.
    pub names: Texts,
}

/// A Topen (open(5)).
#[derive(Clone, Copy, Debug, PartialEq, Eq)]
pub struct OpenMessage {
    /// The fid to open.
    pub fid: u32,
    /// The mode of open(5), with its bits for truncation and removal.
    pub mode: u8,
}

/// A Tcreate (open(5)).
#[derive(Debug, Drop)]
pub struct CreateMessage {
    /// The fid of the directory, which becomes that of the new file.
    pub fid: u32,
    /// The new file's name.
    pub name: Text,
    /// Its permissions, and whether it is a directory, in the bits of stat(5).
    pub perm: u32,
    /// The mode in which it is opened.
    pub mode: u8,
}

/// A Tread (read(5)).
#[derive(Clone, Copy, Debug, PartialEq, Eq)]
pub struct ReadMessage {
    /// An open fid.
    pub fid: u32,
    /// In bytes; in a directory, where the last read ended, or 0.
    pub offset: u64,
    /// The most bytes that the client takes.
    pub count: u32,
}

/// A Twrite (read(5)), whose bytes may be lent.
#[derive(Debug, Drop)]
pub struct WriteMessage<'a> {
    /// An open fid.
    pub fid: u32,
    /// In bytes.
    pub offset: u64,
    /// What is written.
    pub bytes: SentBytes<'a>,
}

/// A Twstat (stat(5)).
#[derive(Debug, Drop)]
pub struct WstatMessage {
    /// The fid whose file is changed.
    pub fid: u32,
    /// The new attributes; a field whose bits are all ones, or an empty text, means no change.
    pub stat: SentStat,
}

/// A message that makes one call on the run of a fid.
#[derive(Debug, Drop)]
pub enum CallMessage<'a> {
    /// Walks from the fid (walk(5)).
    Walk(WalkMessage),
    /// Opens the fid (open(5)).
    Open(OpenMessage),
    /// Makes a file in the fid's directory, and opens it (open(5)).
    Create(CreateMessage),
    /// Reads from the fid (read(5)).
    Read(ReadMessage),
    /// Writes to the fid (read(5)).
    Write(WriteMessage<'a>),
    /// Removes the file of the fid of that number (remove(5)).
    Remove(u32),
    /// Asks for the attributes of the file of the fid of that number (stat(5)).
    Stat(u32),
    /// Changes attributes of the fid's file (stat(5)).
    Wstat(WstatMessage),
}

/// A step that changes only the connection's fids and its session (version(5), clunk(5)).
#[derive(Debug, Drop)]
pub enum TableStep {
    /// The client's message size and version. No fid may be open.
    Version { msize: u32, version: Text },
    /// The number of a fid that isn't open.
    Clunk(u32),
    /// The end of the connection. No fid may be open.
    HangUp,
}

/// A message as a session answers it, by one step or several.
#[derive(Debug, Drop)]
pub enum Message<'a> {
    /// A Tversion: the client's message size and version.
    Version { msize: u32, version: Text },
    /// A Tattach.
    Attach(AttachMessage),
    /// A message that makes one call.
    Call(CallMessage<'a>),
    /// A Tclunk of the fid of that number, which may be open or not.
    Clunk(u32),
    /// The connection ends: no client sends this.
    HangUp,
}

impl AttachMessage {
    /// A copy of the attach, whose texts are copied too. The error is out of memory.
    pub fn try_clone(&self) -> Result<AttachMessage, AllocError>
        ensures { IfOk result (λ copy. copy ≡ self.now) }
    {
        Ok(AttachMessage {
            fid: self.fid,
            afid: self.afid,
            uname: self.uname.try_clone()?,
            aname: self.aname.try_clone()?,
        })
    }
}

impl<'a> CallMessage<'a> {
    /// A copy of the message that borrows nothing: the bytes of a write are copied too. The error
    /// is out of memory.
    pub fn try_clone(&self, alloc: Global) -> Result<CallMessage<'static>, AllocError>
        ensures { IfOk result (λ copy. copy ≡ self.now) }
    {
        Ok(match self {
            CallMessage::Walk(message) => CallMessage::Walk(WalkMessage {
                fid: message.fid,
                newfid: message.newfid,
                names: message.names.try_clone(alloc)?,
            }),
            CallMessage::Open(message) => CallMessage::Open(*message),
            CallMessage::Create(message) => CallMessage::Create(CreateMessage {
                fid: message.fid,
                name: message.name.try_clone()?,
                perm: message.perm,
                mode: message.mode,
            }),
            CallMessage::Read(message) => CallMessage::Read(*message),
            CallMessage::Write(message) => CallMessage::Write(WriteMessage {
                fid: message.fid,
                offset: message.offset,
                bytes: message.bytes.try_clone(alloc)?,
            }),
            CallMessage::Remove(fid) => CallMessage::Remove(*fid),
            CallMessage::Stat(fid) => CallMessage::Stat(*fid),
            CallMessage::Wstat(message) => CallMessage::Wstat(WstatMessage {
                fid: message.fid,
                stat: message.stat.try_clone()?,
            }),
        })
    }
}

impl TableStep {
    /// A copy of the step; the text of a version is copied too. The error is out of memory.
    pub fn try_clone(&self) -> Result<TableStep, AllocError>
        ensures { IfOk result (λ copy. copy ≡ self.now) }
    {
        Ok(match self {
            TableStep::Version { msize, version } => TableStep::Version {
                msize: *msize,
                version: version.try_clone()?,
            },
            TableStep::Clunk(fid) => TableStep::Clunk(*fid),
            TableStep::HangUp => TableStep::HangUp,
        })
    }
}
