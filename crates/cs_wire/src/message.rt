//! The messages of 9P2000, as intro(5) lists them: a tag, and a body with the fields of its type,
//! which are also in `table`.

use std::borrow::CowStr;

/// The server's identification of a file: its kind, its version and its number (intro(5)).
#[derive(Clone, Copy, Debug, PartialEq, Eq)]
pub struct Qid {
    /// The high byte of the file's mode.
    pub kind: u8,
    /// Changes each time that the file does.
    pub vers: u32,
    /// The file's number.
    pub path: u64,
}

/// What a stat says of a file (stat(5)). In a Twstat, an empty text or a number with all bits set
/// leaves that field as it is, and so does a qid whose three numbers have all bits set.
#[derive(Debug, Drop)]
pub struct Stat {
    /// For the server's kernel; 0 in each stat that this server sends.
    pub kind: u16,
    /// For the server's kernel; 0 in each stat that this server sends.
    pub dev: u32,
    pub qid: Qid,
    /// The permissions, and the bits above them such as DMDIR.
    pub mode: u32,
    /// When it was made, in seconds since 1970; reads don't change it.
    pub atime: u32,
    /// When it was last changed, in seconds since 1970.
    pub mtime: u32,
    /// Bytes of the file, 0 for a directory.
    pub length: u64,
    /// The file's name in its directory, `/` for the root.
    pub name: String,
    /// The owner.
    pub uid: String,
    /// The group.
    pub gid: String,
    /// The user who last changed the file.
    pub muid: String,
}

/// A request: the message of a client. Only the data of a Twrite is borrowed from the bytes that
/// were decoded.
#[derive(Debug, Drop)]
pub struct TMessage<'a> {
    /// The client's number for this request.
    pub tag: u16,
    pub body: TBody<'a>,
}

/// The fields of a request, by its type. The manual page that is named at a type says what its
/// fields mean; they are in the order of the message.
#[derive(Debug, Drop)]
pub enum TBody<'a> {
    /// Tversion 100, version(5).
    Version {
        msize: u32,
        version: String,
    },
    /// Tauth 102, attach(5).
    Auth {
        afid: u32,
        uname: String,
        aname: String,
    },
    /// Tattach 104, attach(5).
    Attach {
        fid: u32,
        afid: u32,
        uname: String,
        aname: String,
    },
    /// Tflush 108, flush(5).
    Flush {
        oldtag: u16,
    },
    /// Twalk 110, walk(5).
    Walk {
        fid: u32,
        newfid: u32,
        wname: Vec<String>,
    },
    /// Topen 112, open(5).
    Open {
        fid: u32,
        mode: u8,
    },
    /// Tcreate 114, open(5).
    Create {
        fid: u32,
        name: String,
        perm: u32,
        mode: u8,
    },
    /// Tread 116, read(5).
    Read {
        fid: u32,
        offset: u64,
        count: u32,
    },
    /// Twrite 118, read(5); its data is borrowed from the bytes that were decoded.
    Write {
        fid: u32,
        offset: u64,
        data: &'a [u8],
    },
    /// Tclunk 120, clunk(5).
    Clunk {
        fid: u32,
    },
    /// Tremove 122, remove(5).
    Remove {
        fid: u32,
    },
    /// Tstat 124, stat(5).
    Stat {
        fid: u32,
    },
    /// Twstat 126, stat(5).
    Wstat {
        fid: u32,
        stat: Stat,
    },
}

/// A reply: the message of the server. It owns what it holds, but for texts of the program itself.
#[derive(Drop)]
pub struct RMessage {
    /// The tag of the request.
    pub tag: u16,
    pub body: RBody,
}

/// The fields of a reply, by its type, in the order of the message. The manual page that is named
/// at a type says what they mean.
#[derive(Drop)]
pub enum RBody {
    /// Rversion 101, version(5). The server's own texts are borrowed; a decoded one is owned.
    Version {
        msize: u32,
        version: CowStr<'static>,
    },
    /// Rauth 103, attach(5). This server never sends it.
    Auth {
        aqid: Qid,
    },
    /// Rattach 105, attach(5).
    Attach {
        qid: Qid,
    },
    /// Rerror 107, error(5): why the request was refused. Any request may have this reply.
    Error {
        ename: CowStr<'static>,
    },
    /// Rflush 109, flush(5).
    Flush,
    /// Rwalk 111, walk(5): a qid for each name that was walked, which may be fewer than the names.
    Walk {
        wqid: Vec<Qid>,
    },
    /// Ropen 113, open(5). This server's iounit is 0.
    Open {
        qid: Qid,
        iounit: u32,
    },
    /// Rcreate 115, open(5). This server's iounit is 0.
    Create {
        qid: Qid,
        iounit: u32,
    },
    /// Rread 117, read(5).
    Read {
        data: Vec<u8>,
    },
    /// Rwrite 119, read(5).
    Write {
        count: u32,
    },
    /// Rclunk 121, clunk(5).
    Clunk,
    /// Rremove 123, remove(5).
    Remove,
    /// Rstat 125, stat(5).
    Stat {
        stat: Stat,
    },
    /// Rwstat 127, stat(5).
    Wstat,
}
