//! What the rules of a connection look at in a request. The rules of a run look at a `Call`.

/// A request on a connection's fids: the fields that the connection's rules look at, as the message
/// has them. Nothing of them is checked yet. (A version message, an auth and a flush have no rules
/// of this kind.)
#[derive(Clone, Copy, Debug)]
pub enum Request<'a> {
    /// Tattach (attach(5)).
    Attach {
        fid: u32,
        afid: u32,
        aname: &'a str,
    },
    /// Twalk (walk(5)); its names are checked by the run.
    Walk {
        fid: u32,
        newfid: u32,
    },
    /// Topen (open(5)).
    Open {
        fid: u32,
        mode: u8,
    },
    /// Tcreate (open(5)).
    Create {
        fid: u32,
        name: &'a str,
        perm: u32,
        mode: u8,
    },
    /// Tread (read(5)).
    Read {
        fid: u32,
    },
    /// Twrite (read(5)).
    Write {
        fid: u32,
    },
    /// Tclunk (clunk(5)).
    Clunk {
        fid: u32,
    },
    /// Tremove (remove(5)).
    Remove {
        fid: u32,
    },
    /// Tstat (stat(5)).
    Stat {
        fid: u32,
    },
    /// Twstat (stat(5)).
    Wstat {
        fid: u32,
    },
}
