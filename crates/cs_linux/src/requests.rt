//! The requests of a rename onto a name that is taken. They have the tag of the client's request.
//! The Tstat and the Twstat are of a fid of the client. The walks go from such a fid to `OWN_FID`;
//! the Tremove and the Tclunk are of `OWN_FID`.
ghost use Rattle.std.specs.Prelude.{◌≡◌, IfOk, [], ◌∷◌};
ghost use Rattle.cs_wire.specs.Messages.{stat_of, t_view};
ghost use Rattle.cs_linux.specs.Requests.{asks_name_alone, dot, is_directory, tclunk, tremove};
ghost use Rattle.cs_linux.specs.Requests.{tstat, twalk, twstat};

use cs_wire::{Qid, Stat, TBody, TMessage};
use std::alloc::{AllocError, Global};

/// The fid that a rename uses: the greatest except NOFID. Linux's client, which uses the least fids
/// that are free, doesn't reach it.
pub const OWN_FID: u32 = 0xffff_fffe;

/// The bit of a qid's kind that a directory has (intro(5)).
pub const QTDIR: u8 = 0x80;

/// The qid that means "don't touch" in a wstat (stat(5)). (`ONES_QID` of cs_permit is the same,
/// private there.)
const NO_QID: Qid = Qid {
    kind: u8::MAX,
    vers: u32::MAX,
    path: u64::MAX,
};

/// Whether a wstat of this stat can change only the name: every other field is "don't touch"
/// (stat(5)). The name may be any, also the empty one, which is "don't touch" too.
pub fn is_rename(stat: &Stat) -> bool
    ensures { result ≡ asks_name_alone (stat_of stat.now) }
{
    let identity = stat.kind == u16::MAX && stat.dev == u32::MAX && stat.qid == NO_QID;
    let mode_and_length = stat.mode == u32::MAX && stat.length == u64::MAX;
    let times = stat.atime == u32::MAX && stat.mtime == u32::MAX;
    let users = stat.uid.is_empty() && stat.gid.is_empty() && stat.muid.is_empty();
    identity && mode_and_length && times && users
}

/// Whether the qid is of a directory: its kind has QTDIR, the highest bit.
pub(crate) fn is_directory_qid(qid: Qid) -> bool
    ensures { result ≡ is_directory qid }
{
    QTDIR <= qid.kind
}

/// Makes a Tstat of this fid (stat(5)).
pub(crate) fn tstat(tag: u16, fid: u32) -> TMessage<'static>
    ensures { t_view result ≡ tstat tag fid }
{
    TMessage {
        tag,
        body: TBody::Stat { fid },
    }
}

/// Makes a Twalk from this fid by one name, to `OWN_FID` (walk(5)). The only error is that memory
/// runs out.
pub(crate) fn twalk(
    alloc: Global,
    tag: u16,
    fid: u32,
    name: &str,
) -> Result<TMessage<'static>, AllocError>
    ensures { IfOk result (λ m. t_view m ≡ twalk tag fid (name.now ∷ [])) }
{
    let mut wname = Vec::new(alloc);
    wname.push(String::from_str(alloc, name)?)?;
    Ok(TMessage {
        tag,
        body: TBody::Walk {
            fid,
            newfid: OWN_FID,
            wname,
        },
    })
}

/// Makes a Twalk from this fid by a name and then by a dot, which no walk passes: the reply shows
/// what has the name, and `OWN_FID` isn't made. The only error is that memory runs out.
pub(crate) fn twalk_probe(
    alloc: Global,
    tag: u16,
    fid: u32,
    name: &str,
) -> Result<TMessage<'static>, AllocError>
    ensures { IfOk result (λ m. t_view m ≡ twalk tag fid (name.now ∷ dot ∷ [])) }
{
    let mut wname = Vec::new(alloc);
    wname.push(String::from_str(alloc, name)?)?;
    wname.push(String::from_str(alloc, ".")?)?;
    Ok(TMessage {
        tag,
        body: TBody::Walk {
            fid,
            newfid: OWN_FID,
            wname,
        },
    })
}

/// Makes a Tremove of `OWN_FID` (remove(5)).
pub(crate) fn tremove(tag: u16) -> TMessage<'static>
    ensures { t_view result ≡ tremove tag }
{
    TMessage {
        tag,
        body: TBody::Remove { fid: OWN_FID },
    }
}

/// Makes a Tclunk of `OWN_FID` (clunk(5)).
pub(crate) fn tclunk(tag: u16) -> TMessage<'static>
    ensures { t_view result ≡ tclunk tag }
{
    TMessage {
        tag,
        body: TBody::Clunk { fid: OWN_FID },
    }
}

/// Makes a Twstat of this fid with this stat (stat(5)).
pub(crate) fn twstat(tag: u16, fid: u32, stat: Stat) -> TMessage<'static>
    ensures { t_view result ≡ twstat tag fid (stat_of stat) }
{
    TMessage {
        tag,
        body: TBody::Wstat { fid, stat },
    }
}
