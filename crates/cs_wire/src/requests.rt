//! The fields of each request. Each `read_` function gets the tag from the header, and a cursor
//! with the bytes after the header, which must be exactly the fields. First they are read, then no
//! byte may be left (Trailing), and only then are they copied, so Memory is the last fault. What
//! comes before the fields is read in `reading`.

ghost use Rattle.cs_wire.specs.declared.kind.TKind.TheVariants as tk;
ghost use Rattle.cs_wire.specs.Messages.{requests, t_view};
ghost use Rattle.cs_wire.specs.Reading.{all_of};
ghost use Rattle.cs_wire.specs.Answers.{IsSeenAsOrMemory, IsSeenAs};

use crate::copying::{copy_names, copy_text};
use crate::cursor::Cursor;
use crate::fault::WireFault;
use crate::kind::TKind;
use crate::message::{TBody, TMessage};
use std::alloc::Global;

/// Reads the fields of a Tversion: msize and version. The text is copied.
#[tactic(auto, unfolding(crate::specs::Reading::all_of, crate::specs::Reading::field_at))]
fn read_tversion(alloc: Global, tag: u16, mut fields: Cursor<'_>) -> Result<TMessage<'_>, WireFault>
    ensures { IsSeenAsOrMemory t_view result
        (all_of requests tk.Version tag fields.entry.rest.now) }
{
    let msize = fields.read_u32()?;
    let version = fields.read_text()?;
    fields.expect_end()?;
    let body = TBody::Version {
        msize,
        version: copy_text(alloc, version)?,
    };
    Ok(TMessage { tag, body })
}

/// Reads the fields of a Tauth: afid, uname and aname. The texts are copied.
#[tactic(auto, unfolding(crate::specs::Reading::all_of, crate::specs::Reading::field_at))]
fn read_tauth(alloc: Global, tag: u16, mut fields: Cursor<'_>) -> Result<TMessage<'_>, WireFault>
    ensures { IsSeenAsOrMemory t_view result (all_of requests tk.Auth tag fields.entry.rest.now) }
{
    let afid = fields.read_u32()?;
    let uname = fields.read_text()?;
    let aname = fields.read_text()?;
    fields.expect_end()?;
    let body = TBody::Auth {
        afid,
        uname: copy_text(alloc, uname)?,
        aname: copy_text(alloc, aname)?,
    };
    Ok(TMessage { tag, body })
}

/// Reads the fields of a Tattach: fid, afid, uname and aname. The texts are copied.
#[tactic(auto, unfolding(crate::specs::Reading::all_of, crate::specs::Reading::field_at))]
fn read_tattach(alloc: Global, tag: u16, mut fields: Cursor<'_>) -> Result<TMessage<'_>, WireFault>
    ensures { IsSeenAsOrMemory t_view result (all_of requests tk.Attach tag fields.entry.rest.now) }
{
    let fid = fields.read_u32()?;
    let afid = fields.read_u32()?;
    let uname = fields.read_text()?;
    let aname = fields.read_text()?;
    fields.expect_end()?;
    let body = TBody::Attach {
        fid,
        afid,
        uname: copy_text(alloc, uname)?,
        aname: copy_text(alloc, aname)?,
    };
    Ok(TMessage { tag, body })
}

/// Reads the fields of a Tflush: oldtag.
#[tactic(auto, unfolding(crate::specs::Reading::all_of, crate::specs::Reading::field_at))]
fn read_tflush(tag: u16, mut fields: Cursor<'_>) -> Result<TMessage<'_>, WireFault>
    ensures { IsSeenAs t_view result (all_of requests tk.Flush tag fields.entry.rest.now) }
{
    let oldtag = fields.read_u16()?;
    fields.expect_end()?;
    Ok(TMessage {
        tag,
        body: TBody::Flush { oldtag },
    })
}

/// Reads the fields of a Twalk: fid, newfid, and at most 16 names, which are copied.
#[tactic(auto, unfolding(crate::specs::Reading::all_of, crate::specs::Reading::field_at))]
fn read_twalk(alloc: Global, tag: u16, mut fields: Cursor<'_>) -> Result<TMessage<'_>, WireFault>
    ensures { IsSeenAsOrMemory t_view result (all_of requests tk.Walk tag fields.entry.rest.now) }
{
    let fid = fields.read_u32()?;
    let newfid = fields.read_u32()?;
    let wname = fields.read_names()?;
    fields.expect_end()?;
    let body = TBody::Walk {
        fid,
        newfid,
        wname: copy_names(alloc, wname.as_slice())?,
    };
    Ok(TMessage { tag, body })
}

/// Reads the fields of a Topen: fid and mode.
#[tactic(auto, unfolding(crate::specs::Reading::all_of, crate::specs::Reading::field_at))]
fn read_topen(tag: u16, mut fields: Cursor<'_>) -> Result<TMessage<'_>, WireFault>
    ensures { IsSeenAs t_view result (all_of requests tk.Open tag fields.entry.rest.now) }
{
    let fid = fields.read_u32()?;
    let mode = fields.read_u8()?;
    fields.expect_end()?;
    Ok(TMessage {
        tag,
        body: TBody::Open { fid, mode },
    })
}

/// Reads the fields of a Tcreate: fid, name, perm and mode. The name is copied.
#[tactic(auto, unfolding(crate::specs::Reading::all_of, crate::specs::Reading::field_at))]
fn read_tcreate(alloc: Global, tag: u16, mut fields: Cursor<'_>) -> Result<TMessage<'_>, WireFault>
    ensures { IsSeenAsOrMemory t_view result (all_of requests tk.Create tag fields.entry.rest.now) }
{
    let fid = fields.read_u32()?;
    let name = fields.read_text()?;
    let perm = fields.read_u32()?;
    let mode = fields.read_u8()?;
    fields.expect_end()?;
    let body = TBody::Create {
        fid,
        name: copy_text(alloc, name)?,
        perm,
        mode,
    };
    Ok(TMessage { tag, body })
}

/// Reads the fields of a Tread: fid, offset and count.
#[tactic(auto, unfolding(crate::specs::Reading::all_of, crate::specs::Reading::field_at))]
fn read_tread(tag: u16, mut fields: Cursor<'_>) -> Result<TMessage<'_>, WireFault>
    ensures { IsSeenAs t_view result (all_of requests tk.Read tag fields.entry.rest.now) }
{
    let fid = fields.read_u32()?;
    let offset = fields.read_u64()?;
    let count = fields.read_u32()?;
    fields.expect_end()?;
    Ok(TMessage {
        tag,
        body: TBody::Read { fid, offset, count },
    })
}

/// Reads the fields of a Twrite: fid, offset, and data, which is lent from the bytes and not
/// copied.
#[tactic(auto, unfolding(crate::specs::Reading::all_of, crate::specs::Reading::field_at))]
fn read_twrite(tag: u16, mut fields: Cursor<'_>) -> Result<TMessage<'_>, WireFault>
    ensures { IsSeenAs t_view result (all_of requests tk.Write tag fields.entry.rest.now) }
{
    let fid = fields.read_u32()?;
    let offset = fields.read_u64()?;
    let data = fields.read_data()?;
    fields.expect_end()?;
    Ok(TMessage {
        tag,
        body: TBody::Write { fid, offset, data },
    })
}

/// Reads the fields of a Tclunk: fid.
#[tactic(auto, unfolding(crate::specs::Reading::all_of, crate::specs::Reading::field_at))]
fn read_tclunk(tag: u16, mut fields: Cursor<'_>) -> Result<TMessage<'_>, WireFault>
    ensures { IsSeenAs t_view result (all_of requests tk.Clunk tag fields.entry.rest.now) }
{
    let fid = fields.read_u32()?;
    fields.expect_end()?;
    Ok(TMessage {
        tag,
        body: TBody::Clunk { fid },
    })
}

/// Reads the fields of a Tremove: fid.
#[tactic(auto, unfolding(crate::specs::Reading::all_of, crate::specs::Reading::field_at))]
fn read_tremove(tag: u16, mut fields: Cursor<'_>) -> Result<TMessage<'_>, WireFault>
    ensures { IsSeenAs t_view result (all_of requests tk.Remove tag fields.entry.rest.now) }
{
    let fid = fields.read_u32()?;
    fields.expect_end()?;
    Ok(TMessage {
        tag,
        body: TBody::Remove { fid },
    })
}

/// Reads the fields of a Tstat: fid.
#[tactic(auto, unfolding(crate::specs::Reading::all_of, crate::specs::Reading::field_at))]
fn read_tstat(tag: u16, mut fields: Cursor<'_>) -> Result<TMessage<'_>, WireFault>
    ensures { IsSeenAs t_view result (all_of requests tk.Stat tag fields.entry.rest.now) }
{
    let fid = fields.read_u32()?;
    fields.expect_end()?;
    Ok(TMessage {
        tag,
        body: TBody::Stat { fid },
    })
}

/// Reads the fields of a Twstat: fid and stat. The texts of the stat are copied.
#[tactic(auto, unfolding(crate::specs::Reading::all_of, crate::specs::Reading::field_at))]
fn read_twstat(alloc: Global, tag: u16, mut fields: Cursor<'_>) -> Result<TMessage<'_>, WireFault>
    ensures { IsSeenAsOrMemory t_view result (all_of requests tk.Wstat tag fields.entry.rest.now) }
{
    let fid = fields.read_u32()?;
    let stat = fields.read_stat()?;
    fields.expect_end()?;
    let body = TBody::Wstat {
        fid,
        stat: stat.to_stat(alloc)?,
    };
    Ok(TMessage { tag, body })
}

/// The request of that type and tag whose fields are all the bytes of the cursor, or the first
/// fault. Memory comes last, after Trailing.
pub(crate) fn read_request_fields(
    alloc: Global,
    kind: TKind,
    tag: u16,
    fields: Cursor<'_>,
) -> Result<TMessage<'_>, WireFault>
    ensures { IsSeenAsOrMemory t_view result (all_of requests kind tag fields.entry.rest.now) }
{
    match kind {
        TKind::Version => read_tversion(alloc, tag, fields),
        TKind::Auth => read_tauth(alloc, tag, fields),
        TKind::Attach => read_tattach(alloc, tag, fields),
        TKind::Flush => read_tflush(tag, fields),
        TKind::Walk => read_twalk(alloc, tag, fields),
        TKind::Open => read_topen(tag, fields),
        TKind::Create => read_tcreate(alloc, tag, fields),
        TKind::Read => read_tread(tag, fields),
        TKind::Write => read_twrite(tag, fields),
        TKind::Clunk => read_tclunk(tag, fields),
        TKind::Remove => read_tremove(tag, fields),
        TKind::Stat => read_tstat(tag, fields),
        TKind::Wstat => read_twstat(alloc, tag, fields),
    }
}
