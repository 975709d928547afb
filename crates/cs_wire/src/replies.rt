//! The fields of each reply. Each `read_` function gets the tag from the header, and a cursor with
//! the bytes after the header, which must be exactly the fields. As in `requests`, they are read
//! first, then no byte may be left (Trailing), and only then are texts, lists and data copied, so
//! Memory is the last fault.

ghost use Rattle.cs_wire.specs.declared.kind.RKind.TheVariants as rk;
ghost use Rattle.cs_wire.specs.Messages.{replies, r_view};
ghost use Rattle.cs_wire.specs.Reading.{all_of};
ghost use Rattle.cs_wire.specs.Answers.{IsSeenAsOrMemory, IsSeenAs};

use crate::copying::{copy_items, copy_text};
use crate::cursor::Cursor;
use crate::fault::WireFault;
use crate::kind::RKind;
use crate::message::{RBody, RMessage};
use std::alloc::Global;
use std::borrow::CowStr;

/// Reads the fields of an Rversion: msize and version. The text is copied.
#[tactic(auto, unfolding(crate::specs::Reading::all_of, crate::specs::Reading::field_at))]
fn read_rversion(alloc: Global, tag: u16, mut fields: Cursor) -> Result<RMessage, WireFault>
    ensures { IsSeenAsOrMemory r_view result (all_of replies rk.Version tag fields.entry.rest.now) }
{
    let msize = fields.read_u32()?;
    let version = fields.read_text()?;
    fields.expect_end()?;
    let version = CowStr::Owned(copy_text(alloc, version)?);
    Ok(RMessage {
        tag,
        body: RBody::Version { msize, version },
    })
}

/// Reads the field of an Rauth: aqid.
#[tactic(auto, unfolding(crate::specs::Reading::all_of))]
fn read_rauth(tag: u16, mut fields: Cursor) -> Result<RMessage, WireFault>
    ensures { IsSeenAs r_view result (all_of replies rk.Auth tag fields.entry.rest.now) }
{
    let aqid = fields.read_qid()?;
    fields.expect_end()?;
    Ok(RMessage {
        tag,
        body: RBody::Auth { aqid },
    })
}

/// Reads the field of an Rattach: qid.
#[tactic(auto, unfolding(crate::specs::Reading::all_of))]
fn read_rattach(tag: u16, mut fields: Cursor) -> Result<RMessage, WireFault>
    ensures { IsSeenAs r_view result (all_of replies rk.Attach tag fields.entry.rest.now) }
{
    let qid = fields.read_qid()?;
    fields.expect_end()?;
    Ok(RMessage {
        tag,
        body: RBody::Attach { qid },
    })
}

/// Reads the field of an Rerror: ename, which is copied.
#[tactic(auto, unfolding(crate::specs::Reading::all_of))]
fn read_rerror(alloc: Global, tag: u16, mut fields: Cursor) -> Result<RMessage, WireFault>
    ensures { IsSeenAsOrMemory r_view result (all_of replies rk.Error tag fields.entry.rest.now) }
{
    let ename = fields.read_text()?;
    fields.expect_end()?;
    let ename = CowStr::Owned(copy_text(alloc, ename)?);
    Ok(RMessage {
        tag,
        body: RBody::Error { ename },
    })
}

/// Reads an Rflush, which has no fields: any byte is Trailing.
#[tactic(auto, unfolding(crate::specs::Reading::all_of, crate::specs::Reading::field_at))]
fn read_rflush(tag: u16, fields: Cursor) -> Result<RMessage, WireFault>
    ensures { IsSeenAs r_view result (all_of replies rk.Flush tag fields.entry.rest.now) }
{
    fields.expect_end()?;
    Ok(RMessage {
        tag,
        body: RBody::Flush,
    })
}

/// Reads the field of an Rwalk: at most 16 qids, which are copied.
#[tactic(auto, unfolding(crate::specs::Reading::all_of, crate::specs::Reading::field_at))]
fn read_rwalk(alloc: Global, tag: u16, mut fields: Cursor) -> Result<RMessage, WireFault>
    ensures { IsSeenAsOrMemory r_view result (all_of replies rk.Walk tag fields.entry.rest.now) }
{
    let wqid = fields.read_qids()?;
    fields.expect_end()?;
    let wqid = copy_items(alloc, wqid.as_slice())?;
    Ok(RMessage {
        tag,
        body: RBody::Walk { wqid },
    })
}

/// Reads the fields of an Ropen: qid and iounit.
#[tactic(auto, unfolding(crate::specs::Reading::all_of, crate::specs::Reading::field_at))]
fn read_ropen(tag: u16, mut fields: Cursor) -> Result<RMessage, WireFault>
    ensures { IsSeenAs r_view result (all_of replies rk.Open tag fields.entry.rest.now) }
{
    let qid = fields.read_qid()?;
    let iounit = fields.read_u32()?;
    fields.expect_end()?;
    Ok(RMessage {
        tag,
        body: RBody::Open { qid, iounit },
    })
}

/// Reads the fields of an Rcreate: qid and iounit.
#[tactic(auto, unfolding(crate::specs::Reading::all_of, crate::specs::Reading::field_at))]
fn read_rcreate(tag: u16, mut fields: Cursor) -> Result<RMessage, WireFault>
    ensures { IsSeenAs r_view result (all_of replies rk.Create tag fields.entry.rest.now) }
{
    let qid = fields.read_qid()?;
    let iounit = fields.read_u32()?;
    fields.expect_end()?;
    Ok(RMessage {
        tag,
        body: RBody::Create { qid, iounit },
    })
}

/// Reads the field of an Rread: data, which is copied.
#[tactic(auto, unfolding(crate::specs::Reading::all_of, crate::specs::Reading::field_at))]
fn read_rread(alloc: Global, tag: u16, mut fields: Cursor) -> Result<RMessage, WireFault>
    ensures { IsSeenAsOrMemory r_view result (all_of replies rk.Read tag fields.entry.rest.now) }
{
    let data = fields.read_data()?;
    fields.expect_end()?;
    let data = copy_items(alloc, data)?;
    Ok(RMessage {
        tag,
        body: RBody::Read { data },
    })
}

/// Reads the field of an Rwrite: count.
#[tactic(auto, unfolding(crate::specs::Reading::all_of, crate::specs::Reading::field_at))]
fn read_rwrite(tag: u16, mut fields: Cursor) -> Result<RMessage, WireFault>
    ensures { IsSeenAs r_view result (all_of replies rk.Write tag fields.entry.rest.now) }
{
    let count = fields.read_u32()?;
    fields.expect_end()?;
    Ok(RMessage {
        tag,
        body: RBody::Write { count },
    })
}

/// Reads an Rclunk, which has no fields: any byte is Trailing.
#[tactic(auto, unfolding(crate::specs::Reading::all_of, crate::specs::Reading::field_at))]
fn read_rclunk(tag: u16, fields: Cursor) -> Result<RMessage, WireFault>
    ensures { IsSeenAs r_view result (all_of replies rk.Clunk tag fields.entry.rest.now) }
{
    fields.expect_end()?;
    Ok(RMessage {
        tag,
        body: RBody::Clunk,
    })
}

/// Reads an Rremove, which has no fields: any byte is Trailing.
#[tactic(auto, unfolding(crate::specs::Reading::all_of, crate::specs::Reading::field_at))]
fn read_rremove(tag: u16, fields: Cursor) -> Result<RMessage, WireFault>
    ensures { IsSeenAs r_view result (all_of replies rk.Remove tag fields.entry.rest.now) }
{
    fields.expect_end()?;
    Ok(RMessage {
        tag,
        body: RBody::Remove,
    })
}

/// Reads the field of an Rstat: stat. Its texts are copied.
#[tactic(auto, unfolding(crate::specs::Reading::all_of, crate::specs::Reading::field_at))]
fn read_rstat(alloc: Global, tag: u16, mut fields: Cursor) -> Result<RMessage, WireFault>
    ensures { IsSeenAsOrMemory r_view result (all_of replies rk.Stat tag fields.entry.rest.now) }
{
    let stat = fields.read_stat()?;
    fields.expect_end()?;
    let stat = stat.to_stat(alloc)?;
    Ok(RMessage {
        tag,
        body: RBody::Stat { stat },
    })
}

/// Reads an Rwstat, which has no fields: any byte is Trailing.
#[tactic(auto, unfolding(crate::specs::Reading::all_of, crate::specs::Reading::field_at))]
fn read_rwstat(tag: u16, fields: Cursor) -> Result<RMessage, WireFault>
    ensures { IsSeenAs r_view result (all_of replies rk.Wstat tag fields.entry.rest.now) }
{
    fields.expect_end()?;
    Ok(RMessage {
        tag,
        body: RBody::Wstat,
    })
}

/// The reply of that type and tag whose fields are all the bytes of the cursor, or the first fault.
/// Memory comes last, after Trailing.
pub(crate) fn read_reply_fields(
    alloc: Global,
    kind: RKind,
    tag: u16,
    fields: Cursor,
) -> Result<RMessage, WireFault>
    ensures { IsSeenAsOrMemory r_view result (all_of replies kind tag fields.entry.rest.now) }
{
    match kind {
        RKind::Version => read_rversion(alloc, tag, fields),
        RKind::Auth => read_rauth(tag, fields),
        RKind::Attach => read_rattach(tag, fields),
        RKind::Error => read_rerror(alloc, tag, fields),
        RKind::Flush => read_rflush(tag, fields),
        RKind::Walk => read_rwalk(alloc, tag, fields),
        RKind::Open => read_ropen(tag, fields),
        RKind::Create => read_rcreate(tag, fields),
        RKind::Read => read_rread(alloc, tag, fields),
        RKind::Write => read_rwrite(tag, fields),
        RKind::Clunk => read_rclunk(tag, fields),
        RKind::Remove => read_rremove(tag, fields),
        RKind::Stat => read_rstat(alloc, tag, fields),
        RKind::Wstat => read_rwstat(tag, fields),
    }
}
