//! Messages of a connection whose fid 0 was walked to, and whose fid 1 is open.

use cs_fids::NOFID;
use cs_names::{Text, Texts};
use cs_permit::{SentBytes, SentStat};
use cs_session::{
    AttachMessage, CallMessage, CreateMessage, OpenMessage, ReadMessage, WalkMessage, WriteMessage,
    WstatMessage,
};
use cs_wire::{Qid, Stat};
use std::alloc::Global;

pub fn text(alloc: Global, text: &str) -> Option<Text> {
    Text::copy_of(alloc, text).ok()
}

pub fn attach(alloc: Global, fid: u32) -> Option<AttachMessage> {
    Some(AttachMessage {
        fid,
        afid: NOFID,
        uname: text(alloc, "ann")?,
        aname: text(alloc, "0/a")?,
    })
}

const KEPT: Qid = Qid {
    kind: u8::MAX,
    vers: u32::MAX,
    path: u64::MAX,
};

pub fn wstat(alloc: Global) -> Option<CallMessage<'static>> {
    let stat = Stat {
        kind: u16::MAX,
        dev: u32::MAX,
        qid: KEPT,
        mode: u32::MAX,
        atime: u32::MAX,
        mtime: u32::MAX,
        length: u64::MAX,
        name: text(alloc, "b")?.into_string(),
        uid: String::new(alloc),
        gid: String::new(alloc),
        muid: String::new(alloc),
    };
    Some(CallMessage::Wstat(WstatMessage {
        fid: 0,
        stat: SentStat::new(stat),
    }))
}

pub fn walk(alloc: Global, newfid: u32) -> CallMessage<'static> {
    CallMessage::Walk(WalkMessage {
        fid: 0,
        newfid,
        names: Texts::new(Vec::new(alloc)),
    })
}

/// A walk of the fid 0 by two names.
pub fn walk_on(alloc: Global) -> Option<CallMessage<'static>> {
    let mut names = Vec::new(alloc);
    names.push(String::from_str(alloc, "d").ok()?).ok()?;
    names.push(String::from_str(alloc, "s").ok()?).ok()?;
    Some(CallMessage::Walk(WalkMessage {
        fid: 0,
        newfid: 2,
        names: Texts::new(names),
    }))
}

pub fn open(fid: u32) -> CallMessage<'static> {
    CallMessage::Open(OpenMessage { fid, mode: 2 })
}

pub fn create(alloc: Global) -> Option<CallMessage<'static>> {
    Some(CallMessage::Create(CreateMessage {
        fid: 0,
        name: text(alloc, "c")?,
        perm: 0o644,
        mode: 1,
    }))
}

pub fn read() -> CallMessage<'static> {
    CallMessage::Read(ReadMessage {
        fid: 1,
        offset: 0,
        count: 9,
    })
}

pub fn write() -> CallMessage<'static> {
    CallMessage::Write(WriteMessage {
        fid: 1,
        offset: 0,
        bytes: SentBytes::borrow_from(b"abc"),
    })
}
