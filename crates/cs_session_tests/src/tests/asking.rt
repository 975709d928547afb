//! Messages that are written as words.
use cs_fids::NOFID;
use cs_names::{Text, Texts};
use cs_permit::{SentBytes, SentStat};
use cs_session::{
    AttachMessage, CallMessage, CreateMessage, Message, OpenMessage, ReadMessage, WalkMessage,
    WriteMessage, WstatMessage,
};
use cs_wire::{Qid, Stat};
use std::alloc::Global;
use std::process::Abort;

/// An attach of ann to the run `a` of state 0.
pub fn attaching(rt: &impl Abort, alloc: Global, fid: u32) -> AttachMessage {
    AttachMessage {
        fid,
        afid: NOFID,
        uname: Text::copy_of(alloc, "ann").expect(rt, "memory"),
        aname: Text::copy_of(alloc, "0/a").expect(rt, "memory"),
    }
}

fn version(rt: &impl Abort, alloc: Global, msize: u32) -> Message<'static> {
    let version = Text::copy_of(alloc, "9P2000.L").expect(rt, "memory");
    Message::Version { msize, version }
}

/// A walk of one name.
fn walking(rt: &impl Abort, alloc: Global, fid: u32) -> CallMessage<'static> {
    let mut names = Vec::new(alloc);
    names
        .push(String::from_str(alloc, "a").expect(rt, "memory"))
        .expect(rt, "memory");
    CallMessage::Walk(WalkMessage {
        fid,
        newfid: 2,
        names: Texts::new(names),
    })
}

/// A walk of no name.
fn cloning(alloc: Global, fid: u32) -> CallMessage<'static> {
    CallMessage::Walk(WalkMessage {
        fid,
        newfid: 2,
        names: Texts::new(Vec::new(alloc)),
    })
}

/// A create of a file that is opened to be written.
fn creating(rt: &impl Abort, alloc: Global, fid: u32) -> CallMessage<'static> {
    let name = Text::copy_of(alloc, "c").expect(rt, "memory");
    CallMessage::Create(CreateMessage {
        fid,
        name,
        perm: 0o644,
        mode: 1,
    })
}

fn reading(fid: u32) -> CallMessage<'static> {
    CallMessage::Read(ReadMessage {
        fid,
        offset: 0,
        count: 9,
    })
}

fn writing(rt: &impl Abort, alloc: Global, fid: u32) -> CallMessage<'static> {
    let bytes = SentBytes::copy_of(alloc, b"abc").expect(rt, "memory");
    CallMessage::Write(WriteMessage {
        fid,
        offset: 0,
        bytes,
    })
}

const KEPT_QID: Qid = Qid {
    kind: u8::MAX,
    vers: u32::MAX,
    path: u64::MAX,
};

/// A wstat that changes only the name.
fn renaming(rt: &impl Abort, alloc: Global, fid: u32) -> CallMessage<'static> {
    let stat = Stat {
        kind: u16::MAX,
        dev: u32::MAX,
        qid: KEPT_QID,
        mode: u32::MAX,
        atime: u32::MAX,
        mtime: u32::MAX,
        length: u64::MAX,
        name: String::from_str(alloc, "b").expect(rt, "memory"),
        uid: String::new(alloc),
        gid: String::new(alloc),
        muid: String::new(alloc),
    };
    CallMessage::Wstat(WstatMessage {
        fid,
        stat: SentStat::new(stat),
    })
}

fn call_of(rt: &impl Abort, alloc: Global, word: &str, fid: u32) -> CallMessage<'static> {
    match word {
        "walk" => walking(rt, alloc, fid),
        "clone" => cloning(alloc, fid),
        "open" => CallMessage::Open(OpenMessage { fid, mode: 2 }),
        "create" => creating(rt, alloc, fid),
        "read" => reading(fid),
        "write" => writing(rt, alloc, fid),
        "remove" => CallMessage::Remove(fid),
        "stat" => CallMessage::Stat(fid),
        "wstat" => renaming(rt, alloc, fid),
        _ => panic!(rt; "a word of no call"),
    }
}

/// The message that the words name: `version` and a message size, or another word and a fid.
pub fn message_of(rt: &impl Abort, alloc: Global, words: &str) -> Message<'static> {
    let (word, number) = words.split_once(' ').expect(rt, "a value");
    let number = number.parse::<u32>().expect(rt, "a value");
    match word {
        "version" => version(rt, alloc, number),
        "attach" => Message::Attach(attaching(rt, alloc, number)),
        "clunk" => Message::Clunk(number),
        _ => Message::Call(call_of(rt, alloc, word, number)),
    }
}
