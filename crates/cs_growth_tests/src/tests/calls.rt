//! Calls on a run of the start tree, by ann.

use super::shown::push_bytes;
use super::start::user;
use cs_fids::Place;
use cs_names::{Name, Text, Texts, UserName};
use cs_permit::{
    AttachCall, Call, CloseCall, CreateCall, OpenCall, ReadCall, RemoveCall, SentBytes, SentStat,
    StatCall, WalkCall, WriteCall, WstatCall,
};
use cs_run::{Answer, Data};
use cs_wire::{Qid, Stat};
use std::alloc::Global;

/// A call. The file is `/f`.
#[derive(Clone, Copy)]
pub enum Word {
    Attach,
    /// To `/d/s`.
    Walk,
    /// It empties the file.
    Open,
    /// `/new`.
    Create,
    Read,
    /// The entries of the root.
    List,
    Write,
    /// Of an open that removes the file.
    Close,
    /// Of an open that does not.
    ClosePlainly,
    Remove,
    /// Of a file that is open.
    RemoveOpen,
    Stat,
    /// Another name and another length.
    Wstat,
}

/// The number of the open that is there before a call that ends it.
const OPEN_NUMBER: u32 = 0;

/// The mode of that open: to be written, and removed on close or not.
pub fn mode_before(word: Word) -> Option<u8> {
    match word {
        Word::Close => Some(0x41),
        Word::ClosePlainly | Word::RemoveOpen => Some(1),
        _ => None,
    }
}

pub fn open(user: UserName, mode: u8) -> Call<'static> {
    Call::Open(OpenCall {
        number: 4,
        user,
        mode,
    })
}

pub fn stat(number: u64) -> Call<'static> {
    Call::Stat(StatCall { number })
}

pub fn read(number: u64, count: u32) -> Call<'static> {
    Call::Read(ReadCall {
        number,
        offset: 0,
        count,
        place: Place::start(),
    })
}

fn walk(alloc: Global, user: UserName) -> Option<Call<'static>> {
    let mut names = Vec::new(alloc);
    names.push(String::from_str(alloc, "d").ok()?).ok()?;
    names.push(String::from_str(alloc, "s").ok()?).ok()?;
    Some(Call::Walk(WalkCall {
        number: 0,
        user,
        names: Texts::new(names),
    }))
}

fn create(alloc: Global, user: UserName) -> Option<Call<'static>> {
    Some(Call::Create(CreateCall {
        number: 0,
        user,
        name: Name::read(alloc, b"new").ok()?,
        perm: 0o644,
        mode: 1,
    }))
}

fn write(user: UserName) -> Call<'static> {
    Call::Write(WriteCall {
        number: 4,
        user,
        offset: 3,
        bytes: SentBytes::borrow_from(b"HI"),
    })
}

fn close(user: UserName) -> Call<'static> {
    Call::Close(CloseCall {
        open_number: OPEN_NUMBER,
        user,
    })
}

fn remove(user: UserName, open_number: Option<u32>) -> Call<'static> {
    Call::Remove(RemoveCall {
        number: 4,
        user,
        open_number,
    })
}

const KEPT: Qid = Qid {
    kind: u8::MAX,
    vers: u32::MAX,
    path: u64::MAX,
};

fn wstat(alloc: Global, user: UserName) -> Option<Call<'static>> {
    let stat = Stat {
        kind: u16::MAX,
        dev: u32::MAX,
        qid: KEPT,
        mode: u32::MAX,
        atime: u32::MAX,
        mtime: u32::MAX,
        length: 2,
        name: String::from_str(alloc, "g").ok()?,
        uid: String::new(alloc),
        gid: String::new(alloc),
        muid: String::new(alloc),
    };
    Some(Call::Wstat(WstatCall {
        number: 4,
        user,
        stat: SentStat::new(stat),
    }))
}

fn attach(alloc: Global) -> Option<Call<'static>> {
    let user = Text::copy_of(alloc, "ann").ok()?;
    Some(Call::Attach(AttachCall { user }))
}

/// The call that a word means.
pub fn call_of(alloc: Global, word: Word) -> Option<Call<'static>> {
    let ann = user(alloc, b"ann")?;
    match word {
        Word::Attach => attach(alloc),
        Word::Walk => walk(alloc, ann),
        Word::Open => Some(open(ann, 0x11)),
        Word::Create => create(alloc, ann),
        Word::Read => Some(read(4, 4)),
        Word::List => Some(read(0, 400)),
        Word::Write => Some(write(ann)),
        Word::Close | Word::ClosePlainly => Some(close(ann)),
        Word::Remove => Some(remove(ann, None)),
        Word::RemoveOpen => Some(remove(ann, Some(OPEN_NUMBER))),
        Word::Stat => Some(stat(4)),
        Word::Wstat => wstat(alloc, ann),
    }
}

/// Adds the bytes of a read, and the place of the next read of the directory.
pub fn push_data(text: &mut String, data: Data) -> Option<()> {
    let (bytes, place) = data.into_parts();
    push_bytes(text, &bytes)?;
    match place {
        Some(place) => {
            let last = place.last?;
            write!(text, " next {} {last}", place.end).ok()
        }
        None => Some(()),
    }
}

fn push_stat(text: &mut String, stat: &Stat) -> Option<()> {
    let (name, uid, gid, muid) = (&stat.name, &stat.uid, &stat.gid, &stat.muid);
    write!(text, "{name} {uid} {gid} {muid} {:?}", stat.qid).ok()?;
    let (mode, length) = (stat.mode, stat.length);
    write!(text, " {mode:o} {length} {} {}", stat.atime, stat.mtime).ok()
}

/// Adds an answer. Its texts are added as they are, without allocating. The number of an open is
/// left out: a call that was refused before may count.
pub fn push_answer(text: &mut String, answer: Answer) -> Option<()> {
    match answer {
        Answer::Opened { qid, number, .. } => write!(text, "open {qid:?} {number}").ok(),
        Answer::Data(data) => push_data(text, data),
        Answer::Stat(stat) => push_stat(text, &stat.into_stat()),
        other => write!(text, "{other:?}").ok(),
    }
}
