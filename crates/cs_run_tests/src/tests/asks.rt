//! Calls written in words.

use cs_fids::Place;
use cs_names::{Name, Text, Texts, UserName};
use cs_permit::{
    AttachCall, Call, CloseCall, CreateCall, OpenCall, ReadCall, RemoveCall, SentBytes, SentStat,
    StatCall, WalkCall, WriteCall, WstatCall,
};
use cs_wire::{Qid, Stat};
use std::alloc::Global;
use std::process::Abort;

/// The first word, and the words after it.
pub fn split_word(words: &str) -> (&str, &str) {
    words.split_once(' ').unwrap_or((words, ""))
}

fn number(word: &str) -> Option<u64> {
    word.parse::<u64>().ok()
}

fn short(word: &str) -> Option<u32> {
    word.parse::<u32>().ok()
}

/// A mode of an open: hexadecimal digits.
fn mode_of(word: &str) -> Option<u8> {
    u8::from_str_radix(word, 16).ok()
}

/// Permissions: octal digits, after `dir:`, `append:` or `excl:` if it isn't a plain file
/// (stat(5)).
fn perm_of(word: &str) -> Option<u32> {
    let (bit, digits) = match word.split_once(':') {
        Some(("dir", digits)) => (0x8000_0000, digits),
        Some(("append", digits)) => (0x4000_0000, digits),
        Some((_, digits)) => (0x2000_0000, digits),
        None => (0, word),
    };
    Some(bit | u32::from_str_radix(digits, 8).ok()?)
}

fn attach(rt: &impl Abort, alloc: Global, user: UserName) -> Call<'static> {
    let user = Text::copy_of(alloc, user.as_str()).expect(rt, "memory");
    Call::Attach(AttachCall { user })
}

/// Names, with slashes between them.
fn names_of(rt: &impl Abort, alloc: Global, text: &str) -> Texts {
    let mut names = Vec::new(alloc);
    if text.is_empty() {
        return Texts::new(names);
    }
    for name in text.split('/') {
        names
            .push(String::from_str(alloc, name).expect(rt, "memory"))
            .expect(rt, "memory");
    }
    Texts::new(names)
}

/// From a file, by these names.
fn walk(rt: &impl Abort, alloc: Global, user: UserName, words: &str) -> Call<'static> {
    let (file, names) = split_word(words);
    let number = number(file).expect(rt, "a value");
    let names = names_of(rt, alloc, names);
    Call::Walk(WalkCall {
        number,
        user,
        names,
    })
}

/// The file and the mode.
fn open(rt: &impl Abort, user: UserName, words: &str) -> Call<'static> {
    let (file, mode) = split_word(words);
    let (number, mode) = (
        number(file).expect(rt, "a value"),
        mode_of(mode).expect(rt, "a value"),
    );
    Call::Open(OpenCall { number, user, mode })
}

/// The directory, the name, the permissions and the mode.
fn create(rt: &impl Abort, alloc: Global, user: UserName, words: &str) -> Call<'static> {
    let (file, words) = split_word(words);
    let (name, words) = split_word(words);
    let (perm, mode) = split_word(words);
    let (number, perm, mode) = (
        number(file).expect(rt, "a value"),
        perm_of(perm).expect(rt, "a value"),
        mode_of(mode).expect(rt, "a value"),
    );
    let name = Name::read(alloc, name.as_bytes()).expect(rt, "a value");
    Call::Create(CreateCall {
        number,
        user,
        name,
        perm,
        mode,
    })
}

/// A read by the words for file, offset and count, which continues from a place.
fn read(rt: &impl Abort, words: &str, place: &Place) -> Call<'static> {
    let (file, words) = split_word(words);
    let (offset, count) = split_word(words);
    let (number, offset, count) = (
        number(file).expect(rt, "a value"),
        number(offset).expect(rt, "a value"),
        short(count).expect(rt, "a value"),
    );
    let place = place.try_clone().expect(rt, "memory");
    Call::Read(ReadCall {
        number,
        offset,
        count,
        place,
    })
}

/// The file, the offset and the bytes.
fn write(rt: &impl Abort, alloc: Global, user: UserName, words: &str) -> Call<'static> {
    let (file, words) = split_word(words);
    let (offset, text) = split_word(words);
    let (number, offset) = (
        number(file).expect(rt, "a value"),
        number(offset).expect(rt, "a value"),
    );
    let bytes = SentBytes::copy_of(alloc, text.as_bytes()).expect(rt, "memory");
    Call::Write(WriteCall {
        number,
        user,
        offset,
        bytes,
    })
}

/// The number of the open.
fn close(rt: &impl Abort, user: UserName, words: &str) -> Call<'static> {
    let open_number = short(words).expect(rt, "a value");
    Call::Close(CloseCall { open_number, user })
}

/// The file, of a fid that isn't open.
fn remove(rt: &impl Abort, user: UserName, words: &str) -> Call<'static> {
    let number = number(words).expect(rt, "a value");
    Call::Remove(RemoveCall {
        number,
        user,
        open_number: None,
    })
}

/// The file, of a fid that is open, and the number of the open.
fn remove_open(rt: &impl Abort, user: UserName, words: &str) -> Call<'static> {
    let (file, open_number) = split_word(words);
    let (number, open_number) = (
        number(file).expect(rt, "a value"),
        short(open_number).expect(rt, "a value"),
    );
    Call::Remove(RemoveCall {
        number,
        user,
        open_number: Some(open_number),
    })
}

/// What `name=g,mode=600` says of a field, such as `mode=`.
fn change_in<'a>(changes: &'a str, field: &str) -> Option<&'a str> {
    for change in changes.split(',') {
        if let Some(value) = change.strip_prefix(field) {
            return Some(value);
        }
    }
    None
}

fn text_in(rt: &impl Abort, alloc: Global, changes: &str, field: &str) -> String {
    String::from_str(alloc, change_in(changes, field).unwrap_or("")).expect(rt, "memory")
}

fn length_in(changes: &str) -> Option<u64> {
    match change_in(changes, "length=") {
        Some(length) => number(length),
        None => Some(u64::MAX),
    }
}

fn mode_in(changes: &str) -> Option<u32> {
    match change_in(changes, "mode=") {
        Some(mode) => perm_of(mode),
        None => Some(u32::MAX),
    }
}

fn mtime_in(changes: &str) -> Option<u32> {
    match change_in(changes, "mtime=") {
        Some(mtime) => short(mtime),
        None => Some(u32::MAX),
    }
}

/// That of a wstat that says "don't touch".
const ANY_QID: Qid = Qid {
    kind: u8::MAX,
    vers: u32::MAX,
    path: u64::MAX,
};

/// A stat that says "don't touch" of every field but those of the changes.
fn stat_of(rt: &impl Abort, alloc: Global, changes: &str) -> Stat {
    let (mode, mtime) = (
        mode_in(changes).expect(rt, "a value"),
        mtime_in(changes).expect(rt, "a value"),
    );
    let length = length_in(changes).expect(rt, "a value");
    Stat {
        kind: u16::MAX,
        dev: u32::MAX,
        qid: ANY_QID,
        mode,
        atime: u32::MAX,
        mtime,
        length,
        name: text_in(rt, alloc, changes, "name="),
        uid: text_in(rt, alloc, changes, "uid="),
        gid: text_in(rt, alloc, changes, "gid="),
        muid: String::new(alloc),
    }
}

/// The file and the changes.
fn wstat(rt: &impl Abort, alloc: Global, user: UserName, words: &str) -> Call<'static> {
    let (file, changes) = split_word(words);
    let number = number(file).expect(rt, "a value");
    let stat = SentStat::new(stat_of(rt, alloc, changes));
    Call::Wstat(WstatCall { number, user, stat })
}

/// The user's call that the words mean: a word, and what its function takes. A read continues from
/// that place. Numbers are those of files, for a close that of the open.
pub fn call_of(
    rt: &impl Abort,
    alloc: Global,
    user: &str,
    words: &str,
    place: &Place,
) -> Call<'static> {
    let (word, words) = split_word(words);
    let user = UserName::read(alloc, user.as_bytes()).expect(rt, "a value");
    match word {
        "attach" => attach(rt, alloc, user),
        "walk" => walk(rt, alloc, user, words),
        "open" => open(rt, user, words),
        "create" => create(rt, alloc, user, words),
        "read" => read(rt, words, place),
        "write" => write(rt, alloc, user, words),
        "close" => close(rt, user, words),
        "remove" => remove(rt, user, words),
        "remove_open" => remove_open(rt, user, words),
        "stat" => Call::Stat(StatCall {
            number: number(words).expect(rt, "a value"),
        }),
        _ => wstat(rt, alloc, user, words),
    }
}
