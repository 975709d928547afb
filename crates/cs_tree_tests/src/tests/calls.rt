//! The changing calls of a store, each made only if its conditions hold.

use cs_names::{Name, UserName};
use cs_test_stores::{
    can_leave, has_bytes, takes_changes, takes_entries, takes_length, takes_mode, takes_name,
};
use cs_tree_model::{Change, New, Stamp, TreeStore, is_empty};
use std::alloc::Global;
use std::process::Abort;

/// The fields of a change, by their texts.
#[derive(Clone, Copy)]
pub struct Fields {
    pub name: Option<&'static str>,
    pub length: Option<u64>,
    pub mode: Option<u32>,
    pub group: Option<&'static str>,
    pub mtime: Option<u32>,
}

/// No field.
pub const NONE: Fields = Fields {
    name: None,
    length: None,
    mode: None,
    group: None,
    mtime: None,
};

/// A changing call, with the number of the file; `Add` has the directory's.
#[derive(Clone, Copy)]
pub enum Call {
    Add(u64, &'static str, u32),
    Remove(u64),
    Write(u64, u64, &'static [u8]),
    Change(u64, Fields),
}

fn name(rt: &impl Abort, alloc: Global, text: &str) -> Name {
    Name::read(alloc, text.as_bytes()).expect(rt, "a name")
}

fn user(rt: &impl Abort, alloc: Global, text: &str) -> UserName {
    UserName::read(alloc, text.as_bytes()).expect(rt, "a user's name")
}

fn add<T: TreeStore>(
    rt: &impl Abort,
    alloc: Global,
    tree: &mut T,
    directory: u64,
    name: Name,
    new: New,
    stamp: Stamp,
) {
    assert!(rt; takes_entries(tree, directory) && tree.last_number() != u64::MAX);
    assert!(rt; tree.find_number(directory, name.as_str()).is_none());
    let next = tree.last_number() + 1;
    let number = tree.add(alloc, directory, name, new, stamp);
    assert!(rt; number.expect(rt, "memory") == next);
}

fn remove<T: TreeStore>(rt: &impl Abort, alloc: Global, tree: &mut T, number: u64, stamp: Stamp) {
    assert!(rt; number != 0 && takes_changes(tree, number));
    assert!(rt; can_leave(tree, number) && is_empty(tree, number));
    tree.remove(alloc, number, stamp).expect(rt, "memory");
}

pub fn write<T: TreeStore>(
    rt: &impl Abort,
    alloc: Global,
    tree: &mut T,
    number: u64,
    offset: u64,
    bytes: &[u8],
    stamp: Stamp,
) {
    assert!(rt; has_bytes(tree, number) && takes_changes(tree, number));
    assert!(rt; !bytes.is_empty() && bytes.len() <= 1 << 20 && offset <= 1 << 20);
    tree.write_at(alloc, number, offset, bytes, stamp)
        .expect(rt, "memory");
}

fn change<T: TreeStore>(
    rt: &impl Abort,
    alloc: Global,
    tree: &mut T,
    number: u64,
    change: &Change,
    stamp: Stamp,
) {
    assert!(rt; takes_changes(tree, number) && takes_length(tree, number, change.length));
    assert!(rt; takes_mode(tree, number, change.mode) && takes_name(tree, number, &change.name));
    tree.change(alloc, number, change, stamp)
        .expect(rt, "memory");
}

fn change_of(rt: &impl Abort, alloc: Global, fields: &Fields) -> Change {
    let file_name = match fields.name {
        Some(text) => Some(name(rt, alloc, text)),
        None => None,
    };
    let group = match fields.group {
        Some(text) => Some(user(rt, alloc, text)),
        None => None,
    };
    Change {
        name: file_name,
        length: fields.length,
        mode: fields.mode,
        group,
        mtime: fields.mtime,
    }
}

/// Makes a call that may be made, at a moment and by a user.
pub fn must_make<T: TreeStore>(
    rt: &impl Abort,
    alloc: Global,
    tree: &mut T,
    call: Call,
    now: u32,
    by: &str,
) {
    let stamp = Stamp {
        now,
        user: user(rt, alloc, by),
    };
    match call {
        Call::Add(directory, text, mode) => {
            let name = name(rt, alloc, text);
            add(rt, alloc, tree, directory, name, New { mode }, stamp);
        }
        Call::Remove(number) => remove(rt, alloc, tree, number, stamp),
        Call::Write(number, offset, bytes) => write(rt, alloc, tree, number, offset, bytes, stamp),
        Call::Change(number, fields) => {
            let fields = change_of(rt, alloc, &fields);
            change(rt, alloc, tree, number, &fields, stamp);
        }
    }
}
