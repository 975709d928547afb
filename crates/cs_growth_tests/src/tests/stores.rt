//! The calls of a store: a plain tree, and an overlay over one.

use super::rows::{Row, expect_swept};
use super::shown::push_tree;
use super::start::{start_overlay, start_tree, user};
use cs_names::Name;
use cs_overlay::Overlay;
use cs_test_memory::{End, Subject};
use cs_test_stores::{
    can_leave, has_bytes, takes_changes, takes_entries, takes_length, takes_mode, takes_name,
};
use cs_tree::PlainTree;
use cs_tree_model::{Change, New, Stamp, TreeStore, is_empty};
use std::alloc::{AllocError, Global};

/// A call on the start tree.
#[derive(Clone, Copy)]
enum Call {
    /// The bytes of `/f`.
    Read,
    /// `/d/new`.
    Add,
    /// `/d/s/z`.
    Remove,
    /// Into `/f`, from an offset on.
    Write(u64),
    /// `/f` becomes `/long`.
    Rename,
    /// `/f` gets so many bytes.
    Resize(u64),
    /// `/f` gets the group `bob`.
    Regroup,
}

/// A store that begins as the start tree.
trait Store: TreeStore + Drop {
    fn made(alloc: Global) -> Option<Self>;
}

impl Store for PlainTree {
    fn made(alloc: Global) -> Option<PlainTree> {
        start_tree(alloc)
    }
}

impl Store for Overlay<PlainTree> {
    fn made(alloc: Global) -> Option<Overlay<PlainTree>> {
        start_overlay(alloc)
    }
}

/// What a call is given.
#[derive(Drop)]
struct Given {
    stamp: Stamp,
    name: Name,
    change: Change,
}

/// A store, and what its next call is given.
#[derive(Drop)]
struct Kept<T> {
    tree: T,
    given: Option<Given>,
}

const NO_CHANGE: Change = Change {
    name: None,
    length: None,
    mode: None,
    group: None,
    mtime: Some(5),
};

fn change(alloc: Global, call: Call) -> Option<Change> {
    Some(match call {
        Call::Rename => Change {
            name: Some(Name::read(alloc, b"long").ok()?),
            ..NO_CHANGE
        },
        Call::Resize(length) => Change {
            length: Some(length),
            ..NO_CHANGE
        },
        Call::Regroup => Change {
            group: Some(user(alloc, b"bob")?),
            ..NO_CHANGE
        },
        _ => NO_CHANGE,
    })
}

fn give(alloc: Global, call: Call) -> Option<Given> {
    Some(Given {
        stamp: Stamp {
            now: 7,
            user: user(alloc, b"bob")?,
        },
        name: Name::read(alloc, b"new").ok()?,
        change: change(alloc, call)?,
    })
}

/// The number of a new file, or the bytes that were read.
#[derive(Debug, Drop)]
enum Told {
    Nothing,
    Number(u64),
    Bytes(Option<Vec<u8>>),
}

fn told_nothing(answer: Result<(), AllocError>) -> Option<End<Told>> {
    match answer {
        Ok(()) => Some(End::Done(Told::Nothing)),
        Err(_) => Some(End::Short),
    }
}

fn read<T: TreeStore>(alloc: Global, tree: &T) -> Option<End<Told>> {
    match tree.read_at(alloc, 4, 1, 3) {
        Ok(bytes) => Some(End::Done(Told::Bytes(bytes))),
        Err(_) => Some(End::Short),
    }
}

fn add<T: TreeStore>(alloc: Global, tree: &mut T, given: Given) -> Option<End<Told>> {
    let name = given.name;
    if !takes_entries(tree, 1) || tree.last_number() == u64::MAX {
        return None;
    }
    if tree.find_number(1, name.as_str()).is_some() {
        return None;
    }
    match tree.add(alloc, 1, name, New { mode: 0o640 }, given.stamp) {
        Ok(number) => Some(End::Done(Told::Number(number))),
        Err(_) => Some(End::Short),
    }
}

fn remove<T: TreeStore>(alloc: Global, tree: &mut T, stamp: Stamp) -> Option<End<Told>> {
    if !takes_changes(tree, 3) || !can_leave(tree, 3) || !is_empty(tree, 3) {
        return None;
    }
    told_nothing(tree.remove(alloc, 3, stamp))
}

fn write_at<T: TreeStore>(
    alloc: Global,
    tree: &mut T,
    offset: u64,
    stamp: Stamp,
) -> Option<End<Told>> {
    if !has_bytes(tree, 4) || !takes_changes(tree, 4) || offset > 1 << 20 {
        return None;
    }
    told_nothing(tree.write_at(alloc, 4, offset, b"HI", stamp))
}

fn change_file<T: TreeStore>(alloc: Global, tree: &mut T, given: Given) -> Option<End<Told>> {
    let fields = given.change;
    if !takes_changes(tree, 4) || !takes_length(tree, 4, fields.length) {
        return None;
    }
    if !takes_mode(tree, 4, fields.mode) || !takes_name(tree, 4, &fields.name) {
        return None;
    }
    told_nothing(tree.change(alloc, 4, &fields, given.stamp))
}

fn make<T: TreeStore>(alloc: Global, tree: &mut T, call: Call, given: Given) -> Option<End<Told>> {
    match call {
        Call::Read => read(alloc, tree),
        Call::Add => add(alloc, tree, given),
        Call::Remove => remove(alloc, tree, given.stamp),
        Call::Write(offset) => write_at(alloc, tree, offset, given.stamp),
        Call::Rename | Call::Resize(_) | Call::Regroup => change_file(alloc, tree, given),
    }
}

impl<T: Store> Subject for Kept<T> {
    type Row = Row<Call>;

    type Answer = Told;

    fn start(alloc: Global, row: &Row<Call>) -> Option<Kept<T>> {
        Some(Kept {
            tree: T::made(alloc)?,
            given: give(alloc, row.1),
        })
    }

    fn call(&mut self, alloc: Global, row: &Row<Call>) -> Option<End<Told>> {
        let given = match self.given.take() {
            Some(given) => given,
            // the second time
            None => give(alloc, row.1)?,
        };
        make(alloc, &mut self.tree, row.1, given)
    }

    fn push(answer: Told, said: &mut String) -> Option<()> {
        write!(said, "{answer:?}").ok()
    }

    fn tell(&mut self, alloc: Global, told: &mut String) -> Option<()> {
        push_tree(told, alloc, &self.tree)
    }

    fn spent(_row: &Row<Call>, _said: &str) -> Option<bool> {
        None
    }
}

/// A removal from a plain tree needs no memory.
const OF_PLAIN: [Row<Call>; 6] = [
    Row("cs_tree PlainTree::read_at", Call::Read),
    Row("cs_tree PlainTree::add", Call::Add),
    Row("cs_tree PlainTree::write_at", Call::Write(5000)),
    Row("cs_tree PlainTree::change", Call::Rename),
    Row("cs_tree PlainTree::change", Call::Resize(9)),
    Row("cs_tree PlainTree::change", Call::Regroup),
];

const OF_OVERLAY: [Row<Call>; 9] = [
    Row("cs_overlay Overlay::read_at", Call::Read),
    Row("cs_overlay Overlay::add", Call::Add),
    Row("cs_overlay Overlay::remove", Call::Remove),
    Row("cs_overlay Overlay::write_at", Call::Write(3)),
    Row("cs_overlay Overlay::write_at", Call::Write(5000)),
    Row("cs_overlay Overlay::change", Call::Rename),
    Row("cs_overlay Overlay::change", Call::Resize(2)),
    Row("cs_overlay Overlay::change", Call::Resize(5000)),
    Row("cs_overlay Overlay::change", Call::Regroup),
];

/// A read, an add, a long write, another name, length and group, on the plain start tree; and with
/// a remove on an overlay over it.
#[test]
fn a_plain_tree_stays_as_it_was(rt: HostRuntime) {
    expect_swept::<Call, Kept<PlainTree>>(&rt, &OF_PLAIN);
}

/// A read, an add, a long write, another name, length and group, on the plain start tree; and with
/// a remove on an overlay over it.
#[test]
fn an_overlay_stays_as_it_was(rt: HostRuntime) {
    expect_swept::<Call, Kept<Overlay<PlainTree>>>(&rt, &OF_OVERLAY);
}
