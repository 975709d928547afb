//! Lists of records that make a tree, and lists that make none.

use super::shown::has_numbers;
use super::start::{Row, records, tree_of};
use cs_names::{Path, UserName};
use cs_tree::{PlainTree, RecordsFault};
use cs_tree_model::{Content, DMAPPEND, DMDIR, Record, TreeRead, number_of_path};
use std::alloc::Global;
use std::process::Abort;

/// A record of the user cat and the group cat.
const CATS: Row = Row {
    number: 0,
    path: "/",
    owner: b"cat",
    group: b"cat",
    mode: 0,
    bytes: None,
};

const ROOT: Row = Row {
    mode: DMDIR,
    ..CATS
};

const FILE: Row = Row {
    number: 1,
    path: "/f",
    bytes: Some(b""),
    ..CATS
};

const ORPHAN: Row = Row {
    number: 1,
    path: "/d/s",
    mode: DMDIR,
    ..CATS
};

const AGAIN: Row = Row {
    number: 1,
    mode: DMDIR,
    ..CATS
};

const BELOW: Row = Row {
    number: 2,
    path: "/f/g",
    mode: DMDIR,
    ..CATS
};

const TWICE: Row = Row {
    number: 2,
    path: "/f",
    bytes: Some(b""),
    ..CATS
};

const SAME: Row = Row {
    number: 1,
    path: "/g",
    bytes: Some(b""),
    ..CATS
};

const UNMARKED_ROOT: Row = Row {
    mode: 0o775,
    ..CATS
};

const FILE_AT_ROOT: Row = Row {
    bytes: Some(b""),
    ..CATS
};

const UNMARKED: Row = Row {
    number: 1,
    path: "/d",
    mode: DMAPPEND | 0o775,
    ..CATS
};

const MARKED: Row = Row {
    number: 1,
    path: "/f",
    mode: DMDIR | 0o664,
    bytes: Some(b""),
    ..CATS
};

const NO_TREES: [&[Row]; 12] = [
    &[],
    &[AGAIN],
    &[FILE],
    &[FILE_AT_ROOT],
    &[UNMARKED_ROOT],
    &[ROOT, ORPHAN],
    &[ROOT, AGAIN],
    &[ROOT, FILE, BELOW],
    &[ROOT, FILE, TWICE],
    &[ROOT, FILE, SAME],
    &[ROOT, UNMARKED],
    &[ROOT, MARKED],
];

fn is_no_tree(rt: &impl Abort, alloc: Global, rows: &[Row]) {
    let records = records(rt, alloc, rows);
    let made = PlainTree::try_from_records(alloc, records);
    assert!(rt; made.err() == Some(RecordsFault::NoTree));
}

/// No record; a first record that isn't the root, or whose number isn't 0; a missing parent; a
/// parent that is a file; a path or a number twice; a root, a directory or a file with the mode of
/// the other kind: all are NoTree.
#[test]
fn records_that_make_no_tree_are_refused(rt: HostRuntime) {
    for rows in &NO_TREES {
        is_no_tree(&rt, rt.alloc(), rows);
    }
}

const FAR: Row = Row {
    number: 1 << 40,
    path: "/g",
    mode: DMAPPEND,
    bytes: Some(b""),
    ..CATS
};

/// The numbers 0, 1 and 1,099,511,627,776 make a tree.
#[test]
fn numbers_may_have_gaps(rt: HostRuntime) {
    let records = records(&rt, rt.alloc(), &[ROOT, FILE, FAR]);
    let tree = tree_of(&rt, rt.alloc(), records);
    has_numbers(&rt, &tree, 3, 1 << 40);
    assert!(rt; tree.find_number(0, "g") == Some(1 << 40));
}

fn user(rt: &impl Abort, alloc: Global, name: &[u8]) -> UserName {
    UserName::read(alloc, name).expect(rt, "a user's name")
}

/// The tree that has only a root.
fn tree_of_root(rt: &impl Abort, alloc: Global) -> PlainTree {
    let root = Record {
        number: 0,
        vers: 0,
        owner: user(rt, alloc, b"cat"),
        group: user(rt, alloc, b"staff"),
        mode: DMDIR | 0o775,
        atime: 0,
        mtime: 0,
        muid: user(rt, alloc, b"cat"),
        content: Content::directory(),
    };
    let mut records = Vec::new(alloc);
    records.push((Path::root(alloc), root)).expect(rt, "memory");
    PlainTree::from_records(alloc, records).expect(rt, "memory")
}

/// A list of only a root makes a tree of one record.
#[test]
fn records_that_are_known_to_make_a_tree_are_taken(rt: HostRuntime) {
    let tree = tree_of_root(&rt, rt.alloc());
    has_numbers(&rt, &tree, 1, 0);
    let root = Path::root(rt.alloc());
    assert!(rt; number_of_path(&tree, root.names()) == Some(0));
}
