//! What the start tree answers before any change.

use super::shown::has_numbers;
use super::start::{Row, START, record, records, start_tree, tree_of};
use cs_names::{Name, Path};
use cs_tree::PlainTree;
use cs_tree_model::{Kind, Record, TreeRead, number_of_path, path_of};
use std::alloc::Global;
use std::process::Abort;

/// The row's number leads to its path, and the path to the number.
fn is_at_path(rt: &impl Abort, alloc: Global, tree: &PlainTree, row: &Row) {
    let path = Path::read(alloc, row.path).expect(rt, "a path");
    assert!(rt; number_of_path(tree, path.names()) == Some(row.number));
    let name = tree.name_of(row.number).map(Name::as_str);
    assert!(rt; name == path.names().last());
    let found = path_of(alloc, tree, row.number).expect(rt, "memory");
    assert!(rt; found == Some(path));
}

/// Each path leads to its number, and each number has its path and name; seven records, and the
/// greatest number is 6.
#[test]
fn numbers_are_found_by_path_and_paths_by_number(rt: HostRuntime) {
    let tree = start_tree(&rt, rt.alloc());
    has_numbers(&rt, &tree, 7, 6);
    for row in &START {
        is_at_path(&rt, rt.alloc(), &tree, row);
    }
    let absent = path_of(rt.alloc(), &tree, 7).expect(&rt, "memory");
    assert!(&rt; absent.is_none());
}

fn kind_of(row: &Row) -> Kind {
    match row.bytes {
        None => Kind::Directory,
        Some(bytes) => Kind::File {
            length: bytes.len() as u64,
        },
    }
}

/// The tree's record is the row's, never changed.
fn has_record(rt: &impl Abort, tree: &PlainTree, row: &Row) {
    let found = tree.record(row.number).expect(rt, "a record");
    assert!(rt; found.number == row.number && found.vers == 0 && found.mode == row.mode);
    assert!(rt; found.owner.as_bytes() == row.owner);
    assert!(rt; found.group.as_bytes() == row.group);
    assert!(rt; found.kind == kind_of(row));
}

/// Owner, group, mode, kind and length of each; number 7 has no record.
#[test]
fn records_say_who_owns_them_and_how_long_they_are(rt: HostRuntime) {
    let tree = start_tree(&rt, rt.alloc());
    for row in &START {
        has_record(&rt, &tree, row);
    }
    assert!(&rt; tree.record(7).is_none());
}

/// The offset of a read, how many bytes it asks for, and what it returns: None if there is no file.
#[derive(Drop)]
struct Reading {
    number: u64,
    offset: u64,
    count: usize,
    bytes: Option<&'static [u8]>,
}

const HELLO: Reading = Reading {
    number: 4,
    offset: 0,
    count: 100,
    bytes: Some(b"hello"),
};

const READINGS: [Reading; 8] = [
    HELLO,
    Reading {
        offset: 2,
        bytes: Some(b"llo"),
        ..HELLO
    },
    Reading {
        offset: 5,
        bytes: Some(b""),
        ..HELLO
    },
    Reading {
        offset: 6,
        bytes: Some(b""),
        ..HELLO
    },
    Reading {
        offset: u64::MAX,
        bytes: Some(b""),
        ..HELLO
    },
    // a directory, and a number that no file has
    Reading {
        number: 0,
        bytes: None,
        ..HELLO
    },
    Reading {
        number: 9,
        bytes: None,
        ..HELLO
    },
    Reading {
        offset: 1,
        count: 3,
        bytes: Some(b"ell"),
        ..HELLO
    },
];

fn gives(rt: &impl Abort, alloc: Global, tree: &PlainTree, reading: &Reading) {
    let found = tree.read_at(alloc, reading.number, reading.offset, reading.count);
    match found.expect(rt, "memory") {
        Some(found) => assert!(rt; Some(found.as_slice()) == reading.bytes),
        None => assert!(rt; reading.bytes.is_none()),
    }
}

/// `/f` from the offsets 0, 2, 5, 6 and the greatest there is; three bytes from 1 are `ell`. A
/// directory, and a number without a record, have nothing to read.
#[test]
fn reads_begin_at_the_offset_and_stop_at_the_end(rt: HostRuntime) {
    let tree = start_tree(&rt, rt.alloc());
    for reading in &READINGS {
        gives(&rt, rt.alloc(), &tree, reading);
    }
}

/// A number, and that of its parent.
struct Parent(u64, Option<u64>);

const PARENTS: [Parent; 5] = [
    Parent(3, Some(2)),
    Parent(2, Some(1)),
    Parent(1, Some(0)),
    Parent(0, Some(0)),
    Parent(7, None),
];

/// A directory, a file, and a number that no file has.
const WITHOUT_Q: [u64; 3] = [0, 4, 9];

/// From `/d/s/z` up to the root, whose parent is the root. Absent names, and names in a file, are
/// not found.
#[test]
fn parents_lead_up_to_the_root(rt: HostRuntime) {
    let tree = start_tree(&rt, rt.alloc());
    for parent in &PARENTS {
        assert!(rt; tree.parent_of(parent.0) == parent.1);
    }
    for number in &WITHOUT_Q {
        assert!(rt; tree.find_number(*number, "q").is_none());
    }
}

fn numbered(rt: &impl Abort, alloc: Global, number: u64) -> String {
    format!(in alloc; "n{number}").expect(rt, "memory")
}

/// The path of a name in the root.
fn path_in_root(rt: &impl Abort, alloc: Global, name: &str) -> Path {
    let name = Name::read(alloc, name.as_bytes()).expect(rt, "a name");
    let mut names = Vec::new(alloc);
    names.push(name).expect(rt, "memory");
    Path::from_names(alloc, &names).expect(rt, "memory")
}

/// An empty file in the root, named by its number.
fn numbered_file(rt: &impl Abort, alloc: Global, number: u64) -> (Path, Record) {
    let name = numbered(rt, alloc, number);
    let (_, file) = record(rt, alloc, &Row { number, ..EMPTY });
    (path_in_root(rt, alloc, name.as_str()), file)
}

const EMPTY: Row = Row {
    number: 0,
    path: "/f",
    owner: b"ann",
    group: b"staff",
    mode: 0o664,
    bytes: Some(b""),
};

/// A root with that many files.
fn wide_tree(rt: &impl Abort, alloc: Global, files: u64) -> PlainTree {
    let mut records = records(rt, alloc, &START[..1]);
    for number in 1..=files {
        records
            .push(numbered_file(rt, alloc, number))
            .expect(rt, "memory");
    }
    tree_of(rt, alloc, records)
}

/// Looks a file up by its name.
fn is_found(rt: &impl Abort, alloc: Global, tree: &PlainTree, number: u64, wanted: Option<u64>) {
    let name = numbered(rt, alloc, number);
    assert!(rt; tree.find_number(0, name.as_str()) == wanted);
}

const SOME: [u64; 6] = [1, 2, 999, 2500, 4999, 5000];

/// Six of 5,000 files of one directory are found by their names, and an absent name isn't.
#[test]
fn names_are_found_among_thousands(rt: HostRuntime) {
    let tree = wide_tree(&rt, rt.alloc(), 5000);
    for number in &SOME {
        is_found(&rt, rt.alloc(), &tree, *number, Some(*number));
    }
    is_found(&rt, rt.alloc(), &tree, 5001, None);
}
