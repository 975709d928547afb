//! The start tree, plain and below an overlay.

use cs_frozen::Lower;
use cs_names::{Path, UserName};
use cs_overlay::Overlay;
use cs_tree::PlainTree;
use cs_tree_model::{Content, DMDIR, Record, TreeRead};
use std::alloc::Global;
use std::process::Abort;
use std::sync::Arc;

/// A record that nothing has changed yet. A directory has no bytes.
#[derive(Clone, Copy)]
pub struct Row {
    pub number: u64,
    pub path: &'static str,
    pub owner: &'static [u8],
    pub group: &'static [u8],
    pub mode: u32,
    pub bytes: Option<&'static [u8]>,
}

pub const START: [Row; 7] = [
    Row {
        number: 0,
        path: "/",
        owner: b"cat",
        group: b"staff",
        mode: DMDIR | 0o775,
        bytes: None,
    },
    Row {
        number: 1,
        path: "/d",
        owner: b"ann",
        group: b"staff",
        mode: DMDIR | 0o755,
        bytes: None,
    },
    Row {
        number: 2,
        path: "/d/s",
        owner: b"ann",
        group: b"ann",
        mode: DMDIR | 0o700,
        bytes: None,
    },
    Row {
        number: 3,
        path: "/d/s/z",
        owner: b"ann",
        group: b"ann",
        mode: 0o644,
        bytes: Some(b""),
    },
    Row {
        number: 4,
        path: "/f",
        owner: b"ann",
        group: b"staff",
        mode: 0o664,
        bytes: Some(b"hello"),
    },
    Row {
        number: 5,
        path: "/n",
        owner: b"none",
        group: b"none",
        mode: 0o600,
        bytes: Some(b""),
    },
    Row {
        number: 6,
        path: "/p",
        owner: b"ann",
        group: b"staff",
        mode: DMDIR | 0o750,
        bytes: None,
    },
];

fn content(rt: &impl Abort, alloc: Global, bytes: Option<&[u8]>) -> Content {
    match bytes {
        None => Content::directory(),
        Some(bytes) => Content::file(Vec::from_slice(alloc, bytes).expect(rt, "memory")),
    }
}

fn user(rt: &impl Abort, alloc: Global, name: &[u8]) -> UserName {
    UserName::read(alloc, name).expect(rt, "a user's name")
}

/// The record of a row, with these values for the fields that were changed.
fn record_with(
    rt: &impl Abort,
    alloc: Global,
    row: &Row,
    vers: u32,
    times: Times,
    muid: &[u8],
) -> Record {
    Record {
        number: row.number,
        vers,
        owner: user(rt, alloc, row.owner),
        group: user(rt, alloc, row.group),
        mode: row.mode,
        atime: times.atime,
        mtime: times.mtime,
        muid: user(rt, alloc, muid),
        content: content(rt, alloc, row.bytes),
    }
}

/// When a file was made, and when it was changed.
#[derive(Clone, Copy)]
struct Times {
    atime: u32,
    mtime: u32,
}

const NEVER: Times = Times { atime: 0, mtime: 0 };

pub fn record(rt: &impl Abort, alloc: Global, row: &Row) -> (Path, Record) {
    let record = record_with(rt, alloc, row, 0, NEVER, row.owner);
    (Path::read(alloc, row.path).expect(rt, "a path"), record)
}

pub fn records(rt: &impl Abort, alloc: Global, rows: &[Row]) -> Vec<(Path, Record)> {
    let mut records = Vec::new(alloc);
    for row in rows {
        records.push(record(rt, alloc, row)).expect(rt, "memory");
    }
    records
}

/// The tree of these records.
pub fn tree_of(rt: &impl Abort, alloc: Global, records: Vec<(Path, Record)>) -> PlainTree {
    PlainTree::try_from_records(alloc, records).expect(rt, "a tree")
}

pub fn start_tree(rt: &impl Abort, alloc: Global) -> PlainTree {
    tree_of(rt, alloc, records(rt, alloc, &START))
}

pub fn shared<T: Drop>(rt: &impl Abort, alloc: Global, tree: T) -> Arc<T> {
    Arc::new(alloc, tree).expect(rt, "memory")
}

pub fn start_lower(rt: &impl Abort, alloc: Global) -> Arc<PlainTree> {
    shared(rt, alloc, start_tree(rt, alloc))
}

/// An overlay over the start tree, without changes.
pub fn over_plain(rt: &impl Abort, alloc: Global) -> Overlay<PlainTree> {
    Overlay::over(alloc, start_lower(rt, alloc))
}

/// An overlay over a frozen overlay over a plain tree.
pub type TwoLevels = Overlay<Lower<Overlay<PlainTree>>>;

/// The files of the start tree, numbered in another order.
const MADE: [Row; 7] = [
    Row {
        number: 0,
        path: "/",
        owner: b"cat",
        group: b"staff",
        mode: DMDIR | 0o775,
        bytes: None,
    },
    Row {
        number: 1,
        path: "/p",
        owner: b"ann",
        group: b"staff",
        mode: DMDIR | 0o750,
        bytes: None,
    },
    Row {
        number: 2,
        path: "/f",
        owner: b"ann",
        group: b"staff",
        mode: 0o664,
        bytes: Some(b"hello"),
    },
    Row {
        number: 3,
        path: "/d",
        owner: b"ann",
        group: b"staff",
        mode: DMDIR | 0o755,
        bytes: None,
    },
    Row {
        number: 5,
        path: "/n",
        owner: b"none",
        group: b"none",
        mode: 0o600,
        bytes: Some(b""),
    },
    Row {
        number: 6,
        path: "/d/s",
        owner: b"ann",
        group: b"ann",
        mode: DMDIR | 0o700,
        bytes: None,
    },
    Row {
        number: 9,
        path: "/d/s/z",
        owner: b"ann",
        group: b"ann",
        mode: 0o644,
        bytes: Some(b""),
    },
];

/// A record that was changed before.
fn changed(rt: &impl Abort, alloc: Global, row: &Row) -> (Path, Record) {
    let times = Times { atime: 7, mtime: 8 };
    let record = record_with(rt, alloc, row, 3, times, b"zed");
    (Path::read(alloc, row.path).expect(rt, "a path"), record)
}

fn changed_records(rt: &impl Abort, alloc: Global) -> Vec<(Path, Record)> {
    let mut records = Vec::new(alloc);
    for row in &MADE {
        records.push(changed(rt, alloc, row)).expect(rt, "memory");
    }
    records
}

/// A tree that is frozen, as a lower tree.
pub fn frozen<L: TreeRead + Drop>(
    rt: &impl Abort,
    alloc: Global,
    tree: Overlay<L>,
) -> Arc<Lower<Overlay<L>>> {
    shared(rt, alloc, tree.freeze(alloc).ok().expect(rt, "memory"))
}

/// The start tree again: files that were made in another order, and changed since, are frozen.
pub fn over_frozen(rt: &impl Abort, alloc: Global) -> TwoLevels {
    let plain = tree_of(rt, alloc, changed_records(rt, alloc));
    let made = Overlay::over(alloc, shared(rt, alloc, plain));
    Overlay::over(alloc, frozen(rt, alloc, made))
}
