//! The start tree and the users of the worked examples.

use cs_names::{Path, UserName};
use cs_overlay::Overlay;
use cs_tree::PlainTree;
use cs_tree_model::{Content, DMDIR, Record};
use std::alloc::Global;
use std::sync::Arc;

/// A record: its number, path, owner, group and mode, and the bytes of a file.
#[derive(Clone, Copy)]
pub struct Row(
    u64,
    &'static str,
    &'static [u8],
    &'static [u8],
    u32,
    Option<&'static [u8]>,
);

const START: [Row; 7] = [
    Row(0, "/", b"cat", b"staff", DMDIR | 0o775, None),
    Row(1, "/d", b"ann", b"staff", DMDIR | 0o755, None),
    Row(2, "/d/s", b"ann", b"ann", DMDIR | 0o700, None),
    Row(3, "/d/s/z", b"ann", b"ann", 0o644, Some(b"")),
    Row(4, "/f", b"ann", b"staff", 0o664, Some(b"hello")),
    Row(5, "/n", b"none", b"none", 0o600, Some(b"")),
    Row(6, "/p", b"ann", b"staff", DMDIR | 0o750, None),
];

fn content(alloc: Global, bytes: Option<&[u8]>) -> Option<Content> {
    match bytes {
        None => Some(Content::directory()),
        Some(bytes) => Some(Content::file(Vec::from_slice(alloc, bytes).ok()?)),
    }
}

pub fn user(alloc: Global, name: &[u8]) -> Option<UserName> {
    UserName::read(alloc, name).ok()
}

fn record(alloc: Global, row: &Row) -> Option<Record> {
    Some(Record {
        number: row.0,
        vers: 0,
        owner: user(alloc, row.2)?,
        group: user(alloc, row.3)?,
        mode: row.4,
        atime: 0,
        mtime: 0,
        muid: user(alloc, row.2)?,
        content: content(alloc, row.5)?,
    })
}

pub fn start_records(alloc: Global) -> Option<Vec<(Path, Record)>> {
    let mut records = Vec::new(alloc);
    for row in &START {
        let path = Path::read(alloc, row.1).ok()?;
        records.push((path, record(alloc, row)?)).ok()?;
    }
    Some(records)
}

pub fn start_tree(alloc: Global) -> Option<PlainTree> {
    PlainTree::try_from_records(alloc, start_records(alloc)?).ok()
}

/// The start tree below an overlay that has no changes.
pub fn start_overlay(alloc: Global) -> Option<Overlay<PlainTree>> {
    let lower = Arc::new(alloc, start_tree(alloc)?).ok()?;
    Some(Overlay::over(alloc, lower))
}
