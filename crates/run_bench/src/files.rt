//! The trees with which runs begin.

use cs_names::{Name, Path, UserName};
use cs_tree::PlainTree;
use cs_tree_model::{Content, DMDIR, Record};
use cs_users::Users;
use std::alloc::Global;

/// The number of the file of 1 MB.
pub const FILE: u64 = 1;

/// How many bytes it has.
const FILE_LENGTH: usize = 1_048_576;

/// How many nested directories there are: the first is in the root, the second in the first, and so
/// on.
pub const DEPTH: u64 = 16;

pub fn user(alloc: Global) -> Option<UserName> {
    UserName::read(alloc, b"ann").ok()
}

pub fn users(alloc: Global) -> Option<Users> {
    Users::read(alloc, b"1:ann::\n").ok()
}

/// The name of a file or a directory.
pub fn name(alloc: Global, number: u64) -> Option<Name> {
    Name::from_text(format!(in alloc; "file{number:05}").ok()?).ok()
}

/// The record of a file of a number, or of a directory, at the path of these names.
fn record(alloc: Global, names: &[Name], number: u64, content: Content) -> Option<(Path, Record)> {
    let mode = match content.bytes() {
        Some(_) => 0o644,
        None => DMDIR | 0o755,
    };
    let record = Record {
        number,
        vers: 0,
        owner: user(alloc)?,
        group: user(alloc)?,
        mode,
        atime: 0,
        mtime: 0,
        muid: user(alloc)?,
        content,
    };
    Some((Path::from_names(alloc, names).ok()?, record))
}

/// A root with a file of 1 MB, and nested directories.
pub fn tree(alloc: Global) -> Option<PlainTree> {
    let mut names = Vec::new(alloc);
    let mut records = Vec::new(alloc);
    let root = record(alloc, &names, 0, Content::directory())?;
    records.push(root).ok()?;
    names.push(name(alloc, 0)?).ok()?;
    let bytes = vec![in alloc; 7u8; FILE_LENGTH].ok()?;
    let file = record(alloc, &names, FILE, Content::file(bytes))?;
    records.push(file).ok()?;
    names.clear();
    for depth in 1..DEPTH + 1 {
        names.push(name(alloc, depth)?).ok()?;
        let directory = record(alloc, &names, FILE + depth, Content::directory())?;
        records.push(directory).ok()?;
    }
    PlainTree::try_from_records(alloc, records).ok()
}

/// A root with so many empty files.
pub fn wide_tree(alloc: Global, files: u64) -> Option<PlainTree> {
    let mut records = Vec::new(alloc);
    let root = record(alloc, &[], 0, Content::directory())?;
    records.push(root).ok()?;
    for number in 1..files.saturating_add(1) {
        let mut names = Vec::new(alloc);
        names.push(name(alloc, number)?).ok()?;
        let file = record(alloc, &names, number, Content::file(Vec::new(alloc)))?;
        records.push(file).ok()?;
    }
    PlainTree::try_from_records(alloc, records).ok()
}
