//! What operations say, as short texts.
use super::lines::trace_of;
use cs_trace::{Covers, DirEntry, FileKind, Node, Operation, Target};
use std::alloc::{AllocError, Global};
use std::process::Abort;

fn entry_text(alloc: Global, entry: &DirEntry) -> Result<String, AllocError> {
    format!(in alloc; "{}:{}", entry.directory, entry.path)
}

fn node_text(alloc: Global, node: Node) -> Result<String, AllocError> {
    match node {
        Node::Directory(number) => format!(in alloc; "dir {number}"),
        Node::File(FileKind::Regular, file) => format!(in alloc; "file {file}"),
        Node::File(FileKind::Symlink, file) => format!(in alloc; "symlink {file}"),
    }
}

fn rename_text(
    alloc: Global,
    from: &DirEntry,
    to: &DirEntry,
    node: Node,
    replaced: Option<Node>,
) -> Result<String, AllocError> {
    let from = entry_text(alloc, from)?;
    let to = entry_text(alloc, to)?;
    let moved = node_text(alloc, node)?;
    match replaced {
        None => format!(in alloc; "rename {from} {to} {moved}"),
        Some(other) => {
            let other = node_text(alloc, other)?;
            format!(in alloc; "rename {from} {to} {moved} over {other}")
        }
    }
}

fn covers_text(alloc: Global, covers: &Covers) -> Result<String, AllocError> {
    match covers {
        Covers::All => format!(in alloc; "sync"),
        Covers::File(file) => format!(in alloc; "fsync {file}"),
        Covers::Data(file) => format!(in alloc; "fdatasync {file}"),
        Covers::Range {
            file,
            offset,
            length,
        } => format!(in alloc; "fsync_range {file} {offset} {length}"),
        Covers::Directory { number, path } => format!(in alloc; "fsync dir {number} {path}"),
    }
}

fn target_text(alloc: Global, target: &Target) -> Result<String, AllocError> {
    match target {
        Target::File(file) => format!(in alloc; "set file {file}"),
        Target::Directory { number, path } => format!(in alloc; "set dir {number} {path}"),
    }
}

fn entry_and(
    alloc: Global,
    verb: &str,
    entry: &DirEntry,
    number: u32,
) -> Result<String, AllocError> {
    let entry = entry_text(alloc, entry)?;
    format!(in alloc; "{verb} {entry} {number}")
}

/// An operation as a short text: an entry is its directory's number and its path.
pub fn shown(alloc: Global, operation: &Operation) -> Result<String, AllocError> {
    match operation {
        Operation::Creat { entry, file, .. } => entry_and(alloc, "creat", entry, *file),
        Operation::Mkdir {
            entry,
            directory,
            ..
        } => entry_and(alloc, "mkdir", entry, *directory),
        Operation::Symlink { entry, file, .. } => entry_and(alloc, "symlink", entry, *file),
        Operation::Link { entry, file } => entry_and(alloc, "link", entry, *file),
        Operation::Unlink { entry, file, .. } => entry_and(alloc, "unlink", entry, *file),
        Operation::Rmdir { entry, directory } => entry_and(alloc, "rmdir", entry, *directory),
        Operation::Rename {
            from,
            to,
            node,
            replaced,
        } => rename_text(alloc, from, to, *node, *replaced),
        Operation::Write {
            file,
            size,
            offset,
            ..
        } => format!(in alloc; "write {file} {size} {offset}"),
        Operation::Truncate { file, size, length } => {
            format!(in alloc; "truncate {file} {size} {length}")
        }
        Operation::SetAttr { target, .. } => target_text(alloc, target),
        Operation::Sync(covers) => covers_text(alloc, covers),
        Operation::Say => format!(in alloc; "say"),
    }
}

/// The trace of these lines has these operations.
pub fn has_operations(rt: &impl Abort, alloc: Global, lines: &[&str], wanted: &[&str]) {
    let trace = trace_of(rt, alloc, lines);
    assert_eq!(rt; trace.operations().len(), wanted.len());
    for (operation, text) in trace.operations().iter().zip(wanted) {
        let found = shown(alloc, operation).expect(rt, "memory");
        assert_eq!(rt; found.as_str(), *text);
    }
}
