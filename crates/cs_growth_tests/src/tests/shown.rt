//! A tree as text.

use cs_tree_model::{Metadata, TreeRead, path_of};
use std::alloc::Global;

/// Adds how many bytes there are, and each byte that isn't zero, after its place.
pub fn push_bytes(text: &mut String, bytes: &[u8]) -> Option<()> {
    write!(text, " {} bytes", bytes.len()).ok()?;
    for (place, byte) in bytes.iter().enumerate() {
        if *byte != 0 {
            write!(text, " {place}:{byte}").ok()?;
        }
    }
    Some(())
}

fn push_file<T: TreeRead>(
    text: &mut String,
    alloc: Global,
    tree: &T,
    file: &Metadata<'_>,
) -> Option<()> {
    let path = path_of(alloc, tree, file.number).ok()??;
    let (owner, group, muid) = (file.owner, file.group, file.muid);
    write!(text, "{path} {} {owner} {group} {:o}", file.vers, file.mode).ok()?;
    write!(text, " {} {} {muid}", file.atime, file.mtime).ok()?;
    match tree.read_at(alloc, file.number, 0, 10_000).ok()? {
        Some(bytes) => push_bytes(text, &bytes),
        None => Some(()),
    }
}

/// Adds the entries of a directory, each asked for by the name before.
fn push_entries<T: TreeRead>(text: &mut String, tree: &T, directory: u64) -> Option<()> {
    let mut last = None;
    for _ in 0..tree.count() {
        let Some(entry) = tree.entry_after(directory, last, None) else {
            break;
        };
        last = Some(entry.name);
        let (name, number) = (entry.name, entry.number);
        write!(text, " {name}:{number}").ok()?;
    }
    Some(())
}

/// Adds a line for each number that was ever given.
pub fn push_tree<T: TreeRead>(text: &mut String, alloc: Global, tree: &T) -> Option<()> {
    write!(text, "{} files\n", tree.count()).ok()?;
    for number in 0..=tree.last_number() {
        write!(text, "{number} ").ok()?;
        if let Some(file) = tree.record(number) {
            push_file(text, alloc, tree, &file)?;
        }
        push_entries(text, tree, number)?;
        text.push('\n').ok()?;
    }
    Some(())
}
