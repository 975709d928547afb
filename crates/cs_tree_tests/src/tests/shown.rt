//! A tree as lines of text, one for each number that was ever given.

use cs_tree_model::{DMAPPEND, DMDIR, Kind, Metadata, TreeRead, path_of};
use std::alloc::Global;
use std::process::Abort;

/// How many bytes of a file are shown.
const SHOWN: usize = 16;

fn kind_of(mode: u32) -> char {
    if mode & DMDIR != 0 {
        'd'
    } else if mode & DMAPPEND != 0 {
        'a'
    } else {
        '-'
    }
}

fn show_owners(rt: &impl Abort, text: &mut String, file: &Metadata<'_>) {
    let (vers, owner, group) = (file.vers, file.owner, file.group);
    write!(text, " {vers} {owner} {group}").expect(rt, "memory");
}

fn show_mode(rt: &impl Abort, text: &mut String, mode: u32) {
    let (kind, bits) = (kind_of(mode), mode & 0o777);
    write!(text, " {kind}{bits:03o}").expect(rt, "memory");
}

fn show_times(rt: &impl Abort, text: &mut String, file: &Metadata<'_>) {
    let (atime, mtime, muid) = (file.atime, file.mtime, file.muid);
    write!(text, " {atime} {mtime} {muid}").expect(rt, "memory");
}

/// The bytes, with a dot for a zero.
fn show_bytes(rt: &impl Abort, text: &mut String, bytes: &[u8]) {
    for byte in bytes {
        let letter = if *byte == 0 { '.' } else { char::from(*byte) };
        text.push(letter).expect(rt, "memory");
    }
}

/// The length of a file and its first bytes; nothing for a directory.
fn show_content<T: TreeRead>(
    rt: &impl Abort,
    alloc: Global,
    text: &mut String,
    tree: &T,
    file: &Metadata<'_>,
) {
    if let Kind::File { length } = file.kind {
        write!(text, " {length}:").expect(rt, "memory");
        let bytes = tree
            .read_at(alloc, file.number, 0, SHOWN)
            .expect(rt, "memory");
        show_bytes(rt, text, &bytes.expect(rt, "bytes"));
    }
}

/// Path, version, owner, group, mode, atime, mtime and muid of a file, and its bytes.
fn show<T: TreeRead>(
    rt: &impl Abort,
    alloc: Global,
    text: &mut String,
    tree: &T,
    file: &Metadata<'_>,
) {
    let path = path_of(alloc, tree, file.number).expect(rt, "memory");
    let path = path.expect(rt, "a path");
    write!(text, "{} {path}", file.number).expect(rt, "memory");
    show_owners(rt, text, file);
    show_mode(rt, text, file.mode);
    show_times(rt, text, file);
    show_content(rt, alloc, text, tree, file);
}

fn line<T: TreeRead>(rt: &impl Abort, alloc: Global, tree: &T, number: u64) -> String {
    let mut text = String::new(alloc);
    match tree.record(number) {
        Some(file) => show(rt, alloc, &mut text, tree, &file),
        None => write!(text, "{number} gone").expect(rt, "memory"),
    }
    text
}

/// The lines of all numbers.
pub fn lines<T: TreeRead>(rt: &impl Abort, alloc: Global, tree: &T) -> Vec<String> {
    let mut lines = Vec::new(alloc);
    for number in 0..=tree.last_number() {
        lines
            .push(line(rt, alloc, tree, number))
            .expect(rt, "memory");
    }
    lines
}

fn push_line(rt: &impl Abort, text: &mut String, line: &str) {
    text.push_str(line).expect(rt, "memory");
    text.push('\n').expect(rt, "memory");
}

/// Whether the line at that place is this one.
fn is_at(lines: &[String], place: usize, line: &str) -> bool {
    match lines.get(place) {
        Some(old) => old.as_str() == line,
        None => false,
    }
}

/// Those lines that were not there before, each with a line feed.
pub fn new_lines(rt: &impl Abort, alloc: Global, before: &[String], after: &[String]) -> String {
    let mut text = String::new(alloc);
    for (place, line) in after.iter().enumerate() {
        if !is_at(before, place, line.as_str()) {
            push_line(rt, &mut text, line.as_str());
        }
    }
    text
}

/// The entries of a directory, each asked for by the name before.
fn listed<T: TreeRead>(rt: &impl Abort, alloc: Global, tree: &T, directory: u64) -> String {
    let mut text = String::new(alloc);
    let mut last = None;
    for _ in 0..tree.count() {
        let Some(entry) = tree.entry_after(directory, last, None) else {
            break;
        };
        last = Some(entry.name);
        let (name, number) = (entry.name, entry.number);
        write!(text, "{name} {number}, ").expect(rt, "memory");
    }
    text
}

/// Looks at the entries of a directory.
pub fn has_entries<T: TreeRead>(
    rt: &impl Abort,
    alloc: Global,
    tree: &T,
    directory: u64,
    wanted: &str,
) {
    let found = listed(rt, alloc, tree, directory);
    assert!(rt; found.as_str() == wanted, "{found}");
}

/// Looks at the lines of all numbers.
pub fn same_lines<T: TreeRead>(rt: &impl Abort, alloc: Global, tree: &T, wanted: &[&str]) {
    let found = lines(rt, alloc, tree);
    let found = found.join(alloc, "\n").expect(rt, "memory");
    let wanted = wanted.join(alloc, "\n").expect(rt, "memory");
    assert!(rt; found.as_str() == wanted.as_str(), "{found}");
}

/// Looks at how many files there are, and the last number.
pub fn has_numbers<T: TreeRead>(rt: &impl Abort, tree: &T, count: usize, last: u64) {
    assert!(rt; tree.count() == count && tree.last_number() == last);
}

/// Looks at the bytes of a file from an offset on.
pub fn has_bytes_from<T: TreeRead>(
    rt: &impl Abort,
    alloc: Global,
    tree: &T,
    number: u64,
    offset: u64,
    wanted: &[u8],
) {
    let found = tree
        .read_at(alloc, number, offset, 10_000)
        .expect(rt, "memory");
    assert!(rt; found.expect(rt, "bytes").as_slice() == wanted);
}
