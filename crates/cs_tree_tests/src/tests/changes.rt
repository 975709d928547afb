//! The tree after each call, worked out by hand: a line for each file that it changes, and no
//! other.

use super::calls::must_make;
use super::shown::{has_entries, has_numbers, lines, new_lines};
use super::start::{over_frozen, over_plain, start_tree};
use super::states::over_state;
use super::steps::{FIELDS, FILES, LENGTHS, RENAMES, Step, WRITES};
use cs_names::Path;
use cs_tree_model::{TreeRead, TreeStore, number_of_path};
use std::alloc::Global;
use std::process::Abort;

/// Asserts that the new lines are exactly these.
fn are_new(rt: &impl Abort, alloc: Global, before: &[String], after: &[String], wanted: &[&str]) {
    let found = new_lines(rt, alloc, before, after);
    let mut wanted = wanted.join(alloc, "\n").expect(rt, "memory");
    wanted.push('\n').expect(rt, "memory");
    assert!(rt; found.as_str() == wanted.as_str(), "{found}");
}

/// Makes the call, and looks at the whole tree.
fn take<T: TreeStore>(rt: &impl Abort, alloc: Global, tree: &mut T, step: &Step) {
    let before = lines(rt, alloc, tree);
    must_make(rt, alloc, tree, step.call, step.now, step.user);
    let after = lines(rt, alloc, tree);
    are_new(rt, alloc, &before, &after, step.changed);
}

/// Makes the calls one after the other, and looks at the whole tree after each.
fn work<T: TreeStore>(rt: &impl Abort, alloc: Global, tree: &mut T, steps: &[Step]) {
    for step in steps {
        take(rt, alloc, tree, step);
    }
}

/// How many files there are, and the last number.
#[derive(Clone, Copy)]
struct Left {
    count: usize,
    last: u64,
}

/// Makes them on a store of the start tree.
fn work_on<T: TreeStore + Drop>(
    rt: &impl Abort,
    alloc: Global,
    mut tree: T,
    steps: &[Step],
    left: Left,
) {
    work(rt, alloc, &mut tree, steps);
    has_numbers(rt, &tree, left.count, left.last);
}

/// Makes them on each kind of store.
fn work_on_each(rt: &impl Abort, alloc: Global, steps: &[Step], left: Left) {
    work_on(rt, alloc, start_tree(rt, alloc), steps, left);
    work_on(rt, alloc, over_plain(rt, alloc), steps, left);
    work_on(rt, alloc, over_frozen(rt, alloc), steps, left);
    work_on(rt, alloc, over_state(rt, alloc), steps, left);
}

/// Looks a path up.
fn is_found<T: TreeRead>(
    rt: &impl Abort,
    alloc: Global,
    tree: &T,
    path: &str,
    wanted: Option<u64>,
) {
    let path = Path::read(alloc, path).expect(rt, "a path");
    let _ = tree.count();
    assert!(rt; number_of_path(tree, path.names()) == wanted);
}

/// A new file in `/d` has the number 7, and takes the group of its directory, which is stamped.
/// `/d/g` is removed and made again with the number 10; removed once more, `/g` is 11.
#[test]
fn a_new_file_has_a_number_that_no_file_ever_had(rt: HostRuntime) {
    let left = Left { count: 8, last: 11 };
    work_on_each(&rt, rt.alloc(), &FILES, left);
}

/// `a` at 1 makes `hallo`, and `oween` at 4 `halloween`. Two bytes at 3 of an empty file come
/// after three zeros. Each write stamps only its file.
#[test]
fn a_write_changes_its_file_alone(rt: HostRuntime) {
    let left = Left { count: 7, last: 6 };
    work_on_each(&rt, rt.alloc(), &WRITES, left);
}

/// `/f` has one byte, and zeros after it.
fn is_grown<T: TreeRead>(rt: &impl Abort, alloc: Global, tree: &T) {
    let bytes = tree.read_at(alloc, 4, 0, 6000).expect(rt, "memory");
    let bytes = bytes.expect(rt, "bytes");
    assert!(rt; bytes.len() == 5000 && bytes.first().copied() == Some(b'h'));
    assert!(rt; bytes.iter().skip(1).all(|byte| *byte == 0));
}

/// Cuts `/f` and lets it grow.
fn cut_and_grow<T: TreeStore + Drop>(rt: &impl Abort, alloc: Global, mut tree: T) {
    work(rt, alloc, &mut tree, &LENGTHS);
    is_grown(rt, alloc, &tree);
}

/// Length 1 leaves `h`; length 5,000 then is one byte and 4,999 zeros.
#[test]
fn bytes_that_no_write_reached_are_zero(rt: HostRuntime) {
    cut_and_grow(&rt, rt.alloc(), start_tree(&rt, rt.alloc()));
    cut_and_grow(&rt, rt.alloc(), over_plain(&rt, rt.alloc()));
    cut_and_grow(&rt, rt.alloc(), over_frozen(&rt, rt.alloc()));
    cut_and_grow(&rt, rt.alloc(), over_state(&rt, rt.alloc()));
}

/// A change of only the mtime leaves muid; with a length it comes after the length's. A mode or a
/// group adds only to the version; a length that the file has is a stamp too. A name stamps the
/// directory. All fields at once are one version more.
#[test]
fn a_change_gives_the_fields_that_it_names(rt: HostRuntime) {
    let left = Left { count: 7, last: 6 };
    work_on_each(&rt, rt.alloc(), &FIELDS, left);
}

/// Renames `/d`, and looks up what was below it.
fn rename_one<T: TreeStore>(rt: &impl Abort, alloc: Global, tree: &mut T) {
    work(rt, alloc, tree, &RENAMES[..2]);
    is_found(rt, alloc, tree, "/e/s/z", Some(3));
    is_found(rt, alloc, tree, "/e/g", Some(7));
    is_found(rt, alloc, tree, "/d", None);
    is_found(rt, alloc, tree, "/d/s/z", None);
}

/// Makes another `/d`, and renames what is below the first.
fn rename_below<T: TreeStore>(rt: &impl Abort, alloc: Global, tree: &mut T) {
    work(rt, alloc, tree, &RENAMES[2..]);
    is_found(rt, alloc, tree, "/d", Some(8));
    is_found(rt, alloc, tree, "/d/s", None);
    is_found(rt, alloc, tree, "/e/z/z", Some(3));
    is_found(rt, alloc, tree, "/e/s", None);
}

fn rename_directories<T: TreeStore + Drop>(rt: &impl Abort, alloc: Global, mut tree: T) {
    rename_one(rt, alloc, &mut tree);
    rename_below(rt, alloc, &mut tree);
    has_entries(rt, alloc, &tree, 0, "d 8, e 1, f 4, n 5, p 6, ");
}

/// `/d` becomes `/e`: all below keep their numbers, `/e/s/z` leads to 3, and `/d/s/z` nowhere. A
/// new `/d` is another directory.
#[test]
fn a_directory_takes_all_below_it_to_its_new_name(rt: HostRuntime) {
    rename_directories(&rt, rt.alloc(), start_tree(&rt, rt.alloc()));
    rename_directories(&rt, rt.alloc(), over_plain(&rt, rt.alloc()));
    rename_directories(&rt, rt.alloc(), over_frozen(&rt, rt.alloc()));
    rename_directories(&rt, rt.alloc(), over_state(&rt, rt.alloc()));
}
