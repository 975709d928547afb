//! What an overlay shows of the lower tree, which itself stays the same.

use super::calls::{Call, Fields, NONE, must_make};
use super::runs::{BEFORE, over, run_and_look};
use super::shown::{has_bytes_from, has_entries, has_numbers, same_lines};
use super::start::{over_plain, shared, start_lower};
use cs_overlay::Overlay;
use cs_tree::PlainTree;
use cs_tree_model::{TreeRead, TreeStore};
use std::alloc::Global;
use std::process::Abort;
use std::sync::Arc;

fn resized(length: u64) -> Call {
    Call::Change(
        4,
        Fields {
            length: Some(length),
            ..NONE
        },
    )
}

/// An overlay with no change reads as the lower tree.
#[test]
fn nothing_changed_is_the_lower_tree(rt: HostRuntime) {
    let lower = start_lower(&rt, rt.alloc());
    let upper = over(&rt, rt.alloc(), &lower);
    same_lines(&rt, rt.alloc(), &upper, &BEFORE);
    same_lines(&rt, rt.alloc(), &*lower, &BEFORE);
    has_numbers(&rt, &upper, 7, 6);
    has_bytes_from(&rt, rt.alloc(), &upper, 4, 0, b"hello");
}

const WRITE: Call = Call::Write(4, 0, b"HI");

/// A run writes into `/f`.
fn write_over<T: TreeStore>(rt: &impl Abort, alloc: Global, upper: &mut T) {
    must_make(rt, alloc, upper, WRITE, 10, "bob");
    has_bytes_from(rt, alloc, upper, 4, 0, b"HIllo");
}

/// A run removes `/f`.
fn remove_over<T: TreeStore>(rt: &impl Abort, alloc: Global, upper: &mut T) {
    must_make(rt, alloc, upper, Call::Remove(4), 11, "bob");
    assert!(rt; upper.record(4).is_none());
}

/// `HI` is written to `/f`: `HIllo`, and the lower tree still reads `hello`.
#[test]
fn the_lower_tree_reads_as_before(rt: HostRuntime) {
    let lower = start_lower(&rt, rt.alloc());
    let mut upper = over(&rt, rt.alloc(), &lower);
    let mut other = over(&rt, rt.alloc(), &lower);
    write_over(&rt, rt.alloc(), &mut upper);
    has_bytes_from(&rt, rt.alloc(), &*lower, 4, 0, b"hello");
    remove_over(&rt, rt.alloc(), &mut other);
    same_lines(&rt, rt.alloc(), &*lower, &BEFORE);
}

/// `HI` is written to `/f` in a run: `HIllo`. The next run and the tree below read `hello`.
#[test]
fn a_run_over_a_plain_tree_leaves_it(rt: HostRuntime) {
    let lower = start_lower(&rt, rt.alloc());
    run_and_look(&rt, rt.alloc(), &lower);
}

/// The bytes of `/f`: its own five, and zeros in all but one place.
fn has_one_letter<T: TreeRead>(rt: &impl Abort, alloc: Global, tree: &T) {
    has_bytes_from(rt, alloc, tree, 4, 4090, b"\0\0\0\0a\0\0\0\0\0");
    let found = tree.read_at(alloc, 4, 0, 10_000).expect(rt, "memory");
    assert!(rt; found.expect(rt, "bytes").starts_with(b"hello\0\0"));
}

/// A cut inside a block that was written.
#[test]
fn a_written_block_is_cut_too(rt: HostRuntime) {
    let mut tree = over_plain(&rt, rt.alloc());
    let write = Call::Write(4, 4094, b"abcd");
    must_make(&rt, rt.alloc(), &mut tree, write, 10, "bob");
    must_make(&rt, rt.alloc(), &mut tree, resized(4095), 11, "bob");
    must_make(&rt, rt.alloc(), &mut tree, resized(4100), 12, "bob");
    has_one_letter(&rt, rt.alloc(), &tree);
}

/// A name is removed, listed, and made again; a name of both is listed once.
#[test]
fn a_name_of_both_levels_is_listed_once(rt: HostRuntime) {
    let mut tree = over_plain(&rt, rt.alloc());
    must_make(&rt, rt.alloc(), &mut tree, Call::Remove(4), 10, "bob");
    has_entries(&rt, rt.alloc(), &tree, 0, "d 1, n 5, p 6, ");
    let add = Call::Add(0, "f", 0o600);
    must_make(&rt, rt.alloc(), &mut tree, add, 11, "ann");
    has_entries(&rt, rt.alloc(), &tree, 0, "d 1, f 7, n 5, p 6, ");
    let gone = tree.read_at(rt.alloc(), 4, 0, 10_000).expect(&rt, "memory");
    assert!(&rt; gone.is_none());
}

/// A run over the start tree with `HI` in `/f`, and a new file `/d/g`.
fn low_level(rt: &impl Abort, alloc: Global) -> Arc<Overlay<PlainTree>> {
    let mut low = over_plain(rt, alloc);
    must_make(rt, alloc, &mut low, WRITE, 10, "bob");
    must_make(rt, alloc, &mut low, Call::Add(1, "g", 0o644), 11, "bob");
    shared(rt, alloc, low)
}

/// Looks at `/f` and at the entries of `/d`.
fn shows<T: TreeRead>(rt: &impl Abort, alloc: Global, tree: &T, bytes: &[u8], entries: &str) {
    has_bytes_from(rt, alloc, tree, 4, 0, bytes);
    has_entries(rt, alloc, tree, 1, entries);
}

/// A second level shows the same after each call as the first.
#[test]
fn levels_lie_over_levels(rt: HostRuntime) {
    let low = low_level(&rt, rt.alloc());
    let mut high = over(&rt, rt.alloc(), &low);
    let write = Call::Write(4, 3, b"LL");
    must_make(&rt, rt.alloc(), &mut high, write, 12, "bob");
    must_make(&rt, rt.alloc(), &mut high, Call::Remove(7), 13, "bob");
    shows(&rt, rt.alloc(), &high, b"HIlLL", "s 2, ");
    shows(&rt, rt.alloc(), &*low, b"HIllo", "g 7, s 2, ");
}
