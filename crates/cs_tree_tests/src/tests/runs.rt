//! Runs over one lower tree don't change it or each other.

use super::calls::{Call, Fields, NONE, must_make};
use super::shown::{has_bytes_from, has_entries, same_lines};
use cs_names::UserName;
use cs_overlay::Overlay;
use cs_overlay::laws::lower_stays;
use cs_test_stores::{has_bytes, takes_changes};
use cs_tree_model::{Stamp, TreeRead, TreeStore};
use std::alloc::Global;
use std::process::Abort;
use std::sync::Arc;

/// The start tree, unchanged.
pub const BEFORE: [&str; 7] = [
    "0 / 0 cat staff d775 0 0 cat",
    "1 /d 0 ann staff d755 0 0 ann",
    "2 /d/s 0 ann ann d700 0 0 ann",
    "3 /d/s/z 0 ann ann -644 0 0 ann 0:",
    "4 /f 0 ann staff -664 0 0 ann 5:hello",
    "5 /n 0 none none -600 0 0 none 0:",
    "6 /p 0 ann staff d750 0 0 ann",
];

/// A run in which `/f` begins with `HI`, and one that was made after it.
fn two_runs<L: TreeRead + Drop>(
    rt: &impl Abort,
    alloc: Global,
    state: &Arc<L>,
) -> (Overlay<L>, Overlay<L>) {
    let lower: &L = &**state;
    assert!(rt; has_bytes(lower, 4) && takes_changes(lower, 4));
    let user = UserName::read(alloc, b"bob").expect(rt, "a user's name");
    let runs = lower_stays(alloc, state, 4, 0, b"HI", Stamp { now: 10, user });
    runs.expect(rt, "memory")
}

/// A run over the start tree writes into `/f`; the next run and the tree itself don't show it.
pub fn run_and_look<L: TreeRead + Drop>(rt: &impl Abort, alloc: Global, state: &Arc<L>) {
    let (first, second) = two_runs(rt, alloc, state);
    has_bytes_from(rt, alloc, &first, 4, 0, b"HIllo");
    same_lines(rt, alloc, &second, &BEFORE);
    same_lines(rt, alloc, &**state, &BEFORE);
}

fn resized(length: u64) -> Call {
    Call::Change(
        1,
        Fields {
            length: Some(length),
            ..NONE
        },
    )
}

/// What `/a` is: its version, and how many letters and then zeros it has.
#[derive(Clone, Copy)]
struct Shape {
    vers: u32,
    letters: usize,
    zeros: usize,
}

fn has_shape<T: TreeRead>(rt: &impl Abort, alloc: Global, tree: &T, wanted: Shape) {
    let file = tree.record(1).expect(rt, "a file");
    assert!(rt; file.vers == wanted.vers);
    let found = tree.read_at(alloc, 1, 0, 10_000).expect(rt, "memory");
    let found = found.expect(rt, "bytes");
    assert!(rt; found.len() == wanted.letters.wrapping_add(wanted.zeros));
    assert!(rt; found.iter().take(wanted.letters).all(|byte| *byte == b'a'));
    assert!(rt; found.iter().skip(wanted.letters).all(|byte| *byte == 0));
}

const WHOLE: Shape = Shape {
    vers: 0,
    letters: 5000,
    zeros: 0,
};

const CUT: Shape = Shape {
    vers: 1,
    letters: 1,
    zeros: 0,
};

const GROWN: Shape = Shape {
    vers: 2,
    letters: 1,
    zeros: 4999,
};

fn cut_and_grow<T: TreeStore>(rt: &impl Abort, alloc: Global, tree: &mut T) {
    must_make(rt, alloc, tree, resized(1), 10, "ann");
    has_shape(rt, alloc, tree, CUT);
    must_make(rt, alloc, tree, resized(5000), 11, "ann");
    has_shape(rt, alloc, tree, GROWN);
}

/// A run over a tree that it shares.
pub fn over<L: TreeRead + Drop>(rt: &impl Abort, alloc: Global, lower: &Arc<L>) -> Overlay<L> {
    Overlay::over(alloc, lower.clone().expect(rt, "a share"))
}

/// Over a tree of `/a`, with 5,000 bytes of 0x61, a run cuts it, lets it grow and removes it.
/// Another run and the tree itself show it as it was.
pub fn cut_over<L: TreeRead + Drop>(rt: &impl Abort, alloc: Global, state: &Arc<L>) {
    let mut first = over(rt, alloc, state);
    let other = over(rt, alloc, state);
    cut_and_grow(rt, alloc, &mut first);
    has_shape(rt, alloc, &other, WHOLE);
    must_make(rt, alloc, &mut first, Call::Remove(1), 12, "ann");
    has_entries(rt, alloc, &first, 0, "");
    has_entries(rt, alloc, &other, 0, "a 1, ");
    has_shape(rt, alloc, &**state, WHOLE);
}
