//! What a frozen tree shows.

use super::calls::{Call, must_make, write};
use super::runs::{BEFORE, cut_over, over, run_and_look};
use super::shown::{has_entries, has_numbers, same_lines};
use super::start::{START, frozen, over_frozen, over_plain, records, shared, start_lower, tree_of};
use cs_frozen::Lower;
use cs_names::UserName;
use cs_overlay::Overlay;
use cs_tree::PlainTree;
use cs_tree_model::{DMDIR, Stamp, TreeRead};
use std::alloc::Global;
use std::process::Abort;
use std::sync::Arc;

/// A plain tree over which something was changed, frozen.
type State = Arc<Lower<Overlay<PlainTree>>>;

/// Files that were made in another order and changed since freeze to the start tree.
#[test]
fn files_made_in_another_order_freeze_to_the_start_tree(rt: HostRuntime) {
    let tree = over_frozen(&rt, rt.alloc());
    same_lines(&rt, rt.alloc(), &tree, &BEFORE);
    has_numbers(&rt, &tree, 7, 6);
}

/// What was changed over the start tree, each by another user.
const CALLS: [Call; 5] = [
    Call::Write(4, 0, b"HI"),
    Call::Add(0, "a", 0o640),
    Call::Remove(3),
    Call::Remove(2),
    Call::Add(1, "b", DMDIR | 0o700),
];

/// The tree once it is frozen: `/a`, the last file but one to be made, comes after the root.
const AFTER: [&str; 7] = [
    "0 / 0 cat staff d775 0 0 cat",
    "1 /a 0 bob staff -640 0 0 bob 0:",
    "2 /d 0 ann staff d755 0 0 ann",
    "3 /d/b 0 bob staff d700 0 0 bob",
    "4 /f 0 ann staff -664 0 0 ann 5:HIllo",
    "5 /n 0 none none -600 0 0 none 0:",
    "6 /p 0 ann staff d750 0 0 ann",
];

/// The start tree with the changes over it, frozen.
fn changed(rt: &impl Abort, alloc: Global, lower: &Arc<PlainTree>) -> State {
    let mut tree = over(rt, alloc, lower);
    for call in &CALLS {
        must_make(rt, alloc, &mut tree, *call, 10, "bob");
    }
    frozen(rt, alloc, tree)
}

/// The entries of its directories; a file and no file have none.
fn has_all_entries<T: TreeRead>(rt: &impl Abort, alloc: Global, tree: &T) {
    has_entries(rt, alloc, tree, 0, "a 1, d 2, f 4, n 5, p 6, ");
    has_entries(rt, alloc, tree, 2, "b 3, ");
    has_entries(rt, alloc, tree, 4, "");
    has_entries(rt, alloc, tree, 9, "");
}

/// `/a` is made, `/f` written, `/d/s` removed and `/d/b` made: the frozen tree has all numbers in
/// the order of paths, and the lower tree stays.
#[test]
fn a_frozen_tree_has_fresh_numbers_in_the_order_of_paths(rt: HostRuntime) {
    let lower = start_lower(&rt, rt.alloc());
    let state = changed(&rt, rt.alloc(), &lower);
    same_lines(&rt, rt.alloc(), &*state, &AFTER);
    has_numbers(&rt, &*state, 7, 6);
    has_all_entries(&rt, rt.alloc(), &*state);
    assert!(&rt; state.record(7).is_none());
    same_lines(&rt, rt.alloc(), &*lower, &BEFORE);
}

/// `HI` is written to `/f` in a run: `HIllo`. The next run and the tree below read `hello`.
#[test]
fn a_run_over_a_frozen_tree_leaves_it(rt: HostRuntime) {
    let tree = over_plain(&rt, rt.alloc());
    let state = frozen(&rt, rt.alloc(), tree);
    run_and_look(&rt, rt.alloc(), &state);
}

/// Bytes of 0x61 are written into `/a`.
fn write_letters<L: TreeRead + Drop>(rt: &impl Abort, alloc: Global, tree: &mut Overlay<L>) {
    let user = UserName::read(alloc, b"ann").expect(rt, "a user's name");
    let stamp = Stamp { now: 2, user };
    write(rt, alloc, tree, 1, 0, &[b'a'; 5000], stamp);
}

/// `/a` with 5,000 bytes of 0x61, frozen.
fn with_letters(rt: &impl Abort, alloc: Global) -> State {
    let plain = tree_of(rt, alloc, records(rt, alloc, &START[..1]));
    let mut tree = Overlay::over(alloc, shared(rt, alloc, plain));
    must_make(rt, alloc, &mut tree, Call::Add(0, "a", 0o644), 1, "ann");
    write_letters(rt, alloc, &mut tree);
    frozen(rt, alloc, tree)
}

/// `/a` has 5,000 bytes of 0x61, in the state because it was written at another name, waited for
/// and moved. In one run it is cut to 1 byte and grows to 5,000: the first byte stays, the others
/// are zero, with versions 1 and 2; then it is removed, and the root lists nothing. In another run
/// and below it is whole, in version 0, and listed.
#[test]
fn a_cut_over_a_frozen_file_grows_by_zeros(rt: HostRuntime) {
    let state = with_letters(&rt, rt.alloc());
    cut_over(&rt, rt.alloc(), &state);
}
