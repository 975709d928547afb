//! A directory's entries, one after another.

use super::calls::{Call, must_make};
use super::shown::has_entries;
use super::start::{over_frozen, over_plain, start_tree};
use super::states::over_state;
use cs_names::Name;
use cs_tree_model::{TreeRead, TreeStore};
use std::alloc::Global;
use std::process::Abort;

const NAMES: [&str; 5] = ["da", "D", "\u{e9}", "d0", "~"];

const ALL: &str = "D 8, d 1, d0 10, da 7, f 4, n 5, p 6, ~ 11, \u{e9} 9, ";

/// Makes files in the root, and lists it.
fn make_and_list<T: TreeStore + Drop>(rt: &impl Abort, alloc: Global, mut tree: T) {
    for name in &NAMES {
        let call = Call::Add(0, name, 0o644);
        must_make(rt, alloc, &mut tree, call, 1, "cat");
    }
    has_entries(rt, alloc, &tree, 0, ALL);
    has_entries(rt, alloc, &tree, 1, "s 2, ");
    has_entries(rt, alloc, &tree, 6, "");
    has_entries(rt, alloc, &tree, 4, "");
    has_entries(rt, alloc, &tree, 99, "");
}

/// `D`, `d`, `d0`, `da`, `f`, `n`, `p`, `~`, `é`: the root's entries in byte order. An empty
/// directory, a file and an absent number have none.
#[test]
fn entries_come_in_byte_order_of_their_names(rt: HostRuntime) {
    make_and_list(&rt, rt.alloc(), start_tree(&rt, rt.alloc()));
    make_and_list(&rt, rt.alloc(), over_plain(&rt, rt.alloc()));
    make_and_list(&rt, rt.alloc(), over_frozen(&rt, rt.alloc()));
    make_and_list(&rt, rt.alloc(), over_state(&rt, rt.alloc()));
}

/// Last name, bound and answer of a step in the root's listing; an empty text means None.
struct Step {
    last: &'static str,
    bound: &'static str,
    answer: &'static str,
}

fn name(alloc: Global, text: &str) -> Option<Name> {
    Name::read(alloc, text.as_bytes()).ok()
}

fn entry<T: TreeRead>(rt: &impl Abort, alloc: Global, tree: &T, last: &str, bound: &str) -> String {
    let (last, bound) = (name(alloc, last), name(alloc, bound));
    let mut text = String::new(alloc);
    if let Some(entry) = tree.entry_after(0, last.as_ref(), bound.as_ref()) {
        let (name, number) = (entry.name, entry.number);
        write!(text, "{name} {number}").expect(rt, "memory");
    }
    text
}

fn gives<T: TreeRead>(rt: &impl Abort, alloc: Global, tree: &T, step: &Step) {
    let (last, bound) = (step.last, step.bound);
    let found = entry(rt, alloc, tree, last, bound);
    assert!(rt;
        found.as_str() == step.answer,
        "after {last}, before {bound}"
    );
}

fn step_through<T: TreeRead>(rt: &impl Abort, alloc: Global, tree: &T, steps: &[Step]) {
    for step in steps {
        gives(rt, alloc, tree, step);
    }
}

const WHOLE: [Step; 9] = [
    Step {
        last: "",
        bound: "",
        answer: "d 1",
    },
    Step {
        last: "d",
        bound: "",
        answer: "f 4",
    },
    Step {
        last: "e",
        bound: "",
        answer: "f 4",
    },
    Step {
        last: "p",
        bound: "",
        answer: "",
    },
    Step {
        last: "",
        bound: "d",
        answer: "",
    },
    Step {
        last: "",
        bound: "d0",
        answer: "d 1",
    },
    Step {
        last: "d",
        bound: "f",
        answer: "",
    },
    Step {
        last: "d",
        bound: "g",
        answer: "f 4",
    },
    Step {
        last: "f",
        bound: "e",
        answer: "",
    },
];

const WITHOUT_F: [Step; 5] = [
    Step {
        last: "",
        bound: "",
        answer: "d 1",
    },
    Step {
        last: "d",
        bound: "",
        answer: "n 5",
    },
    Step {
        last: "f",
        bound: "",
        answer: "n 5",
    },
    Step {
        last: "f",
        bound: "n",
        answer: "",
    },
    Step {
        last: "n",
        bound: "",
        answer: "p 6",
    },
];

/// Lists the root of the start tree, and takes the last name that was given out of it.
fn list_and_remove<T: TreeStore + Drop>(rt: &impl Abort, alloc: Global, mut tree: T) {
    step_through(rt, alloc, &tree, &WHOLE);
    must_make(rt, alloc, &mut tree, Call::Remove(4), 1, "cat");
    step_through(rt, alloc, &tree, &WITHOUT_F);
}

/// The entry after each name, and before each bound; after `f` was removed, the next one after `f`
/// is `n`.
#[test]
fn a_listing_goes_on_after_a_name_that_is_gone(rt: HostRuntime) {
    list_and_remove(&rt, rt.alloc(), start_tree(&rt, rt.alloc()));
    list_and_remove(&rt, rt.alloc(), over_plain(&rt, rt.alloc()));
    list_and_remove(&rt, rt.alloc(), over_frozen(&rt, rt.alloc()));
    list_and_remove(&rt, rt.alloc(), over_state(&rt, rt.alloc()));
}
