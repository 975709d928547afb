//! Listings of a directory: its own answers merged with the lower directory's entries. Each
//! function returns the first entry after `last`, or the first of all if `last` is None. It returns
//! None if there is no such entry, or if the entry doesn't come before a bound that is given.
ghost use Rattle.std.specs.Prelude.{◌≡◌, Some, IfSome, IsSome};
ghost use Rattle.std.specs.Option.{option_copied, option_map};
ghost use Rattle.std.specs.FinMap.{get};
ghost use Rattle.cs_tree_model.specs.Nexts.{entry_name, IsEntryBelow};
ghost use Rattle.cs_overlay.specs.Layers.{found_at, own_in, said_over};

use crate::answers::Answers;
use crate::node::{Body, Node};
use cs_names::Name;
use cs_tree_model::{ListedEntry, TreeRead};

/// The next entry of a directory that has these own answers. Each step of the loop looks at one
/// answer: an entry of the lower directory before the answer's name comes first, and a name that no
/// file has is passed over.
fn next_of_both<'a, L: TreeRead>(
    lower: &'a L,
    answers: &'a Answers,
    directory: u64,
    last: Option<&Name>,
    bound: Option<&Name>,
) -> Option<ListedEntry<'a>>
    ensures name { IsEntryBelow
        (λ y. IsSome (said_over (L.tree lower.now) directory y (get answers.now y)))
        (option_copied last.entry) (option_copied bound.entry) (option_map entry_name result) }
    ensures number { IfSome result
        (λ e. said_over (L.tree lower.now) directory (entry_name e) (get answers.now (entry_name e))
        ≡ Some e.number) }
{
    let mut from = last;
    loop {
        let Some((name, number)) = answers.first_after(from, bound) else {
            return lower.entry_after(directory, from, bound);
        };
        if let Some(entry) = lower.entry_after(directory, from, Some(name)) {
            return Some(entry);
        }
        if let Some(number) = number {
            return Some(ListedEntry { name, number });
        }
        // a name that no file has
        from = Some(name);
    }
}

/// The next entry of a directory whose node has this body; None if there is none. Callers list only
/// directories; if the body is a file's, it is the lower tree's next entry.
fn next_in_node<'a, L: TreeRead>(
    lower: &'a L,
    body: &'a Body,
    directory: u64,
    last: Option<&Name>,
    bound: Option<&Name>,
) -> Option<ListedEntry<'a>>
    ensures name { IsEntryBelow
        (λ y. IsSome (said_over (L.tree lower.now) directory y (own_in body.now y)))
        (option_copied last.entry) (option_copied bound.entry) (option_map entry_name result) }
    ensures number { IfSome result
        (λ e. said_over (L.tree lower.now) directory (entry_name e) (own_in body.now (entry_name e))
        ≡ Some e.number) }
{
    match body {
        Body::Directory(answers) => next_of_both(lower, answers, directory, last, bound),
        Body::File(_) => lower.entry_after(directory, last, bound),
    }
}

/// The next entry of a directory. `entry` is what the overlay has at the directory's number: a
/// node, `Some(None)` if the directory was removed, so that nothing is listed, or None if the lower
/// tree's directory is unchanged.
pub fn entry_after<'a, L: TreeRead>(
    lower: &'a L,
    entry: Option<&'a Option<Node>>,
    directory: u64,
    last: Option<&Name>,
    bound: Option<&Name>,
) -> Option<ListedEntry<'a>>
    ensures name { IsEntryBelow
        (λ y. IsSome (found_at (L.tree lower.now) directory y (option_copied entry.entry)))
        (option_copied last.entry) (option_copied bound.entry) (option_map entry_name result) }
    ensures number { IfSome result
        (λ e. found_at (L.tree lower.now) directory (entry_name e) (option_copied entry.entry)
        ≡ Some e.number) }
{
    match entry {
        Some(Some(node)) => next_in_node(lower, &node.body, directory, last, bound),
        Some(None) => None,
        None => lower.entry_after(directory, last, bound),
    }
}
