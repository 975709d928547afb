//! What is at each path of a state, found by a walk from the root through the slots. The entries
//! are in ascending order, so those of a directory are next to one another.
ghost use Rattle.std.specs.Prelude.{◌≡◌, ◌≢◌, ◌≤◌, ◌++◌, ◌+◌, length, IfOk, OnOk};
ghost use Rattle.std.specs.List.{AllWithin};
ghost use Rattle.cs_entries.specs.Tables.{below, paths_in};
ghost use Rattle.cs_apm.specs.Slots.{AreAscending, held_in_slots, table_of_slots};
ghost use Rattle.cs_apm.specs.Walks.{nodes_of, pairs_in};

use cs_entries::{Entry, Node};
use cs_names::Path;
use std::alloc::{AllocError, Global};
use std::collections::BTreeMap;

/// The range of the places of the directory's entries: the first place, and the one after the last.
/// Both are the same if it has none.
pub fn range_of(entries: &[Entry], directory: u32) -> (usize, usize)
    requires { AreAscending entries.now }
    ensures order { result.0 ≤ result.1 }
    ensures within { result.1 ≤ length entries.now }
    ensures before { AllWithin (λ e. e.directory ≢ directory) entries.now 0 result.0 }
    ensures of { AllWithin (λ e. e.directory ≡ directory) entries.now result.0 result.1 }
    ensures behind { AllWithin (λ e. e.directory ≢ directory) entries.now result.1
        (length entries.now) }
{
    let first = entries.partition_point(|entry| entry.directory < directory);
    let end = entries.partition_point(|entry| entry.directory <= directory);
    (first, end)
}

/// Appends what is below the directory with this number: each path with what is there, at most
/// `deep` names below it. `path` is the directory's. If memory runs out, some may have been
/// appended.
fn push_below(
    alloc: Global,
    found: &mut Vec<(Path, Node)>,
    entries: &[Entry],
    slots: &[Option<Node>],
    path: &Path,
    directory: u32,
    deep: usize,
) -> Result<(), AllocError>
    requires each { length slots.now ≡ length entries.now }
    requires ascending { AreAscending entries.now }
    ensures { OnOk result (found.new.items ≡ found.old.items
        ++ below (held_in_slots entries.now slots.now) deep path.now directory) }
{
    if deep == 0 {
        return Ok(());
    }
    let (first, end) = range_of(entries, directory);
    for i in first..end {
        let Some(node) = slots[i] else {
            continue;
        };
        let child = path.child(alloc, entries[i].name.as_str())?;
        found.push((child.try_clone(alloc)?, node))?;
        if let Node::Directory(number) = node {
            push_below(alloc, found, entries, slots, &child, number, deep - 1)?;
        }
    }
    Ok(())
}

/// The pairs as a map. If two have the same path, the first counts.
fn map_of_pairs(alloc: Global, pairs: Vec<(Path, Node)>) -> Result<BTreeMap<Path, Node>, AllocError>
    ensures { IfOk result (λ nodes. nodes_of nodes ≡ pairs_in pairs.items) }
{
    let mut nodes = BTreeMap::new(alloc);
    let mut pairs = pairs;
    // From the last pair on, so that the first one stays.
    while let Some((path, node)) = pairs.pop() {
        nodes.insert(path, node)?;
    }
    Ok(nodes)
}

/// What is at each path that is reached from the root, the root too. Paths of more than `deep`
/// names are left out: with one more than there are directories, no path of a tree is.
pub fn nodes_at_paths(
    alloc: Global,
    entries: &[Entry],
    slots: &[Option<Node>],
    deep: usize,
) -> Result<BTreeMap<Path, Node>, AllocError>
    requires each { length slots.now ≡ length entries.now }
    requires ascending { AreAscending entries.now }
    ensures { IfOk result (λ nodes. nodes_of nodes
        ≡ paths_in deep (table_of_slots entries.now slots.now)) }
{
    let root = Path::root(alloc);
    let mut pairs = Vec::new(alloc);
    pairs.push((root.try_clone(alloc)?, Node::Directory(0)))?;
    push_below(alloc, &mut pairs, entries, slots, &root, 0, deep)?;
    map_of_pairs(alloc, pairs)
}
