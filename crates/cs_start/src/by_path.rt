//! Maps of entries of the start by their whole paths (`by_path`, `others`), and how such a map and
//! the siblings, which are kept apart by name, become one. After an error, entries may be missing,
//! or only some of them appended to the lists of the start; the callers drop both.
ghost use Rattle.std.specs.Prelude.{◌≡◌, ◌++◌, false, IfOk, OnErr, OnOk, length};
ghost use Rattle.std.specs.FinMap as map;
ghost use Rattle.std.specs.List.{list_any};
ghost use Rattle.std.specs.Option.{is_some};
ghost use Rattle.cs_tree_model.specs.Tree.{path_cmp};
ghost use Rattle.cs_start.specs.Below.{is_below};
ghost use Rattle.cs_start.specs.Entries.{with_nodes, with_records};
ghost use Rattle.cs_start.specs.Owned.{with_places};
ghost use Rattle.cs_start.specs.Siblings.{AreBefore, AreElsewhere, AreIn, with_all};
ghost use Rattle.cs_start.specs.Siblings.{with_siblings};
ghost use Rattle.cs_start.specs.Unions.{union};

use crate::entry::StartEntry;
use crate::siblings::Siblings;
use crate::start_lists::StartLists;
use cs_names::Path;
use std::alloc::{AllocError, Global};
use std::collections::BTreeMap;
use std::ops::Bound;

/// Whether an entry of this map is below the path, at any depth; the path's own entry isn't. In the
/// order of paths it would come right after the path, so only one entry is looked at. It takes no
/// memory.
pub(crate) fn has_below(by_path: &BTreeMap<Path, StartEntry>, path: &Path) -> bool
    ensures value { result ≡ list_any (λ e. is_below path.now e.0) by_path.now.entries }
    ensures order { map.entries (map.from_entries {R = path_cmp} by_path.now.entries)
        ≡ by_path.now.entries }
{
    match by_path
        .range((Bound::Excluded(path), Bound::Unbounded))
        .next()
    {
        None => false,
        Some((next, _)) => next.begins_with(path),
    }
}

/// Appends the entries of a map to the lists of the start, in the order of paths. The callers take
/// care that they come after all that the lists have.
pub(crate) fn append_map(
    by_path: BTreeMap<Path, StartEntry>,
    lists: &mut StartLists,
) -> Result<(), AllocError>
    ensures records { OnOk result (lists.new.records ≡ with_records lists.old.records
        (map.entries (map.from_entries {R = path_cmp} by_path.entries))) }
    ensures nodes { OnOk result (lists.new.nodes.items ≡ with_nodes lists.old.nodes.items
        (map.entries (map.from_entries {R = path_cmp} by_path.entries))) }
    ensures places { OnOk result (lists.new.places.items
        ≡ with_places lists.old.places.items (length lists.old.records)
        (map.entries (map.from_entries {R = path_cmp} by_path.entries))) }
{
    for (path, entry) in by_path {
        lists.append(path, entry)?;
    }
    Ok(())
}

/// Puts the entry at the path in this map, and returns whether it replaced another. After an error
/// the map is as it was.
pub(crate) fn insert_in_map(
    by_path: &mut BTreeMap<Path, StartEntry>,
    path: Path,
    entry: StartEntry,
) -> Result<bool, AllocError>
    ensures replaced { IfOk result (λ replaced. replaced
        ≡ is_some (map.get (map.from_entries {R = path_cmp} by_path.old.entries) path)) }
    ensures state { OnOk result (map.from_entries by_path.new.entries
        ≡ map.insert (map.from_entries {R = path_cmp} by_path.old.entries) path entry) }
    ensures err { OnErr result (by_path.new.entries ≡ by_path.old.entries) }
{
    let before = by_path.insert(path, entry)?;
    Ok(before.is_some())
}

/// Puts each entry of the list at its path in this map, in place of an entry that is there.
fn insert_all(
    by_path: &mut BTreeMap<Path, StartEntry>,
    list: Vec<(Path, StartEntry)>,
) -> Result<(), AllocError>
    ensures { OnOk result (map.from_entries by_path.new.entries
        ≡ with_all (map.from_entries by_path.old.entries) list.items) }
{
    for (path, entry) in list {
        insert_in_map(by_path, path, entry)?;
    }
    Ok(())
}

/// Puts the entries that were kept apart back into the map of the others. If `siblings` is None,
/// none were, and nothing changes.
pub(crate) fn put_back(
    alloc: Global,
    by_path: &mut BTreeMap<Path, StartEntry>,
    siblings: Option<Siblings>,
) -> Result<(), AllocError>
    ensures { OnOk result (map.from_entries by_path.new.entries
        ≡ with_siblings siblings (map.from_entries by_path.old.entries)) }
{
    match siblings {
        None => Ok(()),
        Some(siblings) => {
            let mut list = Vec::new(alloc);
            siblings.push_to(alloc, &mut list)?;
            insert_all(by_path, list)?;
            Ok(())
        }
    }
}

/// Splits the other entries at the siblings: those before the siblings in the order of paths stay,
/// and those after them are returned. No other entry may be below the directory of the siblings,
/// since it could come between two of them. If there are no siblings, all others stay.
fn split_off_after(
    alloc: Global,
    others: &mut BTreeMap<Path, StartEntry>,
    siblings: &Siblings,
) -> Result<BTreeMap<Path, StartEntry>, AllocError>
    requires all { AreIn siblings.now }
    requires below { list_any (λ e. is_below siblings.now.directory e.0) others.old.entries
        ≡ false }
    requires order { map.entries (map.from_entries {R = path_cmp} others.old.entries)
        ≡ others.old.entries }
    ensures parts { IfOk result (λ after.
        map.entries (map.from_entries {R = path_cmp} others.old.entries)
        ≡ map.entries (map.from_entries {R = path_cmp} others.new.entries)
        ++ map.entries (map.from_entries {R = path_cmp} after.entries)) }
    ensures before { OnOk result
        (AreBefore (map.entries (map.from_entries {R = path_cmp} others.new.entries))
        (map.entries siblings.now.entries)) }
    ensures after { IfOk result (λ after.
        AreBefore (map.entries siblings.now.entries)
        (map.entries (map.from_entries {R = path_cmp} after.entries))) }
{
    let first = siblings.first(alloc)?;
    match first {
        None => Ok(BTreeMap::new(alloc)),
        Some(first) => others.split_off(&first),
    }
}

/// Appends both maps to the lists of the start, in the order of paths: the other entries before the
/// siblings, the siblings, and the others after them. As for `split_off_after`, no other entry may
/// be below the directory of the siblings.
fn append_split(
    alloc: Global,
    others: BTreeMap<Path, StartEntry>,
    siblings: Siblings,
    lists: &mut StartLists,
) -> Result<(), AllocError>
    requires all { AreIn siblings }
    requires apart { AreElsewhere siblings (map.from_entries others.entries) }
    requires below { list_any (λ e. is_below siblings.directory e.0) others.entries ≡ false }
    requires order { map.entries (map.from_entries {R = path_cmp} others.entries)
        ≡ others.entries }
    ensures records { OnOk result (lists.new.records ≡ with_records lists.old.records
        (map.entries (union siblings.entries (map.from_entries others.entries)))) }
    ensures nodes { OnOk result (lists.new.nodes.items ≡ with_nodes lists.old.nodes.items
        (map.entries (union siblings.entries (map.from_entries others.entries)))) }
    ensures places { OnOk result (lists.new.places.items
        ≡ with_places lists.old.places.items (length lists.old.records)
        (map.entries (union siblings.entries (map.from_entries others.entries)))) }
{
    let mut before = others;
    let after = split_off_after(alloc, &mut before, &siblings)?;
    append_map(before, lists)?;
    siblings.append_to(alloc, lists)?;
    append_map(after, lists)?;
    Ok(())
}

/// Appends both maps to the lists of the start, in the order of paths. If some other entry is below
/// the directory of the siblings, it may come between two siblings, so the siblings are put back
/// first. If not, it is faster to append them between the others (`append_split`).
pub(crate) fn append_both(
    alloc: Global,
    others: BTreeMap<Path, StartEntry>,
    siblings: Siblings,
    lists: &mut StartLists,
) -> Result<(), AllocError>
    requires apart { AreElsewhere siblings (map.from_entries others.entries) }
    ensures records { OnOk result (lists.new.records ≡ with_records lists.old.records
        (map.entries (union siblings.entries (map.from_entries others.entries)))) }
    ensures nodes { OnOk result (lists.new.nodes.items ≡ with_nodes lists.old.nodes.items
        (map.entries (union siblings.entries (map.from_entries others.entries)))) }
    ensures places { OnOk result (lists.new.places.items
        ≡ with_places lists.old.places.items (length lists.old.records)
        (map.entries (union siblings.entries (map.from_entries others.entries)))) }
{
    if !has_below(&others, siblings.directory()) {
        return append_split(alloc, others, siblings, lists);
    }
    let mut by_path = others;
    put_back(alloc, &mut by_path, Some(siblings))?;
    append_map(by_path, lists)?;
    Ok(())
}
