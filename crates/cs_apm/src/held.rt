//! Every entry that the start has or a micro-operation touches, with what it holds at the start:
//! None if it holds nothing. If memory runs out while entries are added to a map, some may have
//! been added; `held_entries` then drops the map.
ghost use Rattle.std.specs.Prelude.{◌≡◌, ◌≤◌, ◌+◌, ◌*◌, length, map, true, IfOk, OnOk, Some};
ghost use Rattle.std.specs.FinMap.{from_entries, insert, len};
ghost use Rattle.std.specs.List.Sorted.{IsStrictlySortedBy};
ghost use Rattle.cs_tree_model.specs.Tree.{path_cmp};
ghost use Rattle.cs_entries.specs.DirEntries.{entry_of};
ghost use Rattle.cs_entries.specs.declared.entry.Entry.{Entry as TheEntry};
ghost use Rattle.cs_trace.specs.Traces.{entries_of_paths, paths_of_records};
ghost use Rattle.cs_apm.specs.Held.{HasAllTouched, HasTouched, HoldsAll, has, held_of, slot_in};

use crate::homes::start_pairs;
use cs_entries::{DirEntry, Entry, Node};
use cs_micro::MicroOp;
use cs_trace::Start;
use std::alloc::{AllocError, Global};
use std::collections::BTreeMap;

/// Notes in the map that the entry holds the node at the start, in place of what was noted of the
/// entry.
fn hold(
    held: &mut BTreeMap<Entry, Option<Node>>,
    entry: Entry,
    node: Node,
) -> Result<(), AllocError>
    ensures { OnOk result (held_of held.new ≡ insert (held_of held.old) entry (Some node)) }
{
    held.insert(entry, Some(node))?;
    Ok(())
}

/// Adds an entry that is touched to the map, as one that holds nothing at the start. If the map has
/// the entry, nothing changes.
fn add_touched(
    alloc: Global,
    held: &mut BTreeMap<Entry, Option<Node>>,
    at: &DirEntry,
) -> Result<(), AllocError>
    ensures there { OnOk result (has (held_of held.new) (entry_of at.now) ≡ true) }
    ensures others { OnOk result ((e : TheEntry) → has (held_of held.old) e ≡ true
        → has (held_of held.new) e ≡ true) }
    ensures same { OnOk result ((e : TheEntry)
        → slot_in (held_of held.new) e ≡ slot_in (held_of held.old) e) }
    ensures few { OnOk result (len (held_of held.new) ≤ len (held_of held.old) + 1) }
{
    let entry = at.entry(alloc)?;
    if held.contains_key(&entry) {
        return Ok(());
    }
    held.insert(entry, None)?;
    Ok(())
}

/// Adds the entries that a micro-operation touches to the map: two of a move, one of another entry
/// operation, and none of any other.
fn add_all_touched(
    alloc: Global,
    held: &mut BTreeMap<Entry, Option<Node>>,
    op: &MicroOp,
) -> Result<(), AllocError>
    ensures there { OnOk result (HasTouched (held_of held.new) op.now) }
    ensures others { OnOk result ((e : TheEntry) → has (held_of held.old) e ≡ true
        → has (held_of held.new) e ≡ true) }
    ensures same { OnOk result ((e : TheEntry)
        → slot_in (held_of held.new) e ≡ slot_in (held_of held.old) e) }
    ensures few { OnOk result (len (held_of held.new) ≤ len (held_of held.old) + 2) }
{
    match op {
        MicroOp::CreateDirEntry { entry, .. } => add_touched(alloc, held, entry)?,
        MicroOp::DeleteDirEntry { entry, .. } => add_touched(alloc, held, entry)?,
        MicroOp::LinkDirEntry { entry, .. } => add_touched(alloc, held, entry)?,
        MicroOp::MoveDirEntry { from, to, .. } => {
            add_touched(alloc, held, from)?;
            add_touched(alloc, held, to)?;
        }
        MicroOp::SetAttr { .. }
        | MicroOp::ChangeFileSize { .. }
        | MicroOp::WriteBlock { .. }
        | MicroOp::Say => {}
    }
    Ok(())
}

/// What each entry holds by these pairs. If two pairs have the same entry, the first counts.
fn held_by_pairs(
    alloc: Global,
    pairs: Vec<(Entry, Node)>,
) -> Result<BTreeMap<Entry, Option<Node>>, AllocError>
    ensures held { IfOk result (λ held. HoldsAll (held_of held) (from_entries pairs.items)) }
    ensures few { IfOk result (λ held. len (held_of held) ≤ length pairs.items) }
{
    let mut held = BTreeMap::new(alloc);
    let mut pairs = pairs;
    // From the last pair on, so that the first one stays.
    while let Some((entry, node)) = pairs.pop() {
        hold(&mut held, entry, node)?;
    }
    Ok(held)
}

/// Every entry that the start has or one of the micro-operations touches, with what it holds at the
/// start: None if it holds nothing. `nodes` has what is at the path of each record.
pub fn held_entries(
    alloc: Global,
    records: &Start,
    nodes: &[Node],
    ops: &[MicroOp],
) -> Result<BTreeMap<Entry, Option<Node>>, AllocError>
    requires each { length nodes.now ≡ length records.now }
    requires ascending { IsStrictlySortedBy path_cmp (map (λ e. e.0) records.now) }
    ensures start { IfOk result (λ held. HoldsAll (held_of held)
        (entries_of_paths (paths_of_records records.now nodes.now))) }
    ensures touched { IfOk result
        (λ held. HasAllTouched (held_of held) ops.now (length ops.now)) }
    ensures few { IfOk result (λ held. len (held_of held)
        ≤ length records.now + 2 * length ops.now) }
{
    let pairs = start_pairs(alloc, records, nodes)?;
    let mut held = held_by_pairs(alloc, pairs)?;
    for op in ops {
        add_all_touched(alloc, &mut held, op)?;
    }
    Ok(held)
}
