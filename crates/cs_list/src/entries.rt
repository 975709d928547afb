//! What the entries of a trace's tree hold after its first micro-operations.
ghost use Rattle.std.specs.Prelude.{◌≡◌, ℕ, cond, length, IfOk, OnOk, Some};
ghost use Rattle.std.specs.FinMap.{get, insert, remove};
ghost use Rattle.std.specs.Option.{option_map_or};
ghost use Rattle.cs_entries.specs.DirEntries.{entry_of};
ghost use Rattle.cs_entries.specs.Entries.{entry_eq};
ghost use Rattle.cs_entries.specs.Paths.{entry_in};
ghost use Rattle.cs_entries.specs.declared.entry.Entry.{Entry};
ghost use Rattle.cs_trace.specs.Traces.{start_table};
ghost use Rattle.cs_apm.specs.Slots.{Mirror};
ghost use Rattle.cs_apm.specs.States.{entries_after};

use cs_apm::tables::Tables;
use cs_entries::{DirEntry, Directories, Entry, Node};
use cs_micro::MicroOp;
use cs_names::laws::know;
use cs_plan::Scene;
use std::alloc::{AllocError, Global};

/// Puts the node under the name in the directory of the number, in place of what is there. The
/// error is out of memory; the entries must not be used then.
fn put(
    alloc: Global,
    held: &mut Directories,
    directory: u32,
    name: &str,
    node: Node,
) -> Result<(), AllocError>
    ensures { OnOk result (held.new ≡ insert held.old (entry_in directory name.now) node) }
{
    let name = String::from_str(alloc, name)?;
    held.insert(alloc, directory, name, node)?;
    Ok(())
}

/// Puts the slot's node under the entry, in place of what is there. If the slot is None, the entry
/// holds nothing afterwards. The error is as that of `put`.
fn put_slot(
    alloc: Global,
    held: &mut Directories,
    entry: &Entry,
    slot: Option<Node>,
) -> Result<(), AllocError>
    ensures { OnOk result ((e : Entry)
        → get held.new e ≡ cond (entry_eq entry.now e) slot (get held.old e)) }
{
    match slot {
        Some(node) => put(alloc, held, entry.directory, entry.name.as_str(), node),
        None => {
            held.remove(entry.directory, entry.name.as_str());
            Ok(())
        }
    }
}

/// What the entries hold: each what the slot at the same place has. If an entry is in the list
/// twice, its first slot counts. The error is out of memory. Both lists are equally long.
fn entries_of_slots(
    alloc: Global,
    entries: &[Entry],
    slots: &[Option<Node>],
) -> Result<Directories, AllocError>
    requires { length slots.now ≡ length entries.now }
    ensures { IfOk result (λ held. Mirror entries.now slots.now held) }
{
    let mut held = Directories::new(alloc);
    for place in (0..entries.len()).rev() {
        put_slot(alloc, &mut held, &entries[place], slots[place])?;
    }
    Ok(held)
}

/// What each entry holds at the start of the trace. The error is out of memory.
pub fn start_entries(alloc: Global, scene: &Scene) -> Result<Directories, AllocError>
    ensures { IfOk result (λ held. held ≡ start_table scene.now.trace) }
{
    let trace = scene.trace();
    // By the contracts of both, the micro-operations are legal.
    know(trace.operations());
    know(trace.file_count());
    let tables = Tables::of(alloc, trace, scene.micros())?;
    entries_of_slots(alloc, &tables.entries, &tables.slots)
}

/// Moves what one entry holds to another, in place of what is there; if the first holds nothing,
/// nothing changes. The error is as that of `put`.
fn move_entry(
    alloc: Global,
    held: &mut Directories,
    from: &DirEntry,
    to: &DirEntry,
) -> Result<(), AllocError>
    ensures { OnOk result (held.new ≡ option_map_or
        (λ node. insert (remove held.old (entry_of from.now)) (entry_of to.now) node)
        (get held.old (entry_of from.now)) held.old) }
{
    let Some(node) = held.get(from.directory, from.name()) else {
        return Ok(());
    };
    held.remove(from.directory, from.name());
    put(alloc, held, to.directory, to.name(), node)
}

/// Changes what the entries hold as the micro-operation does. The operation must be the trace's
/// next. The error is out of memory; the entries must not be used then.
pub fn apply(alloc: Global, held: &mut Directories, op: &MicroOp) -> Result<(), AllocError>
    ensures { OnOk result (held.new ≡ entries_after held.old op.now) }
{
    match op {
        MicroOp::CreateDirEntry { entry, node, .. } => {
            put(alloc, held, entry.directory, entry.name(), *node)
        }
        MicroOp::LinkDirEntry {
            entry,
            kind,
            file,
            ..
        } => put(
            alloc,
            held,
            entry.directory,
            entry.name(),
            Node::File(*kind, *file),
        ),
        MicroOp::DeleteDirEntry { entry, .. } => {
            held.remove(entry.directory, entry.name());
            Ok(())
        }
        MicroOp::MoveDirEntry { from, to, .. } => move_entry(alloc, held, from, to),
        // no other operation changes an entry
        _ => Ok(()),
    }
}
