//! The places of entries among those that have a slot.
ghost use Rattle.std.specs.Prelude.{◌≡◌, IfOk, length, map};
ghost use Rattle.std.specs.FinMap.{entries};
ghost use Rattle.std.specs.List.{Contains};
ghost use Rattle.cs_entries.specs.DirEntries.{entry_of};
ghost use Rattle.cs_apm.specs.Held.{held_of};
ghost use Rattle.cs_apm.specs.Slots.{AreAscending, IsPlace};

use cs_entries::{DirEntry, Entry, Node};
use std::alloc::{AllocError, Global};
use std::collections::BTreeMap;

/// The entries of a map in their order (by directory, then by name), and what each holds there, in
/// the same order.
pub fn lists_of(
    alloc: Global,
    held: BTreeMap<Entry, Option<Node>>,
) -> Result<(Vec<Entry>, Vec<Option<Node>>), AllocError>
    ensures entries { IfOk result
        (λ lists. lists.0.items ≡ map (λ x. x.0) (entries (held_of held))) }
    ensures slots { IfOk result
        (λ lists. lists.1.items ≡ map (λ x. x.1) (entries (held_of held))) }
{
    let mut entries = Vec::new(alloc);
    let mut slots = Vec::new(alloc);
    for (entry, slot) in held {
        entries.push(entry)?;
        slots.push(slot)?;
    }
    Ok((entries, slots))
}

/// The place, from 0, of the entry among these entries, which must ascend and have it. The only
/// error is that memory ran out for a copy of the name.
pub fn place_of_entry(alloc: Global, entries: &[Entry], at: &DirEntry) -> Result<usize, AllocError>
    requires ascending { AreAscending entries.now }
    requires there { Contains entries.now (entry_of at.now) }
    ensures { IfOk result (λ place. IsPlace entries.now place (entry_of at.now)) }
{
    let entry = at.entry(alloc)?;
    match entries.binary_search(&entry) {
        Ok(place) => Ok(place),
        // By `requires`, the entry is among these.
        Err(_) => unreachable!(),
    }
}
