//! The order of the paths of entries, which depends on how many moves of directories a state has.
ghost use Rattle.std.specs.Prelude.{◌≡◌, ◌+◌, ◌<◌, ◌^◌, length, IfOk};
ghost use Rattle.std.specs.List.{All};
ghost use Rattle.cs_apm.specs.Slots.{slot_at};
ghost use Rattle.cs_paths.specs.PathOrders.{ArePositions, IsPathOrder};
ghost use Rattle.cs_paths.specs.PathOrders.{marks_by_path, slots_by_path};

use crate::climbing::{ids_of, places_by_path};
use cs_entries::{Entry, Node};
use std::alloc::{AllocError, Global};

/// The order of the paths that entries have in the states with the same number of moves of
/// directories. The **place** of an entry is its index among all entries of the tables, whatever
/// its path; its **id** is its place in this order, from 1. The id of the root is 0.
#[derive(Debug, Drop)]
pub struct PathOrder {
    /// The places of the entries in the order of their paths: the first is that of the entry with
    /// id 1. If entries have the same path, at most one holds something in a state.
    pub places: Vec<u32>,
    /// For each entry, by its place, its id.
    pub ids: Vec<u32>,
    /// For each directory, by its number, the place of the entry at which it is; 0 for the root,
    /// which has no entry.
    pub positions: Vec<u32>,
}

impl PathOrder {
    /// The order of the paths of the entries if the directories are at these positions: for each,
    /// by its number, the place of the entry at which it is.
    pub fn of(
        alloc: Global,
        entries: &[Entry],
        positions: Vec<u32>,
    ) -> Result<PathOrder, AllocError>
        requires few { length entries.now < 2 ^ 20 }
        requires positions { ArePositions (length entries.now) (length positions.items)
            positions.items }
        ensures { IfOk result (IsPathOrder entries.now (length positions.items) positions.items) }
    {
        let places = places_by_path(alloc, entries, &positions, positions.len())?;
        let ids = ids_of(alloc, &places)?;
        Ok(PathOrder {
            places,
            ids,
            positions,
        })
    }
}

/// What is at the id: the root for 0, or what the slot of its entry has. `places` has the places of
/// the entries in the order of their paths, and `slots` what each entry holds, by its place. The id
/// is at most the number of places.
pub fn slot_of_id(places: &[u32], slots: &[Option<Node>], id: u32) -> Option<Node>
    requires there { id < length places.now + 1 }
    requires inside { All (λ place. place < length slots.now) places.now }
    ensures { result ≡ slot_at (slots_by_path places.now slots.now) id }
{
    if id == 0 {
        return Some(Node::Directory(0));
    }
    slots[places[id as usize - 1] as usize]
}

/// What is at each id, from 0: the root, and then what the slots at these places have.
pub fn slots_by_path(
    alloc: Global,
    places: &[u32],
    slots: &[Option<Node>],
) -> Result<Vec<Option<Node>>, AllocError>
    requires { All (λ place. place < length slots.now) places.now }
    ensures { IfOk result (λ found. found.items ≡ slots_by_path places.now slots.now) }
{
    let mut found = Vec::new(alloc);
    found.push(Some(Node::Directory(0)))?;
    for place in places {
        found.push(slots[*place as usize])?;
    }
    Ok(found)
}

/// For each id, from 0, whether its entry is marked: false for the root, which has no entry, and
/// then the marks at these places. cs_state marks the entries that some step touches.
pub fn marks_by_path(alloc: Global, places: &[u32], marks: &[bool]) -> Result<Vec<bool>, AllocError>
    requires { All (λ place. place < length marks.now) places.now }
    ensures { IfOk result (λ found. found.items ≡ marks_by_path places.now marks.now) }
{
    let mut found = Vec::new(alloc);
    found.push(false)?;
    for place in places {
        found.push(marks[*place as usize])?;
    }
    Ok(found)
}
