//! Entries in the order of their paths, which depend on the positions of directories: for each
//! directory, by its number, the place of the entry at which it is.
ghost use Rattle.std.specs.Prelude.{◌≡◌, ◌<◌, ◌^◌, ℕ, length, map, IfOk};
ghost use Rattle.cs_entries.specs.Positions.{climb};
ghost use Rattle.cs_paths.specs.Marks.{kept_at};
ghost use Rattle.cs_paths.specs.PathOrders.{AreInOrder, AreInverse, ArePlaces, ArePositions};
ghost use Rattle.cs_paths.specs.PathOrders.{paths_of_places, position_by};

use cs_entries::Entry;
use cs_names::Path;
use std::alloc::{AllocError, Global};

/// The place of the entry at which the directory is; 0 for a number that no directory has.
fn position_of(positions: &[u32], directory: u32) -> u32
    ensures { result ≡ kept_at positions.now directory }
{
    positions.get(directory as usize).copied().unwrap_or(0)
}

/// The path of the directory: its own name, that of the directory above it, and so on up to the
/// root. At most `deep` names are taken, the lowest ones; a directory of a tree has fewer names
/// than there are directories.
fn climb(
    alloc: Global,
    entries: &[Entry],
    positions: &[u32],
    directory: u32,
    deep: usize,
) -> Result<Path, AllocError>
    requires { (d : ℕ) → kept_at positions.now d < length entries.now }
    ensures { IfOk result
        (λ path. path ≡ climb (position_by entries.now positions.now) deep directory) }
{
    if deep == 0 || directory == 0 {
        return Ok(Path::root(alloc));
    }
    let position = position_of(positions, directory) as usize;
    let entry = &entries[position];
    let above = climb(alloc, entries, positions, entry.directory, deep - 1)?;
    above.child(alloc, entry.name.as_str())
}

/// The path of each entry, with its place, in the order of places. `deep` is how many names a
/// directory's path has at most.
fn paths_of_entries(
    alloc: Global,
    entries: &[Entry],
    positions: &[u32],
    deep: usize,
) -> Result<Vec<(Path, u32)>, AllocError>
    requires few { length entries.now < 2 ^ 20 }
    requires positions { ArePositions (length entries.now) (length positions.now) positions.now }
    ensures { IfOk result (λ paths. paths.items
        ≡ paths_of_places (position_by entries.now positions.now) deep entries.now 0) }
{
    let mut paths = Vec::new(alloc);
    for place in 0..entries.len() {
        let entry = &entries[place];
        let above = climb(alloc, entries, positions, entry.directory, deep)?;
        let path = above.child(alloc, entry.name.as_str())?;
        paths.push((path, place as u32))?;
    }
    Ok(paths)
}

/// The places of these pairs of a path and a place, in order.
fn places_of(alloc: Global, paths: &[(Path, u32)]) -> Result<Vec<u32>, AllocError>
    ensures { IfOk result (λ places. places.items ≡ map (λ path. path.1) paths.now) }
{
    let mut places = Vec::new(alloc);
    for path in paths {
        places.push(path.1)?;
    }
    Ok(places)
}

/// The places of the entries in the order of their paths; those of entries with the same path are
/// ascending. `deep` is how many names a directory's path has at most: as many as there are
/// directories are enough.
pub fn places_by_path(
    alloc: Global,
    entries: &[Entry],
    positions: &[u32],
    deep: usize,
) -> Result<Vec<u32>, AllocError>
    requires few { length entries.now < 2 ^ 20 }
    requires positions { ArePositions (length entries.now) (length positions.now) positions.now }
    ensures each { IfOk result (λ places. ArePlaces (length entries.now) places.items) }
    ensures order { IfOk result (λ places. AreInOrder
        (position_by entries.now positions.now) deep entries.now places.items) }
{
    let mut paths = paths_of_entries(alloc, entries, positions, deep)?;
    paths.sort()?;
    places_of(alloc, &paths)
}

/// The id of each entry, by its place: one more than the index of the place in the list. The list
/// must have each place below its length once.
pub fn ids_of(alloc: Global, places: &[u32]) -> Result<Vec<u32>, AllocError>
    requires few { length places.now < 2 ^ 20 }
    requires each { ArePlaces (length places.now) places.now }
    ensures { IfOk result (λ ids. AreInverse places.now ids.items) }
{
    let mut ids = vec![in alloc; 0u32; places.len()]?;
    for i in 0..places.len() {
        ids[places[i] as usize] = i as u32 + 1;
    }
    Ok(ids)
}
