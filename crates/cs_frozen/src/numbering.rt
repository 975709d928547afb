//! The tables of fresh numbers: the places of a tree's files in the order of their paths.
ghost use Rattle.std.specs.Prelude.{◌≡◌, ◌≤◌, ◌<◌, cond, List, ℕ, Some, IfOk, OnOk, slice_get};
ghost use Rattle.std.specs.BTreeMap.{get, values, IsOrdered};
ghost use Rattle.std.specs.Option.{option_map_or};
ghost use Rattle.std.specs.Ordering.{is_eq};
ghost use Rattle.cs_tree_model.specs.Tree.{IsTree, NameBytes, path_cmp, number_at};
ghost use Rattle.cs_frozen.specs.Numbers.{IsNumbered};

use cs_names::Path;
use cs_tree_model::{TreeRead, path_of};
use std::alloc::{AllocError, Global};
use std::collections::BTreeMap;

/// Inserts the number under its path. If `path` is None, as for a number whose file was removed,
/// nothing happens. The only error is that memory runs out; the caller then drops the map.
fn insert_if_some(
    paths: &mut BTreeMap<Path, u64>,
    path: Option<Path>,
    number: u64,
) -> Result<(), AllocError>
    ensures { OnOk result
        ((q : List NameBytes)
        → get path_cmp paths.new q
        ≡ option_map_or (λ p. cond (is_eq (path_cmp p q)) (Some number) (get path_cmp paths.old q))
        path (get path_cmp paths.old q)) }
{
    if let Some(path) = path {
        paths.insert(path, number)?;
    }
    Ok(())
}

/// The numbers of a tree's files by their paths. Each number below `end` is looked up, and the
/// caller's `end` is above all numbers of files. The only error is that memory runs out.
fn numbers_by_path<T: TreeRead>(
    alloc: Global,
    tree: &T,
    end: u64,
) -> Result<BTreeMap<Path, u64>, AllocError>
    requires is_tree { IsTree (T.tree tree.now) }
    requires end { (T.tree tree.now).next ≤ end }
    ensures { IfOk result
        (λ paths. (q : List NameBytes) → get path_cmp paths q ≡ number_at (T.tree tree.now) q) }
{
    let mut paths = BTreeMap::new(alloc);
    for number in 0..end {
        let path = path_of(alloc, tree, number)?;
        insert_if_some(&mut paths, path, number)?;
    }
    Ok(paths)
}

/// The numbers in the order of their paths. Memory is reserved once, for `count` of them: the
/// tree's count of files. The only error is that memory runs out.
fn numbers_in_order(
    alloc: Global,
    paths: &BTreeMap<Path, u64>,
    count: usize,
) -> Result<Vec<u64>, AllocError>
    ensures items { IfOk result (λ numbers. numbers.items ≡ values paths.now) }
    ensures ordered { OnOk result (IsOrdered path_cmp paths.now) }
{
    let mut numbers = Vec::with_capacity(alloc, count)?;
    for number in paths.values() {
        numbers.push(*number)?;
    }
    Ok(numbers)
}

/// A table of `end` items that finds a number's place in `numbers`: at index n it has the place of
/// n, or 0 if n isn't one of them. The caller's numbers are all different and below `end`. The only
/// error is that memory runs out.
fn places_of(alloc: Global, numbers: &[u64], end: u64) -> Result<Vec<u64>, AllocError>
    requires below { (i : ℕ) (n : ℕ) → slice_get numbers.now i ≡ Some n → n < end }
    requires apart { (i : ℕ) (j : ℕ) (n : ℕ) → slice_get numbers.now i ≡ Some n
        → slice_get numbers.now j ≡ Some n → i ≡ j }
    ensures { IfOk result
        (λ places. (i : ℕ) (n : ℕ) → slice_get numbers.now i ≡ Some n
        → slice_get places.items n ≡ Some i) }
{
    let mut places = vec![in alloc; 0u64; end as usize]?;
    for place in 0..numbers.len() {
        places[numbers[place] as usize] = place as u64;
    }
    Ok(places)
}

/// Two tables: the tree's number at each fresh number, and the fresh number at each of the tree's
/// (0 at a number that no file has). The only error is that memory runs out, also if the tree has
/// given every u64 as a number: then the second table would be larger than any memory.
pub fn number_tables<T: TreeRead>(
    alloc: Global,
    tree: &T,
) -> Result<(Vec<u64>, Vec<u64>), AllocError>
    ensures { IfOk result (λ table. IsNumbered (T.tree tree.now) table.0.items table.1.items) }
{
    let count = tree.count();
    let Some(end) = tree.last_number().checked_add(1) else {
        // more numbers than any memory holds
        return Err(AllocError);
    };
    let paths = numbers_by_path(alloc, tree, end)?;
    let numbers = numbers_in_order(alloc, &paths, count)?;
    let places = places_of(alloc, &numbers, end)?;
    Ok((numbers, places))
}
