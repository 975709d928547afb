//! Of a list of sets, those that leave what no earlier one leaves. Two sets leave the same if their
//! trees are equal and they have equally many acknowledged lines. Only sets with a shape that two
//! of them have are compared.
ghost use Rattle.std.specs.Prelude.{◌≡◌, ◌≤◌, ◌<◌, ◌⊎◌, false, length, map, not, IfErr, IfOk, OnOk};
ghost use Rattle.std.specs.BTreeSet.{contains};
ghost use Rattle.std.specs.Ordering.{nat_cmp};
ghost use Rattle.std.specs.List.{All, list_any};
ghost use Rattle.cs_same_states.specs.Parts.{AreParts};
ghost use Rattle.cs_sets.specs.Different.{add_first, firsts};
ghost use Rattle.cs_sets.specs.Places.{places_of};
ghost use Rattle.cs_different.specs.Sets.{AreTold, IsFound, IsLeavable, IsLeft, leave_same};
ghost use Rattle.cs_different.specs.Sets.{sets_of};
ghost use Rattle.cs_different.specs.Shapes.{IsKept, shape_left};
ghost use Rattle.cs_different.specs.declared.fault.DifferentFault.TheVariants.{Memory, More};

use crate::fault::DifferentFault;
use crate::leaving::{Left, are_alike, leave};
use crate::shapes::{shapes_of, shared_of};
use cs_plan::Scene;
use cs_same_states::Parts;
use cs_sets::Row;
use std::alloc::{AllocError, Global};
use std::collections::BTreeSet;

/// A set that was kept. What it leaves isn't kept, to save memory: it is made again to compare it.
#[derive(Clone, Copy, Debug)]
pub struct Found {
    /// The set.
    set: Row,
    /// The digest of what it leaves.
    digest: u64,
}

/// Whether a set that was kept leaves the same as `set`, which leaves `left`. If the digests are
/// equal, what the kept set leaves is made again and compared.
fn leaves_same(
    alloc: Global,
    scene: &Scene,
    parts: &Parts,
    found: &Found,
    set: &Row,
    left: &Left,
) -> Result<bool, AllocError>
    requires parts { AreParts scene.now.trace parts.now }
    requires found { IsFound scene.now found.now }
    requires left { IsLeft scene.now (places_of set.now) left.now }
    ensures { IfOk result (λ same. same
        ≡ leave_same scene.now (places_of found.now.set) (places_of set.now)) }
{
    if found.digest != left.digest {
        return Ok(false);
    }
    let other = leave(alloc, scene, parts, &found.set)?;
    let same = are_alike(alloc, &other, left)?;
    Ok(same)
}

/// Whether one of the sets that were kept leaves the same as `set`, which leaves `left`. They are
/// compared one after another, up to the first that does.
fn is_among(
    alloc: Global,
    scene: &Scene,
    parts: &Parts,
    kept: &[Found],
    set: &Row,
    left: &Left,
) -> Result<bool, AllocError>
    requires parts { AreParts scene.now.trace parts.now }
    requires kept { All (IsFound scene.now) kept.now }
    requires left { IsLeft scene.now (places_of set.now) left.now }
    ensures { IfOk result (λ met. met ≡ list_any
        (λ f. leave_same scene.now (places_of f.set) (places_of set.now)) kept.now) }
{
    for found in kept {
        if leaves_same(alloc, scene, parts, found, set, left)? {
            return Ok(true);
        }
    }
    Ok(false)
}

/// As `is_among`, but looks at the kept sets only if one of them has the same digest. `met` has the
/// digests of the sets that were kept.
fn is_met(
    alloc: Global,
    scene: &Scene,
    parts: &Parts,
    kept: &[Found],
    met: &BTreeSet<u64>,
    set: &Row,
    left: &Left,
) -> Result<bool, AllocError>
    requires parts { AreParts scene.now.trace parts.now }
    requires kept { All (IsFound scene.now) kept.now }
    requires met { AreTold (contains nat_cmp met.now) kept.now }
    requires left { IsLeft scene.now (places_of set.now) left.now }
    ensures { IfOk result (λ found. found ≡ list_any
        (λ f. leave_same scene.now (places_of f.set) (places_of set.now)) kept.now) }
{
    if !met.contains(&left.digest) {
        return Ok(false);
    }
    let found = is_among(alloc, scene, parts, kept, set, left)?;
    Ok(found)
}

/// Appends the set, and returns true, unless one that was kept leaves the same. `met` has the
/// digests of the sets that were kept. If memory runs out, `met` may have a digest too many; the
/// caller drops both.
fn keep(
    alloc: Global,
    scene: &Scene,
    parts: &Parts,
    kept: &mut Vec<Found>,
    met: &mut BTreeSet<u64>,
    set: &Row,
) -> Result<bool, AllocError>
    requires parts { AreParts scene.now.trace parts.now }
    requires kept { All (IsFound scene.now) kept.old.items }
    requires met { AreTold (contains nat_cmp met.old) kept.old.items }
    requires set { IsLeavable scene.now (places_of set.now) }
    ensures new { IfOk result (λ new. new ≡ not (list_any
        (λ y. leave_same scene.now y (places_of set.now)) (sets_of kept.old.items))) }
    ensures sets { OnOk result (sets_of kept.new.items
        ≡ add_first (leave_same scene.now) (sets_of kept.old.items) (places_of set.now)) }
    ensures kept { OnOk result (All (IsFound scene.now) kept.new.items) }
    ensures met { OnOk result (AreTold (contains nat_cmp met.new) kept.new.items) }
{
    let left = leave(alloc, scene, parts, set)?;
    if is_met(alloc, scene, parts, kept.as_slice(), met, set, &left)? {
        return Ok(false);
    }
    met.insert(left.digest)?;
    kept.push(Found {
        set: *set,
        digest: left.digest,
    })?;
    Ok(true)
}

/// The sets that were kept.
#[derive(Drop)]
pub struct Kept {
    /// All of them, in order.
    rows: Vec<Row>,
    /// Those whose shape is shared, in order.
    compared: Vec<Found>,
    /// The digests of `compared`.
    met: BTreeSet<u64>,
}

/// Keeps the set, unless one that was kept leaves the same. Only if its shape is shared is it
/// compared: `shared` has all shapes that two sets have, and `shape` is that of the set. If memory
/// runs out, the caller drops what was kept.
fn add(
    alloc: Global,
    scene: &Scene,
    parts: &Parts,
    shared: &BTreeSet<u64>,
    kept: &mut Kept,
    shape: u64,
    set: &Row,
) -> Result<(), AllocError>
    requires parts { AreParts scene.now.trace parts.now }
    requires kept { IsKept scene.now parts.now.tables (contains nat_cmp shared.now) kept.old }
    requires shape { shape ≡ shape_left parts.now.tables (places_of set.now) }
    requires set { IsLeavable scene.now (places_of set.now) }
    requires alone { contains nat_cmp shared.now shape ≡ false
        → list_any (λ y. leave_same scene.now y (places_of set.now))
        (map places_of kept.old.rows.items) ≡ false }
    ensures sets { OnOk result (map places_of kept.new.rows.items
        ≡ add_first (leave_same scene.now) (map places_of kept.old.rows.items)
        (places_of set.now)) }
    ensures kept { OnOk result
        (IsKept scene.now parts.now.tables (contains nat_cmp shared.now) kept.new) }
{
    if !shared.contains(&shape) {
        kept.rows.push(*set)?;
        return Ok(());
    }
    if !keep(alloc, scene, parts, &mut kept.compared, &mut kept.met, set)? {
        return Ok(());
    }
    kept.rows.push(*set)?;
    Ok(())
}

/// Of these sets, each of which a crash may leave, those that leave what no earlier one leaves, in
/// order. More if these are more than `most`. `parts` are those of the scene's trace.
pub fn firsts_of(
    alloc: Global,
    scene: &Scene,
    parts: &Parts,
    sets: &[Row],
    most: u32,
) -> Result<Vec<Row>, DifferentFault>
    requires parts { AreParts scene.now.trace parts.now }
    requires sets { All (λ row. IsLeavable scene.now (places_of row)) sets.now }
    ensures firsts { IfOk result (λ rows. map places_of rows.items
        ≡ firsts (leave_same scene.now) (map places_of sets.now)) }
    ensures few { IfOk result (λ rows. length rows.items ≤ most) }
    ensures refused { IfErr result (λ fault. (fault ≡ Memory) ⊎ ((fault ≡ More most)
        × (most < length (firsts (leave_same scene.now) (map places_of sets.now))))) }
{
    let shapes = shapes_of(alloc, scene, parts, sets)?;
    let shared = shared_of(alloc, shapes.as_slice())?;
    let mut kept = Kept {
        rows: Vec::new(alloc),
        compared: Vec::new(alloc),
        met: BTreeSet::new(alloc),
    };
    for i in 0..sets.len() {
        add(alloc, scene, parts, &shared, &mut kept, shapes[i], &sets[i])?;
        if kept.rows.len() > most as usize {
            return Err(DifferentFault::More(most));
        }
    }
    Ok(kept.rows)
}
