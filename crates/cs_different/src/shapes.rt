//! Shapes: which entries of the root directory hold something after the members of a set. Sets that
//! leave the same have one shape. So a set whose shape no other set has leaves what no other does:
//! its tree needn't be made.
ghost use Rattle.std.specs.Prelude.{◌≡◌, ℕ, length, map, true, IfOk, OnOk};
ghost use Rattle.std.specs.BTreeSet.{contains};
ghost use Rattle.std.specs.List.{All};
ghost use Rattle.std.specs.Ordering.{nat_cmp};
ghost use Rattle.cs_same_states.specs.Parts.{AreParts};
ghost use Rattle.cs_sets.specs.Places.{places_of};
ghost use Rattle.cs_different.specs.Sets.{IsLeavable};
ghost use Rattle.cs_different.specs.Shapes.{AreShared, shape_left, shape_of_slots, with_slot};

use crate::digest::mix;
use crate::leaving::places_in;
use cs_apm::state::slots_of_set;
use cs_entries::{Entry, Node};
use cs_plan::Scene;
use cs_same_states::Parts;
use cs_sets::Row;
use std::alloc::{AllocError, Global};
use std::collections::BTreeSet;

/// The digest of a sequence to which is appended whether the slot of an entry of the root holds
/// something. `digest` is that of the sequence before; it is returned unchanged if the entry is
/// another directory's.
fn mix_slot(digest: u64, entry: &Entry, slot: &Option<Node>) -> u64
    ensures { result ≡ with_slot entry.now slot.now digest }
{
    if entry.directory != 0 {
        return digest;
    }
    if slot.is_some() {
        return mix(digest, 1);
    }
    mix(digest, 0)
}

/// The shape of what these slots hold, a digest. `slots` has a slot for each of `entries`.
fn digest_slots(entries: &[Entry], slots: &[Option<Node>]) -> u64
    requires { length slots.now ≡ length entries.now }
    ensures { result ≡ shape_of_slots entries.now slots.now }
{
    let mut digest = 0;
    for i in 0..entries.len() {
        digest = mix_slot(digest, &entries[i], &slots[i]);
    }
    digest
}

/// The shape of what a set leaves. A crash must be able to leave the set. `parts` are those of the
/// scene's trace; only the contract needs the scene.
fn shape_of(alloc: Global, _scene: &Scene, parts: &Parts, set: &Row) -> Result<u64, AllocError>
    requires parts { AreParts _scene.now.trace parts.now }
    requires allowed { IsLeavable _scene.now (places_of set.now) }
    ensures { IfOk result (λ shape. shape ≡ shape_left parts.now.tables (places_of set.now)) }
{
    let places = places_in(alloc, set)?;
    let slots = slots_of_set(alloc, &parts.tables, &places)?;
    Ok(digest_slots(&parts.tables.entries, &slots))
}

/// The shapes of what these sets leave, each of which a crash may leave. `parts` are those of the
/// scene's trace.
pub fn shapes_of(
    alloc: Global,
    scene: &Scene,
    parts: &Parts,
    sets: &[Row],
) -> Result<Vec<u64>, AllocError>
    requires parts { AreParts scene.now.trace parts.now }
    requires sets { All (λ row. IsLeavable scene.now (places_of row)) sets.now }
    ensures { IfOk result (λ shapes. shapes.items
        ≡ map (λ row. shape_left parts.now.tables (places_of row)) sets.now) }
{
    let mut shapes = Vec::new(alloc);
    for set in sets {
        shapes.push(shape_of(alloc, scene, parts, set)?)?;
    }
    Ok(shapes)
}

/// Notes that the number is there: in `once`, or in `twice` if it was noted before. If memory runs
/// out, it may not be noted.
fn note(once: &mut BTreeSet<u64>, twice: &mut BTreeSet<u64>, number: u64) -> Result<(), AllocError>
    ensures here { OnOk result (contains nat_cmp once.new number ≡ true) }
    ensures once { OnOk result ((q : ℕ) → contains nat_cmp once.old q ≡ true
        → contains nat_cmp once.new q ≡ true) }
    ensures twice { OnOk result ((q : ℕ) → contains nat_cmp twice.old q ≡ true
        → contains nat_cmp twice.new q ≡ true) }
    ensures again { OnOk result (contains nat_cmp once.old number ≡ true
        → contains nat_cmp twice.new number ≡ true) }
{
    if once.insert(number)? {
        return Ok(());
    }
    twice.insert(number)?;
    Ok(())
}

/// Those of these numbers that are there twice. (The contract says that none of them is missing:
/// one too many would only cost time.)
pub fn shared_of(alloc: Global, numbers: &[u64]) -> Result<BTreeSet<u64>, AllocError>
    ensures { IfOk result (λ shared. AreShared (contains nat_cmp shared) numbers.now) }
{
    let mut once: BTreeSet<u64> = BTreeSet::new(alloc);
    let mut twice: BTreeSet<u64> = BTreeSet::new(alloc);
    for number in numbers {
        note(&mut once, &mut twice, *number)?;
    }
    Ok(twice)
}
