//! Whether two sets are seen to leave equal trees, without making the trees. "Seen" means that true
//! is proved right, and that false may be wrong: the caller then makes the trees. Slots, files and
//! directories are "alike" if both sets leave the same in them.
ghost use Rattle.std.specs.Prelude.{◌≡◌, ◌<◌, ℕ, length, slice_index_or, IfOk, IsTrue, Some};
ghost use Rattle.cs_micro.specs.Micros.{micros_in};
ghost use Rattle.cs_apm.specs.Contents.{IsSmall};
ghost use Rattle.cs_apm.specs.Orders.{needs_of};
ghost use Rattle.cs_apm.specs.Rules.{op_at};
ghost use Rattle.cs_sets.specs.Sets.{IsAllowed};
ghost use Rattle.cs_apm.specs.States.{crash_state_of};
ghost use Rattle.cs_plan.specs.Scenes.{micros_of};
ghost use Rattle.cs_same_states.specs.Fixed.{AreFixed};
ghost use Rattle.cs_state.specs.Owners as owners;
ghost use Rattle.cs_same_states.specs.Pairs.{AreAllowed, IsPair, IsSettled, first_directory};
ghost use Rattle.cs_same_states.specs.Pairs.{second_directory};
ghost use Rattle.cs_same_states.specs.Parts.{AreParts, IsAlikeBy, KeepsSlot};
ghost use Rattle.cs_same_states.specs.Places.{AreListed};
ghost use Rattle.cs_same_states.specs.Reaching as reaching;

use crate::differing::places_in_one;
use crate::pairs::{Pair, are_same_directories, is_settled};
use crate::parts::Parts;
use crate::reaching::{changed_file, directory_set};
use crate::slots::{are_all_alike, flag_at, is_in_both};
use crate::touched::Touched;
use cs_entries::Node;
use cs_micro::MicroOp;
use cs_plan::Scene;
use std::alloc::{AllocError, Global};

/// What two sets leave in the slots that some step changes, and which files are in other slots.
#[derive(Clone, Copy)]
struct Slots<'a> {
    /// What the first set leaves in the slots that some step changes.
    first: &'a [Option<Node>],
    /// What the second set leaves in them, in the same order.
    second: &'a [Option<Node>],
    /// For each file, by its number, whether it is in a slot that no step changes.
    in_unchanged_slot: &'a [bool],
}

/// Whether the file that `op` changes is the same after both sets in the part that `op` can change.
/// True also if `op` changes no file, or one that isn't in the same slot after both sets: such a
/// file is compared whole, slot by slot (`are_all_alike`).
fn is_file_alike_by(
    alloc: Global,
    pair: &Pair<'_>,
    slots: &Slots<'_>,
    op: &MicroOp,
) -> Result<bool, AllocError>
    requires pair { IsPair pair.now }
    requires long { length slots.now.first.now ≡ length slots.now.second.now }
    requires small { IsSmall op.now }
    ensures { IfOk result
        (λ same. IsTrue same
        → (n : ℕ) → reaching.changed_file op.now ≡ Some n
        → KeepsSlot slots.now.in_unchanged_slot.now slots.now.first.now slots.now.second.now n
        → IsSettled pair.now n op.now) }
{
    let Some(file) = changed_file(op) else {
        return Ok(true);
    };
    if flag_at(slots.in_unchanged_slot, file) || is_in_both(slots.first, slots.second, file) {
        is_settled(alloc, pair, file, op)
    } else {
        Ok(true)
    }
}

/// Whether the directory that `op` makes, or whose owner, group and permissions it sets, has the
/// same ones after both sets. True also if `op` neither makes a directory nor sets one's.
fn is_directory_alike_by(pair: &Pair<'_>, op: &MicroOp) -> bool
    requires { IsPair pair.now }
    ensures { IsTrue result → (d : ℕ) → owners.directory_set op.now ≡ Some d
        → first_directory pair.now d ≡ second_directory pair.now d }
{
    match directory_set(op) {
        None => true,
        Some(directory) => are_same_directories(pair, directory),
    }
}

/// Whether what `op` changes is the same after both sets: the part of its file, or the owner, group
/// and permissions of its directory. A directory is compared even if neither set leaves it in a
/// slot; if that makes the answer false, only time is lost.
fn is_alike_by(
    alloc: Global,
    pair: &Pair<'_>,
    slots: &Slots<'_>,
    op: &MicroOp,
) -> Result<bool, AllocError>
    requires pair { IsPair pair.now }
    requires long { length slots.now.first.now ≡ length slots.now.second.now }
    requires small { IsSmall op.now }
    ensures { IfOk result
        (λ same. IsTrue same
        → IsAlikeBy pair.now slots.now.in_unchanged_slot.now slots.now.first.now
        slots.now.second.now op.now) }
{
    if !is_directory_alike_by(pair, op) {
        return Ok(false);
    }
    is_file_alike_by(alloc, pair, slots, op)
}

/// Whether `is_alike_by` is true for the micro-operation at this place. No caller passes a place
/// out of range; the answer would be true.
fn is_alike_at(
    alloc: Global,
    pair: &Pair<'_>,
    slots: &Slots<'_>,
    place: u32,
) -> Result<bool, AllocError>
    requires pair { IsPair pair.now }
    requires long { length slots.now.first.now ≡ length slots.now.second.now }
    ensures { IfOk result
        (λ same. IsTrue same
        → IsAlikeBy pair.now slots.now.in_unchanged_slot.now slots.now.first.now
        slots.now.second.now (op_at pair.now.ops.now place)) }
{
    let Some(op) = pair.ops.get(place as usize) else {
        return Ok(true);
    };
    is_alike_by(alloc, pair, slots, op)
}

/// Whether `is_alike_by` is true for the micro-operations at all these places.
fn are_alike_by(
    alloc: Global,
    pair: &Pair<'_>,
    slots: &Slots<'_>,
    places: &[u32],
) -> Result<bool, AllocError>
    requires pair { IsPair pair.now }
    requires long { length slots.now.first.now ≡ length slots.now.second.now }
    ensures { IfOk result
        (λ same. IsTrue same → (k : ℕ) → k < length places.now
        → IsAlikeBy pair.now slots.now.in_unchanged_slot.now slots.now.first.now
        slots.now.second.now (op_at pair.now.ops.now (slice_index_or places.now k 0))) }
{
    for place in places {
        if !is_alike_at(alloc, pair, slots, *place)? {
            return Ok(false);
        }
    }
    Ok(true)
}

/// Whether both sets of a pair are seen to leave equal trees: the slots are alike, and so is each
/// file or directory that a micro-operation of only one set changes. If false, the trees may be
/// equal or not. `fixed` has, for each file, whether it is in a slot that no step changes.
fn is_equal_pair(
    alloc: Global,
    pair: &Pair<'_>,
    touched: &Touched,
    fixed: &[bool],
) -> Result<bool, AllocError>
    requires allowed { AreAllowed pair.now }
    requires touched { AreListed pair.now.tables.now.slots.items pair.now.tables.now.steps.items
        touched.now }
    requires fixed { AreFixed pair.now.tables.now touched.now.ids.items fixed.now }
    ensures { IfOk result
        (λ same. IsTrue same
        → crash_state_of pair.now.trace.now (micros_in pair.now.trace.now) pair.now.places.now
        ≡ crash_state_of pair.now.trace.now (micros_in pair.now.trace.now) pair.now.others.now) }
{
    let first = touched.slots_left(alloc, pair.places)?;
    let second = touched.slots_left(alloc, pair.others)?;
    if !are_all_alike(alloc, pair, &first, &second)? {
        return Ok(false);
    }
    let slots = Slots {
        first: &first,
        second: &second,
        in_unchanged_slot: fixed,
    };
    let found = places_in_one(alloc, pair.places, pair.others)?;
    are_alike_by(alloc, pair, &slots, &found)
}

/// Whether two allowed sets, each given by its places, are seen to leave equal trees. If false, the
/// trees may be equal or not. Of a file that is in the same slot after both sets, only those bytes
/// are read that a micro-operation of only one set can change. If a slot has different files after
/// the two sets, both are read whole.
pub fn are_seen_equal(
    alloc: Global,
    scene: &Scene,
    parts: &Parts,
    places: &[u32],
    others: &[u32],
) -> Result<bool, AllocError>
    requires parts { AreParts scene.now.trace parts.now }
    requires first { IsAllowed (needs_of (micros_of scene.now)) (length (micros_of scene.now).ops)
        places.now }
    requires second { IsAllowed (needs_of (micros_of scene.now)) (length (micros_of scene.now).ops)
        others.now }
    ensures { IfOk result
        (λ same. IsTrue same
        → crash_state_of scene.now.trace (micros_of scene.now) places.now
        ≡ crash_state_of scene.now.trace (micros_of scene.now) others.now) }
{
    let pair = Pair {
        trace: scene.trace(),
        ops: scene.micros().ops(),
        tables: &parts.tables,
        places,
        others,
    };
    is_equal_pair(alloc, &pair, &parts.touched, &parts.in_unchanged_slot)
}
