//! What a set of micro-operations leaves: a tree, and a number of acknowledged lines.
ghost use Rattle.std.specs.Prelude.{◌≡◌, ◌≤◌, ◌<◌, ◌↔◌, length, IfOk, IsTrue};
ghost use Rattle.std.specs.List.{All};
ghost use Rattle.cs_apm.specs.Rules.{op_at};
ghost use Rattle.cs_plan.specs.Scenes.{is_say, says_of};
ghost use Rattle.cs_same_states.specs.Parts.{AreParts};
ghost use Rattle.cs_sets.specs.Places.{places_of};
ghost use Rattle.cs_different.specs.Sets.{IsLeavable, IsLeft, tree_left};

use crate::digest::{digest_tree, mix};
use cs_apm::state::state_of;
use cs_micro::MicroOp;
use cs_names::limits::MICRO_OPERATIONS;
use cs_plan::Scene;
use cs_same_states::{Parts, are_same_trees};
use cs_sets::Row;
use cs_tree::PlainTree;
use std::alloc::{AllocError, Global};

/// What a set leaves.
#[derive(Drop)]
pub struct Left {
    /// The tree: the state of the set.
    pub tree: PlainTree,
    /// How many acknowledged lines are members of the set.
    pub says: u32,
    /// A digest of both: sets with different ones leave something different.
    pub digest: u64,
}

/// The places of a set, ascending.
pub fn places_in(alloc: Global, set: &Row) -> Result<Vec<u32>, AllocError>
    ensures { IfOk result (λ places. places.items ≡ places_of set.now) }
{
    let mut places = Vec::new(alloc);
    let mut from = 0;
    while let Some(place) = set.next_from(from, MICRO_OPERATIONS) {
        places.push(place as u32)?;
        from = place + 1;
    }
    Ok(places)
}

/// Whether the micro-operation at the place is an acknowledged line. (`is_say_at` of cs_plan has
/// the same body.)
fn is_say_at(ops: &[MicroOp], place: u32) -> bool
    requires { place < length ops.now }
    ensures { result ≡ is_say (op_at ops.now place) }
{
    matches!(&ops[place as usize], MicroOp::Say)
}

/// How many acknowledged lines are at these places. (`says_of_pick` of cs_plan has the same body.)
fn count_says(ops: &[MicroOp], places: &[u32]) -> u32
    requires inside { All (λ place. place < length ops.now) places.now }
    requires few { length places.now ≤ MICRO_OPERATIONS }
    ensures { result ≡ says_of ops.now places.now }
{
    let mut count = 0;
    for place in places {
        if is_say_at(ops, *place) {
            count += 1;
        }
    }
    count
}

/// The tree that the set with these places leaves. A crash must be able to leave the set. The only
/// error is that memory runs out.
fn tree_of(
    alloc: Global,
    scene: &Scene,
    parts: &Parts,
    places: &[u32],
) -> Result<PlainTree, AllocError>
    requires parts { AreParts scene.now.trace parts.now }
    requires allowed { IsLeavable scene.now places.now }
    ensures { IfOk result (λ tree. tree ≡ tree_left scene.now places.now) }
{
    let tree = state_of(alloc, scene.trace(), scene.micros(), &parts.tables, places)?;
    Ok(tree)
}

/// What the set leaves: its tree is made. A crash must be able to leave the set. `parts` are those
/// of the scene's trace.
pub fn leave(alloc: Global, scene: &Scene, parts: &Parts, set: &Row) -> Result<Left, AllocError>
    requires parts { AreParts scene.now.trace parts.now }
    requires allowed { IsLeavable scene.now (places_of set.now) }
    ensures { IfOk result (IsLeft scene.now (places_of set.now)) }
{
    let places = places_in(alloc, set)?;
    let tree = tree_of(alloc, scene, parts, &places)?;
    let says = count_says(scene.micros().ops(), &places);
    let digest = mix(digest_tree(alloc, &tree)?, u64::from(says));
    Ok(Left { tree, says, digest })
}

/// Whether two sets leave equal trees and equally many acknowledged lines. The digests aren't
/// looked at.
pub fn are_alike(alloc: Global, left: &Left, other: &Left) -> Result<bool, AllocError>
    ensures { IfOk result (λ same. IsTrue same
        ↔ ((left.now.tree ≡ other.now.tree) × (left.now.says ≡ other.now.says))) }
{
    if left.says != other.says {
        return Ok(false);
    }
    are_same_trees(alloc, &left.tree, &other.tree)
}
