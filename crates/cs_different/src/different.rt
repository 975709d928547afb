//! The sets of a scene's micro-operations that differ in what they leave.
ghost use Rattle.std.specs.Prelude.{◌≤◌, length, map, IfErr, IfOk};
ghost use Rattle.cs_sets.specs.Places.{places_of};
ghost use Rattle.cs_different.specs.Refusals.{IsRefused};
ghost use Rattle.cs_different.specs.Sets.{AreDifferent};

use crate::classes::class_sets;
use crate::columns::columns_of;
use crate::fault::DifferentFault;
use crate::finding::firsts_of;
use crate::wanting::wants_of;
use cs_apm::laws::rules_are_sentences;
use cs_names::laws::know;
use cs_plan::Scene;
use cs_same_states::Parts;
use cs_sets::Row;
use std::alloc::{AllocError, Global};

/// Of all sets of the scene's micro-operations that a crash may leave, the first of those that
/// leave equal trees and equally many acknowledged lines, in the order of sets. TooMany if the sets
/// fall into more than CLASSES classes, More if more than `most` sets differ. The scene isn't
/// changed, and its plan isn't looked at.
pub fn different_sets(alloc: Global, scene: &Scene, most: u32) -> Result<Vec<Row>, DifferentFault>
    ensures different { IfOk result (λ sets. AreDifferent scene.now (map places_of sets.items)) }
    ensures few { IfOk result (λ sets. length sets.items ≤ most) }
    ensures refused { IfErr result (IsRefused scene.now most) }
{
    let order = scene.order();
    // The contract of `len` says that an order is short, and that each place needs only earlier
    // ones.
    know(order.len());
    // By this law, what the order allows is what the rules allow.
    rules_are_sentences(scene.micros());
    let parts = Parts::of(alloc, scene)?;
    let needed = columns_of(alloc, order)?;
    let wanted = wants_of(alloc, scene, &parts)?;
    let classes = class_sets(alloc, wanted.as_slice(), needed.as_slice())?;
    let sets = firsts_of(alloc, scene, &parts, classes.as_slice(), most)?;
    Ok(sets)
}
