//! Which micro-operations a state of the plan has: its members.
ghost use Rattle.std.specs.Prelude.{◌≡◌, ◌<◌, length, Some, IfOk};
ghost use Rattle.cs_apm.specs.Orders.{needs_of};
ghost use Rattle.cs_sets.specs.Sets.{IsAllowed};
ghost use Rattle.cs_plan.specs.Scenes.{micros_of, set_at};

use cs_apm::laws::rules_are_sentences;
use cs_plan::Scene;
use cs_plan::members::places_of;
use std::alloc::{AllocError, Global};

/// The places of the micro-operations that the state with this number has, in ascending order: an
/// allowed set. The plan must have the number.
pub fn places_at(alloc: Global, scene: &Scene, number: u32) -> Result<Vec<u32>, AllocError>
    requires { number < length scene.now.plan }
    ensures set { IfOk result (λ places. set_at scene.now number ≡ Some places.items) }
    ensures allowed { IfOk result
        (λ places. IsAllowed (needs_of (micros_of scene.now)) (length (micros_of scene.now).ops)
        places.items) }
{
    let Some(recipe) = scene.plan().recipe(number) else {
        // The `requires` says that the plan has the number.
        unreachable!();
    };
    // By this law, what the order allows is what the rules allow.
    rules_are_sentences(scene.micros());
    let places = places_of(alloc, scene.order(), recipe)?;
    Ok(places)
}

/// For each of the first `count` micro-operations, whether its place is among `places`. A place out
/// of range is skipped. This is for digests only, so it has no contract.
pub fn member_flags(alloc: Global, count: usize, places: &[u32]) -> Result<Vec<bool>, AllocError> {
    let mut members = vec![in alloc; false; count]?;
    for place in places {
        if let Some(member) = members.get_mut(*place as usize) {
            *member = true;
        }
    }
    Ok(members)
}
