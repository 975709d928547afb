//! For each state of a plan, the first state with an equal tree. How many lines were acknowledged
//! isn't looked at: states with equal trees may differ in it.
ghost use Rattle.std.specs.Prelude.{◌≡◌, ◌<◌, ◌≤◌, ◌^◌, ◌↔◌, ℕ, length, slice_index, IfOk, IfSome};
ghost use Rattle.std.specs.Prelude.{IsTrue};
ghost use Rattle.std.specs.Arc.{arc_value};
ghost use Rattle.cs_plan.specs.Scenes.{state_at};
ghost use Rattle.cs_same_states.specs.Firsts.{AreFirsts, IsSame};
ghost use Rattle.cs_same_states.specs.Parts.{AreParts};

use crate::digests::Digests;
use crate::leaving::are_seen_equal;
use crate::members::{member_flags, places_at};
use crate::parts::Parts;
use crate::trees::are_same_trees;
use cs_plan::{MakeFault, Published, Scene};
use std::alloc::{AllocError, Global};
use std::collections::BTreeMap;
use std::sync::Arc;

/// Makes the state with this number, which the plan has.
fn make_known(alloc: Global, scene: &Arc<Scene>, number: u32) -> Result<Published, AllocError>
    requires { number < length (arc_value scene.now).plan }
    ensures { IfOk result (λ made. state_at (arc_value scene.now) number ≡ Some made.tree) }
{
    match Scene::make(alloc, scene, number) {
        Ok(made) => Ok(made),
        Err(MakeFault::Memory) => Err(AllocError),
        // The `requires` says that the plan has the number.
        Err(MakeFault::NoSuchState) => unreachable!(),
    }
}

/// Whether the states with these two numbers, which the plan has, have equal trees. Both states are
/// made for this, and compared whole.
pub fn are_same_states(
    alloc: Global,
    scene: &Arc<Scene>,
    number: u32,
    other: u32,
) -> Result<bool, AllocError>
    requires first { number < length (arc_value scene.now).plan }
    requires second { other < length (arc_value scene.now).plan }
    ensures { IfOk result
        (λ same. IsTrue same ↔
        (state_at (arc_value scene.now) number ≡ state_at (arc_value scene.now) other)) }
{
    let made = make_known(alloc, scene, number)?;
    let others = make_known(alloc, scene, other)?;
    are_same_trees(alloc, made.store(), others.store())
}

/// Whether the states with these two numbers, which the plan has, are seen to have equal trees,
/// without making them. If false, the trees may be equal or not: ask `are_same_states`.
pub fn are_seen_same(
    alloc: Global,
    scene: &Arc<Scene>,
    parts: &Parts,
    number: u32,
    other: u32,
) -> Result<bool, AllocError>
    requires parts { AreParts (arc_value scene.now).trace parts.now }
    requires first { number < length (arc_value scene.now).plan }
    requires second { other < length (arc_value scene.now).plan }
    ensures { IfOk result
        (λ same. IsTrue same
        → state_at (arc_value scene.now) number ≡ state_at (arc_value scene.now) other) }
{
    let places = places_at(alloc, scene, number)?;
    let others = places_at(alloc, scene, other)?;
    are_seen_equal(alloc, scene, parts, &places, &others)
}

/// Whether the states with these two numbers have equal trees, as `are_same_states`. The states are
/// made only if `are_seen_same` is false.
fn have_equal_trees(
    alloc: Global,
    scene: &Arc<Scene>,
    parts: &Parts,
    number: u32,
    other: u32,
) -> Result<bool, AllocError>
    requires parts { AreParts (arc_value scene.now).trace parts.now }
    requires first { number < length (arc_value scene.now).plan }
    requires second { other < length (arc_value scene.now).plan }
    ensures { IfOk result
        (λ same. IsTrue same ↔
        (state_at (arc_value scene.now) number ≡ state_at (arc_value scene.now) other)) }
{
    if are_seen_same(alloc, scene, parts, number, other)? {
        return Ok(true);
    }
    are_same_states(alloc, scene, number, other)
}

/// The place in `numbers` of the first number that is less than `number` and whose state has the
/// same tree as the state with `number`. None if there is none.
fn place_among(
    alloc: Global,
    scene: &Arc<Scene>,
    parts: &Parts,
    numbers: &[u32],
    number: u32,
) -> Result<Option<usize>, AllocError>
    requires parts { AreParts (arc_value scene.now).trace parts.now }
    requires there { number < length (arc_value scene.now).plan }
    ensures there { IfOk result
        (λ place. IfSome place
        (λ k. (k < length numbers.now) × (slice_index numbers.now k < number))) }
    ensures equal { IfOk result
        (λ place. IfSome place
        (λ k. state_at (arc_value scene.now) (slice_index numbers.now k)
        ≡ state_at (arc_value scene.now) number)) }
{
    for (place, other) in numbers.iter().enumerate() {
        // `first_of` passes smaller numbers only; its proof takes that from this test.
        if *other < number && have_equal_trees(alloc, scene, parts, *other, number)? {
            return Ok(Some(place));
        }
    }
    Ok(None)
}

/// The number of the first state with the same tree as the next state, or the next state's own
/// number if no earlier state has that tree. The next state is the one after those of `firsts`, and
/// `digest` is its digest. `found` has, by digest, the latest state of each tree, since states with
/// close numbers differ by little and are compared fast. The next state is put into `found`; an
/// error leaves `found` as it was.
fn first_of(
    alloc: Global,
    scene: &Arc<Scene>,
    parts: &Parts,
    found: &mut BTreeMap<u64, Vec<u32>>,
    firsts: &[u32],
    digest: u64,
) -> Result<u32, AllocError>
    requires parts { AreParts (arc_value scene.now).trace parts.now }
    requires there { length firsts.now < length (arc_value scene.now).plan }
    requires few { length firsts.now < 2 ^ 32 }
    requires firsts { (k : ℕ) → k < length firsts.now
        → IsSame (arc_value scene.now) k (slice_index firsts.now k) }
    ensures { IfOk result (IsSame (arc_value scene.now) (length firsts.now)) }
{
    let number = firsts.len() as u32;
    let Some(numbers) = found.get_mut(&digest) else {
        found.insert(digest, vec![in alloc; number]?)?;
        return Ok(number);
    };
    let Some(place) = place_among(alloc, scene, parts, numbers, number)? else {
        numbers.push(number)?;
        return Ok(number);
    };
    let last = numbers[place];
    numbers[place] = number;
    Ok(firsts[last as usize])
}

/// The digest of the state with this number. A wrong digest costs only time, so no clause says what
/// it is. After an error, `digests` can still be used.
fn digest_at(
    alloc: Global,
    scene: &Arc<Scene>,
    digests: &mut Digests,
    parts: &Parts,
    number: u32,
) -> Result<u64, AllocError>
    requires { number < length (arc_value scene.now).plan }
{
    let places = places_at(alloc, scene, number)?;
    let members = member_flags(alloc, scene.order().len(), &places)?;
    digests.digest_of_state(alloc, scene, parts, number, &members)
}

/// For each state of the plan, by its number, the number of the first state with an equal tree: its
/// own if there is no earlier one. That it is the first isn't proved, since only states with equal
/// digests are compared; the contract says that its tree is equal and that it isn't later.
pub fn first_same(alloc: Global, scene: &Arc<Scene>) -> Result<Vec<u32>, AllocError>
    ensures { IfOk result (λ firsts. AreFirsts (arc_value scene.now) firsts.items) }
{
    let parts = Parts::of(alloc, scene)?;
    let mut digests = Digests::of(alloc, scene, &parts)?;
    let mut found = BTreeMap::new(alloc);
    let mut firsts = Vec::new(alloc);
    for place in 0..scene.plan().len() {
        let number = place as u32;
        let digest = digest_at(alloc, scene, &mut digests, &parts, number)?;
        let first = first_of(alloc, scene, &parts, &mut found, &firsts, digest)?;
        firsts.push(first)?;
    }
    Ok(firsts)
}
