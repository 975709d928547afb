//! Of the sets of a scene's micro-operations that a crash may leave, and a file system of another
//! profile, too, those that differ in what they leave.
ghost use Rattle.std.specs.Prelude.{◌≡◌, ◌≤◌, ◌+◌, ℕ, true, false, length, map, IfErr, IfOk};
ghost use Rattle.std.specs.List.{All};
ghost use Rattle.cs_sets.specs.Places.{places_of};
ghost use Rattle.cs_sets.specs.Rows.{bit_in};
ghost use Rattle.cs_different.specs.Under.{AreDifferentUnder, IsRefusedUnder};

use crate::classes::class_sets;
use crate::columns::columns_of;
use crate::fault::DifferentFault;
use crate::finding::firsts_of;
use crate::members::{members_under, with_seconds};
use crate::wanting::wants_of;
use cs_apm::laws::rules_are_sentences;
use cs_names::laws::know;
use cs_plan::Scene;
use cs_same_states::Parts;
use cs_sets::Row;
use cs_trace::Profile;
use std::alloc::Global;

/// Makes the micro-operation at the place want nothing, so that it is always seen. For a place past
/// the last, nothing changes.
fn show(wanted: &mut Vec<Row>, place: usize)
    ensures long { length wanted.new.items ≡ length wanted.old.items }
    ensures less { (z k : ℕ) → bit_in wanted.new.items z k ≡ true
        → bit_in wanted.old.items z k ≡ true }
    ensures none { (z : ℕ) → bit_in wanted.new.items z place ≡ false }
{
    if place < wanted.len() {
        wanted[place] = Row::empty();
    }
}

/// Makes both halves of renames want nothing, so that all sets of a class have the same halves.
/// `firsts` are the places of the first halves.
fn show_halves(wanted: &mut Vec<Row>, firsts: &[u32])
    ensures long { length wanted.new.items ≡ length wanted.old.items }
    ensures less { (z k : ℕ) → bit_in wanted.new.items z k ≡ true
        → bit_in wanted.old.items z k ≡ true }
    ensures first { All (λ first. (z : ℕ) → bit_in wanted.new.items z first ≡ false) firsts.now }
    ensures second { All (λ first. (z : ℕ) → bit_in wanted.new.items z (first + 1) ≡ false)
        firsts.now }
{
    for first in firsts {
        show(wanted, *first as usize);
        show(wanted, *first as usize + 1);
    }
}

/// Of all sets of the scene's micro-operations that a crash may leave by the trace's own profile
/// and that a file system of this profile may leave, too, the first of those that leave equal trees
/// and equally many acknowledged lines, in the order of sets. TooMany if the sets fall into more
/// than CLASSES classes, More if more than `most` sets differ.
pub fn different_under(
    alloc: Global,
    scene: &Scene,
    profile: Profile,
    most: u32,
) -> Result<Vec<Row>, DifferentFault>
    ensures different { IfOk result
        (λ sets. AreDifferentUnder scene.now profile (map places_of sets.items)) }
    ensures few { IfOk result (λ sets. length sets.items ≤ most) }
    ensures refused { IfErr result (IsRefusedUnder scene.now profile most) }
{
    let members = members_under(alloc, scene, profile)?;
    // The contract of `len` says that an order is short, and that each place needs only earlier
    // ones.
    know(members.order.len());
    // By this law, what the order allows is what the rules of the profile allow.
    rules_are_sentences(scene.micros());
    let parts = Parts::of(alloc, scene)?;
    let needed = columns_of(alloc, &members.order)?;
    let mut wanted = wants_of(alloc, scene, &parts)?;
    let firsts = members.firsts.as_slice();
    show_halves(&mut wanted, firsts);
    let classes = class_sets(alloc, wanted.as_slice(), needed.as_slice())?;
    // The sets of a class have the same halves, since these are always seen.
    let kept = with_seconds(alloc, firsts, classes.as_slice())?;
    let sets = firsts_of(alloc, scene, &parts, kept.as_slice(), most)?;
    Ok(sets)
}
