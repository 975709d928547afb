//! Of the sets that a crash may leave by the trace's own profile, those that a file system of
//! another profile may leave, too. A rename into another directory has two halves in a trace with
//! the profile `blocks` (docs/MODEL.md); only a file system with this profile may leave the first
//! half without the second.
ghost use Rattle.std.specs.Prelude.{◌≡◌, ◌<◌, ◌≤◌, ◌+◌, ◌||◌, ◌++◌, ◌∷◌, [], cond, not, length};
ghost use Rattle.std.specs.Prelude.{IfOk, OnOk};
ghost use Rattle.std.specs.List.{filter};
ghost use Rattle.cs_apm.specs.Rules as rules;
ghost use Rattle.cs_plan.specs.Scenes.{micros_of};
ghost use Rattle.cs_sets.specs.Places.{places_of};
ghost use Rattle.cs_sets.specs.Sets.{is_member};
ghost use Rattle.cs_different.specs.Members as model;
ghost use Rattle.cs_different.specs.Members.{AreAll, IsMember, firsts_under, has_seconds};
ghost use Rattle.cs_different.specs.Members.{order_under, sets_told};

use cs_apm::laws::rules_are_sentences;
use cs_apm::{is_first_half, order_by};
use cs_micro::MicroOp;
use cs_names::laws::know;
use cs_names::limits::MICRO_OPERATIONS;
use cs_plan::Scene;
use cs_sets::{Order, Row};
use cs_trace::Profile;
use std::alloc::{AllocError, Global};

/// The sets that both profiles may leave: those that the order allows, and that have the second
/// half of each of these renames of which they have the first. (It isn't the members of one set.)
#[derive(Drop)]
pub struct Members {
    /// The order by the stricter of both profiles.
    pub order: Order,
    /// The places of the first halves of renames, ascending; empty if halves may be left alone.
    pub firsts: Vec<u32>,
}

/// Of two profiles, the one whose rules make more micro-operations need others: `blocks` is the
/// least strict, `journal` the strictest. What the stricter allows, both allow.
fn stricter(one: Profile, other: Profile) -> Profile
    ensures { result ≡ model.stricter one other }
{
    match (one, other) {
        (Profile::Blocks, _) => other,
        (Profile::Ordered, Profile::Journal) => other,
        _ => one,
    }
}

/// Appends the place if the micro-operation there is the first half of a rename; if not, nothing
/// changes. After an error the list is unchanged.
fn add_first(firsts: &mut Vec<u32>, ops: &[MicroOp], place: usize) -> Result<(), AllocError>
    requires there { place < length ops.now }
    requires few { length ops.now ≤ MICRO_OPERATIONS }
    ensures { OnOk result (firsts.new.items ≡ firsts.old.items
        ++ cond (rules.is_first_half (rules.op_at ops.now place)) (place ∷ []) []) }
{
    if is_first_half(&ops[place]) {
        firsts.push(place as u32)?;
    }
    Ok(())
}

/// The places of the first halves of renames, ascending. None for the profile `blocks`, under which
/// a first half may be left alone.
fn firsts_under(alloc: Global, ops: &[MicroOp], profile: Profile) -> Result<Vec<u32>, AllocError>
    requires { length ops.now ≤ MICRO_OPERATIONS }
    ensures { IfOk result (λ firsts. firsts.items ≡ firsts_under ops.now profile) }
{
    let mut firsts = Vec::new(alloc);
    if profile == Profile::Blocks {
        return Ok(firsts);
    }
    for place in 0..ops.len() {
        add_first(&mut firsts, ops, place)?;
    }
    Ok(firsts)
}

/// The sets of the scene's micro-operations that a crash may leave by the trace's own profile, and
/// a file system of this profile may leave, too: as the order that allows them, and the first
/// halves whose second halves they must have.
pub fn members_under(alloc: Global, scene: &Scene, profile: Profile) -> Result<Members, AllocError>
    ensures order { IfOk result (λ members. members.order ≡ order_under scene.now profile) }
    ensures firsts { IfOk result (λ members. members.firsts.items
        ≡ firsts_under (micros_of scene.now).ops profile) }
    ensures told { IfOk result (λ members. AreAll (IsMember scene.now profile)
        (sets_told members.order members.firsts.items)) }
{
    let micros = scene.micros();
    // The contract of `ops` says that there are at most MICRO_OPERATIONS.
    know(micros.ops());
    // By this law, what an order allows is what the rules of its profile allow.
    rules_are_sentences(micros);
    let order = order_by(alloc, micros, stricter(profile, micros.version().profile()))?;
    // The contract of `len` says that each place needs only earlier ones.
    know(order.len());
    let firsts = firsts_under(alloc, micros.ops(), profile)?;
    Ok(Members { order, firsts })
}

/// Whether the set has the place. False for a place that no row can have.
#[tactic(auto, using(crate::proofs::Halves::has_below, crate::proofs::Halves::has_past))]
fn has(set: &Row, place: usize) -> bool
    ensures { result ≡ is_member (places_of set.now) place }
{
    if place >= MICRO_OPERATIONS {
        return false;
    }
    set.has_place(place)
}

/// Whether the set has the second half of the rename whose first half is at the place, or lacks the
/// first. The second half is at the next place.
fn has_second(set: &Row, first: u32) -> bool
    ensures { result ≡ (not (is_member (places_of set.now) first)
        || is_member (places_of set.now) (first + 1)) }
{
    !has(set, first as usize) || has(set, first as usize + 1)
}

/// Whether the set has the second half of each rename of which it has the first half. `firsts` are
/// the places of the first halves. True if there are none.
pub fn has_seconds(firsts: &[u32], set: &Row) -> bool
    ensures { result ≡ has_seconds firsts.now (places_of set.now) }
{
    for first in firsts {
        if !has_second(set, *first) {
            return false;
        }
    }
    true
}

/// Appends the set if `has_seconds` is true for it; if not, nothing changes. After an error the
/// list is unchanged.
fn add_whole(kept: &mut Vec<Row>, firsts: &[u32], set: &Row) -> Result<(), AllocError>
    ensures { OnOk result (kept.new.items ≡ kept.old.items
        ++ cond (has_seconds firsts.now (places_of set.now)) (set.now ∷ []) []) }
{
    if has_seconds(firsts, set) {
        kept.push(*set)?;
    }
    Ok(())
}

/// Of these sets, in order, those that have the second half of each rename of which they have the
/// first half. `firsts` are the places of the first halves.
pub fn with_seconds(alloc: Global, firsts: &[u32], sets: &[Row]) -> Result<Vec<Row>, AllocError>
    ensures { IfOk result (λ kept. kept.items
        ≡ filter (λ set. has_seconds firsts.now (places_of set)) sets.now) }
{
    let mut kept = Vec::new(alloc);
    for set in sets {
        add_whole(&mut kept, firsts, set)?;
    }
    Ok(kept)
}
