//! The micro-operations of a state, its members, by its recipe, and how many of them are
//! acknowledged lines.
ghost use Rattle.std.specs.Prelude.{◌≡◌, ◌<◌, ◌≤◌, ◌&&◌, length, IfOk};
ghost use Rattle.std.specs.List.{All};
ghost use Rattle.cs_sets.specs.Orders.{needs_in};
ghost use Rattle.cs_apm.specs.Rules.{op_at};
ghost use Rattle.cs_plan.specs.Plans.{IsWithin, places_below, places_of_hole, is_kept, set_in};
ghost use Rattle.cs_plan.specs.Scenes.{is_say, says_of};

use crate::recipe::Recipe;
use cs_apm::Order;
use cs_micro::MicroOp;
use cs_names::limits::MICRO_OPERATIONS;
use std::alloc::{AllocError, Global};

/// Whether a state without the micro-operation at `missing` can have the one at `place`: the two
/// places differ, and `place` doesn't need `missing` by any chain.
pub fn is_kept(order: &Order, missing: usize, place: usize) -> bool
    requires first { missing < length order.now }
    requires second { place < length order.now }
    ensures { result ≡ is_kept (needs_in order.now) missing place }
{
    !(missing == place || order.needs_by_chain(missing, place))
}

/// The places from 0 on and before `end`, ascending: none if `end` is 0.
fn places_before(alloc: Global, end: u32) -> Result<Vec<u32>, AllocError>
    ensures { IfOk result (λ places. places.items ≡ places_below end) }
{
    (0..end).collect(alloc)
}

/// The places of a hole: those before `end`, ascending, without `missing` and without all that need
/// `missing` by any chain. `says_of_hole` counts the acknowledged lines at the same places.
fn hole_of(alloc: Global, order: &Order, missing: u32, end: u32) -> Result<Vec<u32>, AllocError>
    requires first { missing < length order.now }
    requires second { end ≤ length order.now }
    ensures { IfOk result
        (λ places. places.items ≡ places_of_hole (needs_in order.now) missing end) }
{
    let mut places = Vec::new(alloc);
    for place in 0..end {
        if is_kept(order, missing as usize, place as usize) {
            places.push(place)?;
        }
    }
    Ok(places)
}

/// The places of the micro-operations that a state with this recipe has, in the recipe's order:
/// they ascend in a prefix, in a hole, and in a pick of a plan. The order must have every place of
/// the recipe. `says_in` below has the same cases: change both together.
pub fn places_of(alloc: Global, order: &Order, recipe: &Recipe) -> Result<Vec<u32>, AllocError>
    requires { IsWithin (length order.now) recipe.now }
    ensures { IfOk result (λ places. places.items ≡ set_in order.now recipe.now) }
{
    match recipe {
        Recipe::Prefix(end) => places_before(alloc, *end),
        Recipe::Hole(missing, end) => hole_of(alloc, order, *missing, *end),
        Recipe::Pick(places) => Vec::from_slice(alloc, places.as_slice()),
    }
}

/// Whether the micro-operation at the place is an acknowledged line. (`is_say_at` of cs_different
/// has the same body.)
fn is_say_at(ops: &[MicroOp], place: u32) -> bool
    requires { place < length ops.now }
    ensures { result ≡ is_say (op_at ops.now place) }
{
    matches!(&ops[place as usize], MicroOp::Say)
}

/// How many acknowledged lines a prefix has: those at the places before `end`.
fn says_of_prefix(ops: &[MicroOp], end: u32) -> u32
    requires { end ≤ length ops.now }
    ensures { result ≡ says_of ops.now (places_below end) }
{
    let mut count = 0;
    for place in 0..end {
        if is_say_at(ops, place) {
            count += 1;
        }
    }
    count
}

/// Whether an acknowledged line is at `place`, and a state without the micro-operation at `missing`
/// can have it.
fn is_kept_say(ops: &[MicroOp], order: &Order, missing: u32, place: u32) -> bool
    requires long { length ops.now ≡ length order.now }
    requires first { missing < length order.now }
    requires second { place < length order.now }
    ensures { result
        ≡ (is_say (op_at ops.now place) && is_kept (needs_in order.now) missing place) }
{
    is_say_at(ops, place) && is_kept(order, missing as usize, place as usize)
}

/// How many acknowledged lines a hole has, at the places that `hole_of` returns: those before `end`
/// that a state without the micro-operation at `missing` can have.
fn says_of_hole(ops: &[MicroOp], order: &Order, missing: u32, end: u32) -> u32
    requires long { length ops.now ≡ length order.now }
    requires first { missing < length order.now }
    requires second { end ≤ length order.now }
    ensures { result ≡ says_of ops.now (places_of_hole (needs_in order.now) missing end) }
{
    let mut count = 0;
    for place in 0..end {
        if is_kept_say(ops, order, missing, place) {
            count += 1;
        }
    }
    count
}

/// How many acknowledged lines a pick of these places has. (`count_says` of cs_different has the
/// same body.)
fn says_of_pick(ops: &[MicroOp], places: &[u32]) -> u32
    requires inside { All (λ place. place < length ops.now) places.now }
    requires few { length places.now ≤ MICRO_OPERATIONS }
    ensures { result ≡ says_of ops.now places.now }
{
    let mut count = 0;
    for place in places {
        if is_say_at(ops, *place) {
            count += 1;
        }
    }
    count
}

/// How many acknowledged lines a state with this recipe has: those at the places that `places_of`
/// returns. The micro-operations must be those of the order, which must have every place of the
/// recipe. Allocates nothing.
pub fn says_in(ops: &[MicroOp], order: &Order, recipe: &Recipe) -> u32
    requires long { length ops.now ≡ length order.now }
    requires few { length ops.now ≤ MICRO_OPERATIONS }
    requires within { IsWithin (length order.now) recipe.now }
    ensures { result ≡ says_of ops.now (set_in order.now recipe.now) }
{
    match recipe {
        Recipe::Prefix(end) => says_of_prefix(ops, *end),
        Recipe::Hole(missing, end) => says_of_hole(ops, order, *missing, *end),
        Recipe::Pick(places) => says_of_pick(ops, places.as_slice()),
    }
}
