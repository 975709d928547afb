//! The two families of states that a plan lists by itself: prefixes, and prefixes with a hole. (The
//! families `--lost` and `--files` are picks, and in cs_picks.) An error means out of memory. The
//! list may then lack recipes, and the caller drops it.
ghost use Rattle.std.specs.Prelude.{◌≡◌, ◌++◌, ◌<◌, ◌≤◌, length, IfOk, OnOk};
ghost use Rattle.cs_sets.specs.Chains.{IsBackward};
ghost use Rattle.cs_sets.specs.Orders.{needs_in};
ghost use Rattle.cs_plan.specs.Plans.{families, holes_at, holes_of, prefixes};

use crate::members::is_kept;
use crate::recipe::Recipe;
use cs_apm::Order;
use cs_names::limits::MICRO_OPERATIONS;
use std::alloc::{AllocError, Global};

/// How many holes have the last place `last`: one for each earlier place that `last` doesn't need
/// by any chain, so none for 0. `push_holes_at` appends them. Allocates nothing.
fn count_holes_at(order: &Order, last: usize) -> usize
    requires { last < length order.now }
    ensures value { result ≡ length (holes_at (needs_in order.now) last) }
    ensures small { result ≤ last }
{
    let mut count = 0usize;
    for missing in 0..last {
        if is_kept(order, missing, last) {
            count += 1;
        }
    }
    count
}

/// How many holes the order has, of all last places together; `push_holes` appends them. At most
/// 1048576, which is MICRO_OPERATIONS squared. Allocates nothing. (`count_holes` of cs_reasons
/// counts the same: change both.)
fn count_holes(order: &Order) -> usize
    ensures value { result ≡ length (holes_of (needs_in order.now) (length order.now)) }
    ensures small { result ≤ 1048576 }
{
    let mut count = 0usize;
    for last in 0..order.len() {
        count += count_holes_at(order, last);
    }
    count
}

/// How many states the families have: the prefixes, and the holes if `holes` is true. `families_of`
/// returns as many recipes. At most 1048576 holes and 1025 prefixes; the contract's bound is
/// rounded up. Allocates nothing.
pub fn count_states(order: &Order, holes: bool) -> usize
    ensures backward { IsBackward (needs_in order.now) }
    ensures value { result ≡ length (families (needs_in order.now) (length order.now) holes) }
    ensures small { result ≤ 1050000 }
{
    let count = order.len() + 1;
    if holes {
        count + count_holes(order)
    } else {
        count
    }
}

/// Appends the prefixes of the lengths from 0 to `count`, that of `count` too.
fn push_prefixes(recipes: &mut Vec<Recipe>, count: usize) -> Result<(), AllocError>
    requires { count ≤ MICRO_OPERATIONS }
    ensures { OnOk result (recipes.new.items ≡ recipes.old.items ++ prefixes count) }
{
    for end in 0..count + 1 {
        recipes.push(Recipe::Prefix(end as u32))?;
    }
    Ok(())
}

/// Appends the holes that have the last place `last`, in the order of their missing places: those
/// that `count_holes_at` counts. A recipe has the end, the place after the last.
fn push_holes_at(recipes: &mut Vec<Recipe>, order: &Order, last: usize) -> Result<(), AllocError>
    requires inside { last < length order.now }
    requires few { length order.now ≤ MICRO_OPERATIONS }
    ensures { OnOk result
        (recipes.new.items ≡ recipes.old.items ++ holes_at (needs_in order.now) last) }
{
    for missing in 0..last {
        if is_kept(order, missing, last) {
            recipes.push(Recipe::Hole(missing as u32, last as u32 + 1))?;
        }
    }
    Ok(())
}

/// Appends the holes of every last place, in the order of the last places: those that `count_holes`
/// counts.
fn push_holes(recipes: &mut Vec<Recipe>, order: &Order) -> Result<(), AllocError>
    ensures { OnOk result
        (recipes.new.items ≡ recipes.old.items
        ++ holes_of (needs_in order.now) (length order.now)) }
{
    for last in 0..order.len() {
        push_holes_at(recipes, order, last)?;
    }
    Ok(())
}

/// The recipes of the families, in the order of the plan: the prefixes, and then the holes if
/// `holes` is true. `count_states` counts them.
pub fn families_of(alloc: Global, order: &Order, holes: bool) -> Result<Vec<Recipe>, AllocError>
    ensures { IfOk result
        (λ recipes. recipes.items ≡ families (needs_in order.now) (length order.now) holes) }
{
    let mut recipes: Vec<Recipe> = Vec::new(alloc);
    push_prefixes(&mut recipes, order.len())?;
    if holes {
        push_holes(&mut recipes, order)?;
    }
    Ok(recipes)
}
