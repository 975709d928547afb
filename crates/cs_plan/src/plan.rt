//! The numbered list of the crash states of a trace that can be asked for.
ghost use Rattle.std.specs.Prelude.{◌≡◌, ◌++◌, ◌≤◌, length, map, slice_get, IfErr, IfOk};
ghost use Rattle.std.specs.Prelude.{MatchOption, OnOk};
ghost use Rattle.std.specs.List.{All};
ghost use Rattle.std.specs.Option.{option_copied};
ghost use Rattle.cs_plan.specs.Plans.{IsAllowedIn, IsWithin, plan_of, set_in};
ghost use Rattle.cs_plan.specs.Refusals.{IsFirstRefused, IsRefused};
ghost use Rattle.cs_plan.specs.declared.recipe.Recipe.TheVariants as forms;

use crate::families::{count_states, families_of};
use crate::fault::PlanFault;
use crate::recipe::{Places, Recipe};
use cs_apm::Order;
use cs_names::limits::PLAN_STATES;
use std::alloc::{AllocError, Global};
use std::marker::Model;

/// The recipes of a trace's states, by their numbers: the prefixes, the holes if the plan was made
/// with them, and the picks. Equal sets may be in it more than once. It never changes.
#[derive(Debug, Drop)]
pub struct Plan {
    /// The recipes; the number of a state is the index of its recipe. At most PLAN_STATES.
    recipes: Vec<Recipe>,
}

impl Model for Plan {
    ghost use Rattle.std.specs.Prelude.{◌≤◌, List, length};
    ghost use Rattle.cs_names.specs.declared.limits.TheConstants.{PLAN_STATES};
    ghost use Rattle.cs_plan.specs.declared.recipe.Recipe.{Recipe};

    ghost Value = { List Recipe };

    ghost view = { λ plan. plan.recipes.items };

    ghost invariant = { λ plan. length plan.recipes.items ≤ PLAN_STATES };
}

impl Plan {
    /// The plan of an order: its prefixes; then its holes, if `holes` is true; then the picks. A
    /// hole is listed only if it has the micro-operation before its end: if not, its state is that
    /// of a prefix, or of a hole with a lower end. PlanTooLarge, PickNotAllowed and Memory are
    /// checked in this order. After a fault the picks are dropped.
    pub fn make(
        alloc: Global,
        order: &Order,
        holes: bool,
        picks: Vec<Places>,
    ) -> Result<Plan, PlanFault>
        ensures value { IfOk result (λ plan. plan ≡ plan_of order.now holes picks.items) }
        ensures few { IfOk result (λ plan. length plan ≤ PLAN_STATES) }
        ensures within { IfOk result (All (IsWithin (length order.now))) }
        ensures allowed { IfOk result
            (λ plan. All (λ recipe. IsAllowedIn order.now (set_in order.now recipe)) plan) }
        ensures fault { IfErr result (IsRefused order.now holes picks.items) }
    {
        let count = count_states(order, holes);
        if count > PLAN_STATES || picks.len() > PLAN_STATES - count {
            return Err(PlanFault::PlanTooLarge);
        }
        match first_refused(order, &picks) {
            Some(pick) => return Err(PlanFault::PickNotAllowed(pick as u32)),
            None => {}
        }
        match recipes_of(alloc, order, holes, picks) {
            Ok(recipes) => Ok(Plan { recipes }),
            Err(_) => Err(PlanFault::Memory),
        }
    }

    /// How many states the plan has; at least one, the empty prefix.
    pub fn len(&self) -> usize
        ensures value { result ≡ length self.now }
        ensures few { result ≤ PLAN_STATES }
    {
        self.recipes.len()
    }

    /// The recipes of the states, in the order of the states' numbers.
    pub fn recipes(&self) -> &[Recipe]
        ensures { result.now ≡ self.now }
    {
        self.recipes.as_slice()
    }

    /// The recipe of the state with this number, from 0; None if the plan has no such number.
    pub fn recipe(&self, number: u32) -> Option<&Recipe>
        ensures { option_copied result ≡ slice_get self.now number }
    {
        self.recipes.get(number as usize)
    }
}

/// The index, from 0, of the first pick that `Order::is_allowed` refuses: a crash can't leave it,
/// its places don't ascend strictly, or the order lacks one of them. None if all picks are allowed.
/// Allocates nothing.
fn first_refused(order: &Order, picks: &[Places]) -> Option<usize>
    ensures { MatchOption result (All (IsAllowedIn order.now) picks.now)
        (IsFirstRefused order.now picks.now) }
{
    for (place, pick) in picks.iter().enumerate() {
        if !order.is_allowed(pick.as_slice()) {
            return Some(place);
        }
    }
    None
}

/// Appends a recipe for each pick, in order. If memory runs out, the list may lack picks, and the
/// caller drops it.
fn push_picks(recipes: &mut Vec<Recipe>, picks: Vec<Places>) -> Result<(), AllocError>
    ensures { OnOk result (recipes.new.items ≡ recipes.old.items ++ map forms.Pick picks.items) }
{
    for pick in picks {
        recipes.push(Recipe::Pick(pick))?;
    }
    Ok(())
}

/// The recipes of a plan, by the numbers of the states: those of the families, then the picks.
fn recipes_of(
    alloc: Global,
    order: &Order,
    holes: bool,
    picks: Vec<Places>,
) -> Result<Vec<Recipe>, AllocError>
    ensures { IfOk result (λ recipes. recipes.items ≡ plan_of order.now holes picks.items) }
{
    let mut recipes = families_of(alloc, order, holes)?;
    push_picks(&mut recipes, picks)?;
    Ok(recipes)
}
