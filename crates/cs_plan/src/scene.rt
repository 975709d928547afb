//! A scene: a trace with the plan of its states. It is the only way to make a state.
ghost use Rattle.std.specs.Prelude.{◌≡◌, ◌≤◌, ◌↔◌, length, Some, IfErr, IfOk, IsErrOf, IsTrue};
ghost use Rattle.std.specs.Arc.{arc_value};
ghost use Rattle.cs_tree_model.specs.Tree.{IsTree};
ghost use Rattle.cs_micro.specs.Micros.{micros_in};
ghost use Rattle.cs_apm.specs.Orders.{order_of};
ghost use Rattle.cs_plan.specs.Plans.{plan_of};
ghost use Rattle.cs_plan.specs.Refusals.{IsRefusedScene};
ghost use Rattle.cs_plan.specs.Scenes.{IsNew, IsPlan, micros_of, order_in, says_at, state_at};

use crate::fault::{MakeFault, SceneFault};
use crate::members::{places_of, says_in};
use crate::plan::Plan;
use crate::recipe::Places;
use crate::same::{are_same_recipes, is_same_trace};
use cs_apm::laws::rules_are_sentences;
use cs_apm::{Order, order_of};
use cs_micro::{Micros, break_up};
use cs_names::laws::know;
use cs_state::{Atlas, Built};
use cs_trace::Trace;
use std::alloc::Global;
use std::marker::Model;

/// A trace with its micro-operations, their order, and the plan of its states. What the states
/// share is computed once, when the scene is made. It never changes. Contracts see the trace and
/// the plan.
#[derive(Drop)]
pub struct Scene {
    /// The trace and its micro-operations, with what all its states share.
    atlas: Atlas,
    /// The order of the micro-operations, by the trace's own profile.
    order: Order,
    /// The plan of that order.
    plan: Plan,
}

impl Model for Scene {
    ghost use Rattle.cs_plan.specs.Scenes as model;

    ghost Value = { model.Scene };

    ghost view = { λ scene. record { trace = scene.atlas; plan = scene.plan } };

    ghost use Rattle.cs_plan.specs.Parts.{AreParts};

    ghost invariant = { λ scene. AreParts scene.atlas scene.order scene.plan };
}

impl Scene {
    /// The scene of a trace. Its plan has the prefixes, the holes if `holes` is true, and these
    /// picks. TooMany, PlanTooLarge and PickNotAllowed are checked in this order; Memory may be
    /// reported in place of the last two, but never of TooMany. After a fault, trace and picks are
    /// dropped.
    pub fn of(
        alloc: Global,
        trace: Trace,
        holes: bool,
        picks: Vec<Places>,
    ) -> Result<Scene, SceneFault>
        ensures value { IfOk result
            (λ scene. scene
            ≡ record {
              trace = trace;
              plan =
                  plan_of (order_of (micros_in trace)) holes picks.items;
            }) }
        ensures fault { IfErr result (IsRefusedScene trace holes picks.items) }
    {
        let micros = break_up(alloc, &trace)?;
        let order = order_of(alloc, &micros)?;
        let plan = Plan::make(alloc, &order, holes, picks)?;
        let atlas = Atlas::of(alloc, trace, micros)?;
        Ok(Scene { atlas, order, plan })
    }

    /// The trace that the scene was made of.
    pub fn trace(&self) -> &Trace
        ensures { result.now ≡ self.now.trace }
    {
        self.atlas.trace()
    }

    /// The trace's micro-operations and sync points.
    pub fn micros(&self) -> &Micros
        ensures { result.now ≡ micros_of self.now }
    {
        self.atlas.micros()
    }

    /// The order of the micro-operations, by the trace's own profile: which needs which.
    pub fn order(&self) -> &Order
        ensures value { result.now ≡ order_in self.now }
        ensures long { length result.now ≡ length (micros_of self.now).ops }
    {
        &self.order
    }

    /// The plan of the trace's states. A crash may leave each of them.
    pub fn plan(&self) -> &Plan
        ensures value { result.now ≡ self.now.plan }
        ensures planned { IsPlan (order_in self.now) self.now.plan }
    {
        &self.plan
    }

    /// How many acknowledged lines the state with this number has; None if the plan has no such
    /// number. Allocates nothing.
    pub fn says(&self, number: u32) -> Option<u32>
        ensures { result ≡ says_at self.now number }
    {
        let recipe = self.plan.recipe(number)?;
        Some(says_in(self.atlas.micros().ops(), &self.order, recipe))
    }

    /// Whether two scenes have the same trace and the same plan. Allocates nothing, but is slow for
    /// large traces, since it compares all of both.
    pub fn has_content_of(&self, other: &Scene) -> bool
        ensures { IsTrue result ↔ (self.now ≡ other.now) }
    {
        is_same_trace(self.trace(), other.trace())
            && are_same_recipes(self.plan.recipes(), other.plan.recipes())
    }

    /// The tree of the state with this number, which no client has changed: it has fresh numbers
    /// and versions. NoSuchState if and only if the plan has no such number. (`Scene::make` returns
    /// the tree with its number and scene.)
    pub(crate) fn build(&self, alloc: Global, number: u32) -> Result<Built, MakeFault>
        ensures state { IfOk result (λ tree. state_at self.now number ≡ Some tree) }
        ensures tree { IfOk result IsTree }
        ensures unchanged { IfOk result IsNew }
        ensures missing { IsErrOf result MakeFault.NoSuchState ↔ (length self.now.plan ≤ number) }
    {
        let Some(recipe) = self.plan.recipe(number) else {
            return Err(MakeFault::NoSuchState);
        };
        // By this law, what the order allows is what the rules allow.
        rules_are_sentences(self.atlas.micros());
        // By the contract of `operations`, a trace makes no more records than a tree may have.
        know(self.atlas.trace().operations());
        let places = places_of(alloc, &self.order, recipe)?;
        let tree = self.atlas.build(alloc, &places)?;
        Ok(tree)
    }
}
