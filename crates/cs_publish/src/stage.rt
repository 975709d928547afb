//! A scene that a type names, and the states made in it.
ghost use Rattle.std.specs.Prelude.{◌≡◌, IfOk};
ghost use Rattle.std.specs.Arc.{arc_value};
ghost use Rattle.cs_plan.specs.Scenes as model;

use crate::gate::{AskedNumber, Gate};
use cs_plan::{MakeFault, Published, Scene};
use std::alloc::Global;
use std::marker::{Brand, Model, PhantomData};
use std::sync::Arc;

/// Names a scene by a type, so that the type of a state from another thread says in which scene it
/// was made.
pub(crate) trait Staged: Send + Sync {
    /// Whether a scene is the one that the type names.
    ghost is_scene: { model.Scene → Type 0 };
}

impl Staged for Brand {
    ghost is_scene = { λ scene. Unit {0} };
}

/// The scene that the type N names. Workers make states only here.
#[derive(Drop)]
pub(crate) struct Stage<N: Staged> {
    /// The scene itself.
    scene: Arc<Scene>,
    /// For the type N. It has no data.
    of: PhantomData<N>,
}

impl<N: Staged> Model for Stage<N> {
    ghost use Rattle.std.specs.Arc.{arc_value};
    ghost use Rattle.cs_plan.specs.Scenes as model;

    ghost Value = { model.Scene };

    ghost view = { λ stage. arc_value stage.scene };

    ghost invariant = { λ stage. N.is_scene (arc_value stage.scene) };
}

/// A state made in the scene that the type names, perhaps by another thread.
#[derive(Drop)]
pub(crate) struct Made<N: Staged> {
    /// With its scene and its number.
    state: Published,
    /// For the type N. It has no data.
    of: PhantomData<N>,
}

impl<N: Staged> Model for Made<N> {
    ghost use Rattle.cs_plan.specs.Scenes as model;
    ghost use Rattle.std.specs.Coded.{codes};
    ghost use Rattle.cs_tree_model.specs.Tree.{tree_code};

    ghost Value = { model.Published };

    ghost coded = { Prim.hlevel (codes, tree_code) };

    ghost view = { λ made. made.state };

    ghost invariant = { λ made. N.is_scene made.state.scene };
}

/// What a worker sends for a number: its state, or that memory ran out.
#[derive(Drop)]
pub(crate) enum FromWorker<N: Staged> {
    /// The state of the number.
    State(Made<N>),
    /// Memory ran out for the state of the number, which isn't published then.
    NoMemory,
}

impl<N: Staged> Stage<N> {
    /// The stage of this scene, which is the one that the type names.
    pub(crate) fn new(scene: Arc<Scene>) -> Stage<N>
        requires { N.is_scene (arc_value scene) }
        ensures { result ≡ arc_value scene }
    {
        Stage {
            scene,
            of: PhantomData,
        }
    }

    /// Makes the state of a number about which the gate was asked. NoSuchState if the scene's plan
    /// doesn't have the number; else Memory if an allocation fails.
    pub(crate) fn make<G: Gate>(
        &self,
        alloc: Global,
        asked: AskedNumber<'_, G>,
    ) -> Result<Made<N>, MakeFault>
        ensures number { IfOk result (λ made. made.number ≡ asked.entry) }
        ensures scene { IfOk result (λ made. made.scene ≡ self.now) }
    {
        let state = Scene::make(alloc, &self.scene, asked.into_number())?;
        Ok(Made {
            state,
            of: PhantomData,
        })
    }
}

impl<N: Staged> Made<N> {
    /// The state itself, moved out to be published.
    pub(crate) fn into_state(self) -> Published
        ensures value { result ≡ self }
        ensures own { N.is_scene result.scene }
    {
        self.state
    }
}
