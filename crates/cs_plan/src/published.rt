//! A state of a scene that was made, with its number: by its invariant, the tree is that of the
//! number.
ghost use Rattle.std.specs.Prelude.{◌≡◌, ◌≤◌, ◌↔◌, length, Some, IfOk, IsErrOf};
ghost use Rattle.std.specs.Arc.{arc_value};
ghost use Rattle.cs_plan.specs.Scenes.{IsPublished, state_at};

use crate::fault::MakeFault;
use crate::scene::Scene;
use cs_state::Built;
use std::alloc::Global;
use std::marker::Model;
use std::sync::Arc;

/// A state that was made and can be published: its tree is that of its number in its scene. Only
/// `Scene::make` makes one.
#[derive(Drop)]
pub struct Published {
    /// The state's number in the plan of the scene.
    number: u32,
    /// The scene, shared with whoever asked for the state.
    scene: Arc<Scene>,
    /// The state's tree.
    store: Built,
}

impl Model for Published {
    ghost use Rattle.std.specs.Arc.{arc_value};
    ghost use Rattle.cs_plan.specs.Scenes as model;
    ghost use Rattle.std.specs.Coded.{codes};
    ghost use Rattle.cs_tree_model.specs.Tree.{tree_code};

    ghost Value = { model.Published };

    ghost coded = { Prim.hlevel (codes, tree_code) };

    ghost view = { λ p. record { number = p.number; scene = arc_value p.scene; tree = p.store } };

    ghost invariant = { λ p. model.IsPublished
        (record { number = p.number; scene = arc_value p.scene; tree = p.store }) };
}

impl Published {
    /// The state's number in the plan of its scene.
    pub fn number(&self) -> u32
        ensures value { result ≡ self.now.number }
        ensures published { IsPublished self.now }
    {
        self.number
    }

    /// The scene in which the state was made.
    pub fn scene(&self) -> &Arc<Scene>
        ensures { arc_value result.now ≡ self.now.scene }
    {
        &self.scene
    }

    /// The state's tree, borrowed.
    pub fn store(&self) -> &Built
        ensures tree { result.now ≡ self.now.tree }
        ensures published { IsPublished self.now }
    {
        &self.store
    }

    /// The state's tree, moved out. The number and the scene's handle are dropped.
    pub fn into_store(self) -> Built
        ensures tree { result ≡ self.tree }
        ensures published { IsPublished self }
    {
        self.store
    }
}

impl Scene {
    /// Makes the state with this number of the scene's plan. NoSuchState if and only if the plan
    /// has no such number: Memory is never reported in its place. The scene isn't changed; the
    /// state keeps a handle of it. Several threads may make states of a scene at once.
    pub fn make(alloc: Global, scene: &Arc<Scene>, number: u32) -> Result<Published, MakeFault>
        ensures number { IfOk result (λ made. made.number ≡ number) }
        ensures scene { IfOk result (λ made. made.scene ≡ arc_value scene.now) }
        ensures state { IfOk result
            (λ made. state_at (arc_value scene.now) number ≡ Some made.tree) }
        ensures missing { IsErrOf result MakeFault.NoSuchState ↔
            (length (arc_value scene.now).plan ≤ number) }
    {
        let store = scene.build(alloc, number)?;
        let scene = Arc::try_clone(scene)?;
        Ok(Published {
            number,
            scene,
            store,
        })
    }
}
