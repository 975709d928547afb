//! What the registry's lock protects.
ghost use Rattle.std.specs.Prelude.{◌≡◌, ◌≢◌, ◌≤◌, All, Err, IfOk, OnErr, length};
ghost use Rattle.std.specs.Arc.{arc_value};
ghost use Rattle.std.specs.List.Sorted.{IsPermutation, IsSorted};
ghost use Rattle.std.specs.Map.{keys_of};
ghost use Rattle.cs_registry.specs.Publishing.{Publishes};
ghost use Rattle.cs_registry.specs.Registries.{empty, missing_of, with_users};
ghost use Rattle.cs_shared_runs.specs.Finding.{FindsShared, IsKeyed};
ghost use Rattle.cs_shared_runs.specs.Naming.{key_cmp};
ghost use Rattle.cs_shared_runs.specs.Serving.{IsOnly, ServesAll};

use crate::served::ServerBrand;
use crate::shared_run::SharedRun;
use cs_names::laws::know;
use cs_plan::{Published, Scene};
use cs_registry::{FindFault, PublishFault, RunKey, States};
use cs_users::Users;
use std::alloc::{AllocError, Global};
use std::marker::Model;
use std::sync::Arc;

/// The published states of the server's scene and their shared runs. Contracts see the same as of a
/// `States`, and of each run only its key.
#[derive(Drop)]
pub struct Registry<S: ServerBrand> {
    /// Under the lock of a `SharedRegistry`, if threads share it.
    states: States<SharedRun<S>>,
}

impl<S: ServerBrand> Model for Registry<S> {
    ghost use Rattle.cs_registry.specs.Keys.{Key};
    ghost use Rattle.cs_registry.specs.Registries as model;
    ghost use Rattle.cs_shared_runs.specs.Finding.{IsOfServer};

    ghost Value = { model.Registry Key };

    ghost view = { λ r. r.states };

    ghost invariant = { λ r. IsOfServer S.is_scene r.states };
}

/// The users that a registry loaded. Only `Registry::reload` makes one. Contracts see their rows.
#[derive(Drop)]
pub struct LoadedUsers {
    /// The list, which the registry has too.
    users: Arc<Users>,
}

impl Model for LoadedUsers {
    ghost use Rattle.std.specs.Arc.{arc_value};
    ghost use Rattle.std.specs.Prelude.{List};
    ghost use Rattle.cs_users.specs.Rows.{Row};

    ghost Value = { List Row };

    ghost view = { λ loaded. arc_value loaded.users };
}

impl<S: ServerBrand> Registry<S> {
    /// A registry of the server's scene with no published state and no run. New runs get these
    /// users until another list is loaded. An error means out of memory. The type `S` must allow
    /// the scene and the users.
    pub fn new(
        alloc: Global,
        scene: Arc<Scene>,
        users: Arc<Users>,
    ) -> Result<Registry<S>, AllocError>
        requires here { S.is_scene (arc_value scene) }
        requires serves { ServesAll S.serves S.loads (arc_value scene) }
        requires loads { S.loads (arc_value users) }
        ensures { IfOk result (λ registry. registry ≡ empty (arc_value scene) (arc_value users)) }
    {
        // each state of a scene is one that a crash may leave
        know(scene.plan());
        Ok(Registry {
            states: States::new(alloc, scene, users)?,
        })
    }

    /// Library surface: no command calls it. The registry of these states and their runs, such as
    /// cs_publish's `publish_all` returns. The states are of the server's scene, and each run has
    /// its own key.
    pub fn of(states: States<SharedRun<S>>) -> Registry<S>
        requires own { S.is_scene states.scene }
        requires keyed { All IsKeyed states.runs }
        ensures { result ≡ states }
    {
        Registry { states }
    }

    /// The scene whose states the registry has.
    pub fn scene(&self) -> &Arc<Scene>
        ensures { arc_value result.now ≡ self.now.scene }
    {
        self.states.scene()
    }

    /// How many states of the scene's plan aren't published yet, as `States::missing` counts them;
    /// 0 if all are.
    pub fn missing(&self) -> u32
        ensures count { result ≡ missing_of self.now }
        ensures few { result ≤ length self.now.scene.plan }
        ensures own { S.is_scene self.now.scene }
    {
        self.states.missing()
    }

    /// Library surface: the commands call `publish_own`. Publishes a state under its number, as
    /// `States::publish` does: refused as Stranger, Twice or Memory, in this order. A refused state
    /// is dropped, and the registry is unchanged.
    pub fn publish(&mut self, alloc: Global, state: Published) -> Result<(), PublishFault>
        ensures publishes { Publishes self.old state result self.new }
        ensures own { S.is_scene self.old.scene }
    {
        self.states.publish(alloc, state)
    }

    /// Publishes a state of the only scene that may be the server's, as `publish` does but without
    /// comparing contents. The state may be refused as Twice or Memory, never as Stranger. A
    /// refused state is dropped, and the registry is unchanged. The caller knows by the type `S`
    /// that the state's scene is the server's.
    pub fn publish_own(&mut self, alloc: Global, state: Published) -> Result<(), PublishFault>
        requires { IsOnly S.is_scene state.scene }
        ensures publishes { Publishes self.old state result self.new }
        ensures own { result ≢ Err PublishFault.Stranger }
    {
        // its number is one of its scene's plan
        know(state.number());
        self.states.publish_own(alloc, state)
    }

    /// Finds or makes the run of a key, as `States::find_key` does, and returns a handle of it. Its
    /// refusals are the same: Unpublished, Full or Memory. Memory also if the run has as many
    /// handles as can be: then the find stays counted, and a run that this find made stays in the
    /// registry. After any other error the registry is unchanged.
    pub fn find_key(&mut self, alloc: Global, key: RunKey) -> Result<SharedRun<S>, FindFault>
        ensures finds { FindsShared self.old key result self.new }
        ensures key { IfOk result (λ shared. shared ≡ key) }
    {
        let place = self.states.find_key(alloc, key)?;
        match self.states.held_at(place).try_clone() {
            Ok(shared) => Ok(shared),
            Err(_) => Err(FindFault::Memory),
        }
    }

    /// Loads these users, for the runs that are made from now on, and returns them as the list that
    /// was loaded. An error, if the list has as many handles as can be, leaves the old list loaded.
    /// The type `S` must allow the list.
    pub fn reload(&mut self, users: Arc<Users>) -> Result<LoadedUsers, AllocError>
        requires { S.loads (arc_value users) }
        ensures value { IfOk result (λ loaded. loaded ≡ arc_value users) }
        ensures loads { IfOk result (λ loaded. self.new ≡ with_users self.old (arc_value users)) }
        ensures stays { OnErr result (self.new ≡ self.old) }
    {
        let own = Arc::try_clone(&users)?;
        self.states.reload_shared(own);
        Ok(LoadedUsers { users })
    }

    /// Handles of all runs, in the order of their keys: by the numbers of their states, and then by
    /// name. The error is out of memory, or that a run has as many handles as can be.
    pub fn runs(&self, alloc: Global) -> Result<Vec<SharedRun<S>>, AllocError>
        ensures all { IfOk result (λ runs. IsPermutation (keys_of self.now.runs) runs.items) }
        ensures sorted { IfOk result (λ runs. IsSorted key_cmp runs.items) }
    {
        let mut runs = all_runs(alloc, &self.states)?;
        runs.sort()?;
        Ok(runs)
    }
}

/// Handles of all runs, in the order in which they were made. The error is out of memory, or that a
/// run has as many handles as can be. Each run must be under its own key, as in every registry.
fn all_runs<S: ServerBrand>(
    alloc: Global,
    states: &States<SharedRun<S>>,
) -> Result<Vec<SharedRun<S>>, AllocError>
    requires { All IsKeyed states.now.runs }
    ensures { IfOk result (λ runs. runs.items ≡ keys_of states.now.runs) }
{
    let mut runs = Vec::new(alloc);
    for place in 0..states.run_count() {
        let run = states.held_at(place).try_clone()?;
        runs.push(run)?;
    }
    Ok(runs)
}
