//! A registry that threads share.
ghost use Rattle.std.specs.Prelude.{◌≡◌, ◌≢◌, ◌↔◌, ◌≤◌, Err, IfOk, length};
ghost use Rattle.std.specs.Arc.{arc_value};
ghost use Rattle.std.specs.List.Sorted.{IsSorted};
ghost use Rattle.cs_registry.specs.Publishing.{IsStateOf};
ghost use Rattle.cs_shared_runs.specs.Naming.{key_cmp};
ghost use Rattle.cs_shared_runs.specs.Serving.{IsOnly, ServesAll};

use crate::registry::{LoadedUsers, Registry};
use crate::served::ServerBrand;
use crate::shared_run::SharedRun;
use cs_names::RunName;
use cs_names::laws::know;
use cs_plan::{Published, Scene};
use cs_registry::{FindFault, PublishFault, RunKey};
use cs_users::Users;
use std::alloc::{AllocError, Global};
use std::marker::Model;
use std::sync::{Arc, Mutex, Wait};

/// The published states of the server's scene and their runs, shared by threads under a lock.
/// Contracts see the scene, and nothing under the lock. Each call takes this lock once, and no
/// run's.
#[derive(Drop)]
pub struct SharedRegistry<S: ServerBrand> {
    /// Outside the lock, as it never changes.
    scene: Arc<Scene>,
    /// The same scene with its published states, the runs and the loaded users.
    inside: Mutex<Registry<S>>,
}

impl<S: ServerBrand> Model for SharedRegistry<S> {
    ghost use Rattle.std.specs.Arc.{arc_value};
    ghost use Rattle.cs_plan.specs.Scenes as model;

    ghost Value = { model.Scene };

    ghost view = { λ r. arc_value r.scene };

    ghost invariant = { λ r. S.is_scene (arc_value r.scene) };
}

impl<S: ServerBrand> SharedRegistry<S> {
    /// A shared registry of the server's scene with no published state and no run. New runs get
    /// these users until another list is loaded. An error means out of memory. The type `S` must
    /// allow the scene and the users.
    pub fn new(
        alloc: Global,
        scene: Arc<Scene>,
        users: Arc<Users>,
    ) -> Result<SharedRegistry<S>, AllocError>
        requires here { S.is_scene (arc_value scene) }
        requires serves { ServesAll S.serves S.loads (arc_value scene) }
        requires loads { S.loads (arc_value users) }
        ensures { IfOk result (λ registry. registry ≡ arc_value scene) }
    {
        let own = Arc::try_clone(&scene)?;
        let inside = Registry::new(alloc, own, users)?;
        Ok(SharedRegistry {
            scene,
            inside: Mutex::new(inside),
        })
    }

    /// Library surface: no command calls it. The registry, put under a lock for threads to share.
    /// An error, if its scene has as many handles as can be, drops the registry.
    pub fn of(registry: Registry<S>) -> Result<SharedRegistry<S>, AllocError>
        ensures { IfOk result (λ shared. shared ≡ registry.scene) }
    {
        // its scene is the server's
        know(registry.missing());
        let scene = Arc::try_clone(registry.scene())?;
        Ok(SharedRegistry {
            scene,
            inside: Mutex::new(registry),
        })
    }

    /// The scene of the registry, which is kept outside the lock.
    pub fn scene(&self) -> &Arc<Scene>
        ensures scene { arc_value result.now ≡ self.now }
        ensures own { S.is_scene self.now }
    {
        &self.scene
    }

    /// The registry without its lock, which nobody can hold: the caller owns it.
    pub fn into_registry(self) -> Registry<S> {
        self.inside.into_inner()
    }

    /// How many states of the plan weren't published while the lock was held; 0 if all were. Other
    /// threads may have published some since.
    pub fn missing(&self, rt: &impl Wait) -> u32
        ensures { IsOnly S.is_scene self.now → result ≤ length self.now.plan }
    {
        self.inside.lock(rt).missing()
    }

    /// Library surface: the commands call `publish_own`. Publishes a state under its number, by
    /// `States::publish` under the lock. If no other scene may be the server's, the result is
    /// Stranger exactly if the scene has no such state. No clause says when it is Twice or Memory,
    /// since contracts see nothing under the lock. After an error the state is dropped, and the
    /// registry is unchanged.
    pub fn publish(
        &self,
        rt: &impl Wait,
        alloc: Global,
        state: Published,
    ) -> Result<(), PublishFault>
        ensures { IsOnly S.is_scene self.now
            → (IsStateOf self.now state ↔ (result ≢ Err PublishFault.Stranger)) }
    {
        self.inside.lock(rt).publish(alloc, state)
    }

    /// Publishes a state of the scene, which is the only one that may be the server's, under its
    /// number, without comparing contents. `crashfs serve` calls this one. The state may be refused
    /// as Twice or Memory, never as Stranger; it is dropped then, and the registry is unchanged.
    pub fn publish_own(
        &self,
        rt: &impl Wait,
        alloc: Global,
        state: Published,
    ) -> Result<(), PublishFault>
        requires only { IsOnly S.is_scene self.now }
        requires own { state.scene ≡ self.now }
        ensures { result ≢ Err PublishFault.Stranger }
    {
        self.inside.lock(rt).publish_own(alloc, state)
    }

    /// Library surface: the commands call `find_key`. Finds or makes the run of that name over the
    /// state of that number, and returns a handle of it, as `find_key` does, with the same
    /// refusals.
    pub fn find(
        &self,
        rt: &impl Wait,
        alloc: Global,
        number: u32,
        name: &RunName,
    ) -> Result<SharedRun<S>, FindFault>
        ensures { IfOk result (λ shared. shared ≡ record { number = number; name = name.now }) }
    {
        self.find_key(rt, alloc, RunKey::new(number, name))
    }

    /// Finds the run of a key, or makes it, by `States::find_key` under the lock, and returns a
    /// handle of it. Unpublished if the key's state isn't published; else Full if the run was found
    /// RUN_ATTACHES times already, or would be new and there are RUNS runs; else Memory. Memory
    /// also if the run has as many handles as can be: then the find stays counted, and a run that
    /// this find made stays in the registry. After any other error the registry is unchanged. No
    /// clause says when a find is refused, since contracts see nothing under the lock.
    pub fn find_key(
        &self,
        rt: &impl Wait,
        alloc: Global,
        key: RunKey,
    ) -> Result<SharedRun<S>, FindFault>
        ensures { IfOk result (λ shared. shared ≡ key) }
    {
        self.inside.lock(rt).find_key(alloc, key)
    }

    /// Loads another list of users, for the runs that are made from then on. A run that exists
    /// keeps the list with which it was made. If memory runs out, the old list stays. The type `S`
    /// must allow the list.
    pub fn reload(
        &self,
        rt: &impl Wait,
        alloc: Global,
        users: Users,
    ) -> Result<LoadedUsers, AllocError>
        requires { S.loads users }
        ensures { IfOk result (λ loaded. loaded ≡ users) }
    {
        let users = Arc::new(alloc, users)?;
        self.inside.lock(rt).reload(users)
    }

    /// Library surface: the commands call `Registry::runs`. Handles of all runs that there were
    /// while the lock was held, ordered by the numbers of their states and then by name. An error
    /// means out of memory, or that a run has as many handles as can be.
    pub fn runs(&self, rt: &impl Wait, alloc: Global) -> Result<Vec<SharedRun<S>>, AllocError>
        ensures { IfOk result (λ runs. IsSorted key_cmp runs.items) }
    {
        self.inside.lock(rt).runs(alloc)
    }
}
