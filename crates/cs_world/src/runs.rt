//! The runs of a world, as the port of its connections.

use crate::reply::{Reply, StateFault};
use crate::run_with_passes::RunWithPasses;
use cs_names::{RuleId, Text};
use cs_permit::{Call, TreeName};
use cs_plan::{MakeFault, Scene};
use cs_registry::{PublishFault, RunKey, States};
use cs_run::Answer;
use cs_session::{FindFault, PassFault, Port};
use cs_users::Users;
use std::alloc::Global;
use std::marker::Model;

/// The published states of a scene, and their runs. It is the port of all connections of the world,
/// so a place in the port is the run's place in the registry. Contracts see the registry.
#[derive(Drop)]
pub struct Runs {
    /// The registry, which keeps each run with its passes.
    pub(crate) states: States<RunWithPasses>,
}

impl Model for Runs {
    ghost use Rattle.cs_journal.specs.Runs.{RunOf, run_code};
    ghost use Rattle.cs_registry.specs.Registries.{Registry};
    ghost use Rattle.std.specs.Coded.{codes};

    ghost Value = { Registry RunOf };

    ghost coded = { Prim.hlevel (codes, run_code) };

    ghost view = { λ runs. runs.states };
}

impl Runs {
    ghost use Rattle.std.specs.Prelude.{◌≡◌};
    ghost use Rattle.cs_world.specs.Marks.{WorldMark};
    ghost use Rattle.cs_world.specs.Publishing.{publish_step};
    ghost use Rattle.cs_world.specs.Reloading.{reload_step};

    /// Makes the state of that number, and publishes it. If either is refused, the reply is
    /// NotPublished, and nothing changes.
    pub(crate) fn publish(&mut self, alloc: Global, number: u32) -> Reply
        ensures { (mark : WorldMark) × ((result, self.new) ≡ publish_step self.old number mark) }
    {
        let state = match Scene::make(alloc, self.states.scene(), number) {
            Ok(state) => state,
            Err(MakeFault::NoSuchState) => return Reply::NotPublished(StateFault::NoSuchState),
            Err(MakeFault::Memory) => return Reply::NotPublished(StateFault::Memory),
        };
        match self.states.publish_own(alloc, state) {
            Ok(()) => Reply::Published,
            Err(PublishFault::Twice) => Reply::NotPublished(StateFault::Twice),
            Err(PublishFault::Memory) => Reply::NotPublished(StateFault::Memory),
            // the state was made in the registry's own scene
            Err(PublishFault::Stranger) => unreachable!(),
        }
    }

    /// Loads another list of users, for runs that are made later: a run keeps the list with which
    /// it was made. If memory runs out, the reply is NotReloaded, and the old list stays.
    pub(crate) fn reload(&mut self, alloc: Global, users: Users) -> Reply
        ensures { (mark : WorldMark) × ((result, self.new) ≡ reload_step self.old users mark) }
    {
        match self.states.reload(alloc, users) {
            Ok(()) => Reply::Reloaded,
            Err(_) => Reply::NotReloaded,
        }
    }
}

impl Port for Runs {
    ghost use Rattle.cs_world.specs.Asking.{IsGiven};

    ghost gives = { λ old question answer new. IsGiven old question answer new };

    /// Finds the run of that name in the registry, which makes it at the first find, and returns
    /// its place. The error is Unpublished if the name can't be a run's, else the registry's. After
    /// an error nothing has changed.
    fn find(&mut self, alloc: Global, name: &TreeName) -> Result<u32, FindFault> {
        let Some(key) = RunKey::of_tree_name(name) else {
            return Err(FindFault::Unpublished);
        };
        self.states.find_key(alloc, key)
    }

    /// Attaches a user to the run at the place `run`. Returns the new pass's number in the run,
    /// which is its place too, and the answer: if that denies the attach, the pass stays. Foreign
    /// if there is no run at that place. After an error nothing has changed.
    fn attach(
        &mut self,
        alloc: Global,
        now: u32,
        run: u32,
        user: Text,
    ) -> Result<(u32, Answer), PassFault> {
        if run >= self.states.run_count() {
            return Err(PassFault::Foreign);
        }
        self.states.held_at_mut(run).attach(alloc, now, user)
    }

    /// Makes a call on the run at the place `run`. S5, and nothing changes, if there is no run at
    /// that place, or that run gave no pass of the number `pass`.
    fn call(&mut self, alloc: Global, now: u32, run: u32, pass: u32, call: Call<'_>) -> Answer {
        if run >= self.states.run_count() {
            return Answer::Denied(RuleId::S5);
        }
        self.states.held_at_mut(run).call(alloc, now, pass, call)
    }
}
