//! The calls of a list of steps that reach one run, found by taking the steps in a world that notes
//! them. Library surface: no command calls `World::project`.
ghost use Rattle.std.specs.Prelude.{◌≡◌, IfOk, length};
ghost use Rattle.std.specs.Arc.{arc_value};
ghost use Rattle.cs_names.specs.declared.limits.TheConstants.{CONNECTIONS};
ghost use Rattle.cs_world.specs.declared.step.Step.TheVariants.{On};
ghost use Rattle.cs_world.specs.Noting.{IsStart, NotesStep, world_in};
ghost use Rattle.cs_world.specs.Projections.{calls_put};
ghost use Rattle.cs_world.specs.Worlds.{new_world};

use crate::reply::Reply;
use crate::run_call::RunCall;
use crate::runs::Runs;
use crate::step::{ConnectionStep, Step};
use crate::taking::take_session_step;
use crate::watched::WatchedRuns;
use crate::world::{World, empty_sessions};
use cs_names::{RuleId, RunName};
use cs_plan::Scene;
use cs_registry::{RunKey, States};
use cs_session::Session;
use cs_users::Users;
use std::alloc::{AllocError, Global};
use std::sync::Arc;

/// A world that notes the calls which reach the run of one key.
#[derive(Drop)]
pub(crate) struct WatchedWorld {
    /// Its states and runs, and the calls so far.
    watched: WatchedRuns,
    /// CONNECTIONS of them, by number.
    sessions: Vec<Session>,
}

impl WatchedWorld {
    /// A new world of this scene and these users, which notes the calls that reach the run of the
    /// key: none has yet. The error is out of memory.
    fn new(
        alloc: Global,
        scene: Arc<Scene>,
        users: Arc<Users>,
        key: RunKey,
    ) -> Result<WatchedWorld, AllocError>
        ensures { IfOk result (λ world. IsStart (arc_value scene) (arc_value users) key world) }
    {
        let states = States::new(alloc, scene, users)?;
        Ok(WatchedWorld {
            watched: WatchedRuns {
                runs: Runs { states },
                key,
                calls: Vec::new(alloc),
                is_short: false,
            },
            sessions: empty_sessions(alloc)?,
        })
    }

    /// Takes a step as `World::take_step` does, and notes the call that reaches the run of the key,
    /// if one does. It is that function's twin: change both. The world has all CONNECTIONS
    /// connections, before and afterwards.
    fn step(&mut self, alloc: Global, step: Step) -> Reply
        requires all { length self.old.sessions.items ≡ CONNECTIONS }
        ensures all { length self.new.sessions.items ≡ CONNECTIONS }
        ensures notes { NotesStep self.old step result self.new }
    {
        match step {
            Step::Publish(number) => self.watched.runs.publish(alloc, number),
            Step::Reload(users) => self.watched.runs.reload(alloc, users),
            Step::On { conn, now, step } => self.take_connection_step(alloc, conn, now, step),
        }
    }

    /// Takes a step of a connection as `World::take_connection_step` does, and notes the call that
    /// reaches the run of the key, if one does. S5, and nothing changes, if no connection has the
    /// number. It is that function's twin: change both. The world has all CONNECTIONS connections,
    /// before and afterwards.
    fn take_connection_step(
        &mut self,
        alloc: Global,
        conn: u32,
        now: u32,
        step: ConnectionStep,
    ) -> Reply
        requires all { length self.old.sessions.items ≡ CONNECTIONS }
        ensures all { length self.new.sessions.items ≡ CONNECTIONS }
        ensures notes { NotesStep self.old (On conn now step) result self.new }
    {
        let Some(session) = self.sessions.get_mut(conn as usize) else {
            return Reply::Connection(cs_session::Reply::Error(RuleId::S5));
        };
        Reply::Connection(take_session_step(alloc, session, &mut self.watched, now, step))
    }
}

impl World {
    /// A new world of the same scene and of the users loaded last, which notes the calls that reach
    /// the run of the key. The error is out of memory, or that the scene or the users have as many
    /// handles as can be.
    fn new_watched(&self, alloc: Global, key: RunKey) -> Result<WatchedWorld, AllocError>
        ensures { IfOk result (λ world.
            IsStart self.now.registry.scene self.now.registry.users key world) }
    {
        let states = &self.runs.states;
        let scene = Arc::try_clone(states.scene())?;
        let users = Arc::try_clone(states.users())?;
        WatchedWorld::new(alloc, scene, users, key)
    }

    /// Library surface: no command calls it. The calls of a list of steps that reach one run, of
    /// that name and of the state of that number, each with its pass and its moment, in order. The
    /// steps are taken in a new world of this one's scene and users, and reloads count too. The
    /// error is out of memory in that world or for the result: so the calls are those of a world in
    /// which no allocation fails. This world is unchanged.
    pub fn project(
        &self,
        alloc: Global,
        steps: &[Step],
        number: u32,
        name: &RunName,
    ) -> Result<Vec<RunCall>, AllocError>
        ensures { IfOk result (λ calls. calls.items
            ≡ calls_put (new_world self.now.registry.scene self.now.registry.users) steps.now
            (record { number = number; name = name.now })) }
    {
        let mut world = self.new_watched(alloc, RunKey::new(number, name))?;
        for step in steps {
            let copy = step.try_clone(alloc)?;
            if world.step(alloc, copy).says_out_of_memory() {
                return Err(AllocError);
            }
        }
        // only of memory: a run that was found can give a pass for the attach
        if world.watched.is_short {
            return Err(AllocError);
        }
        Ok(world.watched.calls)
    }
}
