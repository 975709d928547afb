//! The runs that threads share, as the port of one connection.
ghost use Rattle.std.specs.Prelude.{◌≡◌};
ghost use Rattle.cs_connection.specs.Kept.{no_runs};

use crate::kept::{ConnectionRuns, GivenPass};
use cs_names::{RuleId, Text};
use cs_permit::{Call, FindFault, PassFault, TreeName};
use cs_registry::RunKey;
use cs_run::Answer;
use cs_session::Port;
use cs_shared_runs::{ServerBrand, SharedRegistry, SharedRun};
use std::alloc::Global;
use std::marker::Model;
use std::sync::Wait;

/// A connection's port over a registry that threads share. No other connection uses it, and it
/// holds one lock at most. Contracts see what the connection keeps.
#[derive(Drop)]
pub struct SharedPort<'r, S: ServerBrand, R: Wait> {
    /// For the locks of the registry and the runs.
    rt: &'r R,
    /// Under its own lock, which only `find` takes.
    registry: &'r SharedRegistry<S>,
    /// Each run that was found, at its place; each is under its own lock, which `attach` and `call`
    /// take.
    runs: Vec<SharedRun<S>>,
    /// Each pass that was given, at its place, with its run's place.
    passes: Vec<GivenPass>,
}

impl<'r, S: ServerBrand, R: Wait> Model for SharedPort<'r, S, R> {
    ghost use Rattle.cs_connection.specs.Kept as model;

    ghost Value = { model.FoundRuns };

    ghost view = { λ port. record { runs = port.runs.items; passes = port.passes.items } };

    ghost invariant = { λ port. model.AreInside port.runs.items port.passes.items };
}

impl<'r, S: ServerBrand, R: Wait> SharedPort<'r, S, R> {
    /// The port of a connection that has found no run.
    pub fn new(rt: &'r R, alloc: Global, registry: &'r SharedRegistry<S>) -> SharedPort<'r, S, R>
        ensures { result ≡ no_runs }
    {
        SharedPort {
            rt,
            registry,
            runs: Vec::new(alloc),
            passes: Vec::new(alloc),
        }
    }

    /// What the connection keeps: the runs that it found and the passes that it was given.
    pub fn into_kept(self) -> ConnectionRuns<S>
        ensures { result ≡ self.entry }
    {
        ConnectionRuns::new(self.runs, self.passes)
    }
}

impl<'r, S: ServerBrand, R: Wait> Port for SharedPort<'r, S, R> {
    ghost use Rattle.cs_connection.specs.Asking.{Gives};

    ghost gives = { λ old question answer new. Gives S.serves S.answered S.attached
        old question answer new };

    /// Finds the run of that name in the registry, keeps it, and returns its place. The error is
    /// Unpublished if the name can't be a run's, Full if the port has 2^32 runs already, Memory if
    /// the run can't be kept, else the registry's. After an error no run is kept, but a find that
    /// the registry granted stays counted.
    fn find(&mut self, alloc: Global, name: &TreeName) -> Result<u32, FindFault> {
        let Some(key) = RunKey::of_tree_name(name) else {
            return Err(FindFault::Unpublished);
        };
        let Ok(place) = u32::try_from(self.runs.len()) else {
            return Err(FindFault::Full);
        };
        let run = self.registry.find_key(self.rt, alloc, key)?;
        match self.runs.push(run) {
            Ok(()) => Ok(place),
            Err(_) => Err(FindFault::Memory),
        }
    }

    /// Attaches to the run at the place `run`, keeps the pass even if the answer denies the attach,
    /// and returns its place and the answer. The error is Foreign if there is no such run, Room if
    /// the port has 2^32 passes already, else the run's, or Memory. Memory to keep the pass is
    /// reserved first, so after an error there is no pass.
    fn attach(
        &mut self,
        alloc: Global,
        now: u32,
        run: u32,
        user: Text,
    ) -> Result<(u32, Answer), PassFault> {
        let Some(found) = self.runs.get(run as usize) else {
            return Err(PassFault::Foreign);
        };
        let Ok(place) = u32::try_from(self.passes.len()) else {
            return Err(PassFault::Room);
        };
        if self.passes.reserve(1).is_err() {
            return Err(PassFault::Memory);
        }
        match found.attach(self.rt, alloc, now, user) {
            Ok((pass, answer)) => {
                self.passes.push_reserved(GivenPass { run, pass });
                Ok((place, answer))
            }
            Err(fault) => Err(fault),
        }
    }

    /// Makes a call on the run at the place `run`, under the pass at the place `pass`. S5, and
    /// nothing changes, if there is no such pass, or that run didn't give it.
    fn call(&mut self, alloc: Global, now: u32, run: u32, pass: u32, call: Call<'_>) -> Answer {
        let Some(given) = self.passes.get_mut(pass as usize) else {
            return Answer::Denied(RuleId::S5);
        };
        if given.run != run {
            return Answer::Denied(RuleId::S5);
        }
        let found = &self.runs[run as usize];
        found.call(self.rt, alloc, &mut given.pass, now, call)
    }
}
