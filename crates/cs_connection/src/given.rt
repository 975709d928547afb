//! The passes that connections were given, by the runs that gave them.
ghost use Rattle.std.specs.Prelude.{◌≡◌, ◌++◌, ◌∷◌, [], OnErr, OnOk};
ghost use Rattle.cs_connection.specs.Given.{KeepsFront, KeepsNone, KeepsPass, KeepsPasses};
ghost use Rattle.cs_connection.specs.Given.{passes_of};
ghost use Rattle.cs_connection.specs.Kept.{AreInside};

use crate::connection::Connection;
use crate::kept::GivenPass;
use cs_journal::Pass;
use cs_registry::RunKey;
use cs_shared_runs::{ServerBrand, SharedRun};
use indexmap::IndexMap;
use std::alloc::{AllocError, Global};
use std::marker::Model;

/// The passes of the connections that ended, by the keys of their runs, for audits of the runs.
/// Contracts see for each key the passes of its run.
#[derive(Drop)]
pub struct GivenPasses {
    /// By key, the passes of its run in the order in which they were kept.
    runs: IndexMap<RunKey, Vec<Pass>>,
}

impl Model for GivenPasses {
    ghost use Rattle.std.specs.Prelude.{map};
    ghost use Rattle.cs_connection.specs.Given as model;

    ghost Value = { model.Given };

    ghost view = { λ given. map (λ run. (run.0, run.1.items)) given.runs.entries };
}

/// Adds a pass at the end of a run's passes. The error is out of memory: the passes are unchanged
/// then, and the new one is dropped.
fn push_pass(passes: &mut Vec<Pass>, pass: Pass) -> Result<(), AllocError>
    ensures kept { OnOk result (passes.new.items ≡ passes.old.items ++ pass ∷ []) }
    ensures refused { OnErr result (passes.new.items ≡ passes.old.items) }
{
    match passes.push(pass) {
        Ok(()) => Ok(()),
        Err(_) => Err(AllocError),
    }
}

impl GivenPasses {
    /// An empty store of passes.
    pub fn new(alloc: Global) -> GivenPasses
        ensures { result ≡ [] }
    {
        GivenPasses {
            runs: IndexMap::new(alloc),
        }
    }

    /// Keeps a pass of the run of that key, after the passes that are kept of it. The error is out
    /// of memory: each run has the passes that it had then, and the new one is dropped.
    fn keep_pass(&mut self, alloc: Global, key: RunKey, pass: Pass) -> Result<(), AllocError>
        ensures kept { OnOk result (KeepsPass self.old key pass self.new) }
        ensures refused { OnErr result (KeepsNone self.old self.new) }
    {
        if let Some(passes) = self.runs.get_mut(&key) {
            return push_pass(passes, pass);
        }
        let mut passes = Vec::new(alloc);
        push_pass(&mut passes, pass)?;
        match self.runs.insert(key, passes) {
            // the key had no passes, so none are replaced
            Ok(_) => Ok(()),
            Err(_) => Err(AllocError),
        }
    }

    /// Keeps these passes, in order, each under the key of its run in `runs`. The error is out of
    /// memory: the passes before the failure are kept then, and the rest are dropped. Each pass
    /// must have a place in `runs`.
    fn keep_each<S: ServerBrand>(
        &mut self,
        alloc: Global,
        runs: &[SharedRun<S>],
        passes: Vec<GivenPass>,
    ) -> Result<(), AllocError>
        requires { AreInside runs.now passes.items }
        ensures kept { OnOk result (KeepsPasses self.old
            (record { runs = runs.now; passes = passes.items }) self.new) }
        ensures refused { OnErr result (KeepsFront self.old
            (record { runs = runs.now; passes = passes.items }) self.new) }
    {
        for given in passes {
            let key = runs[given.run as usize].key().copy();
            self.keep_pass(alloc, key, given.pass)?;
        }
        Ok(())
    }

    /// Keeps the passes of a connection that ended. The error is out of memory: the passes before
    /// the failure are kept then, and the rest are dropped, so an audit of their runs reports
    /// `count`.
    pub fn keep<S: ServerBrand>(
        &mut self,
        alloc: Global,
        connection: Connection<S>,
    ) -> Result<(), AllocError>
        ensures kept { OnOk result (KeepsPasses self.old connection.kept self.new) }
        ensures refused { OnErr result (KeepsFront self.old connection.kept self.new) }
    {
        let (runs, passes) = connection.into_kept().into_parts();
        self.keep_each(alloc, &runs, passes)
    }

    /// The passes of the run of that key, in the order in which they were kept. Empty if none was
    /// kept.
    pub fn of(&self, key: &RunKey) -> &[Pass]
        ensures { result.now ≡ passes_of self.now key.now }
    {
        match self.runs.get(key) {
            Some(passes) => passes.as_slice(),
            None => &[],
        }
    }
}
