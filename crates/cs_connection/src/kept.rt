//! What a connection keeps: the runs that it found, and the passes that it was given.
ghost use Rattle.std.specs.Prelude.{◌≡◌, ◌<◌, length, Some};
ghost use Rattle.cs_connection.specs.Kept.{AreInside, key_at, no_runs};

use cs_journal::Pass;
use cs_registry::RunKey;
use cs_shared_runs::{ServerBrand, SharedRun};
use std::alloc::Global;
use std::marker::Model;

/// A pass, and the place of its run among those that the connection found.
#[derive(Drop)]
pub struct GivenPass {
    /// The run's place in the same `ConnectionRuns`.
    pub run: u32,
    /// As it is after the connection's last call under it.
    pub pass: Pass,
}

/// The runs that a connection found, and the passes that it was given, each in the order in which
/// they came. Contracts see the keys of the runs, and the passes.
#[derive(Drop)]
pub struct ConnectionRuns<S: ServerBrand> {
    /// A run is there once for each time that it was found.
    runs: Vec<SharedRun<S>>,
    /// Each with the place of its run.
    passes: Vec<GivenPass>,
}

impl<S: ServerBrand> Model for ConnectionRuns<S> {
    ghost use Rattle.cs_connection.specs.Kept as model;

    ghost Value = { model.FoundRuns };

    ghost view = { λ kept. record { runs = kept.runs.items; passes = kept.passes.items } };

    ghost invariant = { λ kept. model.AreInside kept.runs.items kept.passes.items };
}

impl<S: ServerBrand> ConnectionRuns<S> {
    /// No runs and no passes: what a connection keeps that wasn't served.
    pub fn empty(alloc: Global) -> ConnectionRuns<S>
        ensures { result ≡ no_runs }
    {
        ConnectionRuns {
            runs: Vec::new(alloc),
            passes: Vec::new(alloc),
        }
    }

    /// A connection's runs and passes. The caller gives each pass the place of one of these runs.
    pub(crate) fn new(runs: Vec<SharedRun<S>>, passes: Vec<GivenPass>) -> ConnectionRuns<S>
        requires { AreInside runs.items passes.items }
        ensures { result ≡ record { runs = runs.items; passes = passes.items } }
    {
        ConnectionRuns { runs, passes }
    }

    /// The passes, in the order in which they were given. Empty if none was. For tests: no command
    /// calls it.
    pub fn passes(&self) -> &[GivenPass]
        ensures { result.now ≡ self.now.passes }
    {
        self.passes.as_slice()
    }

    /// The runs and the passes, by value. Each pass is of one of the runs.
    pub(crate) fn into_parts(self) -> (Vec<SharedRun<S>>, Vec<GivenPass>)
        ensures runs { result.0.items ≡ self.runs }
        ensures passes { result.1.items ≡ self.passes }
        ensures inside { AreInside result.0.items result.1.items }
    {
        (self.runs, self.passes)
    }

    /// The key of the run that gave the pass at that place in `passes`. The caller has a place
    /// below the number of passes. For tests: no command calls it.
    pub fn key_at(&self, place: usize) -> &RunKey
        requires { place < length self.now.passes }
        ensures { key_at self.now place ≡ Some result.now }
    {
        let run = self.passes[place].run;
        self.runs[run as usize].key()
    }
}
