//! What all connections of a server share.
ghost use Rattle.std.specs.Prelude.{◌≡◌};

use cs_shared_runs::{Registry, ServerBrand, SharedRegistry};
use std::marker::Model;

/// A server: the published states and their runs, which the threads of its connections share by
/// reference. Contracts see the scene.
#[derive(Drop)]
pub struct Server<S: ServerBrand> {
    /// Under its own lock; each run is under another.
    registry: SharedRegistry<S>,
}

impl<S: ServerBrand> Model for Server<S> {
    ghost use Rattle.cs_plan.specs.Scenes as model;

    ghost Value = { model.Scene };

    ghost view = { λ server. server.registry };
}

impl<S: ServerBrand> Server<S> {
    /// A server of the states and runs of this registry.
    pub fn new(registry: SharedRegistry<S>) -> Server<S>
        ensures { result ≡ registry }
    {
        Server { registry }
    }

    /// The registry. States may be published in it while connections are served.
    pub fn registry(&self) -> &SharedRegistry<S>
        ensures { result.now ≡ self.now }
    {
        &self.registry
    }

    /// The registry without its lock, once no connection is served.
    pub fn into_registry(self) -> Registry<S> {
        self.registry.into_registry()
    }
}
