//! What the threads that serve connections share.
ghost use Rattle.std.specs.Prelude.{◌≡◌};

use crate::entrance::Entrance;
use crate::reloading::Reloading;
use cs_connection::{Connection, GivenPasses, Server};
use cs_shared_runs::ServerBrand;
use std::alloc::Global;
use std::sync::{Mutex, Wait};

/// What the threads of one server share: the server, the entrance of its connections, its users
/// file if that is read again, and the passes of the connections that have ended.
#[derive(Drop)]
pub(crate) struct Site<S: ServerBrand> {
    /// The scene's states, the runs and the users.
    pub(crate) server: Server<S>,
    /// The listener, with its own lock.
    pub(crate) entrance: Entrance,
    /// The users file; None if it isn't read again.
    pub(crate) reloading: Option<Reloading<S>>,
    /// The passes that ended connections were given. A thread takes this lock when its connection
    /// has ended, and no other lock under it.
    passes: Mutex<GivenPasses>,
}

impl<S: ServerBrand> Site<S> {
    /// The site of a server that has served no connection yet.
    pub(crate) fn new(
        alloc: Global,
        server: Server<S>,
        entrance: Entrance,
        reloading: Option<Reloading<S>>,
    ) -> Site<S>
        ensures { result.server ≡ server }
    {
        Site {
            server,
            entrance,
            reloading,
            passes: Mutex::new(GivenPasses::new(alloc)),
        }
    }

    /// Keeps the passes of a connection that has ended, for the audits. If memory runs out, some
    /// are dropped: the audits of their runs then report `count`.
    pub(crate) fn keep_passes(&self, rt: &impl Wait, alloc: Global, connection: Connection<S>) {
        let _lost = self.passes.lock(rt).keep(alloc, connection);
    }

    /// The server, and the passes that `keep_passes` kept. The entrance, with its listener, and the
    /// users file are dropped.
    pub(crate) fn into_parts(self) -> (Server<S>, GivenPasses) {
        (self.server, self.passes.into_inner())
    }
}
