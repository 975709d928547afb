//! One connection, from its beginning to its hang-up.
ghost use Rattle.std.specs.Prelude.{◌≡◌, Err};
ghost use Rattle.cs_connection.specs.Served.{HasEnded, ConversationOf, WasRefused};
ghost use Rattle.cs_session.specs.Serving.{FaultsHaveCauses};

use crate::kept::ConnectionRuns;
use crate::port::SharedPort;
use crate::server::Server;
use cs_session::{Clock, ServeFault, serve_stream};
use cs_shared_runs::ServerBrand;
use cs_stream::Stream;
use std::alloc::Global;
use std::marker::Model;
use std::sync::Wait;

/// A connection that has ended: how its stream was served, and what it kept. Contracts see both. It
/// was served from its beginning to its hang-up, or not at all, because there was no memory for its
/// thread.
#[derive(Drop)]
pub struct Connection<S: ServerBrand> {
    /// Ok if the stream ended between two messages; Memory also if the connection wasn't served.
    result: Result<(), ServeFault>,
    /// Nothing if the connection wasn't served.
    kept: ConnectionRuns<S>,
}

impl<S: ServerBrand> Model for Connection<S> {
    ghost use Rattle.cs_connection.specs.Served as model;

    ghost Value = { model.Ended };

    ghost view = { λ c. record { result = c.result; kept = c.kept } };

    ghost invariant = { λ c. model.HasEnded S.serves S.answered S.attached
        (record { result = c.result; kept = c.kept }) };
}

impl<S: ServerBrand> Connection<S> {
    /// A connection that was not served, because there was no memory for its thread: its result is
    /// Memory, and it kept no run and no pass. Only `serve_streams` makes one.
    pub fn unserved(alloc: Global) -> Connection<S>
        ensures { WasRefused result }
    {
        Connection {
            result: Err(ServeFault::Memory),
            kept: ConnectionRuns::empty(alloc),
        }
    }

    /// How the connection's stream was served: `Ok` if the stream ended between two messages, else
    /// the fault.
    pub fn result(&self) -> Result<(), ServeFault>
        ensures value { result ≡ self.now.result }
        ensures ended { HasEnded S.serves S.answered S.attached self.now }
    {
        self.result
    }

    /// The runs that the connection found, and the passes that it was given. There may be none of
    /// either. For tests: the commands take them by `GivenPasses::keep`.
    pub fn kept(&self) -> &ConnectionRuns<S>
        ensures { result.now ≡ self.now.kept }
    {
        &self.kept
    }

    /// The runs that the connection found and the passes that it was given, by value.
    pub fn into_kept(self) -> ConnectionRuns<S>
        ensures { result ≡ self.kept }
    {
        self.kept
    }
}

/// Serves a connection to its end, as cs_session's `serve_stream` does, over the runs of the
/// server: its messages are answered in order, each at its moment. Then it hangs up, also after a
/// fault, which the connection's result keeps.
pub fn serve_connection<S: ServerBrand, R: Wait, T: Stream, C: Clock>(
    rt: &R,
    alloc: Global,
    server: &Server<S>,
    stream: &mut T,
    clock: &mut C,
) -> Connection<S>
    ensures serves { ConversationOf S.serves S.answered S.attached result
        (T.remaining stream.old) (T.remaining stream.new)
        (T.contents stream.old) (T.contents stream.new) }
    ensures faults { FaultsHaveCauses result.result (T.counts stream.old) (T.counts stream.new) }
{
    let mut port = SharedPort::new(rt, alloc, server.registry());
    let result = serve_stream(alloc, stream, &mut port, clock);
    Connection {
        result,
        kept: port.into_kept(),
    }
}
