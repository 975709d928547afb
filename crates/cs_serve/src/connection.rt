//! One connection over TCP, served to its end. The threads that do so are in `slots`.

use crate::for_linux::LinuxStream;
use crate::log::Log;
use crate::logged::LoggedStream;
use crate::wall_clock::WallClock;
use cs_connection::{Connection, Server, serve_connection};
use cs_options::Client;
use cs_shared_runs::ServerBrand;
use cs_stream::Counted;
use std::alloc::Global;
use std::io::{self, Read, Write};
use std::net::TcpStream;
use std::rt::Clock;
use std::sync::Wait;
use std::time::Duration;

/// How many seconds a write may wait for a client that doesn't read.
const WRITE_TIMEOUT_SECONDS: u64 = 30;

/// Sets the stream to write at once, and to give up a write after WRITE_TIMEOUT_SECONDS. A read has
/// no timeout: a client may be idle. After an error one of the two may be set.
fn set_up(stream: &TcpStream) -> io::Result<()> {
    stream.set_nodelay(true)?;
    stream.set_write_timeout(Some(Duration::from_secs(WRITE_TIMEOUT_SECONDS)))
}

/// A server of streams. A function that is generic over it can serve a stream that borrows,
/// although what is left of a stream, `Served`, may not borrow.
trait StreamServer {
    /// What is left of a stream that was served.
    type Served;

    /// Serves the stream to its end, and drops it, which closes it. (`serve_connection`, which does
    /// the work, only borrows a stream.)
    fn serve_to_end<R: Wait + Clock, RW: Read + Write + Drop>(
        &self,
        rt: &R,
        alloc: Global,
        stream: RW,
    ) -> Self::Served;
}

impl<S: ServerBrand> StreamServer for Server<S> {
    type Served = Connection<S>;

    /// Serves the stream by the clock of the machine. Returns its connection, with its passes.
    fn serve_to_end<R: Wait + Clock, RW: Read + Write + Drop>(
        &self,
        rt: &R,
        alloc: Global,
        stream: RW,
    ) -> Connection<S> {
        let mut stream = Counted::new(stream);
        let mut clock = WallClock::new(rt);
        serve_connection(rt, alloc, self, &mut stream, &mut clock)
    }
}

/// Serves the stream of the connection `conn` to its end, and returns what is left of it, as
/// `serve_to_end` does. If the log is verbose, the messages are printed as the server reads them
/// and its replies as it writes them: so a stream of Linux must be a `LinuxStream` already.
fn serve_logged<V: StreamServer, R: Wait + Clock, E: Write, RW: Read + Write + Drop>(
    rt: &R,
    alloc: Global,
    server: &V,
    stream: RW,
    conn: u32,
    log: Log<E>,
) -> V::Served {
    if log.verbose {
        let logged = LoggedStream::new(rt, alloc, stream, conn, log);
        server.serve_to_end(rt, alloc, logged)
    } else {
        server.serve_to_end(rt, alloc, stream)
    }
}

/// Serves the client of the connection `conn` to its end, and prints how it ended, as far as the
/// log prints that; its messages too if the log is verbose. None if its socket can't be set up:
/// then nothing was read, the connection is closed, and a verbose log has a line for it.
pub(crate) fn serve_client<S: ServerBrand, R: Wait + Clock, E: Write>(
    rt: &R,
    alloc: Global,
    server: &Server<S>,
    stream: TcpStream,
    conn: u32,
    client: Client,
    log: Log<E>,
) -> Option<Connection<S>> {
    if set_up(&stream).is_err() {
        log.print_not_set_up(rt, conn);
        return None;
    }
    let connection = match client {
        Client::Plan9 => serve_logged(rt, alloc, server, stream, conn, log),
        Client::Linux => {
            let stream = LinuxStream::new(alloc, stream);
            serve_logged(rt, alloc, server, stream, conn, log)
        }
    };
    log.print_end(rt, conn, connection.result());
    Some(connection)
}
