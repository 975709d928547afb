//! Many streams at once, each served in its own thread. Library surface: no command calls
//! `serve_streams`.
ghost use Rattle.std.specs.Prelude.{◌≡◌, ◌≤◌, [], IfOk, vec_capacity, vec_len};

use crate::connection::{Connection, serve_connection};
use crate::server::Server;
use cs_session::Clock;
use cs_shared_runs::ServerBrand;
use cs_stream::Counted;
use std::alloc::{AllocError, Global};
use std::io::{Read, Write};
use std::sync::Wait;
use std::thread;
use std::thread::{JoinHandle, Scope, Threads};

/// Serves a stream to its end, counting its reads and writes, and returns the connection. The
/// stream is dropped, which closes it.
fn serve_one<S: ServerBrand, R: Wait, RW: Read + Write + Drop, C: Clock + Drop>(
    rt: &R,
    alloc: Global,
    server: &Server<S>,
    stream: RW,
    mut clock: C,
) -> Connection<S> {
    let mut stream = Counted::new(stream);
    serve_connection(rt, alloc, server, &mut stream, &mut clock)
}

/// Starts a thread for each stream, and returns the threads in the order of the streams; None for a
/// stream whose thread can't be made, and that stream is dropped. The error is out of memory: no
/// thread was started then.
fn start_each<
    's,
    E,
    S: ServerBrand + Send + Sync + 's,
    R: Wait + Sync,
    RW: Read + Write + Send + Drop + 's,
    C: Clock + Copy + Send + 's,
>(
    scope: &'s Scope<'s, E>,
    rt: &'s R,
    alloc: Global,
    server: &'s Server<S>,
    streams: Vec<RW>,
    clock: C,
) -> Result<Vec<Option<JoinHandle<Connection<S>>>>, AllocError>
    ensures { IfOk result (λ threads. vec_len threads ≡ vec_len streams) }
{
    let mut threads = Vec::with_capacity(alloc, streams.len())?;
    for stream in streams {
        let thread = scope.spawn(move || serve_one(rt, alloc, server, stream, clock));
        threads.push_reserved(thread.ok());
    }
    Ok(threads)
}

/// Waits for each thread, and returns the connections, in the order of the threads; for None, a
/// connection that was not served. The caller gives `connections` empty, with room for all.
fn join_each<S: ServerBrand, R: Threads>(
    rt: &R,
    alloc: Global,
    threads: Vec<Option<JoinHandle<Connection<S>>>>,
    mut connections: Vec<Connection<S>>,
) -> Vec<Connection<S>>
    requires none { connections.items ≡ [] }
    requires room { vec_len threads ≤ vec_capacity connections }
    ensures { vec_len result ≡ vec_len threads }
{
    for thread in threads {
        let connection = match thread {
            Some(thread) => thread.join(rt),
            None => Connection::unserved(alloc),
        };
        connections.push_reserved(connection);
    }
    connections
}

/// Library surface: no command calls it. Serves all streams at the same time, each in its own
/// thread, and waits for them. Returns their connections, in the order of the streams. Each thread
/// has a copy of the clock. A stream whose thread can't be made is dropped, and its connection's
/// result is Memory. The error is out of memory: no stream was read then, and all are dropped.
pub fn serve_streams<
    S: ServerBrand + Send + Sync,
    R: Threads + Wait + Sync,
    RW: Read + Write + Send + Drop,
    C: Clock + Copy + Send,
>(
    rt: &R,
    alloc: Global,
    server: &Server<S>,
    streams: Vec<RW>,
    clock: C,
) -> Result<Vec<Connection<S>>, AllocError>
    ensures { IfOk result (λ all. vec_len all ≡ vec_len streams) }
{
    let connections = Vec::with_capacity(alloc, streams.len())?;
    thread::scope(
        thread::scope_env(),
        rt,
        move |scope| -> Result<Vec<Connection<S>>, AllocError>
            requires none { connections.items ≡ [] }
            requires room { vec_len streams ≤ vec_capacity connections }
            ensures { IfOk result (λ all. vec_len all ≡ vec_len streams) }
        {
            let threads = start_each(scope, rt, alloc, server, streams, clock)?;
            Ok(join_each(rt, alloc, threads, connections))
        },
    )
}
