//! The threads that accept and serve connections, each thread one at a time, and the thread that
//! closes the entrance when the input ends. A slot is one of the threads that serve.

use crate::connection::serve_client;
use crate::entrance::{Admitted, Entrance};
use crate::log::Log;
use crate::reloading::ReadsFiles;
use crate::site::Site;
use cs_inputs::ProgramFault;
use cs_options::Client;
use cs_shared_runs::ServerBrand;
use std::alloc::Global;
use std::io::{self, Read, Write};
use std::rt::Clock;
use std::sync::Wait;
use std::thread::Scope;

/// Serves one connection after another until no more come in, and keeps the passes of each. Before
/// one is served the users file is read again, if the site has one. If accepting fails, the thread
/// that met the failure prints it; all of them return.
fn serve_slot<S: ServerBrand, R: Wait + Clock + ReadsFiles, E: Write>(
    rt: &R,
    alloc: Global,
    site: &Site<S>,
    client: Client,
    log: Log<E>,
) {
    for _ in rt.forever() {
        let admitted = site.entrance.admit(rt);
        match admitted {
            Admitted::Connection(conn, stream, from) => {
                log.print_accepted(rt, conn, from);
                if let Some(reloading) = &site.reloading {
                    reloading.reload_or_print(rt, alloc, site.server.registry(), log);
                }
                let served = serve_client(rt, alloc, &site.server, stream, conn, client, log);
                if let Some(connection) = served {
                    site.keep_passes(rt, alloc, connection);
                }
            }
            Admitted::Closed => return,
            Admitted::Failed => {
                log.print_fault(rt, &ProgramFault::Listen);
                return;
            }
        }
    }
}

/// Starts `slots` threads that serve connections. False if one can't be started: then that is
/// printed as out of memory, and the entrance is closed, so that the threads started before it end
/// once their connections have.
pub(crate) fn start_slots<
    's,
    Env,
    S: ServerBrand + Send + Sync + 's,
    R: Wait + Clock + ReadsFiles + Sync,
    E: Write + Send,
>(
    scope: &'s Scope<'s, Env>,
    rt: &'s R,
    alloc: Global,
    site: &'s Site<S>,
    slots: u32,
    client: Client,
    log: Log<'s, E>,
) -> bool {
    for _ in 0..slots {
        let slot = scope.spawn(move || serve_slot(rt, alloc, site, client, log));
        if slot.is_err() {
            log.print_fault(rt, &ProgramFault::Memory);
            site.entrance.close(rt);
            return false;
        }
    }
    true
}

/// Reads the input to its end, or to a read that fails, and then closes the entrance. Its bytes are
/// dropped.
fn close_at_end<I: Read + Drop>(rt: &impl Wait, mut input: I, entrance: &Entrance) {
    let _thrown_away = io::copy(&mut input, &mut io::sink());
    entrance.close(rt);
}

/// If `watched`, starts a thread that closes the entrance when `input` ends; else does nothing and
/// returns true. False if the thread can't be started: then that is printed as out of memory, and
/// the entrance is closed.
pub(crate) fn start_watch<'s, Env, R: Wait + Sync, I: Read + Drop + Send + 's, E: Write + Send>(
    scope: &'s Scope<'s, Env>,
    rt: &'s R,
    watched: bool,
    input: I,
    entrance: &'s Entrance,
    log: Log<'s, E>,
) -> bool {
    if !watched {
        return true;
    }
    let watch = scope.spawn(move || close_at_end(rt, input, entrance));
    if watch.is_err() {
        log.print_fault(rt, &ProgramFault::Memory);
        entrance.close(rt);
        return false;
    }
    true
}
