//! Publishing the states of a server's scene, with its lines on standard error.
ghost use Rattle.cs_shared_runs.specs.Serving.{IsOnly};

use crate::log::Log;
use crate::progress::ProgressGate;
use cs_connection::Server;
use cs_inputs::ProgramFault;
use cs_publish::{PublishAllFault, publish_own_into};
use cs_shared_runs::ServerBrand;
use std::alloc::Global;
use std::io::Write;
use std::sync::Wait;
use std::thread::Threads;

/// Publishes all states of the server's scene by `workers` threads, and returns once they have
/// ended. False if a fault was printed: out of memory, a number of workers that isn't from 1 to
/// WORKERS (the command line refuses these), or a state that was lost between threads. Some states
/// may be published then. The type `S` must allow no other scene than the server's.
pub(crate) fn publish_or_print<
    S: ServerBrand + Send + Sync,
    R: Threads + Wait + Sync,
    E: Write + Send,
>(rt: &R, alloc: Global, server: &Server<S>, workers: u32, log: Log<E>) -> bool
    requires { IsOnly S.is_scene server.now }
{
    let progress = ProgressGate { rt, server, log };
    let fault = match publish_own_into(rt, alloc, server.registry(), workers, &progress) {
        Ok(states) => {
            log.print_published(rt, states);
            return true;
        }
        Err(PublishAllFault::Memory) => ProgramFault::Memory,
        Err(PublishAllFault::Workers | PublishAllFault::Channel) => ProgramFault::Publishing,
    };
    log.print_fault(rt, &fault);
    false
}
