//! Lines that say how many states are published so far. How they are printed is in `log`.

use crate::log::Log;
use cs_connection::Server;
use cs_publish::Gate;
use cs_shared_runs::ServerBrand;
use std::io::Write;
use std::sync::Wait;

/// A line is printed before each state whose number is a multiple of this, but not before state 0.
const STATES: u32 = 1_024;

/// A gate that never blocks a worker: before some states it prints how many are published, if the
/// log prints progress.
#[derive(Drop)]
pub(crate) struct ProgressGate<'a, S: ServerBrand, R, E> {
    /// For the locks of the registry and of the log.
    pub(crate) rt: &'a R,
    /// The server whose states are published.
    pub(crate) server: &'a Server<S>,
    /// It prints only if its `progress` is set.
    pub(crate) log: Log<'a, E>,
}

impl<S: ServerBrand + Send + Sync, R: Wait + Sync, E: Write + Send> Gate
    for ProgressGate<'_, S, R, E> {
    /// Prints how many states are published, if the number is a multiple of STATES and isn't 0 and
    /// the log prints progress. It takes the registry's lock and then, once that is free again, the
    /// log's.
    fn before_make(&self, number: u32) {
        if number == 0 || number % STATES != 0 {
            return;
        }
        let registry = self.server.registry();
        let all = registry.scene().plan().len() as u32;
        // no more states are missing than there are
        let missing = registry.missing(self.rt);
        self.log
            .print_progress(self.rt, all.saturating_sub(missing), all);
    }
}
