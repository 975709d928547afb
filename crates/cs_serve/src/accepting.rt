//! Accepting one connection. Which threads do that, and when no more come in, is in `entrance`.

use crate::waiting::AwaitsClients;
use std::io::ErrorKind;
use std::net::{OpenListener, SocketAddr};
use std::rt::Clock;
use std::sync::Wait;
use std::sync::atomic::{AtomicBool, Ordering};
use std::thread;
use std::time::Duration;

/// How many accepts in a row may fail: with the pauses between them, for about a second.
const FAILED_ACCEPTS: u32 = 100;

/// How long to wait after an accept or a wait that failed. With too many open files an accept fails
/// at once, again and again.
const PAUSE_MILLISECONDS: u64 = 10;

/// The result of waiting for a connection.
#[derive(Drop)]
pub(crate) enum Accepted<S> {
    /// A connection, and its peer's address.
    Connection(S, SocketAddr),
    /// No more connections are accepted.
    Closing,
    /// FAILED_ACCEPTS accepts in a row failed.
    Failed,
}

/// Waits for the next connection, until `closing` is set or FAILED_ACCEPTS accepts in a row have
/// failed; one that only finds no client hasn't failed. The listener must not block: after an
/// accept without a client, `clients` waits for one, and then `closing` is looked at.
pub(crate) fn accept_next<R: Wait + Clock, L: OpenListener, C: AwaitsClients>(
    rt: &R,
    listener: &L,
    clients: &mut C,
    closing: &AtomicBool,
) -> Accepted<L::Stream> {
    let mut failures = 0u32;
    for _ in rt.forever() {
        if closing.load(Ordering::SeqCst) {
            return Accepted::Closing;
        }
        let is_idle = match listener.accept() {
            Ok((stream, from)) => return Accepted::Connection(stream, from),
            Err(error) => error.kind() == ErrorKind::WouldBlock,
        };
        // at most FAILED_ACCEPTS
        failures = if is_idle {
            0
        } else {
            failures.saturating_add(1)
        };
        if failures >= FAILED_ACCEPTS {
            return Accepted::Failed;
        }
        if !is_idle || clients.wait_for_client().is_err() {
            thread::sleep(rt, Duration::from_millis(PAUSE_MILLISECONDS));
        }
    }
    // `forever` has no last item, so only a return leaves the loop
    unreachable!()
}
