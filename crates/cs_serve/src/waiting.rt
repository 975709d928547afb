//! Waiting for a client without taking the processor: until one asks for a connection, or another
//! thread ends the wait.

use mio::unix::SourceFd;
use mio::{Events, Interest, Poll, Token, Waker};
use std::alloc::Global;
use std::io;
use std::net::{Net, TcpListener};
use std::os::fd::AsRawFd;
use std::time::Duration;

/// How long one wait is at most. A wait that is ended needs no such limit; it bounds how long the
/// entrance stays open if the call that ends the wait fails.
const WAIT_SECONDS: u64 = 1;

/// How many events one wait reports: the listener's, and that the wait was ended.
const EVENTS: usize = 2;

const CLIENT: Token = Token(0);

const ENDED: Token = Token(1);

/// Something that waits until a client may have asked for a connection.
pub(crate) trait AwaitsClients {
    /// Waits until there may be a client or the wait is ended, or for a second: so the caller must
    /// look again. The error is the system's.
    fn wait_for_client(&mut self) -> io::Result<()>;
}

/// The readiness of a listener. After an accept that found no client, a wait reports the next.
#[derive(Drop)]
pub(crate) struct Readiness {
    poll: Poll,
    events: Events,
}

impl Readiness {
    /// The readiness of this listener, which must not block, and what ends its waits. The error is
    /// the system's, or out of memory.
    pub(crate) fn of_listener(
        rt: &impl Net,
        alloc: Global,
        listener: &TcpListener,
    ) -> io::Result<(Readiness, Waker)> {
        let poll = Poll::new(rt)?;
        let descriptor = listener.as_raw_fd();
        let registry = poll.registry();
        registry.register(&mut SourceFd(&descriptor), CLIENT, Interest::READABLE)?;
        let waker = Waker::new(registry, ENDED)?;
        let events = Events::with_capacity(alloc, EVENTS)?;
        Ok((Readiness { poll, events }, waker))
    }
}

impl AwaitsClients for Readiness {
    fn wait_for_client(&mut self) -> io::Result<()> {
        let most = Duration::from_secs(WAIT_SECONDS);
        self.poll.poll(&mut self.events, Some(most))
    }
}
