//! The entrance of connections: a listener that threads share until no more come in.

use crate::accepting::{Accepted, accept_next};
use crate::waiting::Readiness;
use mio::Waker;
use std::alloc::Global;
use std::io;
use std::net::{Net, SocketAddr, TcpListener, TcpStream};
use std::rt::Clock;
use std::sync::atomic::{AtomicBool, Ordering};
use std::sync::{Mutex, Wait};

/// What a thread that asks for a connection is given.
#[derive(Drop)]
pub(crate) enum Admitted {
    /// The connection of that number, and its peer's address.
    Connection(u32, TcpStream, SocketAddr),
    /// None: the entrance is closed.
    Closed,
    /// None: accepting failed, which closed the entrance. Only the thread that met the failure is
    /// given this; the other threads are given Closed.
    Failed,
}

/// The listener of an entrance, and the numbers of its connections: all of it is under the lock of
/// `Entrance::door`.
#[derive(Drop)]
struct Door {
    /// None once the entrance is closed.
    listener: Option<TcpListener>,
    /// Waits until the listener has a client.
    clients: Readiness,
    /// The number of the next connection.
    next: u32,
    /// How many more connections come in; 0 counts as 1 while the door is open. None if any number
    /// may.
    left: Option<u32>,
    /// Whether accepting failed.
    failed: bool,
}

impl Door {
    /// Drops the listener, so that nothing listens any more. A door that is shut stays so.
    fn shut(&mut self) {
        self.listener = None;
    }

    /// Counts a connection that came in, and returns its number. The last one that may come in
    /// shuts the door: a first one always counts, even if none was left. The number after
    /// 4,294,967,295 is 0.
    fn count_connection(&mut self) -> u32 {
        let number = self.next;
        self.next = number.wrapping_add(1);
        if let Some(left) = self.left {
            // 0 counts as 1: one connection came in
            self.left = Some(left.saturating_sub(1));
            if left <= 1 {
                self.shut();
            }
        }
        number
    }

    /// Waits for the next connection and counts it. Shuts the door and returns Closed once
    /// `closing` is set, or Failed if accepting fails. Returns Closed at once if the door is shut
    /// already.
    fn admit_next<R: Wait + Clock>(&mut self, rt: &R, closing: &AtomicBool) -> Admitted {
        let Some(listener) = &self.listener else {
            return Admitted::Closed;
        };
        match accept_next(rt, listener, &mut self.clients, closing) {
            Accepted::Connection(stream, from) => {
                Admitted::Connection(self.count_connection(), stream, from)
            }
            Accepted::Closing => {
                self.shut();
                Admitted::Closed
            }
            Accepted::Failed => {
                self.shut();
                self.failed = true;
                Admitted::Failed
            }
        }
    }
}

/// Where connections come in until it is closed. Threads share it. One at a time waits for a
/// connection, with the lock held: the others wait for the lock, and have nothing else to do.
#[derive(Drop)]
pub(crate) struct Entrance {
    /// Its lock is held while a thread waits for a connection.
    door: Mutex<Door>,
    /// Whether the entrance must close. The thread that waits for a connection, and so has the
    /// lock, looks at this.
    closing: AtomicBool,
    /// Ends the wait of that thread.
    waker: Waker,
}

impl Entrance {
    /// An open entrance. The listener must not block. `left` connections come in: one if `left` is
    /// 0, any number if it is None. Their numbers begin at 0, and again after 4,294,967,295. The
    /// error is the system's, or out of memory.
    pub(crate) fn new(
        rt: &impl Net,
        alloc: Global,
        listener: TcpListener,
        left: Option<u32>,
    ) -> io::Result<Entrance> {
        let (clients, waker) = Readiness::of_listener(rt, alloc, &listener)?;
        let door = Door {
            listener: Some(listener),
            clients,
            next: 0,
            left,
            failed: false,
        };
        Ok(Entrance {
            door: Mutex::new(door),
            closing: AtomicBool::new(false),
            waker,
        })
    }

    /// Waits for the lock, and then for the next connection, as `Door::admit_next` does.
    pub(crate) fn admit<R: Wait + Clock>(&self, rt: &R) -> Admitted {
        self.door.lock(rt).admit_next(rt, &self.closing)
    }

    /// Closes the entrance for all threads. It ends the wait of the thread that waits for a
    /// connection, and waits for the lock until that thread has noticed. Connections that came in
    /// already aren't affected.
    pub(crate) fn close(&self, rt: &impl Wait) {
        self.closing.store(true, Ordering::SeqCst);
        // if this fails, the wait is over after a second at most
        let _ended = self.waker.wake();
        self.door.lock(rt).shut();
    }

    /// Whether accepting failed, so that the entrance was closed.
    pub(crate) fn has_failed(&self, rt: &impl Wait) -> bool {
        self.door.lock(rt).failed
    }
}
