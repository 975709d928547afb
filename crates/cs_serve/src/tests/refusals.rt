//! Commands that serve nobody, and accepts that fail.

use super::fixture::{TRACE, inputs_of};
use crate::accepting::{Accepted, accept_next};
use crate::waiting::AwaitsClients;
use crate::{Client, Serving, serve_of};
use std::io::{self, Error, ErrorKind};
use std::net::{Ipv4Addr, OpenListener, SocketAddr};
use std::rt::Clock;
use std::sync::atomic::{AtomicBool, AtomicU64, Ordering};
use std::sync::{Mutex, Wait};

const IDLE: Serving = Serving {
    listen: "nowhere",
    workers: 0,
    connections: 1,
    again: false,
    until_killed: false,
    ready: true,
    reload: None,
    client: Client::Plan9,
    progress: false,
};

/// No workers, which no command line gives, and an address that is none: one line on standard
/// error, `publishing failed`; nothing on standard output, status 1.
#[test]
fn no_workers_publish_nothing(rt: HostRuntime) {
    let alloc = rt.alloc();
    let mut out: Vec<u8> = Vec::new(alloc);
    let err = Mutex::new(Vec::new(alloc));
    let inputs = inputs_of(TRACE, true);
    let status = serve_of(&rt, alloc, &inputs, IDLE, io::empty(), &mut out, &err);
    assert!(rt; status == 1 && out.is_empty());
    assert!(rt; err.into_inner().as_slice() == b"crashfs: publishing failed\n".as_slice());
}

/// A listener whose first accepts fail, but that of the place `idle` only finds no client. It
/// counts them.
#[derive(Drop)]
struct Failing {
    failures: u64,
    idle: u64,
    accepts: AtomicU64,
}

impl OpenListener for Failing {
    type Stream = ();

    fn accept(&self) -> io::Result<((), SocketAddr)> {
        let place = self.accepts.fetch_add(1, Ordering::SeqCst);
        if place == self.idle {
            return Err(Error::from(ErrorKind::WouldBlock));
        }
        if place < self.failures {
            return Err(Error::from(ErrorKind::ConnectionAborted));
        }
        Ok(((), SocketAddr::from((Ipv4Addr::LOCALHOST, 1))))
    }
}

/// Waits that end at once, and are counted. Each fails if that is set.
#[derive(Drop)]
struct Waits {
    count: u64,
    fails: bool,
}

impl AwaitsClients for Waits {
    fn wait_for_client(&mut self) -> io::Result<()> {
        self.count = self.count.wrapping_add(1);
        if self.fails {
            return Err(Error::from(ErrorKind::Other));
        }
        Ok(())
    }
}

/// Whether a connection is accepted after that many accepts, of which the one of the place `idle`
/// finds no client and the others fail, and how many were made.
fn accepted_after<R: Wait + Clock>(rt: &R, failures: u64, idle: u64) -> (bool, u64) {
    let listener = Failing {
        failures,
        idle,
        accepts: AtomicU64::new(0),
    };
    let mut waits = Waits {
        count: 0,
        fails: false,
    };
    let accepted = match accept_next(rt, &listener, &mut waits, &AtomicBool::new(false)) {
        Accepted::Connection((), _) => true,
        Accepted::Closing | Accepted::Failed => false,
    };
    (accepted, listener.accepts.load(Ordering::SeqCst))
}

/// A listener whose accepts fail is given up at the hundredth failure in a row, and no sooner.
#[test]
fn accepts_that_fail_end_by_a_bound(rt: HostRuntime) {
    assert!(rt; accepted_after(&rt, 99, 1_000) == (true, 100));
    assert!(rt; accepted_after(&rt, 100, 1_000) == (false, 100));
}

/// An accept that only finds no client ends the row of failures: 75 on each side of it aren't 100.
#[test]
fn failures_count_in_a_row(rt: HostRuntime) {
    assert!(rt; accepted_after(&rt, 151, 75) == (true, 152));
}

/// Only an accept that finds no client waits for one; a wait that fails is followed by an accept.
#[test]
fn accepts_without_a_client_wait(rt: HostRuntime) {
    for fails in [false, true] {
        let listener = Failing {
            failures: 4,
            idle: 2,
            accepts: AtomicU64::new(0),
        };
        let mut waits = Waits { count: 0, fails };
        let closing = AtomicBool::new(false);
        let accepted = accept_next(&rt, &listener, &mut waits, &closing);
        assert!(rt; matches!(&accepted, Accepted::Connection((), _)));
        assert!(rt; waits.count == 1 && listener.accepts.load(Ordering::SeqCst) == 5);
    }
}
