//! What is printed on standard error.

use super::fixture::{TRACE, inputs_of, scene_in};
use crate::log::Log;
use crate::logged::LoggedStream;
use crate::progress::ProgressGate;
use crate::serving::server_of;
use cs_connection::{Server, serve_connection};
use cs_plan::Scene;
use cs_publish::Gate;
use cs_session::Clock;
use cs_shared_runs::AnyScene;
use cs_stream::Counted;
use std::alloc::Global;
use std::io::{self, Read, Write};
use std::process::Abort;
use std::sync::{Mutex, Wait};

/// A version, an attach of ann to `0/x`, the same fid once more, and a message of no type.
const REQUESTS: &[u8] =
    b"\x13\0\0\0d\xff\xff\0 \0\0\x06\09P2000\x19\0\0\0h\x01\0\0\0\0\0\xff\xff\xff\xff\x03\0ann\x03\00/x\x19\0\0\0h\x02\0\0\0\0\0\xff\xff\xff\xff\x03\0bob\x03\00/x\x07\0\0\0\x7f\x03\0";

const PRINTED: &str = "7 <- Tversion tag 65535 msize 8192 version \"9P2000\"
7 -> Rversion tag 65535 msize 8192 version \"9P2000\"
7 <- Tattach tag 1 fid 0 afid 4294967295 uname \"ann\" aname \"0/x\"
7 -> Rattach tag 1 qid (80 0 0)
7 attached ann to 0/x
7 <- Tattach tag 2 fid 0 afid 4294967295 uname \"bob\" aname \"0/x\"
7 -> Rerror tag 2 ename \"A1 fid not free\"
7 <- no message: unknown message type
7 -> Rerror tag 3 ename \"S2 malformed message\"
";

/// A clock at which the time is always the same.
#[derive(Clone, Copy)]
pub struct StoppedClock;

impl Clock for StoppedClock {
    fn now(&mut self) -> u32 {
        720
    }
}

/// A client that sends and takes at most `most` bytes at a time.
#[derive(Drop)]
struct Pieces {
    left: &'static [u8],
    most: usize,
}

impl Read for Pieces {
    fn read(&mut self, buf: &mut [u8]) -> io::Result<usize> {
        let count = self.left.len().min(self.most).min(buf.len());
        let (front, rest) = self.left.split_at(count);
        let (room, _) = buf.split_at_mut(count);
        room.copy_from_slice(front);
        self.left = rest;
        Ok(count)
    }
}

impl Write for Pieces {
    fn write(&mut self, buf: &[u8]) -> io::Result<usize> {
        Ok(buf.len().min(self.most))
    }

    fn flush(&mut self) -> io::Result<()> {
        Ok(())
    }
}

/// A server with state 0 published.
fn server<R: Wait + Abort>(rt: &R, alloc: Global) -> Server<AnyScene> {
    let scene = scene_in(alloc).expect(rt, "a value");
    let server = server_of::<AnyScene>(alloc, scene, &inputs_of(TRACE, true)).expect(rt, "memory");
    let registry = server.registry();
    let state = Scene::make(alloc, registry.scene(), 0).expect(rt, "memory");
    registry.publish(rt, alloc, state).expect(rt, "memory");
    server
}

/// What serves a stream to its end. A function that is generic over it can serve a stream that
/// borrows.
trait ServesToItsEnd {
    /// Whether it was served to its end.
    fn is_ended<R: Wait, RW: Read + Write + Drop>(&self, rt: &R, alloc: Global, stream: RW) -> bool;
}

impl ServesToItsEnd for Server<AnyScene> {
    fn is_ended<R: Wait, RW: Read + Write + Drop>(
        &self,
        rt: &R,
        alloc: Global,
        stream: RW,
    ) -> bool {
        let mut stream = Counted::new(stream);
        let connection = serve_connection(rt, alloc, self, &mut stream, &mut StoppedClock);
        connection.result().is_ok()
    }
}

/// Whether this server serves a client of at most `most` bytes at a time to its end.
fn is_served_by<V: ServesToItsEnd, R: Wait>(
    rt: &R,
    alloc: Global,
    server: &V,
    most: usize,
    log: Log<Vec<u8>>,
) -> bool {
    let client = Pieces {
        left: REQUESTS,
        most,
    };
    server.is_ended(rt, alloc, LoggedStream::new(rt, alloc, client, 7, log))
}

/// Whether a new server serves a client of at most `most` bytes at a time to its end.
fn is_served<R: Wait + Abort>(rt: &R, alloc: Global, most: usize, log: Log<Vec<u8>>) -> bool {
    let server = server(rt, alloc);
    is_served_by(rt, alloc, &server, most, log)
}

/// What is printed of such a client, if it was served.
fn printed_in_pieces<R: Wait + Abort>(rt: &R, alloc: Global, most: usize) -> Vec<u8> {
    let err = Mutex::new(Vec::new(alloc));
    let log = Log {
        writer: &err,
        verbose: false,
        progress: false,
    };
    assert!(rt; is_served(rt, alloc, most, log));
    err.into_inner()
}

/// What is printed of such a client is `PRINTED`.
fn expect_all_printed<R: Wait + Abort>(rt: &R, alloc: Global, most: usize) {
    let printed = printed_in_pieces(rt, alloc, most);
    assert!(rt; printed.as_slice() == PRINTED.as_bytes(), "{most}");
}

/// With `--verbose`, whether a connection's bytes come and go by 1, by 30 or all at once: a
/// version, an attach of ann to `0/x`, an attach as the same fid (A1) and a message of no type (S2)
/// are printed as text, each with its reply, and after the second `7 attached ann to 0/x`.
#[test]
fn each_message_is_printed_with_its_reply(rt: HostRuntime) {
    expect_all_printed(&rt, rt.alloc(), 1);
    expect_all_printed(&rt, rt.alloc(), 30);
    expect_all_printed(&rt, rt.alloc(), 65_536);
}

/// Asks the gate before each of these states.
fn ask_gate_before<R: Wait + Sync>(
    rt: &R,
    server: &Server<AnyScene>,
    log: Log<Vec<u8>>,
    numbers: &[u32],
) {
    let gate = ProgressGate { rt, server, log };
    for number in numbers {
        gate.before_make(*number);
    }
}

/// What is printed before these states are made, of which the first is published.
fn progress_before<R: Wait + Sync + Abort>(
    rt: &R,
    alloc: Global,
    numbers: &[u32],
    progress: bool,
) -> Vec<u8> {
    let server = server(rt, alloc);
    let err = Mutex::new(Vec::new(alloc));
    let log = Log {
        writer: &err,
        verbose: true,
        progress,
    };
    ask_gate_before(rt, &server, log, numbers);
    err.into_inner()
}

const NUMBERS: [u32; 6] = [0, 1, 1_023, 1_024, 1_025, 2_048];

/// One of two states is published: as the states 1,024 and 2,048 would be begun, and before no
/// other, `published 1 of 2` is printed, if progress is asked for.
#[test]
fn progress_is_printed_at_every_1024th_state(rt: HostRuntime) {
    let printed = progress_before(&rt, rt.alloc(), &NUMBERS, true);
    assert!(rt; printed.as_slice() == b"published 1 of 2\npublished 1 of 2\n".as_slice());
    let printed = progress_before(&rt, rt.alloc(), &NUMBERS, false);
    assert!(rt; printed.is_empty());
}
