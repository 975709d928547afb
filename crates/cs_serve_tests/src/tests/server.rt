//! Connections over runs that they share, of a state that is published.

use cs_connection::{Connection, Server, serve_connection, serve_streams};
use cs_journal::{AuditFault, Pass};
use cs_plan::Scene;
use cs_session::{Clock, ServeFault};
use cs_shared_runs::{AnyScene, AuditBy, SharedRegistry, SharedRun};
use cs_stream::TwoEnded;
use cs_trace::read_trace;
use cs_users::Users;
use std::alloc::Global;
use std::io::{self, Error, ErrorKind, Read, Write};
use std::process::Abort;
use std::sync::atomic::{AtomicU32, Ordering};
use std::sync::{Arc, Wait};
use std::thread;

const TRACE: &str = r#"{"trace":1,"owner":"cat","group":"staff","mode":"775"}
{"start":"file","path":"/f","owner":"ann","group":"staff","mode":"664","bytes":"68656c6c6f"}
"#;

const USERS: &[u8] = b"1:ann::\n2:bob::\n3:cat::\n4:staff:ann:ann,bob\n";

/// How often a stream looks for what another must do.
const TURNS: u32 = 10_000_000;

pub const VERSION: &[u8] = b"\x13\0\0\0d\xff\xff\0 \0\0\x06\09P2000";

const ANN_TO_A: &[u8] = b"\x19\0\0\0h\x01\0\0\0\0\0\xff\xff\xff\xff\x03\0ann\x03\00/a";

const CAT_TO_A: &[u8] = b"\x19\0\0\0h\x01\0\0\0\0\0\xff\xff\xff\xff\x03\0cat\x03\00/a";

pub const BOB_TO_B: &[u8] = b"\x19\0\0\0h\x01\0\0\0\0\0\xff\xff\xff\xff\x03\0bob\x03\00/b";

pub const ANN_TO_X: &[u8] = b"\x19\0\0\0h\x01\0\0\0\0\0\xff\xff\xff\xff\x03\0ann\x03\00/x";

pub const BOB_TO_X: &[u8] = b"\x19\0\0\0h\x01\0\0\0\0\0\xff\xff\xff\xff\x03\0bob\x03\00/x";
/// A stat of the root.
pub const STAT: &[u8] = b"\x0b\0\0\0|\x02\0\0\0\0\0";
/// A walk to the file, as the fid 1.
pub const WALK: &[u8] = b"\x14\0\0\0n\x02\0\0\0\0\0\x01\0\0\0\x01\0\x01\0f";

/// A stat of the file, by the fid 1.
const STAT_F: &[u8] = b"\x0b\0\0\0|\x05\0\x01\0\0\0";

const OPEN_TO_READ: &[u8] = b"\x0c\0\0\0p\x03\0\x01\0\0\0\0";

const OPEN_TO_WRITE: &[u8] = b"\x0c\0\0\0p\x03\0\x01\0\0\0\x01";

const READ: &[u8] = b"\x17\0\0\0t\x04\0\x01\0\0\0\0\0\0\0\0\0\0\0\x40\0\0\0";

const WRITE: &[u8] = b"\x19\0\0\0v\x04\0\x01\0\0\0\0\0\0\0\0\0\0\0\x02\0\0\0HI";

#[derive(Clone, Copy)]
pub struct Standing;

impl Clock for Standing {
    fn now(&mut self) -> u32 {
        720
    }
}

/// Whether a count reaches at least so much.
pub fn come(count: &AtomicU32, least: u32) -> bool {
    for _ in 0..TURNS {
        if count.load(Ordering::SeqCst) >= least {
            return true;
        }
        thread::yield_now();
    }
    false
}

/// How many replies a client had, as another client sees it.
pub fn counted(rt: &impl Abort, alloc: Global, count: u32) -> Arc<AtomicU32> {
    Arc::new(alloc, AtomicU32::new(count)).expect(rt, "memory")
}

/// A client that sends a request at each read, the second once another client had a reply, and
/// counts its replies.
#[derive(Drop)]
pub struct Client {
    requests: &'static [&'static [u8]],
    sent: usize,
    replied: Arc<AtomicU32>,
    other: Arc<AtomicU32>,
}

impl Client {
    pub fn new(
        rt: &impl Abort,
        requests: &'static [&'static [u8]],
        replied: &Arc<AtomicU32>,
        other: &Arc<AtomicU32>,
    ) -> Client {
        Client {
            requests,
            sent: 0,
            replied: replied.clone().expect(rt, "few clones"),
            other: other.clone().expect(rt, "few clones"),
        }
    }
}

impl Read for Client {
    fn read(&mut self, buf: &mut [u8]) -> io::Result<usize> {
        let Some(request) = self.requests.get(self.sent) else {
            return Ok(0);
        };
        if self.sent == 1 && !come(&self.other, 1) {
            return Err(Error::from(ErrorKind::TimedOut));
        }
        self.sent = self.sent.wrapping_add(1);
        let count = request.len().min(buf.len());
        let (front, _) = buf.split_at_mut(count);
        front.copy_from_slice(&request[..count]);
        Ok(count)
    }
}

impl Write for Client {
    fn write(&mut self, buf: &[u8]) -> io::Result<usize> {
        self.replied.fetch_add(1, Ordering::SeqCst);
        Ok(buf.len())
    }

    fn flush(&mut self) -> io::Result<()> {
        Ok(())
    }
}

fn scene(rt: &impl Abort, alloc: Global) -> Arc<Scene> {
    let trace = read_trace(alloc, TRACE).expect(rt, "a value");
    let scene = Scene::of(alloc, trace, false, Vec::new(alloc)).expect(rt, "memory");
    Arc::new(alloc, scene).expect(rt, "memory")
}

fn users(rt: &impl Abort, alloc: Global) -> Arc<Users> {
    Arc::new(alloc, Users::read(alloc, USERS).expect(rt, "a value")).expect(rt, "a value")
}

fn registry(rt: &impl Abort, alloc: Global) -> SharedRegistry<AnyScene> {
    SharedRegistry::<AnyScene>::new(alloc, scene(rt, alloc), users(rt, alloc)).expect(rt, "memory")
}

/// A server whose one state is published.
pub fn server_of<R: Wait + Abort>(rt: &R, alloc: Global) -> Server<AnyScene> {
    let registry = registry(rt, alloc);
    let state = Scene::make(alloc, registry.scene(), 0).expect(rt, "a state");
    assert!(rt; registry.publish(rt, alloc, state).is_ok());
    Server::new(registry)
}

/// How many entries a run has, and its audit by these passes.
pub fn audit<R: Wait + Abort>(
    rt: &R,
    run: &SharedRun<AnyScene>,
    passes: &[Pass],
) -> (usize, Result<(), AuditFault>) {
    let told: Option<(usize, Result<(), AuditFault>)> = run.inspect(rt, AuditBy { passes });
    told.expect(rt, "the run of its own number")
}

fn push_run<R: Wait + Abort>(rt: &R, text: &mut String, run: &SharedRun<AnyScene>) {
    let (entries, _audit) = audit(rt, run, &[]);
    let key = run.key();
    write!(text, "{}/{} {entries}\n", key.number(), key.name()).expect(rt, "memory")
}

/// The runs' keys with their entries, a line each.
pub fn runs_of<R: Wait + Abort>(rt: &R, alloc: Global, server: &Server<AnyScene>) -> String {
    let runs = server.registry().runs(rt, alloc).expect(rt, "memory");
    let mut text = String::new(alloc);
    for run in &runs {
        push_run(rt, &mut text, run);
    }
    text
}

/// Adds how a connection ended, and of each of its passes the run's key and how many receipts it
/// has.
fn push_connection(rt: &impl Abort, text: &mut String, connection: &Connection<AnyScene>) {
    let kept = connection.kept();
    write!(text, "{:?}", connection.result()).expect(rt, "memory");
    for place in 0..kept.passes().len() {
        let key = kept.key_at(place);
        let receipts = kept.passes()[place].pass.receipts().len();
        write!(text, " {}/{} {receipts}", key.number(), key.name()).expect(rt, "memory");
    }
    text.push_str("\n").expect(rt, "memory")
}

fn told_of(rt: &impl Abort, alloc: Global, connections: &[Connection<AnyScene>]) -> String {
    let mut text = String::new(alloc);
    for connection in connections {
        push_connection(rt, &mut text, connection);
    }
    text
}

const ANN: [&[u8]; 3] = [VERSION, ANN_TO_X, STAT];

const BOB: [&[u8]; 4] = [VERSION, BOB_TO_X, STAT, STAT];

/// A version, and a size that no message has.
const NOBODY: [&[u8]; 2] = [VERSION, b"\x05\0\0\0"];

/// The result of serving three streams, of which two wait for one another.
pub fn served_at_once<R: thread::Threads + Wait + Sync + Abort>(
    rt: &R,
    alloc: Global,
    server: &Server<AnyScene>,
) -> Vec<Connection<AnyScene>> {
    let (ann, bob) = (counted(rt, alloc, 0), counted(rt, alloc, 0));
    let ready = counted(rt, alloc, 1);
    let mut streams = Vec::new(alloc);
    streams
        .push(Client::new(rt, &ANN, &ann, &bob))
        .expect(rt, "memory");
    streams
        .push(Client::new(rt, &NOBODY, &ready, &ready))
        .expect(rt, "memory");
    streams
        .push(Client::new(rt, &BOB, &bob, &ann))
        .expect(rt, "memory");
    serve_streams(rt, alloc, server, streams, Standing).expect(rt, "memory")
}

const SERVED: &str = "\
Ok(()) 0/x 2
Err(FrameFault(Undersize))
Ok(()) 0/x 3
";

/// Two streams each send a version, an attach to `0/x` and a stat, the last one two; the second
/// read of each waits for the other's first reply, or gives up after ten million looks. Both end
/// well, each with one pass of `0/x`, of two and of three receipts; that run is the only one, with
/// five entries. A stream between them sends a size of 5: it is reported in its place, as
/// Undersize.
#[test]
fn streams_are_served_at_once_and_reported_in_their_order(rt: HostRuntime) {
    let server = server_of(&rt, rt.alloc());
    let connections = served_at_once(&rt, rt.alloc(), &server);
    let told = told_of(&rt, rt.alloc(), &connections);
    assert!(rt; told.as_str() == SERVED, "{told}");
    let runs = runs_of(&rt, rt.alloc(), &server);
    assert!(rt; runs.as_str() == "0/x 5\n", "{runs}");
}

fn joined(rt: &impl Abort, alloc: Global, requests: &[&[u8]]) -> Vec<u8> {
    let mut bytes = Vec::new(alloc);
    for request in requests {
        bytes.extend_from_slice(request).expect(rt, "memory");
    }
    bytes
}

/// Serves a connection that sends these requests, to its end.
pub fn served<R: Wait + Abort>(
    rt: &R,
    alloc: Global,
    server: &Server<AnyScene>,
    requests: &[&[u8]],
) -> Connection<AnyScene> {
    let bytes = joined(rt, alloc, requests);
    let mut stream = TwoEnded::new(bytes.as_slice(), Vec::new(alloc));
    serve_connection(rt, alloc, server, &mut stream, &mut Standing)
}

/// Looks for the last reply to these requests, on a connection that ends well.
fn expect_last<R: Wait + Abort>(
    rt: &R,
    alloc: Global,
    server: &Server<AnyScene>,
    requests: &[&[u8]],
    last: &[u8],
) {
    let bytes = joined(rt, alloc, requests);
    let mut stream = TwoEnded::new(bytes.as_slice(), Vec::new(alloc));
    let connection = serve_connection(rt, alloc, server, &mut stream, &mut Standing);
    assert!(rt; connection.result().is_ok());
    assert!(rt; stream.into_writer().ends_with(last));
}

const ANN_WRITES: [&[u8]; 5] = [VERSION, ANN_TO_A, WALK, OPEN_TO_WRITE, WRITE];

const CAT_READS: [&[u8]; 5] = [VERSION, CAT_TO_A, WALK, OPEN_TO_READ, READ];

const BOB_READS: [&[u8]; 5] = [VERSION, BOB_TO_B, WALK, OPEN_TO_READ, READ];

/// On a connection to `0/a` ann writes `HI` at 0 of `/f`. On the next one cat reads `HIllo` in
/// `0/a`, and on the next bob reads `hello` in `0/b`.
#[test]
fn what_is_written_on_a_connection_is_read_on_others_of_its_run(rt: HostRuntime) {
    let alloc = rt.alloc();
    let server = server_of(&rt, alloc);
    expect_last(
        &rt,
        alloc,
        &server,
        &ANN_WRITES,
        b"\x0b\0\0\0w\x04\0\x02\0\0\0",
    );
    expect_last(
        &rt,
        alloc,
        &server,
        &CAT_READS,
        b"\x10\0\0\0u\x04\0\x05\0\0\0HIllo",
    );
    expect_last(
        &rt,
        alloc,
        &server,
        &BOB_READS,
        b"\x10\0\0\0u\x04\0\x05\0\0\0hello",
    );
    let runs = runs_of(&rt, alloc, &server);
    assert!(rt; runs.as_str().lines().count() == 2);
}

const ANN_WRITES_AND_LOOKS: [&[u8]; 6] = [VERSION, ANN_TO_A, WALK, OPEN_TO_WRITE, WRITE, STAT_F];

/// The stat of `/f`, of version 1, of five bytes that ann wrote at the moment 720.
const WRITTEN_AT_720: &[u8] =
    b"\x46\0\0\0}\x05\0\x3d\0\x3b\0\0\0\0\0\0\0\0\x01\0\0\0\x01\0\0\0\0\0\0\0\xb4\x01\0\0\0\0\0\0\xd0\x02\0\0\x05\0\0\0\0\0\0\0\x01\0f\x03\0ann\x05\0staff\x03\0ann";

/// At the moment 720 ann writes `HI` into `/f`, and her stat of it, in its 70 bytes, has version 1
/// and the time 720.
#[test]
fn a_write_has_the_moment_of_its_message(rt: HostRuntime) {
    let alloc = rt.alloc();
    let server = server_of(&rt, alloc);
    expect_last(&rt, alloc, &server, &ANN_WRITES_AND_LOOKS, WRITTEN_AT_720);
}

/// The result of a stream without a thread is out of memory, and it gives no pass.
#[test]
fn a_stream_without_a_thread_is_not_served(rt: HostRuntime) {
    let unserved: Connection<AnyScene> = Connection::unserved(rt.alloc());
    assert!(rt; unserved.result() == Err(ServeFault::Memory));
    assert!(rt; unserved.kept().passes().is_empty());
}
