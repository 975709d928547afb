//! Audits of a run by the passes that the connections of a server gave back.
use crate::tests::server::{
    ANN_TO_X, BOB_TO_X, STAT, VERSION, WALK, audit, served, served_at_once, server_of,
};
use cs_connection::{Connection, GivenPasses, Server};
use cs_journal::AuditFault;
use cs_names::RunName;
use cs_registry::RunKey;
use cs_shared_runs::AnyScene;
use std::alloc::Global;
use std::process::Abort;
use std::sync::Wait;
use std::thread;

/// The passes of the first connections, so many.
fn passes_of(
    rt: &impl Abort,
    alloc: Global,
    connections: Vec<Connection<AnyScene>>,
    count: u32,
) -> GivenPasses {
    let mut passes = GivenPasses::new(alloc);
    let mut left = count;
    for connection in connections {
        if left == 0 {
            break;
        }
        left -= 1;
        passes.keep(alloc, connection).expect(rt, "memory");
    }
    passes
}

/// How many entries the run of that name of state 0 has, and its audit by these passes.
fn audit_named<R: Wait + Abort>(
    rt: &R,
    alloc: Global,
    server: &Server<AnyScene>,
    passes: &GivenPasses,
    name: &[u8],
) -> (usize, Result<(), AuditFault>) {
    let name = RunName::read(alloc, name).expect(rt, "a value");
    let run = server
        .registry()
        .find(rt, alloc, 0, &name)
        .expect(rt, "memory");
    audit(rt, &run, passes.of(&RunKey::new(0, &name)))
}

/// The audit of the run `0/x` by these passes.
fn audit_of<R: Wait + Abort>(
    rt: &R,
    alloc: Global,
    server: &Server<AnyScene>,
    passes: &GivenPasses,
) -> Result<(), AuditFault> {
    audit_named(rt, alloc, server, passes, b"x").1
}

/// Serves three streams, of which the first and the last attach to `0/x`, and looks for the audit
/// by the passes of the first connections, so many.
fn expect_audit<R: thread::Threads + Wait + Sync + Abort>(
    rt: &R,
    alloc: Global,
    count: u32,
    wanted: Result<(), AuditFault>,
) {
    let server = server_of(rt, alloc);
    let connections = served_at_once(rt, alloc, &server);
    let passes = passes_of(rt, alloc, connections, count);
    let audit = audit_of(rt, alloc, &server, &passes);
    assert!(rt; audit == wanted);
}

/// The same streams: the audit of `0/x` by the passes of all connections is ok. By those of the
/// first two, of which the second gave none, it is Count, and so by none.
#[test]
fn a_run_is_audited_by_what_its_connections_gave_back(rt: HostRuntime) {
    expect_audit(&rt, rt.alloc(), 3, Ok(()));
    expect_audit(&rt, rt.alloc(), 2, Err(AuditFault::Count));
    expect_audit(&rt, rt.alloc(), 0, Err(AuditFault::Count));
}

const ANN_STATS: [&[u8]; 3] = [VERSION, ANN_TO_X, STAT];

const BOB_STATS: [&[u8]; 3] = [VERSION, BOB_TO_X, STAT];

const BOB_WALKS: [&[u8]; 3] = [VERSION, BOB_TO_X, WALK];

/// A server, and the passes that its connections gave back.
#[derive(Drop)]
struct Ended {
    server: Server<AnyScene>,
    passes: GivenPasses,
}

impl Ended {
    /// Serves a connection that sends these requests, and keeps the passes that it gives back.
    fn serve<R: Wait + Abort>(&mut self, rt: &R, alloc: Global, requests: &[&[u8]]) {
        let connection = served(rt, alloc, &self.server, requests);
        assert!(rt; self.passes.keep(alloc, connection).is_ok());
    }

    /// A server on whose run `0/x` ann came and went, and then bob, who sent these requests.
    fn of<R: Wait + Abort>(rt: &R, alloc: Global, bob: &[&[u8]]) -> Ended {
        let mut ended = Ended {
            server: server_of(rt, alloc),
            passes: GivenPasses::new(alloc),
        };
        ended.serve(rt, alloc, &ANN_STATS);
        ended.serve(rt, alloc, bob);
        ended
    }
}

/// On two servers ann attaches to `0/x` (entry 0) and makes a stat (1), and after her bob attaches
/// (2): to the first he sends a stat (3), to the second a walk. The audit of the first's run by the
/// passes that its connections gave back is ok. By the same passes that of the second's run, put in
/// its place, is Changed(3).
#[test]
fn a_run_put_in_the_place_of_a_servers_own_is_seen(rt: HostRuntime) {
    let alloc = rt.alloc();
    let own = Ended::of(&rt, alloc, &BOB_STATS);
    let audit = audit_of(&rt, alloc, &own.server, &own.passes);
    assert!(rt; audit == Ok(()));
    let other = Ended::of(&rt, alloc, &BOB_WALKS);
    let audit = audit_of(&rt, alloc, &other.server, &own.passes);
    assert!(rt; audit == Err(AuditFault::Changed(3)));
}

/// An attach of ann to `0/y` as the fid 3.
const ANN_TO_Y: &[u8] = b"\x19\0\0\0h\x01\0\x03\0\0\0\xff\xff\xff\xff\x03\0ann\x03\00/y";

const STAT_Y: &[u8] = b"\x0b\0\0\0|\x02\0\x03\0\0\0";

const ANN_ON_TWO_RUNS: [&[u8]; 6] = [VERSION, ANN_TO_X, ANN_TO_Y, STAT_Y, STAT, STAT_Y];

/// After ann and bob on `0/x`, ann attaches to `0/x` and to `0/y` on one connection, with a stat of
/// the first and two of the second: six entries and three, and both audits are ok.
#[test]
fn a_connection_gives_back_the_passes_of_each_of_its_runs(rt: HostRuntime) {
    let alloc = rt.alloc();
    let mut ended = Ended::of(&rt, alloc, &BOB_STATS);
    ended.serve(&rt, alloc, &ANN_ON_TWO_RUNS);
    let x = audit_named(&rt, alloc, &ended.server, &ended.passes, b"x");
    assert!(rt; x == (6, Ok(())));
    let y = audit_named(&rt, alloc, &ended.server, &ended.passes, b"y");
    assert!(rt; y == (3, Ok(())));
}
