//! What is printed of the runs at the end.

use super::fixture::{TRACE, inputs_of, scene_in};
use super::printing::StoppedClock;
use crate::serving::server_of;
use crate::summary::summary_of_runs;
use cs_connection::{GivenPasses, Server, serve_connection};
use cs_plan::Scene;
use cs_shared_runs::{AnyScene, Registry};
use cs_stream::TwoEnded;
use std::alloc::Global;
use std::process::Abort;
use std::sync::Wait;

const VERSION: &[u8] = b"\x13\0\0\0d\xff\xff\0 \0\0\x06\09P2000";

/// Attaches of ann: to `0/x` as the fid 0, and to `1/a` as the fid 1.
const TO_X: &[u8] = b"\x19\0\0\0h\x01\0\0\0\0\0\xff\xff\xff\xff\x03\0ann\x03\00/x";

const TO_A: &[u8] = b"\x19\0\0\0h\x01\0\x01\0\0\0\xff\xff\xff\xff\x03\0ann\x03\01/a";

/// Stats of these fids.
const STAT_X: &[u8] = b"\x0b\0\0\0|\x02\0\0\0\0\0";

const STAT_A: &[u8] = b"\x0b\0\0\0|\x02\0\x01\0\0\0";

/// A walk of no names from the fid 0.
const WALK_X: &[u8] = b"\x11\0\0\0n\x02\0\0\0\0\0\x02\0\0\0\0\0";

/// A server whose two states are published, and the passes that its connections gave back.
#[derive(Drop)]
struct Ended {
    server: Server<AnyScene>,
    passes: GivenPasses,
}

impl Ended {
    /// A server that has had no connection.
    fn new<R: Wait + Abort>(rt: &R, alloc: Global) -> Ended {
        let scene = scene_in(alloc).expect(rt, "a scene");
        let server = server_of::<AnyScene>(alloc, scene, &inputs_of(TRACE, false));
        let server = server.ok().expect(rt, "memory");
        for number in 0..2 {
            let state = Scene::make(alloc, server.registry().scene(), number);
            let state = state.ok().expect(rt, "a state");
            assert!(rt; server.registry().publish(rt, alloc, state).is_ok());
        }
        Ended {
            server,
            passes: GivenPasses::new(alloc),
        }
    }

    /// Serves a connection that sends these, to its end.
    fn serve<R: Wait + Abort>(&mut self, rt: &R, alloc: Global, requests: &[&[u8]]) {
        let mut sent = Vec::new(alloc);
        for request in requests {
            sent.extend_from_slice(request).expect(rt, "memory");
        }
        let mut stream = TwoEnded::new(sent.as_slice(), Vec::new(alloc));
        let ended = serve_connection(rt, alloc, &self.server, &mut stream, &mut StoppedClock);
        assert!(rt; ended.result().is_ok());
        assert!(rt; self.passes.keep(alloc, ended).is_ok());
    }
}

/// What is printed of the runs, audited by these passes, is this.
fn expect<R: Wait + Abort>(
    rt: &R,
    alloc: Global,
    runs: &Registry<AnyScene>,
    passes: &GivenPasses,
    wanted: &[u8],
) {
    let summary = summary_of_runs(rt, alloc, runs, passes);
    let summary = summary.ok().expect(rt, "memory");
    assert!(rt; summary.as_bytes() == wanted);
}

/// On a server of two states ann attaches to `1/a` and `0/x` on one connection, with a stat of
/// each: `run 0/x entries 2 audit ok` and `run 1/a entries 2 audit ok`. Without passes both are
/// `count`. By the passes of another server, on which she walks in `0/x` and attaches to `1/a` on
/// two connections, they are `changed 1` and `missing 1`.
#[test]
fn each_run_is_printed_with_its_own_audit(rt: HostRuntime) {
    let alloc = rt.alloc();
    let mut own = Ended::new(&rt, alloc);
    own.serve(&rt, alloc, &[VERSION, TO_A, TO_X, STAT_X, STAT_A]);
    let Ended { server, passes } = own;
    let runs = server.into_registry();
    let ok = b"run 0/x entries 2 audit ok\nrun 1/a entries 2 audit ok\n";
    expect(&rt, alloc, &runs, &passes, ok);
    let count = b"run 0/x entries 2 audit count\nrun 1/a entries 2 audit count\n";
    expect(&rt, alloc, &runs, &GivenPasses::new(alloc), count);
    let mut other = Ended::new(&rt, alloc);
    other.serve(&rt, alloc, &[VERSION, TO_A, TO_X, WALK_X]);
    other.serve(&rt, alloc, &[VERSION, TO_A]);
    let foreign = b"run 0/x entries 2 audit changed 1\nrun 1/a entries 2 audit missing 1\n";
    expect(&rt, alloc, &runs, &other.passes, foreign);
}
