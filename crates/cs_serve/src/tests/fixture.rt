//! A small tree and its scene.

use cs_inputs::{Inputs, scene_of};
use cs_plan::Scene;
use std::alloc::Global;
use std::sync::Arc;
use std::thread;

pub const USERS: &[u8] = b"1:ann::\n2:bob::\n3:cat::\n4:staff:ann:ann,bob\n";

pub const TRACE: &[u8] =
    b"{\"trace\":1,\"owner\":\"cat\",\"group\":\"staff\",\"mode\":\"775\"}\n{\"start\":\"file\",\"path\":\"/f\",\"owner\":\"ann\",\"group\":\"staff\",\"mode\":\"664\",\"bytes\":\"68656c6c6f\"}\n{\"op\":\"creat\",\"path\":\"/g\",\"owner\":\"ann\",\"group\":\"staff\",\"mode\":\"644\"}\n";

/// How often a thread looks for what another must do.
const TURNS: u32 = 10_000_000;

/// Whether this holds within TURNS looks; between two it lets other threads run.
pub fn comes<F: Fn() -> bool>(holds: F) -> bool
    requires { F.IsAlwaysCallable holds }
{
    for _ in 0..TURNS {
        if holds() {
            return true;
        }
        thread::yield_now();
    }
    false
}

/// What the command line gave for this trace.
pub fn inputs_of(trace: &[u8], verbose: bool) -> Inputs<'_> {
    Inputs {
        users: USERS,
        trace,
        picks: &[],
        holes: false,
        verbose,
    }
}

/// The scene of the trace.
pub fn scene_in(alloc: Global) -> Option<Arc<Scene>> {
    let scene = scene_of(alloc, &inputs_of(TRACE, false)).ok()?;
    Arc::new(alloc, scene).ok()
}
