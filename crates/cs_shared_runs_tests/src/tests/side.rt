//! A registry whose one state has a file, and calls on its runs.

use cs_fids::Place;
use cs_journal::{AuditFault, Pass};
use cs_names::{RunName, Text, Texts, UserName};
use cs_permit::{Call, OpenCall, ReadCall, SentBytes, StatCall, WalkCall, WriteCall};
use cs_plan::{Published, Scene};
use cs_run::Answer;
use cs_shared_runs::{AnyScene, AuditBy, SharedRegistry, SharedRun};
use cs_trace::read_trace;
use cs_users::Users;
use std::alloc::Global;
use std::process::Abort;
use std::sync::atomic::{AtomicBool, Ordering};
use std::sync::{Arc, Wait};
use std::thread;

const TRACE: &str =
    "{\"trace\":1,\"owner\":\"cat\",\"group\":\"staff\",\"mode\":\"775\"}\n{\"start\":\"file\",\"path\":\"/f\",\"owner\":\"ann\",\"group\":\"staff\",\"mode\":\"664\",\"bytes\":\"68656c6c6f\"}\n";

const USERS: &[u8] = b"1:ann::\n2:bob::\n3:cat::\n4:staff:ann:ann,bob\n";

/// The number of the file.
pub const F: u64 = 1;

/// How often a thread checks what another must do.
const TURNS: u32 = 10_000_000;

/// A registry of a scene, and its one state.
pub fn registry_of(rt: &impl Abort, alloc: Global) -> (SharedRegistry<AnyScene>, Published) {
    let trace = read_trace(alloc, TRACE).expect(rt, "a value");
    let scene = Scene::of(alloc, trace, false, Vec::new(alloc)).expect(rt, "memory");
    let scene = Arc::new(alloc, scene).expect(rt, "memory");
    let state = Scene::make(alloc, &scene, 0).expect(rt, "memory");
    let users = Arc::new(alloc, Users::read(alloc, USERS).expect(rt, "a value")).expect(
        rt, "a value",
    );
    let registry = SharedRegistry::<AnyScene>::new(alloc, scene, users).expect(rt, "memory");
    (registry, state)
}

/// The run of that name.
pub fn find<R: Wait + Abort>(
    rt: &R,
    alloc: Global,
    registry: &SharedRegistry<AnyScene>,
    name: &str,
) -> SharedRun<AnyScene> {
    let name = RunName::read(alloc, name.as_bytes()).expect(rt, "a value");
    registry.find(rt, alloc, 0, &name).expect(rt, "memory")
}

/// The pass of a user who is attached.
pub fn attach<R: Wait + Abort>(
    rt: &R,
    alloc: Global,
    run: &SharedRun<AnyScene>,
    user: &str,
) -> Pass {
    match run.attach(
        rt,
        alloc,
        1,
        Text::copy_of(alloc, user).expect(rt, "memory"),
    ) {
        Ok((pass, Answer::Attached(_))) => pass,
        _ => panic!(rt; "another answer"),
    }
}

/// How many entries a run has, and its audit by these passes.
pub fn audit<R: Wait + Abort>(
    rt: &R,
    run: &SharedRun<AnyScene>,
    passes: &[Pass],
) -> (usize, Result<(), AuditFault>) {
    let told: Option<(usize, Result<(), AuditFault>)> = run.inspect(rt, AuditBy { passes });
    told.expect(rt, "the run of its own number")
}

/// A registry whose one state is published.
pub fn published<R: Wait + Abort>(rt: &R, alloc: Global) -> SharedRegistry<AnyScene> {
    let (registry, state) = registry_of(rt, alloc);
    registry.publish(rt, alloc, state).expect(rt, "memory");
    registry
}

pub fn open(rt: &impl Abort, alloc: Global, user: &str, mode: u8) -> Call<'static> {
    let user = UserName::read(alloc, user.as_bytes()).expect(rt, "a value");
    Call::Open(OpenCall {
        number: F,
        user,
        mode,
    })
}

pub fn write(rt: &impl Abort, alloc: Global, user: &str, text: &str) -> Call<'static> {
    let user = UserName::read(alloc, user.as_bytes()).expect(rt, "a value");
    let bytes = SentBytes::copy_of(alloc, text.as_bytes()).expect(rt, "memory");
    Call::Write(WriteCall {
        number: F,
        user,
        offset: 0,
        bytes,
    })
}

/// Of the root.
pub fn stat() -> Call<'static> {
    Call::Stat(StatCall { number: 0 })
}

/// Of no names, from the root.
pub fn walk(rt: &impl Abort, alloc: Global, user: &str) -> Call<'static> {
    let user = UserName::read(alloc, user.as_bytes()).expect(rt, "a value");
    Call::Walk(WalkCall {
        number: 0,
        user,
        names: Texts::new(Vec::new(alloc)),
    })
}

/// Of the first bytes of the file.
pub fn read() -> Call<'static> {
    Call::Read(ReadCall {
        number: F,
        offset: 0,
        count: 64,
        place: Place::start(),
    })
}

/// Whether the flag is set within so many checks.
pub fn comes(flag: &AtomicBool) -> bool {
    for _ in 0..TURNS {
        if flag.load(Ordering::SeqCst) {
            return true;
        }
        thread::yield_now();
    }
    false
}
