//! Workers over a file that is written, waited for and moved, whose plan has twelve states.
ghost use Rattle.std.specs.Prelude.{◌≡◌};
ghost use Rattle.std.specs.Arc.{arc_value};
ghost use Rattle.std.specs.Prelude.{List};
ghost use Rattle.cs_shared_runs.specs.Serving.{IsOnly, ServesAll};
ghost use Rattle.cs_users.specs.Rows.{Row};

use cs_plan::{Built, Published, Scene};
use cs_publish::{Gate, NoGate, PublishAllFault, publish_all, publish_own_into};
use cs_registry::{Held, PublishFault, RunKey};
use cs_shared_runs::{ServerBrand, SharedRegistry};
use cs_trace::read_trace;
use cs_users::Users;
use std::alloc::{AllocError, Global};
use std::marker::Brand;
use std::process::Abort;
use std::sync::atomic::{AtomicBool, AtomicU32, Ordering};
use std::sync::{Arc, Wait};
use std::thread;
use std::thread::Threads;

const HEADER: &str = "{\"trace\":1,\"owner\":\"cat\",\"group\":\"staff\",\"mode\":\"775\"}\n";

const CREAT: &str =
    "{\"op\":\"creat\",\"path\":\"/t\",\"owner\":\"ann\",\"group\":\"staff\",\"mode\":\"644\"}\n";

const MOVED: &str =
    "{\"op\":\"fsync\",\"path\":\"/t\"}\n{\"op\":\"rename\",\"from\":\"/t\",\"to\":\"/a\"}\n";

/// How often a worker checks what another must do.
const TURNS: u32 = 10_000_000;

/// What is kept of a run here: nothing.
#[derive(Drop)]
struct Nothing;

impl Held for Nothing {
    ghost admits = { λ number tree. Unit {0} };

    ghost is_fresh = { λ key tree users nothing. Unit {0} };

    fn fresh(
        _alloc: Global,
        _key: &RunKey,
        _lower: Arc<Built>,
        _users: Arc<Users>,
    ) -> Result<Nothing, AllocError> {
        Ok(Nothing)
    }
}

/// Blocks the worker of state 0 until another asks for state 1.
#[derive(Drop)]
struct UntilOne {
    asked: AtomicBool,
    gave_up: AtomicBool,
}

impl Gate for UntilOne {
    fn before_make(&self, number: u32) {
        if number == 1 {
            self.asked.store(true, Ordering::SeqCst);
        }
        if number != 0 {
            return;
        }
        for _ in 0..TURNS {
            if self.asked.load(Ordering::SeqCst) {
                return;
            }
            thread::yield_now();
        }
        self.gave_up.store(true, Ordering::SeqCst);
    }
}

/// Records for which states it was asked, a bit each, and how often it was asked.
#[derive(Drop)]
struct Asked {
    states: AtomicU32,
    times: AtomicU32,
}

impl Asked {
    fn new() -> Asked {
        Asked {
            states: AtomicU32::new(0),
            times: AtomicU32::new(0),
        }
    }

    fn of_all_once(&self) -> bool {
        self.states.load(Ordering::SeqCst) == 0xFFF && self.times.load(Ordering::SeqCst) == 12
    }
}

impl Gate for Asked {
    fn before_make(&self, number: u32) {
        let bit = 1u32.checked_shl(number).unwrap_or(0);
        self.states.fetch_or(bit, Ordering::SeqCst);
        self.times.fetch_add(1, Ordering::SeqCst);
    }
}

fn text_of(rt: &impl Abort, alloc: Global) -> String {
    let mut text = String::new(alloc);
    text.push_str(HEADER).expect(rt, "memory");
    text.push_str(CREAT).expect(rt, "memory");
    text.push_str("{\"op\":\"write\",\"path\":\"/t\",\"offset\":0,\"bytes\":\"")
        .expect(rt, "memory");
    for _ in 0..5000 {
        text.push_str("61").expect(rt, "memory");
    }
    text.push_str("\"}\n").expect(rt, "memory");
    text.push_str(MOVED).expect(rt, "memory");
    text
}

fn scene_of(rt: &impl Abort, alloc: Global, text: &str) -> Arc<Scene> {
    let trace = read_trace(alloc, text).expect(rt, "a value");
    let scene = Scene::of(alloc, trace, true, Vec::new(alloc)).expect(rt, "memory");
    Arc::new(alloc, scene).expect(rt, "memory")
}

pub fn users_of(rt: &impl Abort, alloc: Global) -> Arc<Users> {
    Arc::new(
        alloc,
        Users::read(alloc, b"1:ann::\n").expect(rt, "a value"),
    )
    .expect(rt, "a value")
}

pub fn moved(rt: &impl Abort, alloc: Global) -> Arc<Scene> {
    scene_of(rt, alloc, text_of(rt, alloc).as_str())
}

fn state_of(rt: &impl Abort, alloc: Global, scene: &Arc<Scene>) -> Published {
    Scene::make(alloc, scene, 0).expect(rt, "a state")
}

/// How many states are missing and how many runs there are after so many workers have published, or
/// the fault.
fn publish<R: Threads + Wait + Sync + Abort, G: Gate>(
    rt: &R,
    alloc: Global,
    workers: u32,
    gate: &G,
) -> Result<(u32, u32), PublishAllFault> {
    let scene = moved(rt, alloc);
    let users = users_of(rt, alloc);
    let states = publish_all::<Nothing, _, _>(rt, alloc, scene, users, workers, gate)?;
    Ok((states.missing(), states.run_count()))
}

/// Two workers publish all states, and the gate blocks state 0 until it was asked for state 1:
/// nothing is missing, and there is no run.
#[test]
fn two_workers_are_at_it_at_once(rt: HostRuntime) {
    let gate = UntilOne {
        asked: AtomicBool::new(false),
        gave_up: AtomicBool::new(false),
    };
    assert!(rt; publish(&rt, rt.alloc(), 2, &gate) == Ok((0, 0)));
    assert!(rt; !gate.gave_up.load(Ordering::SeqCst));
}

/// 0 and 65 workers are refused; 1 and 64 publish all.
#[test]
fn there_are_1_to_64_workers(rt: HostRuntime) {
    let alloc = rt.alloc();
    let refused = Err(PublishAllFault::Workers);
    assert!(rt; publish(&rt, alloc, 0, &NoGate) == refused);
    assert!(rt; publish(&rt, alloc, 1, &NoGate).is_ok());
    assert!(rt; publish(&rt, alloc, 64, &NoGate).is_ok());
    assert!(rt; publish(&rt, alloc, 65, &NoGate) == refused);
}

/// A registry of the scene.
fn registry_of<S: ServerBrand, R: Abort>(
    rt: &R,
    alloc: Global,
    scene: Arc<Scene>,
) -> SharedRegistry<S>
    requires here { S.is_scene (arc_value scene) }
    requires serves { ServesAll S.serves S.loads (arc_value scene) }
    requires loads { (users : List Row) → S.loads users }
    ensures { result ≡ arc_value scene }
{
    SharedRegistry::<S>::new(alloc, scene, users_of(rt, alloc)).expect(rt, "memory")
}

/// So many workers publish into the registry, with this result.
fn publishes<S: ServerBrand, R: Threads + Wait + Sync + Abort, G: Gate>(
    rt: &R,
    alloc: Global,
    registry: &SharedRegistry<S>,
    workers: u32,
    gate: &G,
    wanted: Result<u32, PublishAllFault>,
)
    requires { IsOnly S.is_scene registry.now }
{
    assert!(rt; publish_own_into(rt, alloc, registry, workers, gate) == wanted);
}

/// A state of that scene is refused with this fault.
fn is_refused<S: ServerBrand, R: Wait + Abort>(
    rt: &R,
    alloc: Global,
    registry: &SharedRegistry<S>,
    scene: Arc<Scene>,
    fault: PublishFault,
) {
    let state = state_of(rt, alloc, &scene);
    assert!(rt; registry.publish(rt, alloc, state) == Err(fault));
}

/// Publishes in a registry of the scene by too many workers, and then twice, with a state of its
/// own and one of another scene between.
fn counts<S: ServerBrand, R: Threads + Wait + Sync + Abort>(
    rt: &R,
    alloc: Global,
    scene: Arc<Scene>,
)
    requires here { S.is_scene (arc_value scene) }
    requires only { IsOnly S.is_scene (arc_value scene) }
    requires serves { ServesAll S.serves S.loads (arc_value scene) }
    requires loads { (users : List Row) → S.loads users }
{
    let registry = registry_of::<S, R>(rt, alloc, scene);
    let refused = Err(PublishAllFault::Workers);
    publishes(rt, alloc, &registry, 65, &NoGate, refused);
    assert!(rt; registry.missing(rt) == 12);
    publishes(rt, alloc, &registry, 2, &NoGate, Ok(12));
    assert!(rt; registry.missing(rt) == 0);
    is_refused(rt, alloc, &registry, moved(rt, alloc), PublishFault::Twice);
    let other = scene_of(rt, alloc, HEADER);
    is_refused(rt, alloc, &registry, other, PublishFault::Stranger);
    publishes(rt, alloc, &registry, 1, &NoGate, Ok(0));
}

/// Workers publish 12 states in a shared registry, and then none; state 0 is Twice then, and a
/// state of another scene a Stranger.
#[test]
fn what_stood_already_is_not_counted(rt: HostRuntime) {
    let scene = moved(&rt, rt.alloc());
    counts::<Brand, HostRuntime>(&rt, rt.alloc(), scene);
}

/// Publishes in a registry of the scene by two workers, who ask the gate.
fn asks<S: ServerBrand, R: Threads + Wait + Sync + Abort>(
    rt: &R,
    alloc: Global,
    scene: Arc<Scene>,
    gate: &Asked,
)
    requires here { S.is_scene (arc_value scene) }
    requires only { IsOnly S.is_scene (arc_value scene) }
    requires serves { ServesAll S.serves S.loads (arc_value scene) }
    requires loads { (users : List Row) → S.loads users }
{
    let registry = registry_of::<S, R>(rt, alloc, scene);
    publishes(rt, alloc, &registry, 2, gate, Ok(12));
}

/// Two workers publish all 12 states, in a new registry and in one that exists: the gate is asked
/// for each state once.
#[test]
fn a_gate_is_asked_once_for_each_state(rt: HostRuntime) {
    let alloc = rt.alloc();
    let gate = Asked::new();
    assert!(rt; publish(&rt, alloc, 2, &gate).is_ok());
    assert!(rt; gate.of_all_once());
    let gate = Asked::new();
    let scene = moved(&rt, alloc);
    asks::<Brand, HostRuntime>(&rt, alloc, scene, &gate);
    assert!(rt; gate.of_all_once());
}
