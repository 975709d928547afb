//! Registries of a server of any scene, whose states workers published.
ghost use Rattle.std.specs.Prelude.{◌≡◌, []};

use super::publishing::{moved, users_of};
use super::side::attach;
use cs_names::RunName;
use cs_publish::{NoGate, publish_all, publish_into};
use cs_registry::States;
use cs_shared_runs::{AnyScene, Registry, SharedRegistry, SharedRun};
use std::alloc::Global;
use std::process::Abort;
use std::sync::Wait;
use std::thread::Threads;

/// Attaches ann to the run `a` of the last state.
fn attach_ann<R: Wait + Abort>(rt: &R, alloc: Global, registry: &SharedRegistry<AnyScene>) {
    let name = RunName::read(alloc, b"a").expect(rt, "a value");
    let run = registry.find(rt, alloc, 11, &name).expect(rt, "a run");
    assert!(rt; run.key().number() == 11 && run.key().name() == "a");
    let _pass = attach(rt, alloc, &run, "ann");
}

/// For a server of any scene two workers publish 12 states, and then none; ann is attached to run
/// `a` of state 11, which has that key.
#[test]
fn workers_publish_for_a_server_of_any_scenes(rt: HostRuntime) {
    let alloc = rt.alloc();
    let (scene, users) = (moved(&rt, alloc), users_of(&rt, alloc));
    let registry = SharedRegistry::<AnyScene>::new(alloc, scene, users).expect(&rt, "memory");
    assert!(rt; publish_into(&rt, alloc, &registry, 2, &NoGate) == Ok(12));
    assert!(rt; registry.missing(&rt) == 0);
    assert!(rt; publish_into(&rt, alloc, &registry, 1, &NoGate) == Ok(0));
    attach_ann(&rt, alloc, &registry);
}

/// The states of a scene, all published by two workers.
fn published<R: Threads + Wait + Sync + Abort>(rt: &R, alloc: Global) -> States<SharedRun<AnyScene>>
    ensures { result.runs ≡ [] }
{
    let (scene, users) = (moved(rt, alloc), users_of(rt, alloc));
    // each state of the scene is one that a crash may leave
    let _planned = scene.plan();
    publish_all::<SharedRun<AnyScene>, _, _>(rt, alloc, scene, users, 2, &NoGate).expect(
        rt, "states",
    )
}

/// A registry whose states two workers published is shared by threads: nothing is missing, and ann
/// is attached to run `a` of state 11.
#[test]
fn a_registry_is_made_of_what_workers_published(rt: HostRuntime) {
    let alloc = rt.alloc();
    let states = published(&rt, alloc);
    let registry = SharedRegistry::of(Registry::of(states)).expect(&rt, "memory");
    assert!(rt; registry.missing(&rt) == 0);
    attach_ann(&rt, alloc, &registry);
}
