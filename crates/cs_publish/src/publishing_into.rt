//! Publishing a scene's states in a shared registry, while other threads use it.
ghost use Rattle.std.specs.Prelude.{◌≡◌, ◌↔◌, ◌≤◌, false, length, IfOk, IsErrOf};
ghost use Rattle.std.specs.Arc.{arc_value};
ghost use Rattle.cs_publish.specs.Crews.{MayPublish, is_crew};
ghost use Rattle.cs_shared_runs.specs.Serving.{IsOnly};

use crate::crew::{channel_of_numbers, hire, is_crew, next_made};
use crate::fault::{Lost, PublishAllFault, fault_of};
use crate::gate::Gate;
use crate::stage::{FromWorker, Stage, Staged};
use crossbeam_channel::Receiver;
use cs_plan::{Published, Scene};
use cs_registry::PublishFault;
use cs_shared_runs::{ServerBrand, SharedRegistry};
use std::alloc::Global;
use std::marker::Brand;
use std::sync::{Arc, Wait};
use std::thread;
use std::thread::Threads;

/// Why it is known that a state's scene is the same as the registry's.
#[derive(Clone, Copy, PartialEq, Eq)]
pub(crate) enum SameScene {
    /// The server's type allows no other scene.
    ByType,
    /// The registry compares the contents of the two scenes.
    ByContent,
}

/// Publishes the next `count` states that the workers make, and takes the registry's lock once for
/// each. Returns how many of them weren't published before. The error is Channel if the workers end
/// too early, or if some state of the registry's plan isn't published even then; Memory if a worker
/// or the registry runs out of memory. What was published before an error stays published. The
/// registry's scene must be the only one that N names; with ByType S must allow no other.
fn publish_made_into<S: ServerBrand, N: Staged, R: Wait>(
    rt: &R,
    alloc: Global,
    registry: &SharedRegistry<S>,
    same_scene: SameScene,
    count: u32,
    made: Receiver<FromWorker<N>>,
) -> Result<u32, Lost>
    requires may { MayPublish S.is_scene same_scene registry.now }
    requires own { IsOnly N.is_scene registry.now }
    ensures { IfOk result (λ published. published ≤ count) }
{
    let mut published = 0;
    for _made in 0..count {
        let state = next_made(rt, &made)?;
        published += publish_one(rt, alloc, registry, same_scene, state.into_state())?;
    }
    if registry.missing(rt) > 0 {
        return Err(Lost::Channel);
    }
    Ok(published)
}

/// Publishes a state of the registry's scene. Returns how many states that adds: 1, or 0 if the
/// state was published before. The error is Memory, or Channel if the state is of another scene; it
/// drops the state, and leaves the registry unchanged. With ByType the type S must allow no other
/// scene.
fn publish_one<S: ServerBrand, R: Wait>(
    rt: &R,
    alloc: Global,
    registry: &SharedRegistry<S>,
    same_scene: SameScene,
    state: Published,
) -> Result<u32, Lost>
    requires may { MayPublish S.is_scene same_scene registry.now }
    requires own { state.scene ≡ registry.now }
    ensures { IfOk result (λ one. one ≤ 1) }
{
    let done = match same_scene {
        SameScene::ByType => registry.publish_own(rt, alloc, state),
        SameScene::ByContent => registry.publish(rt, alloc, state),
    };
    match done {
        Ok(()) => Ok(1),
        Err(PublishFault::Twice) => Ok(0),
        Err(PublishFault::Memory) => Err(Lost::Memory),
        // not unreachable by contract: none says which scene is under the lock, so a comparison of
        // contents might fail
        Err(PublishFault::Stranger) => Err(Lost::Channel),
    }
}

/// Starts `workers` workers on these numbers, and publishes the first `count` states that the
/// workers make. Returns how many of these weren't published before. What was published before an
/// error stays published. It requires what `publish_made_into` requires.
fn hire_and_publish_into<'s, S: ServerBrand, N: Staged, R: Threads + Wait + Sync, G: Gate>(
    rt: &'s R,
    alloc: Global,
    registry: &'s SharedRegistry<S>,
    same_scene: SameScene,
    count: u32,
    stage: &'s Stage<N>,
    numbers: &'s Receiver<u32>,
    workers: u32,
    gate: &'s G,
) -> Result<u32, Lost>
    requires may { MayPublish S.is_scene same_scene registry.now }
    requires own { IsOnly N.is_scene registry.now }
    ensures { IfOk result (λ published. published ≤ count) }
{
    thread::scope(
        thread::scope_env(),
        rt,
        move |scope| -> Result<u32, Lost>
            requires may { MayPublish S.is_scene same_scene registry.now }
            requires own { IsOnly N.is_scene registry.now }
            ensures { IfOk result (λ published. published ≤ count) }
        {
            let made = hire(scope, rt, alloc, stage, numbers, workers, gate)?;
            publish_made_into(rt, alloc, registry, same_scene, count, made)
        },
    )
}

/// Publishes all states of the scene that N names, which is the registry's. Returns how many
/// weren't published before. The caller has checked the number of workers (`is_crew`). What was
/// published before an error stays published.
fn publish_scene_into<S: ServerBrand, N: Staged, R: Threads + Wait + Sync, G: Gate>(
    rt: &R,
    alloc: Global,
    registry: &SharedRegistry<S>,
    same_scene: SameScene,
    scene: Arc<Scene>,
    workers: u32,
    gate: &G,
) -> Result<u32, Lost>
    requires may { MayPublish S.is_scene same_scene registry.now }
    requires here { N.is_scene (arc_value scene) }
    requires own { IsOnly N.is_scene registry.now }
    ensures { IfOk result (λ published. published ≤ length (arc_value scene).plan) }
{
    let count = scene.plan().len() as u32;
    let numbers = channel_of_numbers(rt, alloc, count)?;
    let stage = Stage::<N>::new(scene);
    hire_and_publish_into(
        rt, alloc, registry, same_scene, count, &stage, &numbers, workers, gate,
    )
}

/// Publishes all states of the registry's scene, for `publish_into` and `publish_own_into`, which
/// differ only in `same_scene`: why a made state is known to be of the registry's scene. Returns
/// how many weren't published before. The error is Workers if `is_crew` refuses their number; what
/// was published before any other error stays published. With ByType the type S must allow no other
/// scene.
fn publish_by<S: ServerBrand, R: Threads + Wait + Sync, G: Gate>(
    rt: &R,
    alloc: Global,
    registry: &SharedRegistry<S>,
    same_scene: SameScene,
    workers: u32,
    gate: &G,
) -> Result<u32, PublishAllFault>
    requires { MayPublish S.is_scene same_scene registry.now }
    ensures few { IfOk result (λ published. published ≤ length registry.now.plan) }
    ensures crew { IsErrOf result PublishAllFault.Workers ↔ (is_crew workers ≡ false) }
{
    if !is_crew(workers) {
        return Err(PublishAllFault::Workers);
    }
    let Ok(scene) = Arc::try_clone(registry.scene()) else {
        return Err(PublishAllFault::Memory);
    };
    publish_scene_into::<S, Brand, R, G>(
        rt, alloc, registry, same_scene, scene, workers, gate,
    ).map_err(fault_of)
}

/// Library surface: no command calls it. Publishes all states of the registry's scene, made by
/// `workers` threads, while other threads may use the registry. Returns how many it published; a
/// state that is published already is skipped. Each is published as soon as it is made. The faults
/// are those of `publish_all`; what was published before a fault stays published. The registry
/// compares the content of each state's scene with its own, which is slow for a large trace.
pub fn publish_into<S: ServerBrand, R: Threads + Wait + Sync, G: Gate>(
    rt: &R,
    alloc: Global,
    registry: &SharedRegistry<S>,
    workers: u32,
    gate: &G,
) -> Result<u32, PublishAllFault>
    ensures few { IfOk result (λ published. published ≤ length registry.now.plan) }
    ensures crew { IsErrOf result PublishAllFault.Workers ↔ (is_crew workers ≡ false) }
{
    publish_by(rt, alloc, registry, SameScene::ByContent, workers, gate)
}

/// Publishes as `publish_into` does, with the same faults, in a registry whose type allows no other
/// scene, so that no contents are compared. `crashfs serve` calls this one.
pub fn publish_own_into<S: ServerBrand, R: Threads + Wait + Sync, G: Gate>(
    rt: &R,
    alloc: Global,
    registry: &SharedRegistry<S>,
    workers: u32,
    gate: &G,
) -> Result<u32, PublishAllFault>
    requires { IsOnly S.is_scene registry.now }
    ensures few { IfOk result (λ published. published ≤ length registry.now.plan) }
    ensures crew { IsErrOf result PublishAllFault.Workers ↔ (is_crew workers ≡ false) }
{
    publish_by(rt, alloc, registry, SameScene::ByType, workers, gate)
}
