//! Publishing all states of a scene in a new registry. Library surface: no command calls
//! `publish_all`.
ghost use Rattle.std.specs.Prelude.{◌≡◌, ◌↔◌, false, IfOk, IsErrOf};
ghost use Rattle.std.specs.Arc.{arc_value};
ghost use Rattle.cs_publish.specs.Crews.{all_published, is_crew};
ghost use Rattle.cs_registry.specs.Registries.{AdmitsAll, empty};
ghost use Rattle.cs_shared_runs.specs.Serving.{IsOnly};

use crate::crew::{channel_of_numbers, hire, is_crew, next_made};
use crate::fault::{Lost, PublishAllFault, fault_of};
use crate::gate::Gate;
use crate::stage::{FromWorker, Stage, Staged};
use crossbeam_channel::Receiver;
use cs_plan::Scene;
use cs_registry::{Held, PublishFault, States};
use cs_users::Users;
use std::alloc::Global;
use std::marker::Brand;
use std::sync::{Arc, Wait};
use std::thread;
use std::thread::Threads;

/// Publishes the states that the workers make, until none is missing, and returns the registry. The
/// error is Memory if a worker or the registry runs out of memory, Channel if the workers end too
/// early or send a state twice. An error drops the registry. The registry must be new, and its
/// scene the only one that N names.
fn publish_made<H: Held, N: Staged, R: Wait>(
    rt: &R,
    alloc: Global,
    mut states: States<H>,
    made: Receiver<FromWorker<N>>,
) -> Result<States<H>, Lost>
    requires own { IsOnly N.is_scene states.scene }
    requires new { states ≡ empty states.scene states.users }
    ensures { IfOk result (λ all. all ≡ all_published states.scene states.users) }
{
    // the label names the loop in its proof
    'missing: while states.missing() > 0 {
        let state = next_made(rt, &made)?;
        match states.publish_own(alloc, state.into_state()) {
            Ok(()) => continue,
            Err(PublishFault::Memory) => return Err(Lost::Memory),
            // either would mean that a number went wrong between threads
            Err(PublishFault::Twice | PublishFault::Stranger) => {
                return Err(Lost::Channel);
            }
        }
    }
    Ok(states)
}

/// Starts `workers` workers on these numbers, which are all of the plan's, publishes the states
/// that the workers make, and returns the registry. The error is one of `hire` or of
/// `publish_made`, and drops the registry. The registry must be new, and its scene the only one
/// that N names.
fn hire_and_publish<'s, H: Held, N: Staged, R: Threads + Wait + Sync, G: Gate>(
    rt: &'s R,
    alloc: Global,
    states: States<H>,
    stage: &'s Stage<N>,
    numbers: &'s Receiver<u32>,
    workers: u32,
    gate: &'s G,
) -> Result<States<H>, Lost>
    requires own { IsOnly N.is_scene states.scene }
    requires new { states ≡ empty states.scene states.users }
    ensures { IfOk result (λ all. all ≡ all_published states.scene states.users) }
{
    thread::scope(
        thread::scope_env(),
        rt,
        move |scope| -> Result<States<H>, Lost>
            requires own { IsOnly N.is_scene states.scene }
            requires new { states ≡ empty states.scene states.users }
            ensures { IfOk result (λ all. all ≡ all_published states.scene states.users) }
        {
            let made = hire(scope, rt, alloc, stage, numbers, workers, gate)?;
            publish_made(rt, alloc, states, made)
        },
    )
}

/// A registry of the scene, which is the only one that N names, with all its states published. Its
/// runs have these users. The caller has checked the number of workers (`is_crew`). The error is
/// Memory or Channel, as in `publish_all`, and drops the registry.
fn publish_scene<H: Held, N: Staged, R: Threads + Wait + Sync, G: Gate>(
    rt: &R,
    alloc: Global,
    scene: Arc<Scene>,
    users: Arc<Users>,
    workers: u32,
    gate: &G,
) -> Result<States<H>, Lost>
    requires admitted { AdmitsAll H.admits (arc_value scene) }
    requires suited { H.suits (arc_value users) }
    requires here { N.is_scene (arc_value scene) }
    requires own { IsOnly N.is_scene (arc_value scene) }
    ensures { IfOk result (λ all. all ≡ all_published (arc_value scene) (arc_value users)) }
{
    let count = scene.plan().len() as u32;
    let Ok(own) = Arc::try_clone(&scene) else {
        return Err(Lost::Memory);
    };
    let Ok(states) = States::<H>::new(alloc, own, users) else {
        return Err(Lost::Memory);
    };
    let numbers = channel_of_numbers(rt, alloc, count)?;
    let stage = Stage::<N>::new(scene);
    hire_and_publish(rt, alloc, states, &stage, &numbers, workers, gate)
}

/// Library surface: no command calls it. A registry of the scene with all its states published,
/// whose runs have these users. The states are made by `workers` threads: each takes the next
/// number, asks the gate about it, and makes its state. The error is Workers if their number is 0
/// or above WORKERS, Memory if an allocation fails or a thread can't be started, Channel if a
/// number or a state is lost between threads; no registry is left then. All states of the scene,
/// and the users, must be ones that `H` allows.
pub fn publish_all<H: Held, R: Threads + Wait + Sync, G: Gate>(
    rt: &R,
    alloc: Global,
    scene: Arc<Scene>,
    users: Arc<Users>,
    workers: u32,
    gate: &G,
) -> Result<States<H>, PublishAllFault>
    requires admitted { AdmitsAll H.admits (arc_value scene) }
    requires suited { H.suits (arc_value users) }
    ensures all { IfOk result (λ all. all ≡ all_published (arc_value scene) (arc_value users)) }
    ensures crew { IsErrOf result PublishAllFault.Workers ↔ (is_crew workers ≡ false) }
{
    if !is_crew(workers) {
        return Err(PublishAllFault::Workers);
    }
    publish_scene::<H, Brand, R, G>(rt, alloc, scene, users, workers, gate).map_err(fault_of)
}
