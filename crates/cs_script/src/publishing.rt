//! The world of a scene, with all of its states published.
ghost use Rattle.std.specs.Prelude.{◌≡◌, IfErr, IfOk, OnOk};
ghost use Rattle.cs_script.specs.Scripted.{served_world, with_first};
ghost use Rattle.cs_inputs.specs.Written.{IsOfNoStream};

use cs_inputs::ProgramFault;
use cs_plan::Scene;
use cs_users::Users;
use cs_world::{Reply, Step, World};
use std::alloc::Global;
use std::sync::Arc;

/// Publishes the states with numbers less than `count`. The world is new, and its scene has at
/// least `count` states, so the only cause of a refusal is out of memory: it ends the call with
/// Memory, and the states before it stay published.
fn publish_each(alloc: Global, world: &mut World, count: u32) -> Result<(), ProgramFault>
    ensures published { OnOk result (world.new ≡ with_first world.old count) }
    ensures fault { IfErr result IsOfNoStream }
{
    for number in 0..count {
        match world.step(alloc, Step::Publish(number)) {
            Reply::Published => {}
            Reply::NotPublished(_) => return Err(ProgramFault::Memory),
            // no publish has these replies
            Reply::Reloaded | Reply::NotReloaded | Reply::Connection(_) => unreachable!(),
        }
    }
    Ok(())
}

/// A world of the scene's states, all of them published, for these users. It has no run, and no
/// connection has a session. The only error is Memory.
pub fn world_of(alloc: Global, scene: Scene, users: Users) -> Result<World, ProgramFault>
    ensures world { IfOk result (λ world. world ≡ served_world scene users) }
    ensures fault { IfErr result IsOfNoStream }
{
    // a plan has at most PLAN_STATES states
    let count = scene.plan().len() as u32;
    let (Ok(scene), Ok(users)) = (Arc::new(alloc, scene), Arc::new(alloc, users)) else {
        return Err(ProgramFault::Memory);
    };
    let Ok(mut world) = World::new(alloc, scene, users) else {
        return Err(ProgramFault::Memory);
    };
    publish_each(alloc, &mut world, count)?;
    Ok(world)
}
