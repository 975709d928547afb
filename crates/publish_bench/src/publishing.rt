//! All states of a scene, published by workers in a registry that threads share.
ghost use Rattle.std.specs.Arc.{arc_value};
ghost use Rattle.std.specs.Prelude.{List};
ghost use Rattle.cs_shared_runs.specs.Serving.{IsOnly, ServesAll};
ghost use Rattle.cs_users.specs.Rows.{Row as UserRow};

use cs_bench::{Row, Total};
use cs_plan::Scene;
use cs_publish::{NoGate, publish_own_into};
use cs_shared_runs::{ServerBrand, SharedRegistry};
use cs_users::Users;
use std::alloc::Global;
use std::io;
use std::marker::Brand;
use std::rt::Clock;
use std::sync::{Arc, Wait};
use std::thread::Threads;
use std::time::Instant;

/// A registry of the scene with all states published, by so many workers. None if some state is
/// missing then.
fn published<S: ServerBrand, R: Threads + Wait + Sync>(
    rt: &R,
    alloc: Global,
    scene: Arc<Scene>,
    workers: u32,
) -> Option<SharedRegistry<S>>
    requires here { S.is_scene (arc_value scene) }
    requires only { IsOnly S.is_scene (arc_value scene) }
    requires serves { ServesAll S.serves S.loads (arc_value scene) }
    requires loads { (users : List UserRow) → S.loads users }
{
    let users = Users::read(alloc, b"1:ann::\n").ok()?;
    let users = Arc::new(alloc, users).ok()?;
    let registry = SharedRegistry::<S>::new(alloc, scene, users).ok()?;
    publish_own_into(rt, alloc, &registry, workers, &NoGate).ok()?;
    if registry.missing(rt) > 0 {
        return None;
    }
    Some(registry)
}

/// Publishes the states once more. The time to drop the registry doesn't count.
fn time_scene<S: ServerBrand, R: Threads + Wait + Sync + Clock>(
    rt: &R,
    alloc: Global,
    scene: Arc<Scene>,
    workers: u32,
    total: &mut Total,
) -> io::Result<()>
    requires here { S.is_scene (arc_value scene) }
    requires only { IsOnly S.is_scene (arc_value scene) }
    requires serves { ServesAll S.serves S.loads (arc_value scene) }
    requires loads { (users : List UserRow) → S.loads users }
{
    let states = scene.plan().len() as u64;
    let start = Instant::now(rt)?;
    let registry = published::<S, R>(rt, alloc, scene, workers);
    let took = start.elapsed(rt)?;
    let done = match registry {
        Some(_) => states,
        None => 0,
    };
    total.add(took, done);
    Ok(())
}

fn time<R: Threads + Wait + Sync + Clock + AllocGlobal>(
    rt: &R,
    scene: &Arc<Scene>,
    workers: u32,
    total: &mut Total,
) -> io::Result<()> {
    let scene = Arc::try_clone(scene)?;
    time_scene::<Brand, R>(rt, rt.alloc(), scene, workers, total)
}

/// Publishes the states by two workers and by one, in turn and each time in the other order.
pub fn publish<R: Threads + Wait + Sync + Clock + Print + AllocGlobal>(
    rt: &R,
    scene: &Arc<Scene>,
    rounds: u64,
    timed: bool,
) -> io::Result<()> {
    let (mut two, mut one) = (Total::new(), Total::new());
    for round in 0..rounds {
        if round % 2 == 0 {
            time(rt, scene, 2, &mut two)?;
            time(rt, scene, 1, &mut one)?;
        } else {
            time(rt, scene, 1, &mut one)?;
            time(rt, scene, 2, &mut two)?;
        }
    }
    let row = Row {
        what: "states published in a shared registry, by 2 workers",
        beside: "by 1",
        most: 0.65,
        rounds,
    };
    row.print(rt, &two, &one, timed)
}
