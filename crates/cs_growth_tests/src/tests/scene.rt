//! The users of the worked examples, a trace that has the start tree, and a world of both.

use cs_plan::Scene;
use cs_trace::read_trace;
use cs_users::Users;
use cs_world::{Step, World};
use std::alloc::Global;
use std::sync::Arc;

const USERS: &[u8] = b"1:ann::\n2:bob::\n3:cat::\n4:staff:ann:ann,bob,zed\n5:none::\n";

pub fn start_users(alloc: Global) -> Option<Users> {
    Users::read(alloc, USERS).ok()
}

const TRACE: &str = r#"{"trace":1,"owner":"cat","group":"staff","mode":"775"}
{"start":"dir","path":"/d","owner":"ann","group":"staff","mode":"755"}
{"start":"dir","path":"/d/s","owner":"ann","group":"ann","mode":"700"}
{"start":"file","path":"/d/s/z","owner":"ann","group":"ann","mode":"644","bytes":""}
{"start":"file","path":"/f","owner":"ann","group":"staff","mode":"664","bytes":"68656c6c6f"}
{"start":"file","path":"/n","owner":"none","group":"none","mode":"600","bytes":""}
{"start":"dir","path":"/p","owner":"ann","group":"staff","mode":"750"}
"#;

/// The scene of a trace that has the start tree and no operation.
pub fn start_scene(alloc: Global) -> Option<Scene> {
    let trace = read_trace(alloc, TRACE).ok()?;
    Scene::of(alloc, trace, false, Vec::new(alloc)).ok()
}

/// That scene and the users, as a world shares them.
pub fn of_world(alloc: Global) -> Option<(Arc<Scene>, Arc<Users>)> {
    let scene = Arc::new(alloc, start_scene(alloc)?).ok()?;
    let users = Arc::new(alloc, start_users(alloc)?).ok()?;
    Some((scene, users))
}

/// A world whose state 0 is published.
pub fn start_world(alloc: Global) -> Option<World> {
    let (scene, users) = of_world(alloc)?;
    let mut world = World::new(alloc, scene, users).ok()?;
    world.step(alloc, Step::Publish(0));
    Some(world)
}
