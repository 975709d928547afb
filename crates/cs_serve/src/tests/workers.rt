//! Workers that publish for a server.
ghost use Rattle.std.specs.Arc.{arc_value};
ghost use Rattle.std.specs.Prelude.{List};
ghost use Rattle.cs_shared_runs.specs.Serving.{IsOnly, ServesAll};
ghost use Rattle.cs_users.specs.Rows.{Row};

use super::fixture::{TRACE, comes, inputs_of, scene_in};
use crate::serving::server_of;
use cs_plan::Scene;
use cs_publish::{Gate, publish_own_into};
use cs_shared_runs::ServerBrand;
use std::alloc::Global;
use std::marker::Brand;
use std::process::Abort;
use std::sync::atomic::{AtomicBool, Ordering};
use std::sync::{Arc, Wait};
use std::thread::Threads;

/// A gate that blocks the worker of state 0 until another worker begins state 1.
#[derive(Drop)]
struct UntilOne {
    begun: AtomicBool,
    came: AtomicBool,
}

impl Gate for UntilOne {
    fn before_make(&self, number: u32) {
        if number == 1 {
            self.begun.store(true, Ordering::SeqCst);
        } else {
            let came = comes(|| self.begun.load(Ordering::SeqCst));
            self.came.store(came, Ordering::SeqCst);
        }
    }
}

/// Two workers publish the states of the scene for a server.
fn two_publish<S: ServerBrand, R: Threads + Wait + Sync + Abort>(
    rt: &R,
    alloc: Global,
    scene: Arc<Scene>,
    gate: &UntilOne,
)
    requires here { S.is_scene (arc_value scene) }
    requires only { IsOnly S.is_scene (arc_value scene) }
    requires serves { ServesAll S.serves S.loads (arc_value scene) }
    requires loads { (users : List Row) → S.loads users }
{
    let server = server_of::<S>(alloc, scene, &inputs_of(TRACE, false)).ok();
    let server = server.expect(rt, "the server");
    let registry = server.registry();
    assert!(rt; publish_own_into(rt, alloc, registry, 2, gate) == Ok(2));
    assert!(rt; registry.missing(rt) == 0);
}

/// Two workers publish the two states of a server: the one that begins state 0 waits until state 1
/// is begun, and it is, within ten million looks.
#[test]
fn two_workers_publish_for_a_server_at_once(rt: HostRuntime) {
    let gate = UntilOne {
        begun: AtomicBool::new(false),
        came: AtomicBool::new(false),
    };
    let scene = scene_in(rt.alloc()).expect(&rt, "the scene");
    two_publish::<Brand, HostRuntime>(&rt, rt.alloc(), scene, &gate);
    assert!(rt; gate.came.load(Ordering::SeqCst));
}
