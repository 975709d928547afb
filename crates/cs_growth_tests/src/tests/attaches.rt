//! Attaches that are refused after their run was found.

use super::scene::start_world;
use cs_fids::NOFID;
use cs_names::Text;
use cs_session::{AttachMessage, Reply, TableStep};
use cs_test_memory::Hoard;
use cs_world::{ConnectionStep, Step, World};
use std::alloc::Global;
use std::process::Abort;

/// A step of connection 0.
fn taken(step: ConnectionStep) -> Step {
    Step::On {
        conn: 0,
        now: 7,
        step,
    }
}

fn text(rt: &impl Abort, alloc: Global, text: &str) -> Text {
    Text::copy_of(alloc, text).expect(rt, "memory")
}

fn begin(rt: &impl Abort, alloc: Global) -> Step {
    let change = TableStep::Version {
        msize: 8192,
        version: text(rt, alloc, "9P2000"),
    };
    taken(ConnectionStep::Table(change))
}

fn find(rt: &impl Abort, alloc: Global) -> Step {
    let message = AttachMessage {
        fid: 0,
        afid: NOFID,
        uname: text(rt, alloc, "ann"),
        aname: text(rt, alloc, "0/x"),
    };
    taken(ConnectionStep::Find(message))
}

fn finds(rt: &impl Abort, alloc: Global, world: &mut World) -> bool {
    let reply = world.step(alloc, find(rt, alloc));
    matches!(reply, cs_world::Reply::Connection(Reply::Found))
}

/// Attaches to the run that was found with no byte left, and returns whether that is out of memory.
fn is_refused(rt: &impl Abort, alloc: Global, hoard: &mut Hoard, world: &mut World) -> bool {
    hoard.close(alloc, 0).expect(rt, "memory");
    let reply = world.step(alloc, taken(ConnectionStep::Attach));
    hoard.open(alloc);
    reply.says_out_of_memory()
}

/// How many of 64 attaches were found and refused.
fn refusals(rt: &impl Abort, alloc: Global, hoard: &mut Hoard, world: &mut World) -> u32 {
    let mut refused = 0u32;
    for _ in 0..64u32 {
        if finds(rt, alloc, world) && is_refused(rt, alloc, hoard, world) {
            refused = refused.saturating_add(1);
        }
    }
    refused
}

/// Has 64 attaches refused: how many were, and the reply to the next find.
fn spend(rt: &impl Abort, alloc: Global, hoard: &mut Hoard) -> String {
    let mut world = start_world(alloc).expect(rt, "a world");
    world.step(alloc, begin(rt, alloc));
    let refused = refusals(rt, alloc, hoard, &mut world);
    let last = world.step(alloc, find(rt, alloc));
    format!(in alloc; "{refused} {last:?}").expect(rt, "memory")
}

/// 64 attaches are refused after their finds: the next find is A5.
#[test]
fn an_attach_that_is_refused_is_among_the_64_of_its_run(rt: HostRuntime) {
    let mut hoard = Hoard::new(rt.alloc()).expect(&rt, "memory");
    let told = spend(&rt, rt.alloc(), &mut hoard);
    assert!(rt; told.as_str() == "64 Connection(Error(A5))", "{told}");
}
