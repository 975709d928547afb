//! Scenes that differ in what no list of their states shows, and faults that no command meets.

use cs_plan::{MakeFault, Scene, SceneFault};
use cs_trace::{TraceFault, TraceFaultKind, read_trace};
use std::alloc::Global;
use std::fmt::Display;
use std::process::Abort;

const FIRST: &str = r#"{"trace":1,"owner":"cat","group":"staff","mode":"775"}"#;

const BLOCKS: &str = r#"{"trace":2,"profile":"blocks","owner":"cat","group":"staff","mode":"775"}"#;

const ORDERED: &str =
    r#"{"trace":2,"profile":"ordered","owner":"cat","group":"staff","mode":"775"}"#;

const THIRD: &str =
    r#"{"trace":3,"profile":"blocks","block":4096,"owner":"cat","group":"staff","mode":"775"}"#;

const HALVES: &str =
    r#"{"trace":3,"profile":"blocks","block":2048,"owner":"cat","group":"staff","mode":"775"}"#;

const MADE_A: &str = r#"{"op":"creat","path":"/a","owner":"ann","group":"staff","mode":"644"}"#;

/// A write within one block of either size.
const WRITTEN: &str =
    r#"{"start":"file","path":"/f","owner":"ann","group":"staff","mode":"644","text":"x"}
{"op":"write","path":"/f","offset":510,"text":"abcd"}"#;

/// The scene of a header and these lines, with holes.
fn scene_of(rt: &impl Abort, alloc: Global, header: &str, lines: &str) -> Scene {
    let text = [header, lines].join(alloc, "\n").expect(rt, "memory");
    let trace = read_trace(alloc, text.as_str()).expect(rt, "a trace");
    Scene::of(alloc, trace, true, Vec::new(alloc)).expect(rt, "a scene")
}

/// The same lines after two headers have plans of one length, and other contents.
fn are_others(rt: &impl Abort, alloc: Global, first: &str, second: &str, lines: &str) {
    let scene = scene_of(rt, alloc, first, lines);
    let other = scene_of(rt, alloc, second, lines);
    assert!(rt; scene.plan().len() == other.plan().len());
    assert!(rt; !scene.has_content_of(&other));
    assert!(rt; scene.has_content_of(&scene_of(rt, alloc, first, lines)));
}

/// The same operations with entries kept in order are another scene, even with the same plan.
#[test]
fn a_scene_of_the_other_profile_is_another(rt: HostRuntime) {
    are_others(&rt, rt.alloc(), BLOCKS, ORDERED, MADE_A);
}

/// The same operations with the same plan are another scene in another version.
#[test]
fn a_scene_of_another_version_is_another(rt: HostRuntime) {
    are_others(&rt, rt.alloc(), FIRST, BLOCKS, MADE_A);
    are_others(&rt, rt.alloc(), BLOCKS, THIRD, MADE_A);
}

/// The write lies within one block of either size, so the plans are equal.
#[test]
fn a_scene_of_another_block_size_is_another(rt: HostRuntime) {
    are_others(&rt, rt.alloc(), THIRD, HALVES, WRITTEN);
}

/// A file that is made has two states: past these there is no recipe, and nothing is said.
#[test]
fn a_scene_says_nothing_past_its_plan(rt: HostRuntime) {
    let scene = scene_of(&rt, rt.alloc(), FIRST, MADE_A);
    assert!(rt; scene.says(1) == Some(0) && scene.says(2).is_none());
    assert!(rt; scene.plan().recipe(1).is_some() && scene.plan().recipe(2).is_none());
    assert!(rt; scene.order().len() == scene.micros().ops().len());
    assert!(rt; scene.trace().operations().len() == 1);
}

fn prints<T: Display>(rt: &impl Abort, alloc: Global, fault: &T, wanted: &str) {
    let printed = fault.to_string(alloc).expect(rt, "memory");
    assert!(rt; printed.as_str() == wanted, "{printed}");
}

/// A fault of memory prints `out of memory`, without a line.
#[test]
fn a_fault_of_memory_is_printed_without_a_line(rt: HostRuntime) {
    let fault = TraceFault {
        line: 5,
        kind: TraceFaultKind::Memory,
    };
    prints(&rt, rt.alloc(), &fault, "out of memory");
    prints(&rt, rt.alloc(), &SceneFault::Memory, "out of memory");
    prints(&rt, rt.alloc(), &MakeFault::Memory, "out of memory");
}
