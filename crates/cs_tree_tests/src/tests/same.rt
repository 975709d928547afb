//! The first states with equal trees, as two calls find them that no command makes.
ghost use Rattle.std.specs.Prelude.{◌<◌, length};
ghost use Rattle.std.specs.Arc.{arc_value};

use cs_plan::Scene;
use cs_same_states::{Parts, are_same_states, are_seen_same};
use cs_trace::read_trace;
use std::alloc::Global;
use std::process::Abort;
use std::sync::Arc;

/// A store that writes a change into its log and then into a new table.
const STORE: &str = r#"{"trace":1,"owner":"kv","group":"kv","mode":"750"}
{"start":"file","path":"/table","owner":"kv","group":"kv","mode":"640","bytes":"613d310a"}

{"op":"creat","path":"/log","owner":"kv","group":"kv","mode":"640"}
{"op":"fsync","path":"/"}
{"op":"write","path":"/log","offset":0,"bytes":"613d320a"}
{"op":"fsync","path":"/log"}
{"op":"say","text":"a=2 is stored"}
{"op":"mkdir","path":"/tmp","owner":"kv","group":"kv","mode":"700"}
{"op":"creat","path":"/tmp/table","owner":"kv","group":"kv","mode":"640"}
{"op":"write","path":"/tmp/table","offset":0,"bytes":"613d320a"}
{"op":"fsync","path":"/tmp/table"}
{"op":"rename","from":"/tmp/table","to":"/table"}
{"op":"fsync","path":"/"}
{"op":"rmdir","path":"/tmp"}
{"op":"truncate","path":"/log","length":0}
{"op":"sync"}
"#;

/// Computed by a second implementation of the formats, which compares whole trees.
const FIRSTS: [u32; 26] = [
    0, 1, 2, 3, 3, 5, 6, 7, 8, 9, 10, 11, 1, 5, 6, 7, 3, 5, 8, 3, 5, 6, 9, 10, 11, 25,
];

/// Each way in which operations leave the tree as it was: bytes that are there already, or are
/// written back, a file that is cut and filled again, one that replaces an equal one, one that is
/// removed, and permissions that are set back.
const BACK: &str = r#"{"trace":2,"profile":"blocks","owner":"kv","group":"kv","mode":"750"}
{"start":"file","path":"/data","owner":"kv","group":"kv","mode":"640","bytes":"616263"}

{"op":"write","path":"/data","offset":0,"bytes":"61"}
{"op":"write","path":"/data","offset":1,"bytes":"78"}
{"op":"write","path":"/data","offset":1,"bytes":"62"}
{"op":"truncate","path":"/data","length":1}
{"op":"write","path":"/data","offset":1,"bytes":"6263"}
{"op":"chmod","path":"/data","mode":"600"}
{"op":"chmod","path":"/data","mode":"640"}
{"op":"creat","path":"/new","owner":"kv","group":"kv","mode":"640"}
{"op":"write","path":"/new","offset":0,"bytes":"616263"}
{"op":"rename","from":"/new","to":"/data"}
{"op":"creat","path":"/gone","owner":"kv","group":"kv","mode":"640"}
{"op":"write","path":"/gone","offset":0,"bytes":"7a"}
{"op":"unlink","path":"/gone"}
{"op":"write","path":"/data","offset":2,"bytes":"63"}
"#;

/// By hand. New states are those with the wrong letter, the file that is cut or has zeros, the
/// mode, and the second file.
const BACK_FIRSTS: [u32; 18] = [0, 0, 2, 0, 4, 5, 0, 7, 0, 9, 10, 11, 0, 13, 14, 15, 0, 0];

/// The first state with an equal tree, found by comparing whole trees.
pub fn first_by_trees(rt: &impl Abort, alloc: Global, scene: &Arc<Scene>, number: u32) -> u32
    requires { number < length (arc_value scene.now).plan }
{
    for other in 0..number {
        if are_same_states(alloc, scene, other, number).expect(rt, "memory") {
            return other;
        }
    }
    number
}

/// Whether the state is seen to have the tree of another; false if there is no other.
pub fn is_seen(rt: &impl Abort, alloc: Global, scene: &Arc<Scene>, other: u32, number: u32) -> bool
    requires { number < length (arc_value scene.now).plan }
{
    if other as usize >= scene.plan().len() {
        return false;
    }
    let parts = Parts::of(alloc, scene).expect(rt, "memory");
    are_seen_same(alloc, scene, &parts, other, number).expect(rt, "memory")
}

const IDLE_HEAD: &str = r#"{"trace":1,"owner":"kv","group":"kv","mode":"750"}
{"start":"file","path":"/data","owner":"kv","group":"kv","mode":"640","bytes":""#;

/// Writes of a zero into each of eight blocks.
const IDLE_TAIL: &str = r#""}
{"op":"write","path":"/data","offset":0,"bytes":"00"}
{"op":"write","path":"/data","offset":4096,"bytes":"00"}
{"op":"write","path":"/data","offset":8192,"bytes":"00"}
{"op":"write","path":"/data","offset":12288,"bytes":"00"}
{"op":"write","path":"/data","offset":16384,"bytes":"00"}
{"op":"write","path":"/data","offset":20480,"bytes":"00"}
{"op":"write","path":"/data","offset":24576,"bytes":"00"}
{"op":"write","path":"/data","offset":28672,"bytes":"00"}
"#;

/// A file of eight blocks of zeros, into each of which a zero is written.
fn idle_text(rt: &impl Abort, alloc: Global) -> String {
    let zeros = "00".repeat(alloc, 32_768).expect(rt, "memory");
    let pieces = [IDLE_HEAD, zeros.as_str(), IDLE_TAIL];
    pieces.concat(alloc).expect(rt, "memory")
}

/// The states of a trace, with holes if they are asked for.
pub fn states_of(rt: &impl Abort, alloc: Global, text: &str, holes: bool) -> Arc<Scene> {
    let trace = read_trace(alloc, text).expect(rt, "a trace");
    let scene = Scene::of(alloc, trace, holes, Vec::new(alloc)).expect(rt, "a scene");
    Arc::new(alloc, scene).expect(rt, "memory")
}

/// The state has that first one, seen without the trees and by whole trees.
fn expect_first(rt: &impl Abort, alloc: Global, scene: &Arc<Scene>, number: u32, first: u32)
    requires { number < length (arc_value scene.now).plan }
{
    assert!(rt; is_seen(rt, alloc, scene, first, number));
    assert!(rt; first_by_trees(rt, alloc, scene, number) == first);
}

/// Each state has the first of its number, without the trees and by whole trees.
fn expect_firsts(rt: &impl Abort, alloc: Global, scene: &Arc<Scene>, firsts: &[u32]) {
    assert!(rt; scene.plan().len() == firsts.len());
    for number in 0..scene.plan().len() as u32 {
        let first = firsts.get(number as usize).copied().unwrap_or(number);
        expect_first(rt, alloc, scene, number, first);
    }
}

/// The 26 states of the worked trace: the first states with equal trees, without the trees and by
/// whole trees.
#[test]
fn whole_trees_show_the_first_equal_states(rt: HostRuntime) {
    let scene = states_of(&rt, rt.alloc(), STORE, true);
    expect_firsts(&rt, rt.alloc(), &scene, &FIRSTS);
}

/// Bytes that are written back, a file that is cut and filled again, one that replaces an equal
/// one, one that is removed, permissions that are set back: the same.
#[test]
fn whole_trees_show_what_is_written_back(rt: HostRuntime) {
    let scene = states_of(&rt, rt.alloc(), BACK, false);
    expect_firsts(&rt, rt.alloc(), &scene, &BACK_FIRSTS);
}

/// There are nine prefixes, and for each of the first seven writes those of the later ones.
const ALL_EQUAL: [u32; 37] = [0; 37];

/// A zero is written into each of eight blocks of zeros: all 37 states have the first one's tree.
#[test]
fn whole_trees_show_writes_that_change_nothing(rt: HostRuntime) {
    let text = idle_text(&rt, rt.alloc());
    let scene = states_of(&rt, rt.alloc(), &text, true);
    expect_firsts(&rt, rt.alloc(), &scene, &ALL_EQUAL);
}
