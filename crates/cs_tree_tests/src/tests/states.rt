//! Crash states as lower trees.

use super::runs::BEFORE;
use super::shown::{has_numbers, lines, same_lines};
use super::start::shared;
use cs_apm::laws::rules_are_sentences;
use cs_apm::{build, order_of};
use cs_micro::break_up;
use cs_overlay::Overlay;
use cs_state::{Atlas, StateTree};
use cs_trace::read_trace;
use cs_tree::PlainTree;
use cs_tree_model::TreeRead;
use std::alloc::Global;
use std::process::Abort;
use std::sync::Arc;

/// The state of a set, which must be allowed.
fn built(rt: &impl Abort, alloc: Global, atlas: &Atlas, places: &[u32]) -> StateTree {
    let micros = atlas.micros();
    let order = order_of(alloc, micros).expect(rt, "memory");
    rules_are_sentences(micros);
    assert!(rt; order.is_allowed(places));
    atlas.build(alloc, places).expect(rt, "memory")
}

/// The state of a set of the trace of that text.
fn state_of(rt: &impl Abort, alloc: Global, text: &str, places: &[u32]) -> Arc<StateTree> {
    let trace = read_trace(alloc, text).expect(rt, "a trace");
    let micros = break_up(alloc, &trace).expect(rt, "micro-operations");
    let atlas = Atlas::of(alloc, trace, micros).expect(rt, "memory");
    shared(rt, alloc, built(rt, alloc, &atlas, places))
}

/// The start without two files of the start tree, which the operations make; no state of the
/// members before it has the last file.
const MAKING: &str = r#"{"trace":1,"owner":"cat","group":"staff","mode":"775"}
{"start":"dir","path":"/d","owner":"ann","group":"staff","mode":"755"}
{"start":"dir","path":"/d/s","owner":"ann","group":"ann","mode":"700"}
{"start":"file","path":"/n","owner":"none","group":"none","mode":"600","bytes":""}
{"start":"dir","path":"/p","owner":"ann","group":"staff","mode":"750"}
{"op":"creat","path":"/d/s/z","owner":"ann","group":"ann","mode":"644"}
{"op":"creat","path":"/t","owner":"ann","group":"staff","mode":"664"}
{"op":"write","path":"/t","offset":0,"bytes":"68656c6c6f"}
{"op":"rename","from":"/t","to":"/f"}
{"op":"creat","path":"/b","owner":"bob","group":"bob","mode":"600"}
"#;

/// The start tree as a state: what the members made is numbered among what was there.
pub fn start_state(rt: &impl Abort, alloc: Global) -> Arc<StateTree> {
    state_of(rt, alloc, MAKING, &[0, 1, 2, 3, 4])
}

/// An overlay over the start tree as a state.
pub fn over_state(rt: &impl Abort, alloc: Global) -> Overlay<StateTree> {
    Overlay::over(alloc, start_state(rt, alloc))
}

/// Operations make `/d/s/z`, and `/f` under another name: the state is the start tree.
#[test]
fn members_make_what_the_start_tree_has(rt: HostRuntime) {
    let state = start_state(&rt, rt.alloc());
    same_lines(&rt, rt.alloc(), &*state, &BEFORE);
    has_numbers(&rt, &*state, 7, 6);
}

/// The same set as a plain tree.
fn plain_of(rt: &impl Abort, alloc: Global, text: &str, places: &[u32]) -> PlainTree {
    let trace = read_trace(alloc, text).expect(rt, "a trace");
    let micros = break_up(alloc, &trace).expect(rt, "micro-operations");
    let order = order_of(alloc, &micros).expect(rt, "memory");
    rules_are_sentences(&micros);
    assert!(rt; order.is_allowed(places));
    build(alloc, &micros, &trace, places).expect(rt, "memory")
}

fn text_of<T: TreeRead>(rt: &impl Abort, alloc: Global, tree: &T) -> String {
    lines(rt, alloc, tree)
        .join(alloc, "\n")
        .expect(rt, "memory")
}

fn is_plain(rt: &impl Abort, alloc: Global, places: &[u32]) {
    let state = text_of(rt, alloc, &*state_of(rt, alloc, MAKING, places));
    let plain = text_of(rt, alloc, &plain_of(rt, alloc, MAKING, places));
    assert!(rt; state.as_str() == plain.as_str(), "{state}");
}

const SETS: [&[u32]; 7] = [
    &[],
    &[0],
    &[1],
    &[1, 2],
    &[1, 3, 5],
    &[1, 4],
    &[0, 1, 2, 3, 4, 5],
];

/// The state of a set is equal to a plain tree that the members made: of none, of some, whose bytes
/// no size covers or whose size no bytes fill, and of all.
#[test]
fn a_state_is_equal_to_a_plain_tree_of_its_set(rt: HostRuntime) {
    for places in &SETS {
        is_plain(&rt, rt.alloc(), places);
    }
}
