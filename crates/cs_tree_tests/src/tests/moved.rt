//! The first states with equal trees, where directories are made again and moved.
ghost use Rattle.std.specs.Prelude.{◌<◌, length};
ghost use Rattle.std.specs.Arc.{arc_value};

use super::same::{first_by_trees, is_seen, states_of};
use cs_plan::Scene;
use cs_same_states::first_same;
use std::alloc::Global;
use std::process::Abort;
use std::sync::Arc;

const HEADER: &str =
    r#"{"trace":4,"profile":"blocks","block":4096,"owner":"cat","group":"staff","mode":"775"}"#;

const DIR_X: &str = r#"{"start":"dir","path":"/x","owner":"ann","group":"staff","mode":"755"}"#;

const DIR_Z: &str = r#"{"start":"dir","path":"/z","owner":"ann","group":"staff","mode":"755"}"#;

const FILE_XF: &str =
    r#"{"start":"file","path":"/x/f","owner":"bob","group":"bob","mode":"644","text":"q"}"#;

const LINK_ZF: &str =
    r#"{"start":"symlink","path":"/z/f","owner":"bob","group":"bob","target":"q"}"#;

/// The states of a trace of these lines, with holes.
fn states_of_lines(rt: &impl Abort, alloc: Global, lines: &[&str]) -> Arc<Scene> {
    let text = lines.join(alloc, "\n").expect(rt, "memory");
    states_of(rt, alloc, &text, true)
}

/// The first state with an equal tree is found for each state: by digests, and by whole trees.
fn digests_find_all(rt: &impl Abort, alloc: Global, lines: &[&str]) -> Arc<Scene> {
    let scene = states_of_lines(rt, alloc, lines);
    let firsts = first_same(alloc, &scene).expect(rt, "memory");
    for number in 0..scene.plan().len() as u32 {
        let first = first_by_trees(rt, alloc, &scene, number);
        let found = firsts.get(number as usize).copied().unwrap_or(number);
        assert!(rt; found == first, "{number}: {found}, {first}");
    }
    scene
}

/// The state of the number has the tree of an earlier one, and is seen to have it or isn't.
fn expect_seen(
    rt: &impl Abort,
    alloc: Global,
    scene: &Arc<Scene>,
    first: u32,
    number: u32,
    seen: bool,
)
    requires { number < length (arc_value scene.now).plan }
{
    assert!(rt; first_by_trees(rt, alloc, scene, number) == first);
    assert!(rt; is_seen(rt, alloc, scene, first, number) == seen);
}

/// A directory is removed and made again at its path: it has another number, and the same tree is
/// left. Entries of the one and of the other are at the same paths. That isn't seen by numbers.
#[test]
fn a_directory_that_is_made_again_leaves_the_same_tree(rt: HostRuntime) {
    let lines = [
        HEADER,
        DIR_X,
        r#"{"op":"creat","path":"/x/g","owner":"eve","group":"eve","mode":"600"}"#,
        r#"{"op":"unlink","path":"/x/g"}"#,
        r#"{"op":"rmdir","path":"/x"}"#,
        r#"{"op":"mkdir","path":"/x","owner":"ann","group":"staff","mode":"755"}"#,
        r#"{"op":"creat","path":"/x/g","owner":"eve","group":"eve","mode":"600"}"#,
    ];
    let scene = digests_find_all(&rt, rt.alloc(), &lines);
    assert!(rt; scene.plan().len() > 5);
    expect_seen(&rt, rt.alloc(), &scene, 0, 2, true);
    expect_seen(&rt, rt.alloc(), &scene, 0, 4, false);
    expect_seen(&rt, rt.alloc(), &scene, 1, 5, false);
}

/// Two directories change places: what no operation touches in the one is what operations made in
/// the other.
#[test]
fn directories_that_change_places_leave_the_same_tree(rt: HostRuntime) {
    let lines = [
        HEADER,
        DIR_X,
        DIR_Z,
        FILE_XF,
        r#"{"op":"creat","path":"/z/f","owner":"bob","group":"bob","mode":"644"}"#,
        r#"{"op":"write","path":"/z/f","offset":0,"text":"q"}"#,
        r#"{"op":"rename","from":"/x","to":"/t"}"#,
        r#"{"op":"rename","from":"/z","to":"/x"}"#,
        r#"{"op":"rename","from":"/t","to":"/z"}"#,
    ];
    let scene = digests_find_all(&rt, rt.alloc(), &lines);
    assert!(rt; scene.plan().len() > 6);
    expect_seen(&rt, rt.alloc(), &scene, 3, 6, false);
}

/// A symbolic link and a file with the same bytes aren't the same, and neither are directories with
/// other permissions, wherever they are.
#[test]
fn kinds_and_rights_are_told_apart(rt: HostRuntime) {
    let lines = [
        HEADER,
        DIR_X,
        DIR_Z,
        FILE_XF,
        LINK_ZF,
        r#"{"op":"rename","from":"/x","to":"/t"}"#,
        r#"{"op":"rename","from":"/z","to":"/x"}"#,
        r#"{"op":"rename","from":"/t","to":"/z"}"#,
        r#"{"op":"chmod","path":"/z","mode":"700"}"#,
        r#"{"op":"chmod","path":"/z","mode":"755"}"#,
        r#"{"op":"chmod","path":"/","mode":"700"}"#,
        r#"{"op":"unlink","path":"/z/f"}"#,
        r#"{"op":"symlink","path":"/z/f","owner":"bob","group":"bob","target":"q"}"#,
    ];
    let scene = digests_find_all(&rt, rt.alloc(), &lines);
    assert!(rt; scene.plan().len() > 7);
    assert!(rt; first_by_trees(&rt, rt.alloc(), &scene, 3) == 3);
    assert!(rt; first_by_trees(&rt, rt.alloc(), &scene, 4) == 4);
    assert!(rt; first_by_trees(&rt, rt.alloc(), &scene, 6) == 6);
    expect_seen(&rt, rt.alloc(), &scene, 3, 5, true);
    assert!(rt; !is_seen(&rt, rt.alloc(), &scene, 3, 4));
    assert!(rt; !is_seen(&rt, rt.alloc(), &scene, 5, 6));
    assert!(rt; !is_seen(&rt, rt.alloc(), &scene, 0, 3));
}

/// A file that is written back and moved.
#[test]
fn a_file_that_is_written_back_is_the_same_where_it_was(rt: HostRuntime) {
    let lines = [
        HEADER,
        r#"{"start":"file","path":"/w","owner":"cat","group":"staff","mode":"644","text":"o"}"#,
        r#"{"op":"write","path":"/w","offset":0,"text":"x"}"#,
        r#"{"op":"write","path":"/w","offset":0,"text":"o"}"#,
        r#"{"op":"rename","from":"/w","to":"/v"}"#,
    ];
    let scene = digests_find_all(&rt, rt.alloc(), &lines);
    assert!(rt; scene.plan().len() > 2);
    expect_seen(&rt, rt.alloc(), &scene, 0, 2, true);
}
