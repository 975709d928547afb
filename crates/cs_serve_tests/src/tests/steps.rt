//! Worked examples of steps and messages: states that are published, runs by their keys, and
//! connections that take their turns.
use crate::tests::stepping::step_of;
use cs_names::RunName;
use cs_plan::Scene;
use cs_trace::read_trace;
use cs_users::Users;
use cs_world::{Step, World};
use std::alloc::Global;
use std::process::Abort;
use std::sync::Arc;

const USERS: &[u8] = b"1:ann::\n2:bob::\n3:cat::\n4:staff:ann:ann,bob,zed\n";

const TRACE: &str = r#"{"trace":1,"owner":"cat","group":"staff","mode":"775"}
{"start":"file","path":"/f","owner":"ann","group":"staff","mode":"666","bytes":"68656c6c6f"}
"#;

/// A Tversion of 8,192 bytes.
const VERSION: &[u8] = b"\x13\0\0\0\x64\xff\xff\0\x20\0\0\x06\09P2000";

fn scene(rt: &impl Abort, alloc: Global) -> Arc<Scene> {
    let trace = read_trace(alloc, TRACE).expect(rt, "a value");
    let scene = Scene::of(alloc, trace, false, Vec::new(alloc)).expect(rt, "memory");
    Arc::new(alloc, scene).expect(rt, "memory")
}

fn users(rt: &impl Abort, alloc: Global) -> Arc<Users> {
    Arc::new(alloc, Users::read(alloc, USERS).expect(rt, "a value")).expect(rt, "a value")
}

/// A world of the trace's states, of which none is published.
fn new_world(rt: &(impl Abort + AllocGlobal)) -> World {
    let scene = scene(rt, rt.alloc());
    let users = users(rt, rt.alloc());
    World::new(rt.alloc(), scene, users).expect(rt, "memory")
}

/// Answers the Tversion on connection 0, with its reply as text.
fn push_answered(rt: &impl Abort, alloc: Global, world: &mut World, text: &mut String) {
    let reply = world.message(alloc, 0, 7, VERSION);
    write!(text, "{reply}").expect(rt, "memory")
}

/// Hangs connection 0 up, with the reply as text.
fn push_closed(rt: &impl Abort, alloc: Global, world: &mut World, text: &mut String) {
    let reply = world.hang_up(alloc, 0, 7);
    write!(text, "{reply:?}").expect(rt, "memory")
}

fn push_taken(rt: &impl Abort, alloc: Global, world: &mut World, text: &mut String, asked: &str) {
    let reply = world.step(alloc, step_of(rt, alloc, asked));
    write!(text, "{reply:?}").expect(rt, "memory")
}

/// Does what is asked: a step in words, `message` or `hangup`. Adds it with an arrow and the reply.
fn push_line(rt: &impl Abort, alloc: Global, world: &mut World, text: &mut String, asked: &str) {
    text.push_str(asked).expect(rt, "memory");
    text.push_str(" => ").expect(rt, "memory");
    match asked {
        "message" => push_answered(rt, alloc, world, text),
        "hangup" => push_closed(rt, alloc, world, text),
        _ => push_taken(rt, alloc, world, text, asked),
    }
}

fn push_lines(rt: &impl Abort, alloc: Global, world: &mut World, text: &mut String, lines: &str) {
    for line in lines.lines() {
        if let Some((asked, _)) = line.split_once(" => ") {
            push_line(rt, alloc, world, text, asked);
        }
        text.push_str("\n").expect(rt, "memory");
    }
}

/// Takes steps in a world, and looks for their replies. Each line has a step, an arrow, and the
/// reply.
fn expect_in(rt: &(impl Abort + AllocGlobal), world: &mut World, lines: &str) {
    let mut told = String::new(rt.alloc());
    push_lines(rt, rt.alloc(), world, &mut told, lines);
    assert!(rt; told.as_str() == lines, "{told}");
}

/// The same in a new world.
fn expect(rt: &(impl Abort + AllocGlobal), lines: &str) {
    let mut world = new_world(rt);
    expect_in(rt, &mut world, lines);
}

/// State 0 is published, and a user is attached to one run of it on each of the connections 0 and
/// 1; then an attach that nothing was found for, and a find on a connection above the last.
const TWO_USERS: &str = "\
publish 0
version 0
version 1
find 0 0 ann 0/x
find 1 0 bob 0/x
attach 0 7
attach 1 8
attach 0 9
find 64 0 ann 0/x
";

fn steps_of(rt: &impl Abort, alloc: Global, lines: &str) -> Vec<Step> {
    let mut steps = Vec::new(alloc);
    for line in lines.lines() {
        steps.push(step_of(rt, alloc, line)).expect(rt, "memory");
    }
    steps
}

/// The replies to steps that are taken at once, a line each.
fn replies_to(rt: &impl Abort, alloc: Global, world: &mut World, steps: Vec<Step>) -> String {
    let replies = world.run(alloc, steps).expect(rt, "memory");
    let mut text = String::new(alloc);
    for reply in &replies {
        write!(text, "{reply:?}\n").expect(rt, "memory");
    }
    text
}

const TWO_USERS_REPLIES: &str = "\
Published
Connection(Version { msize: 8192, is_spoken: true })
Connection(Version { msize: 8192, is_spoken: true })
Connection(Found)
Connection(Found)
Connection(Attach(Qid { kind: 128, vers: 0, path: 0 }))
Connection(Attach(Qid { kind: 128, vers: 0, path: 0 }))
Connection(Error(S5))
Connection(Error(S5))
";

/// A list of steps publishes state 0; two connections begin, both find `0/x`, and then both attach:
/// number 0 twice, and one run. An attach and a find on connection 64, which come after them, are
/// S5.
#[test]
fn two_users_attach_to_one_run(rt: HostRuntime) {
    let mut world = new_world(&rt);
    let steps = steps_of(&rt, rt.alloc(), TWO_USERS);
    let replies = replies_to(&rt, rt.alloc(), &mut world, steps);
    assert!(rt; replies.as_str() == TWO_USERS_REPLIES, "{replies}");
    assert!(rt; world.run_count() == 1);
}

/// What of these steps reaches a run of state 0, a line each.
fn projected(rt: &impl Abort, alloc: Global, world: &World, lines: &str, run: &[u8]) -> String {
    let steps = steps_of(rt, alloc, lines);
    let name = RunName::read(alloc, run).expect(rt, "a value");
    let calls = world.project(alloc, &steps, 0, &name).expect(rt, "memory");
    let mut text = String::new(alloc);
    for call in &calls {
        write!(text, "{call:?}\n").expect(rt, "memory");
    }
    text
}

/// The same list on the run `0/x` is the attach of ann at 7, under pass 0, and that of bob at 8,
/// under pass 1; on `0/y` it is nothing. The world that is asked stays as it is.
#[test]
fn projection_on_a_run_has_what_reached_it(rt: HostRuntime) {
    let world = new_world(&rt);
    let calls = projected(&rt, rt.alloc(), &world, TWO_USERS, b"x");
    assert_eq!(rt;
        calls.as_str(),
        r#"RunCall { pass: 0, moment: 7, call: Attach(AttachCall { user: Text { text: "ann" } }) }
RunCall { pass: 1, moment: 8, call: Attach(AttachCall { user: Text { text: "bob" } }) }
"#
    );
    let other = projected(&rt, rt.alloc(), &world, TWO_USERS, b"y");
    assert!(rt; other.as_str() == "", "{other}");
    assert!(rt; world.run_count() == 0);
}

/// A list of one user is loaded, who is attached to a new run and walks there.
const OTHER_USERS: &str = "\
publish 0
version 0
reload 1:dan::
find 0 0 dan 0/x
attach 0 7
walk 0
";

/// Among steps a list of only dan is loaded, then dan attaches to `0/x` and walks: both calls are
/// of the projection on `0/x`, though the world's own list doesn't know dan.
#[test]
fn projection_takes_the_list_at_the_time_of_the_find(rt: HostRuntime) {
    let world = new_world(&rt);
    let calls = projected(&rt, rt.alloc(), &world, OTHER_USERS, b"x");
    // with the list of the start the attach is A6, and no walk reaches the run
    assert!(rt; calls.lines().count() == 2);
}

/// An attach without a find, a find on connection 64, and the close of a fid that isn't open are
/// S5.
#[test]
fn steps_come_in_their_turn(rt: HostRuntime) {
    expect(
        &rt,
        "
publish 0 => Published
version 0 => Connection(Version { msize: 8192, is_spoken: true })
attach 0 7 => Connection(Error(S5))
find 64 0 ann 0/x => Connection(Error(S5))
close 0 0 => Connection(Error(S5))
",
    );
}

/// Between a find and its attach a stat, a message and a hang-up are S5; the attach is granted
/// then, and after it the hang-up.
#[test]
fn nothing_comes_between_a_find_and_its_attach(rt: HostRuntime) {
    expect(
        &rt,
        r#"
publish 0 => Published
version 0 => Connection(Version { msize: 8192, is_spoken: true })
find 0 0 ann 0/x => Connection(Found)
stat 0 => Connection(Error(S5))
message => Rerror tag 65535 ename "S5 out of turn"
hangup => Error(S5)
attach 0 7 => Connection(Attach(Qid { kind: 128, vers: 0, path: 0 }))
hangup => Closed
"#,
    );
}

/// State 0 is published again: Twice; state 1: NoSuchState. `1/x` is A4, `00/x` A3, and `0/x`
/// granted.
#[test]
fn states_are_published_once(rt: HostRuntime) {
    let mut world = new_world(&rt);
    expect_in(
        &rt,
        &mut world,
        "
publish 0 => Published
version 0 => Connection(Version { msize: 8192, is_spoken: true })
publish 0 => NotPublished(Twice)
publish 1 => NotPublished(NoSuchState)
find 0 0 ann 1/x => Connection(Error(A4))
find 0 0 ann 00/x => Connection(Error(A3))
find 0 0 ann 0/x => Connection(Found)
attach 0 7 => Connection(Attach(Qid { kind: 128, vers: 0, path: 0 }))
",
    );
    assert!(rt; world.scene().plan().len() == 1);
}

/// zed's attaches to `0/x`, and to `0/y`, are A6, and their runs stay: one, and two.
#[test]
fn refused_attach_leaves_its_run(rt: HostRuntime) {
    let mut world = new_world(&rt);
    expect_in(
        &rt,
        &mut world,
        "
publish 0 => Published
version 0 => Connection(Version { msize: 8192, is_spoken: true })
find 0 0 zed 0/x => Connection(Found)
attach 0 7 => Connection(Error(A6))
find 0 0 zed 0/x => Connection(Found)
attach 0 7 => Connection(Error(A6))
",
    );
    assert!(rt; world.run_count() == 1);
    expect_in(
        &rt,
        &mut world,
        "
find 0 0 zed 0/y => Connection(Found)
attach 0 7 => Connection(Error(A6))
",
    );
    assert!(rt; world.run_count() == 2);
}
