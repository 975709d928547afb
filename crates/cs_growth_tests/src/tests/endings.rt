//! An open with remove on close, whose removal runs out of memory: the open is released, and the
//! file stays.

use super::scene::start_world;
use super::talking::{ask, asked_by, push_dialogue, push_line};
use cs_test_memory::Hoard;
use cs_world::World;
use std::alloc::Global;
use std::process::Abort;

/// How ann opens `/f` on connection 0, to be written, and removed on close; and how a walk to the
/// file is replied after that, if it is there.
struct Beginning(&'static str, &'static str);

/// `/f` as it is at the start, and as large as a file can be.
const BEGINNINGS: [Beginning; 2] = [
    Beginning(
        r#"0 version 8192 9P2000 => Rversion tag 1 msize 8192 version "9P2000"
0 attach 0 ann 0/x => Rattach tag 1 qid (80 0 0)
0 walk 0 1 f => Rwalk tag 1 wqid [(00 0 4)]
0 open 1 65 => Ropen tag 1 qid (00 0 4) iounit 0
1 version 8192 9P2000 => Rversion tag 1 msize 8192 version "9P2000"
1 attach 0 ann 0/x => Rattach tag 1 qid (80 0 0)
"#,
        "1 walk 0 1 f => Rwalk tag 1 wqid [(00 0 4)]\n",
    ),
    Beginning(
        r#"0 version 8192 9P2000 => Rversion tag 1 msize 8192 version "9P2000"
0 attach 0 ann 0/x => Rattach tag 1 qid (80 0 0)
0 walk 0 1 f => Rwalk tag 1 wqid [(00 0 4)]
0 wstat 1 length=16777216 => Rwstat tag 1
0 open 1 65 => Ropen tag 1 qid (00 1 4) iounit 0
1 version 8192 9P2000 => Rversion tag 1 msize 8192 version "9P2000"
1 attach 0 ann 0/x => Rattach tag 1 qid (80 0 0)
"#,
        "1 walk 0 1 f => Rwalk tag 1 wqid [(00 1 4)]\n",
    ),
];

const GONE: &str = "1 walk 0 1 f => Rerror tag 1 ename \"K8 no such name\"\n";

/// How that open ends: a dialogue in which the removal runs out of memory in the first line, and
/// the same without that. A walk to the file follows.
struct Ending(&'static str, &'static str);

const ENDINGS: [Ending; 3] = [
    Ending(
        r#"0 clunk 1 => Rerror tag 1 ename "out of memory"
0 clunk 1 => Rerror tag 1 ename "N1 unknown fid"
"#,
        r#"0 clunk 1 => Rclunk tag 1
0 clunk 1 => Rerror tag 1 ename "N1 unknown fid"
"#,
    ),
    Ending(
        r#"0 hangup => Closed
0 stat 1 => Rerror tag 1 ename "S1 no session"
"#,
        r#"0 hangup => Closed
0 stat 1 => Rerror tag 1 ename "S1 no session"
"#,
    ),
    Ending(
        r#"0 remove 1 => Rerror tag 1 ename "out of memory"
0 remove 1 => Rerror tag 1 ename "M1 unknown fid"
"#,
        r#"0 remove 1 => Rremove tag 1
0 remove 1 => Rerror tag 1 ename "M1 unknown fid"
"#,
    ),
];

/// Both texts, one after the other.
fn joined(rt: &impl Abort, alloc: Global, first: &str, second: &str) -> String {
    format!(in alloc; "{first}{second}").expect(rt, "memory")
}

/// Has the dialogue that begins so.
fn begin(rt: &impl Abort, alloc: Global, world: &mut World, beginning: &str) {
    let mut told = String::new(alloc);
    push_dialogue(alloc, world, &mut told, beginning).expect(rt, "a dialogue");
    assert!(rt; told.as_str() == beginning, "{told}");
}

/// A dialogue with its replies, with so many bytes left for the first line.
fn told(
    rt: &impl Abort,
    alloc: Global,
    hoard: &mut Hoard,
    beginning: &str,
    dialogue: &str,
    bytes: usize,
) -> String {
    let mut world = start_world(alloc).expect(rt, "a world");
    begin(rt, alloc, &mut world, beginning);
    let (first, rest) = dialogue.split_once('\n').expect(rt, "a line");
    let (words, _) = first.split_once(" => ").expect(rt, "a reply");
    let asked = asked_by(alloc, first).expect(rt, "a message");
    hoard.close(alloc, bytes).expect(rt, "memory");
    let ended = ask(alloc, &mut world, &asked);
    hoard.open(alloc);
    let mut text = String::new(alloc);
    push_line(&mut text, words, &ended.expect(rt, "a reply")).expect(rt, "memory");
    push_dialogue(alloc, &mut world, &mut text, rest).expect(rt, "a dialogue");
    text
}

/// How often the removal runs out of memory, with no byte left and then 16 more each time.
fn refusals(
    rt: &(impl Abort + AllocGlobal),
    hoard: &mut Hoard,
    beginning: &Beginning,
    ending: &Ending,
) -> usize {
    let refused = joined(rt, rt.alloc(), ending.0, beginning.1);
    let removed = joined(rt, rt.alloc(), ending.1, GONE);
    for count in 0..1000usize {
        let told = told(
            rt,
            rt.alloc(),
            hoard,
            beginning.0,
            refused.as_str(),
            count * 16,
        );
        if told == removed {
            return count;
        }
        assert!(rt; told == refused, "{told}");
    }
    assert!(rt; false, "it is always refused");
    0
}

/// Each ending of an open that began so is refused at least once.
fn assert_refused(rt: &(impl Abort + AllocGlobal), hoard: &mut Hoard, beginning: &Beginning) {
    for ending in &ENDINGS {
        let count = refusals(rt, hoard, beginning, ending);
        assert!(rt; count > 0);
    }
}

/// ann has `/f` open with 0x41, and the removal runs out of memory: in a clunk, `out of memory`,
/// and the second clunk is N1; in a hang-up, Closed; in a Tremove, `out of memory`, and the second
/// is M1. Each time a walk to `f` gives number 4, vers 0, until there is memory for the removal. So
/// it is with a file of 16,777,216 bytes, whose vers is 1 after one wstat of its length.
#[test]
fn a_removal_that_is_refused_releases_the_open_and_leaves_the_file(rt: HostRuntime) {
    let mut hoard = Hoard::new(rt.alloc()).expect(&rt, "memory");
    for beginning in &BEGINNINGS {
        assert_refused(&rt, &mut hoard, beginning);
    }
}
