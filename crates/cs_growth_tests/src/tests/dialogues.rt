//! The dialogues whose messages are sent with a growth refused. With ample memory each has its
//! replies.

use super::scene::start_world;
use super::talking::push_dialogue;
use std::alloc::Global;
use std::process::Abort;

/// The first exchange.
pub const FIRST: &str = r#"0 version 8192 9P2000 => Rversion tag 1 msize 8192 version "9P2000"
0 attach 0 ann 0/x => Rattach tag 1 qid (80 0 0)
0 walk 0 1 f => Rwalk tag 1 wqid [(00 0 4)]
0 open 1 0 => Ropen tag 1 qid (00 0 4) iounit 0
0 read 1 0 64 => Rread tag 1 count 5 [104, 101, 108, 108, 111]
0 stat 1 => Rstat tag 1 type 0 dev 0 qid (00 0 4) mode 664 atime 0 mtime 0 length 5 name "f" uid "ann" gid "staff" muid "ann"
0 clunk 1 => Rclunk tag 1
"#;

/// Creates in two directories.
pub const CREATES: &str = r#"0 version 8192 9P2000 => Rversion tag 1 msize 8192 version "9P2000"
0 attach 0 ann 0/x => Rattach tag 1 qid (80 0 0)
0 walk 0 1 d => Rwalk tag 1 wqid [(80 0 1)]
0 create 1 new 777 0 => Rcreate tag 1 qid (00 0 7) iounit 0
0 walk 0 2 p => Rwalk tag 1 wqid [(80 0 6)]
0 create 2 new 666 0 => Rcreate tag 1 qid (00 0 8) iounit 0
0 walk 0 3 p => Rwalk tag 1 wqid [(80 1 6)]
0 create 3 sub dir:777 0 => Rcreate tag 1 qid (80 0 9) iounit 0
"#;

/// A remove on close by a hang-up, and the users that may ask for one.
pub const REMOVES: &str = r#"0 version 8192 9P2000 => Rversion tag 1 msize 8192 version "9P2000"
0 attach 0 ann 0/x => Rattach tag 1 qid (80 0 0)
1 version 8192 9P2000 => Rversion tag 1 msize 8192 version "9P2000"
1 attach 0 cat 0/x => Rattach tag 1 qid (80 0 0)
2 version 8192 9P2000 => Rversion tag 1 msize 8192 version "9P2000"
2 attach 0 ann 0/x => Rattach tag 1 qid (80 0 0)
0 walk 0 1 f => Rwalk tag 1 wqid [(00 0 4)]
0 open 1 65 => Ropen tag 1 qid (00 0 4) iounit 0
1 wstat 0 mode=dir:555 => Rwstat tag 1
2 walk 0 1 f => Rwalk tag 1 wqid [(00 0 4)]
2 open 1 64 => Rerror tag 1 ename "O9 no right to remove"
0 hangup => Closed
1 walk 0 1 f => Rerror tag 1 ename "K8 no such name"
"#;

/// Wstats by owners and others.
pub const WSTATS: &str = r#"0 version 8192 9P2000 => Rversion tag 1 msize 8192 version "9P2000"
0 attach 0 ann 0/x => Rattach tag 1 qid (80 0 0)
1 version 8192 9P2000 => Rversion tag 1 msize 8192 version "9P2000"
1 attach 0 bob 0/x => Rattach tag 1 qid (80 0 0)
1 walk 0 1 f => Rwalk tag 1 wqid [(00 0 4)]
1 wstat 1 name=g,mode=600 => Rerror tag 1 ename "Q12 not owner or leader"
1 walk 0 2 f => Rwalk tag 1 wqid [(00 0 4)]
1 walk 0 3 g => Rerror tag 1 ename "K8 no such name"
1 wstat 1 => Rwstat tag 1
0 walk 0 1 f => Rwalk tag 1 wqid [(00 0 4)]
0 wstat 1 gid=nosuch => Rerror tag 1 ename "Q13 unknown group"
0 wstat 1 gid=cat => Rerror tag 1 ename "Q14 no right to the group"
0 wstat 1 gid=ann => Rwstat tag 1
0 wstat 1 name=g,mode=600,length=2 => Rwstat tag 1
"#;

/// A run that two clients share, next to another run; and a remove of an open fid.
pub const SHARED: &str = r#"0 version 8192 9P2000 => Rversion tag 1 msize 8192 version "9P2000"
0 attach 0 ann 0/a => Rattach tag 1 qid (80 0 0)
0 walk 0 1 f => Rwalk tag 1 wqid [(00 0 4)]
0 open 1 2 => Ropen tag 1 qid (00 0 4) iounit 0
0 write 1 0 HI => Rwrite tag 1 count 2
0 read 1 0 64 => Rread tag 1 count 5 [72, 73, 108, 108, 111]
1 version 8192 9P2000 => Rversion tag 1 msize 8192 version "9P2000"
1 attach 0 bob 0/b => Rattach tag 1 qid (80 0 0)
1 walk 0 1 f => Rwalk tag 1 wqid [(00 0 4)]
1 open 1 0 => Ropen tag 1 qid (00 0 4) iounit 0
1 read 1 0 64 => Rread tag 1 count 5 [104, 101, 108, 108, 111]
2 version 8192 9P2000 => Rversion tag 1 msize 8192 version "9P2000"
2 attach 0 cat 0/a => Rattach tag 1 qid (80 0 0)
2 walk 0 1 f => Rwalk tag 1 wqid [(00 1 4)]
2 open 1 0 => Ropen tag 1 qid (00 1 4) iounit 0
2 read 1 0 64 => Rread tag 1 count 5 [72, 73, 108, 108, 111]
0 remove 1 => Rremove tag 1
2 clunk 1 => Rclunk tag 1
"#;

const ALL: [&str; 5] = [FIRST, CREATES, REMOVES, WSTATS, SHARED];

/// A dialogue with the replies that it has in a new world.
fn told(rt: &impl Abort, alloc: Global, dialogue: &str) -> String {
    let mut world = start_world(alloc).expect(rt, "a world");
    let mut text = String::new(alloc);
    push_dialogue(alloc, &mut world, &mut text, dialogue).expect(rt, "a dialogue");
    text
}

fn expect_told(rt: &(impl Abort + AllocGlobal), dialogue: &str) {
    let told = told(rt, rt.alloc(), dialogue);
    assert!(rt; told.as_str() == dialogue, "{told}");
}

/// The five dialogues have their replies if memory is ample.
#[test]
fn no_message_is_always_out_of_memory(rt: HostRuntime) {
    for dialogue in &ALL {
        expect_told(&rt, dialogue);
    }
}
