//! Steps in words.
use cs_names::{Text, Texts};
use cs_session::{AttachMessage, CallMessage, TableStep, WalkMessage};
use cs_users::Users;
use cs_world::{ConnectionStep, Step};
use std::alloc::Global;
use std::process::Abort;

fn number(rt: &impl Abort, word: &str) -> u32 {
    word.parse::<u32>().expect(rt, "a value")
}

fn begin(rt: &impl Abort, alloc: Global, conn: &str) -> Step {
    let conn = number(rt, conn);
    let version = Text::copy_of(alloc, "9P2000").expect(rt, "memory");
    let change = TableStep::Version {
        msize: 8192,
        version,
    };
    Step::On {
        conn,
        now: 7,
        step: ConnectionStep::Table(change),
    }
}

/// A connection, a fid, a user, and a tree.
fn find(rt: &impl Abort, alloc: Global, words: &str) -> Step {
    let (conn, words) = words.split_once(' ').expect(rt, "a value");
    let (fid, words) = words.split_once(' ').expect(rt, "a value");
    let (user, tree) = words.split_once(' ').expect(rt, "a value");
    let (conn, fid) = (number(rt, conn), number(rt, fid));
    let message = AttachMessage {
        fid,
        afid: u32::MAX,
        uname: Text::copy_of(alloc, user).expect(rt, "memory"),
        aname: Text::copy_of(alloc, tree).expect(rt, "memory"),
    };
    Step::On {
        conn,
        now: 7,
        step: ConnectionStep::Find(message),
    }
}

/// A connection and a moment.
fn attach(rt: &impl Abort, words: &str) -> Step {
    let (conn, now) = words.split_once(' ').expect(rt, "a value");
    Step::On {
        conn: number(rt, conn),
        now: number(rt, now),
        step: ConnectionStep::Attach,
    }
}

/// A connection and a fid.
fn close(rt: &impl Abort, words: &str) -> Step {
    let (conn, fid) = words.split_once(' ').expect(rt, "a value");
    Step::On {
        conn: number(rt, conn),
        now: 7,
        step: ConnectionStep::Close(number(rt, fid)),
    }
}

/// A walk to `/f` as the fid 1.
fn walk(rt: &impl Abort, alloc: Global) -> CallMessage<'static> {
    let mut names = Vec::new(alloc);
    names
        .push(String::from_str(alloc, "f").expect(rt, "memory"))
        .expect(rt, "memory");
    CallMessage::Walk(WalkMessage {
        fid: 0,
        newfid: 1,
        names: Texts::new(names),
    })
}

fn message_of(rt: &impl Abort, alloc: Global, word: &str) -> CallMessage<'static> {
    match word {
        "walk" => walk(rt, alloc),
        "stat" => CallMessage::Stat(0),
        _ => panic!(rt; "a word of no message"),
    }
}

fn call(rt: &impl Abort, alloc: Global, word: &str, conn: &str) -> Step {
    Step::On {
        conn: number(rt, conn),
        now: 7,
        step: ConnectionStep::Call(message_of(rt, alloc, word)),
    }
}

/// The step that words ask for: `publish` and a state; `reload` and a line of a users file;
/// `version`, `walk` or `stat` and a connection; `find`, `attach` or `close` and what these take.
pub fn step_of(rt: &impl Abort, alloc: Global, line: &str) -> Step {
    let (word, words) = line.split_once(' ').expect(rt, "a value");
    match word {
        "publish" => Step::Publish(number(rt, words)),
        "reload" => Step::Reload(Users::read(alloc, words.as_bytes()).expect(rt, "a value")),
        "version" => begin(rt, alloc, words),
        "find" => find(rt, alloc, words),
        "attach" => attach(rt, words),
        "close" => close(rt, words),
        _ => call(rt, alloc, word, words),
    }
}
