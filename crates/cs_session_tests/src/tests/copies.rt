//! Copies of messages, and of changes of a connection's table.

use super::asking::{attaching, message_of};
use cs_names::Text;
use cs_session::{Message, TableStep};
use std::alloc::Global;
use std::fmt::Debug;
use std::process::Abort;

/// A message of each kind that makes a call, and a walk of no name.
const CALLS: &str = "\
walk 1
clone 1
open 1
create 1
read 1
write 1
remove 1
stat 1
wstat 1
";

fn shown<T: Debug>(rt: &impl Abort, alloc: Global, value: &T) -> String {
    let mut text = String::new(alloc);
    write!(text, "{value:?}").expect(rt, "memory");
    text
}

/// The message that the words name, and its copy, as texts.
fn call_and_copy(rt: &impl Abort, alloc: Global, words: &str) -> (String, String) {
    let Message::Call(message) = message_of(rt, alloc, words) else {
        panic!(rt; "no call");
    };
    let copy = message.try_clone(alloc).expect(rt, "memory");
    (shown(rt, alloc, &message), shown(rt, alloc, &copy))
}

/// The same of an attach.
fn attach_and_copy(rt: &impl Abort, alloc: Global) -> (String, String) {
    let message = attaching(rt, alloc, 1);
    let copy = message.try_clone().expect(rt, "memory");
    (shown(rt, alloc, &message), shown(rt, alloc, &copy))
}

/// The same of a change of the table.
fn change_and_copy(rt: &impl Abort, alloc: Global, change: &TableStep) -> (String, String) {
    let copy = change.try_clone().expect(rt, "memory");
    (shown(rt, alloc, change), shown(rt, alloc, &copy))
}

/// Checks that the two texts are equal.
fn expect_same(rt: &impl Abort, both: (String, String)) {
    let (said, copy) = both;
    assert!(rt; copy.as_str() == said.as_str(), "{copy}");
}

/// A copy of each message that makes a call, and of an attach, says the same.
#[test]
fn a_copy_of_each_message_says_the_same(rt: HostRuntime) {
    for words in CALLS.lines() {
        expect_same(&rt, call_and_copy(&rt, rt.alloc(), words));
    }
    expect_same(&rt, attach_and_copy(&rt, rt.alloc()));
}

/// A copy of a version, of a clunk and of a hang-up says the same.
#[test]
fn a_copy_of_each_change_of_a_table_says_the_same(rt: HostRuntime) {
    let alloc = rt.alloc();
    let version = Text::copy_of(alloc, "9P2000").expect(&rt, "memory");
    let begin = TableStep::Version {
        msize: 8192,
        version,
    };
    expect_same(&rt, change_and_copy(&rt, alloc, &begin));
    expect_same(&rt, change_and_copy(&rt, alloc, &TableStep::Clunk(3)));
    expect_same(&rt, change_and_copy(&rt, alloc, &TableStep::HangUp));
}
