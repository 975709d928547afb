//! Copies of calls.

use super::asks::call_of;
use cs_fids::Place;
use cs_names::Name;
use cs_permit::Call;
use std::alloc::Global;
use std::process::Abort;

/// A call of each kind, and a remove by an open fid.
const CALLS: &str = "\
attach
walk 1 s/z
open 4 12
create 0 g 644 1
read 0 61 400
write 4 3 HI
close 7
remove 4
remove_open 4 7
stat 4
wstat 4 name=g,mode=600
";

/// A place after an entry of a directory, so that a read has a name to copy.
fn place(rt: &impl Abort, alloc: Global) -> Place {
    let last = Some(Name::read(alloc, b"d").expect(rt, "a value"));
    Place { end: 61, last }
}

fn shown(rt: &impl Abort, alloc: Global, call: &Call<'_>) -> String {
    let mut text = String::new(alloc);
    write!(text, "{call:?}").expect(rt, "memory");
    text
}

/// A call of ann and its copy, each in full.
fn with_copy(rt: &impl Abort, alloc: Global, words: &str) -> (String, String) {
    let call = call_of(rt, alloc, "ann", words, &place(rt, alloc));
    let copy = call.try_clone(alloc).expect(rt, "memory");
    (shown(rt, alloc, &call), shown(rt, alloc, &copy))
}

fn expect_copy(rt: &(impl Abort + AllocGlobal), words: &str) {
    let (call, copy) = with_copy(rt, rt.alloc(), words);
    assert!(rt; copy.as_str() == call.as_str(), "{copy}");
}

/// A copy of a call of each kind says the same.
#[test]
fn a_copy_of_each_call_says_the_same(rt: HostRuntime) {
    for words in CALLS.lines() {
        expect_copy(&rt, words);
    }
}
