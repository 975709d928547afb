//! A journal that two threads fill.

use super::side::{attach, audit, find, open, published, stat, walk};
use cs_journal::Pass;
use cs_names::{RuleId, UserName};
use cs_permit::{Call, CloseCall};
use cs_run::Answer;
use cs_shared_runs::{AnyScene, SharedRun};
use std::alloc::Global;
use std::process::Abort;
use std::sync::Wait;
use std::thread;

/// How many stats the threads make.
const ANNS: u32 = 32_766;

const BOBS: u32 = 32_765;

/// Makes so many stats, and returns the pass if all are granted.
fn stats<R: Wait + Abort>(
    rt: &R,
    alloc: Global,
    run: &SharedRun<AnyScene>,
    mut pass: Pass,
    count: u32,
) -> Pass {
    for _ in 0..count {
        let answer = run.call(rt, alloc, &mut pass, 2, stat());
        assert!(rt; matches!(answer, Answer::Stat(_)));
    }
    pass
}

/// Makes a walk and an open of the file, and returns the open's number.
fn walk_and_open<R: Wait + Abort>(
    rt: &R,
    alloc: Global,
    run: &SharedRun<AnyScene>,
    pass: &mut Pass,
) -> u32 {
    let walked = run.call(rt, alloc, pass, 2, walk(rt, alloc, "ann"));
    let opened = run.call(rt, alloc, pass, 2, open(rt, alloc, "ann", 2));
    match (walked, opened) {
        (Answer::Walked(_), Answer::Opened { open_number, .. }) => open_number,
        _ => panic!(rt; "a walk or an open is denied"),
    }
}

fn close(rt: &impl Abort, alloc: Global, open_number: u32) -> Call<'static> {
    let user = UserName::read(alloc, b"ann").expect(rt, "a value");
    Call::Close(CloseCall { open_number, user })
}

/// A run to which ann was attached and bob, with what ann opened: four entries.
fn begun<R: Wait + Abort>(rt: &R, alloc: Global) -> (SharedRun<AnyScene>, Pass, Pass, u32) {
    let registry = published(rt, alloc);
    let run = find(rt, alloc, &registry, "x");
    let mut ann = attach(rt, alloc, &run, "ann");
    let bob = attach(rt, alloc, &run, "bob");
    let open_number = walk_and_open(rt, alloc, &run, &mut ann);
    (run, ann, bob, open_number)
}

/// Checks that the journal has only room for the close of an open.
fn expect_full<R: Wait + Abort>(rt: &R, alloc: Global, run: &SharedRun<AnyScene>, pass: &mut Pass) {
    let answer = run.call(rt, alloc, pass, 3, stat());
    assert!(rt; matches!(answer, Answer::Denied(RuleId::L1)));
}

/// Two attaches, a walk and an open are four entries, with one place kept for the close. Two
/// threads make 65,531 stats, each under its own pass, and all are granted. Then a stat under
/// either is L1, the close is Closed, and the audit of the 65,536 entries is ok.
#[test]
fn two_threads_fill_a_journal_up_to_a_close(rt: HostRuntime) {
    let alloc = rt.alloc();
    let (run, ann, bob, open_number) = begun(&rt, alloc);
    let (mut ann, mut bob) = thread::join(
        &rt,
        || stats(&rt, alloc, &run, ann, ANNS),
        || stats(&rt, alloc, &run, bob, BOBS),
    );
    expect_full(&rt, alloc, &run, &mut ann);
    expect_full(&rt, alloc, &run, &mut bob);
    let close = close(&rt, alloc, open_number);
    let closed = run.call(&rt, alloc, &mut ann, 4, close);
    assert!(rt; matches!(closed, Answer::Closed));
    let passes = [ann, bob];
    assert!(rt; audit(&rt, &run, &passes) == (65_536, Ok(())));
}
