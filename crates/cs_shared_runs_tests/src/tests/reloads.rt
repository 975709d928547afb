//! Another list of users, loaded between attaches of threads.

use super::side::{comes, find, published};
use cs_names::{RuleId, Text};
use cs_run::Answer;
use cs_shared_runs::{AnyScene, SharedRegistry};
use cs_users::Users;
use std::alloc::Global;
use std::process::Abort;
use std::sync::Wait;
use std::sync::atomic::{AtomicBool, Ordering};
use std::thread;

const ANN_AND_DAN: &[u8] = b"1:ann::\n2:dan::\n";

/// Whether the user is attached to the run of that name; otherwise the attach must be A6.
fn is_known<R: Wait + Abort>(
    rt: &R,
    alloc: Global,
    registry: &SharedRegistry<AnyScene>,
    name: &str,
    user: &str,
) -> bool {
    let run = find(rt, alloc, registry, name);
    match run.attach(
        rt,
        alloc,
        1,
        Text::copy_of(alloc, user).expect(rt, "memory"),
    ) {
        Ok((_, Answer::Attached(_))) => true,
        Ok((_, Answer::Denied(RuleId::A6))) => false,
        _ => panic!(rt; "another answer"),
    }
}

/// Attaches bob to `x`, and, once another list is loaded, to `x` again and to `y`.
fn bobs<R: Wait + Abort>(
    rt: &R,
    alloc: Global,
    registry: &SharedRegistry<AnyScene>,
    attached: &AtomicBool,
    loaded: &AtomicBool,
) -> (bool, bool, bool) {
    let before = is_known(rt, alloc, registry, "x", "bob");
    attached.store(true, Ordering::SeqCst);
    assert!(rt; comes(loaded));
    let after = is_known(rt, alloc, registry, "x", "bob");
    let elsewhere = is_known(rt, alloc, registry, "y", "bob");
    (before, after, elsewhere)
}

fn load<R: Wait + Abort>(rt: &R, alloc: Global, registry: &SharedRegistry<AnyScene>) {
    let users = Users::read(alloc, ANN_AND_DAN).expect(rt, "a value");
    let _loaded = registry.reload(rt, alloc, users).expect(rt, "memory");
}

/// Loads another list after bob was attached, and attaches dan to `x` and to `y`.
fn dans<R: Wait + Abort>(
    rt: &R,
    alloc: Global,
    registry: &SharedRegistry<AnyScene>,
    attached: &AtomicBool,
    loaded: &AtomicBool,
) -> (bool, bool) {
    assert!(rt; comes(attached));
    load(rt, alloc, registry);
    loaded.store(true, Ordering::SeqCst);
    let here = is_known(rt, alloc, registry, "x", "dan");
    let elsewhere = is_known(rt, alloc, registry, "y", "dan");
    (here, elsewhere)
}

/// In one thread bob is attached to `x`. The other then loads ann and dan: dan is A6 at `x` and
/// attached to `y`. bob is attached to `x` again, and A6 at `y`. Each waits for the other, and
/// gives up after ten million checks.
#[test]
fn a_list_is_loaded_between_two_attaches(rt: HostRuntime) {
    let alloc = rt.alloc();
    let registry = published(&rt, alloc);
    let (attached, loaded) = (AtomicBool::new(false), AtomicBool::new(false));
    let known = thread::join(
        &rt,
        || bobs(&rt, alloc, &registry, &attached, &loaded),
        || dans(&rt, alloc, &registry, &attached, &loaded),
    );
    assert!(rt; known == ((true, true, false), (false, true)));
}
