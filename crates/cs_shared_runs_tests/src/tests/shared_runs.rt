//! Runs that users share, over a published state.

use super::side::{F, attach, audit, comes, find, open, published, read, registry_of, write};
use cs_journal::{Pass, Run};
use cs_names::{RuleId, RunName};
use cs_permit::{Call, StatCall};
use cs_plan::Built;
use cs_registry::FindFault;
use cs_run::Answer;
use cs_shared_runs::{AnyScene, Look, SharedRegistry, SharedRun};
use std::alloc::Global;
use std::process::Abort;
use std::sync::Wait;
use std::sync::atomic::{AtomicBool, Ordering};
use std::thread;

/// Whether the user opens the file and reads this.
fn reads<R: Wait + Abort>(
    rt: &R,
    alloc: Global,
    run: &SharedRun<AnyScene>,
    user: &str,
    text: &str,
) -> bool {
    let mut pass = attach(rt, alloc, run, user);
    let opened = run.call(rt, alloc, &mut pass, 2, open(rt, alloc, user, 0));
    match (opened, run.call(rt, alloc, &mut pass, 2, read())) {
        (Answer::Opened { .. }, Answer::Data(data)) => data.bytes() == text.as_bytes(),
        _ => false,
    }
}

/// Attaches a user, who opens the file and writes this at its beginning.
fn writes<R: Wait + Abort>(
    rt: &R,
    alloc: Global,
    run: &SharedRun<AnyScene>,
    user: &str,
    text: &str,
) -> Pass {
    let mut pass = attach(rt, alloc, run, user);
    let opened = run.call(rt, alloc, &mut pass, 2, open(rt, alloc, user, 1));
    let written = run.call(rt, alloc, &mut pass, 2, write(rt, alloc, user, text));
    match (opened, written) {
        (Answer::Opened { .. }, Answer::Written(count)) if count as usize == text.len() => { pass }
        _ => panic!(rt; "another answer"),
    }
}

/// No run is found before its state is published.
fn expect_unpublished<R: Wait + Abort>(rt: &R, alloc: Global, registry: &SharedRegistry<AnyScene>) {
    let name = RunName::read(alloc, b"a").expect(rt, "a name");
    let early = registry.find(rt, alloc, 0, &name);
    assert!(rt; matches!(early, Err(FindFault::Unpublished)));
}

/// Run `a` of state 0 is A4 before the state is published, and found afterwards; one state was
/// missing.
#[test]
fn a_run_is_found_once_its_state_is_published(rt: HostRuntime) {
    let alloc = rt.alloc();
    let (registry, state) = registry_of(&rt, alloc);
    assert!(rt; registry.missing(&rt) == 1);
    expect_unpublished(&rt, alloc, &registry);
    assert!(rt; registry.publish(&rt, alloc, state).is_ok());
    let _run = find(&rt, alloc, &registry, "a");
}

/// ann writes `HI` at 0 of `/f` in run `a`; bob in run `b` reads `hello`; cat, who finds `a` again,
/// reads `HIllo`.
#[test]
fn what_is_written_in_a_run_is_read_there_and_nowhere_else(rt: HostRuntime) {
    let alloc = rt.alloc();
    let registry = published(&rt, alloc);
    let a = find(&rt, alloc, &registry, "a");
    let _ann = writes(&rt, alloc, &a, "ann", "HI");
    let b = find(&rt, alloc, &registry, "b");
    assert!(rt; reads(&rt, alloc, &b, "bob", "hello"));
    let again = find(&rt, alloc, &registry, "a");
    assert!(rt; reads(&rt, alloc, &again, "cat", "HIllo"));
}

/// A call under ann's pass of run `a` on run `b` is S5, and her pass has its three receipts.
#[test]
fn a_pass_calls_its_own_run_alone(rt: HostRuntime) {
    let alloc = rt.alloc();
    let registry = published(&rt, alloc);
    let a = find(&rt, alloc, &registry, "a");
    let b = find(&rt, alloc, &registry, "b");
    let mut ann = writes(&rt, alloc, &a, "ann", "HI");
    let stat = Call::Stat(StatCall { number: F });
    let told = b.call(&rt, alloc, &mut ann, 3, stat);
    assert!(rt; matches!(told, Answer::Denied(RuleId::S5)));
    assert!(rt; ann.receipts().len() == 3);
}

/// Adds each run's state and name.
fn push_runs(rt: &impl Abort, text: &mut String, runs: &[SharedRun<AnyScene>]) {
    for run in runs {
        let key = run.key();
        write!(text, "{} {}, ", key.number(), key.name()).expect(rt, "memory");
    }
}

/// The runs are listed as `a` and `b`, though `b` was found first.
#[test]
fn runs_are_listed_by_their_names(rt: HostRuntime) {
    let alloc = rt.alloc();
    let registry = published(&rt, alloc);
    let _run = find(&rt, alloc, &registry, "b");
    let _run = find(&rt, alloc, &registry, "a");
    let runs = registry.runs(&rt, alloc).expect(&rt, "memory");
    let mut text = String::new(alloc);
    push_runs(&rt, &mut text, &runs);
    assert!(rt; text.as_str() == "0 a, 0 b, ");
}

/// How many entries each run has.
fn push_entries<R: Wait + Abort>(rt: &R, text: &mut String, runs: &[SharedRun<AnyScene>]) {
    for run in runs {
        let (entries, _audit) = audit(rt, run, &[]);
        write!(text, "{entries}, ").expect(rt, "memory");
    }
}

/// ann attaches, opens `/f` and writes in `0/a`; bob attaches to `0/b`. By the handles that the
/// registry lists, the first has three entries, and the second one.
#[test]
fn each_run_is_listed_with_its_own_handle(rt: HostRuntime) {
    let alloc = rt.alloc();
    let registry = published(&rt, alloc);
    let a = find(&rt, alloc, &registry, "a");
    let b = find(&rt, alloc, &registry, "b");
    let _ann = writes(&rt, alloc, &a, "ann", "HI");
    let _bob = attach(&rt, alloc, &b, "bob");
    let runs = registry.runs(&rt, alloc).expect(&rt, "memory");
    let mut text = String::new(alloc);
    push_entries(&rt, &mut text, &runs);
    assert!(rt; text.as_str() == "3, 1, ");
}

/// Looks at a run until the flag is set.
#[derive(Drop)]
struct UntilAnswered<'f> {
    looking: &'f AtomicBool,
    answered: &'f AtomicBool,
}

impl<'f> Look<bool> for UntilAnswered<'f> {
    ghost use Rattle.std.specs.Prelude.{⊤};

    ghost may_return = { λ look run found. ⊤ };

    fn look(self, run: &Run<Built>) -> bool {
        self.looking.store(true, Ordering::SeqCst);
        comes(self.answered) && run.entries() == 0
    }
}

fn look<R: Wait>(
    rt: &R,
    run: &SharedRun<AnyScene>,
    looking: &AtomicBool,
    answered: &AtomicBool,
) -> bool {
    let looked: Option<bool> = run.inspect(rt, UntilAnswered { looking, answered });
    looked == Some(true)
}

/// Asks for a stat after the flag is set.
fn ask<R: Wait>(
    rt: &R,
    alloc: Global,
    run: &SharedRun<AnyScene>,
    mut pass: Pass,
    looking: &AtomicBool,
    answered: &AtomicBool,
) -> bool {
    let in_time = comes(looking);
    let stat = Call::Stat(StatCall { number: F });
    let answer = run.call(rt, alloc, &mut pass, 2, stat);
    answered.store(true, Ordering::SeqCst);
    in_time && matches!(answer, Answer::Stat(_))
}

/// While one thread looks at run `a` under its lock, another gets an answer of run `b`, or gives up
/// after ten million checks.
#[test]
fn a_run_is_called_while_another_is_locked(rt: HostRuntime) {
    let alloc = rt.alloc();
    let registry = published(&rt, alloc);
    let a = find(&rt, alloc, &registry, "a");
    let b = find(&rt, alloc, &registry, "b");
    let bob = attach(&rt, alloc, &b, "bob");
    let (looking, answered) = (AtomicBool::new(false), AtomicBool::new(false));
    let looked = thread::join(
        &rt,
        || look(&rt, &a, &looking, &answered),
        || ask(&rt, alloc, &b, bob, &looking, &answered),
    );
    assert!(rt; looked == (true, true));
}
