//! Audits: whether the journal of a shared run agrees with the answers that its users got.

use super::side::{attach, audit, find, open, published, read, stat, walk, write};
use cs_journal::{AuditFault, Pass, Run};
use cs_permit::Call;
use cs_plan::Built;
use cs_run::Answer;
use cs_shared_runs::{AnyScene, Look, SharedRegistry, SharedRun};
use std::alloc::{AllocError, Global};
use std::process::Abort;
use std::sync::Wait;

/// A run, the passes of ann and of bob, and the answers under them, a line each.
#[derive(Drop)]
struct Pair {
    run: SharedRun<AnyScene>,
    passes: Vec<Pass>,
    told: String,
}

/// Looks for the answer to the call at a place, if there is one.
#[derive(Drop)]
struct AnswerAt {
    alloc: Global,
    place: usize,
}

impl Look<Result<Option<Answer>, AllocError>> for AnswerAt {
    ghost use Rattle.std.specs.Prelude.{⊤};

    ghost may_return = { λ look run found. ⊤ };

    fn look(self, run: &Run<Built>) -> Result<Option<Answer>, AllocError> {
        run.answer_at(self.alloc, self.place)
    }
}

/// The call that a word means.
fn call_of(rt: &impl Abort, alloc: Global, user: &str, word: &str) -> Call<'static> {
    match word {
        "walk" => walk(rt, alloc, user),
        "open" => open(rt, alloc, user, 2),
        "write" => write(rt, alloc, user, "HI"),
        "read" => read(),
        _ => stat(),
    }
}

impl Pair {
    /// The run of that name, to which ann is attached, and then bob.
    fn of<R: Wait + Abort>(
        rt: &R,
        alloc: Global,
        registry: &SharedRegistry<AnyScene>,
        name: &str,
    ) -> Pair {
        let run = find(rt, alloc, registry, name);
        let mut passes = Vec::new(alloc);
        passes
            .push(attach(rt, alloc, &run, "ann"))
            .expect(rt, "memory");
        passes
            .push(attach(rt, alloc, &run, "bob"))
            .expect(rt, "memory");
        let told = String::new(alloc);
        Pair { run, passes, told }
    }

    fn call<R: Wait + Abort>(&mut self, rt: &R, alloc: Global, user: &str, word: &str) -> Answer {
        let pass = self
            .passes
            .get_mut(if user == "ann" { 0 } else { 1 })
            .expect(rt, "a value");
        let call = call_of(rt, alloc, user, word);
        self.run.call(rt, alloc, pass, 2, call)
    }

    /// Makes calls, a line each: by whom, and which.
    fn make<R: Wait + Abort>(&mut self, rt: &R, alloc: Global, calls: &str) {
        for line in calls.lines() {
            let (user, word) = line.split_once(' ').expect(rt, "a value");
            let answer = self.call(rt, alloc, user, word);
            write!(self.told, "{answer:?}\n").expect(rt, "memory");
        }
    }

    fn audit<R: Wait + Abort>(&self, rt: &R, passes: &[Pass]) -> Result<(), AuditFault> {
        audit(rt, &self.run, passes).1
    }

    /// The answer by the journal to the call at a place, if there is one.
    fn answer_at<R: Wait + Abort>(&self, rt: &R, alloc: Global, place: usize) -> Option<Answer> {
        let answer: Option<Result<Option<Answer>, AllocError>> = self
            .run
            .inspect(rt, AnswerAt { alloc, place });
        let found: Result<Option<Answer>, AllocError> = answer.expect(
            rt,
            "the run of its own number",
        );
        found.expect(rt, "memory")
    }

    /// The answers by the journal to the calls after the attaches, a line each.
    fn told_again<R: Wait + Abort>(&self, rt: &R, alloc: Global) -> String {
        let mut told = String::new(alloc);
        for place in 2..4 {
            let answer = self.answer_at(rt, alloc, place).expect(rt, "an answer");
            write!(told, "{answer:?}\n").expect(rt, "memory");
        }
        told
    }
}

/// A run of that name on which these calls were made.
fn after<R: Wait + Abort>(
    rt: &R,
    alloc: Global,
    registry: &SharedRegistry<AnyScene>,
    name: &str,
    calls: &str,
) -> Pair {
    let mut pair = Pair::of(rt, alloc, registry, name);
    pair.make(rt, alloc, calls);
    pair
}

/// To `x`, `y` and `z` ann is attached (entry 0), and then bob (1). In `x` ann makes a stat of the
/// root (2), then bob (3): its audit by both passes is ok, by only ann's Count. By those of `y`, in
/// which bob walks no names (3), it is Changed(3); by those of `z`, in which bob makes his stat
/// first, Missing(2).
#[test]
fn an_audit_of_a_shared_run_reports_the_first_entry_without_its_own_receipt(rt: HostRuntime) {
    let alloc = rt.alloc();
    let registry = published(&rt, alloc);
    let mut x = after(&rt, alloc, &registry, "x", "ann stat\nbob stat");
    assert!(rt; x.audit(&rt, x.passes.as_slice()) == Ok(()));
    let y = after(&rt, alloc, &registry, "y", "ann stat\nbob walk");
    assert!(rt; x.audit(&rt, y.passes.as_slice()) == Err(AuditFault::Changed(3)));
    let z = after(&rt, alloc, &registry, "z", "bob stat\nann stat");
    assert!(rt; x.audit(&rt, z.passes.as_slice()) == Err(AuditFault::Missing(2)));
    let _bob = x.passes.pop();
    assert!(rt; x.audit(&rt, x.passes.as_slice()) == Err(AuditFault::Count));
}

/// By the journal of `x` the answers at 2 and 3 are those that ann and bob got, and None at 4. So a
/// call that invents an answer is noticed.
#[test]
fn no_answer_is_invented_under_the_lock(rt: HostRuntime) {
    let alloc = rt.alloc();
    let registry = published(&rt, alloc);
    let x = after(&rt, alloc, &registry, "x", "ann stat\nbob stat");
    let told = x.told_again(&rt, alloc);
    assert!(rt; told.as_str() == x.told.as_str(), "{told}");
    assert!(rt; x.answer_at(&rt, alloc, 4).is_none());
}

/// Whether bob reads this.
fn bob_reads<R: Wait + Abort>(rt: &R, alloc: Global, pair: &mut Pair, text: &str) -> bool {
    match pair.call(rt, alloc, "bob", "read") {
        Answer::Data(data) => data.bytes() == text.as_bytes(),
        _ => false,
    }
}

/// ann and bob are attached. ann opens `/f` and writes `HI`; bob, under the pass that he had
/// before, opens it and reads `HIllo`, and the audit is ok. A run that started again would have
/// `hello`, and S5 for one of them.
#[test]
fn a_run_does_not_restart_under_the_lock(rt: HostRuntime) {
    let alloc = rt.alloc();
    let registry = published(&rt, alloc);
    let calls = "ann open\nann write\nbob open";
    let mut x = after(&rt, alloc, &registry, "x", calls);
    assert!(rt; bob_reads(&rt, alloc, &mut x, "HIllo"));
    assert!(rt; x.audit(&rt, x.passes.as_slice()) == Ok(()));
}
