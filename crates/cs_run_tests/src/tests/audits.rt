//! Audits: whether the journal of a run agrees with the answers that its users got.

use super::asks::split_word;
use super::side::{attach, call_of, run, stat};
use cs_journal::{AuditFault, Pass, Receipt, Run};
use cs_run::{Answer, Outcome};
use cs_tree::PlainTree;
use std::alloc::Global;
use std::process::Abort;

/// A run, its passes, and the answers under them, a line each.
#[derive(Drop)]
struct Users {
    run: Run<PlainTree>,
    passes: Vec<Pass>,
    told: String,
}

/// Adds a line with an answer.
fn push_answer(rt: &impl Abort, told: &mut String, answer: &Answer) {
    write!(told, "{answer:?}\n").expect(rt, "memory")
}

impl Users {
    /// Makes a call under the pass at a place.
    fn call(&mut self, rt: &impl Abort, alloc: Global, place: usize, call: &str) {
        let pass = self.passes.get_mut(place).expect(rt, "a value");
        assert!(rt; self.run.fits(pass));
        let answer = self.run.step(alloc, pass, 1000, call_of(rt, alloc, call));
        push_answer(rt, &mut self.told, &answer)
    }

    /// Attaches a user under a new pass.
    fn attach(&mut self, rt: &impl Abort, alloc: Global, user: &str) {
        let mut pass = self.run.new_pass(alloc).expect(rt, "memory");
        assert!(rt; self.run.fits(&pass));
        let answer = self
            .run
            .step(alloc, &mut pass, 1000, attach(rt, alloc, user));
        push_answer(rt, &mut self.told, &answer);
        self.passes.push(pass).expect(rt, "memory")
    }

    /// A run to which ann was attached, and then bob.
    fn attached(rt: &impl Abort, alloc: Global) -> Users {
        let mut users = Users {
            run: run(rt, alloc),
            passes: Vec::new(alloc),
            told: String::new(alloc),
        };
        users.attach(rt, alloc, "ann");
        users.attach(rt, alloc, "bob");
        users
    }

    /// Makes calls, a line each: by whom, and what.
    fn make(&mut self, rt: &impl Abort, alloc: Global, calls: &str) {
        for line in calls.lines() {
            let (user, call) = split_word(line);
            self.call(rt, alloc, if user == "ann" { 0 } else { 1 }, call);
        }
    }
}

/// A run to which ann was attached, and then bob, and on which these calls were made.
fn after(rt: &(impl Abort + AllocGlobal), calls: &str) -> Users {
    let mut users = Users::attached(rt, rt.alloc());
    users.make(rt, rt.alloc(), calls);
    users
}

const X: &str = "ann stat\nbob stat";

const Y: &str = "ann stat\nbob walk";

const Z: &str = "bob stat\nann stat";

/// In the first ann makes a stat (2), then bob (3): its audit by both passes is ok, by only ann's
/// it is Count. In the second ann makes a stat and bob walks no names: the audit of the first by
/// these passes is Changed(3). In the third bob makes his stat first: by these it is Missing(2).
#[test]
fn an_audit_reports_the_first_entry_without_its_own_receipt(rt: HostRuntime) {
    let mut x = after(&rt, X);
    assert!(rt; x.run.audit(x.passes.as_slice()) == Ok(()));
    let y = after(&rt, Y);
    assert!(rt; x.run.audit(y.passes.as_slice()) == Err(AuditFault::Changed(3)));
    let z = after(&rt, Z);
    assert!(rt; x.run.audit(z.passes.as_slice()) == Err(AuditFault::Missing(2)));
    let _bob = x.passes.pop();
    assert!(rt; x.run.audit(x.passes.as_slice()) == Err(AuditFault::Count));
}

/// Appends passes to others.
fn push_passes(rt: &impl Abort, passes: &mut Vec<Pass>, more: Vec<Pass>) {
    for pass in more {
        passes.push(pass).expect(rt, "memory");
    }
}

/// A run with as many entries as the passes of two others have receipts.
const SEVEN: &str = "ann stat\nann stat\nann stat\nann stat\nann stat";

/// By the passes of a run on which ann walked (2), followed by those of the first run, a run on
/// which she made a stat at 2 and four more is Changed(2): the first pass of her number counts.
#[test]
fn an_audit_takes_the_first_pass_of_a_number(rt: HostRuntime) {
    let mut passes = after(&rt, "ann walk").passes;
    push_passes(&rt, &mut passes, after(&rt, X).passes);
    let seven = after(&rt, SEVEN);
    assert!(rt; seven.run.audit(passes.as_slice()) == Err(AuditFault::Changed(2)));
}

/// The answers by the journal, a line each, up to its end.
fn told_again(rt: &impl Abort, alloc: Global, run: &Run<PlainTree>) -> String {
    let mut told = String::new(alloc);
    for place in 0..run.entries() {
        push_answer(
            rt,
            &mut told,
            &run.answer_at(alloc, place)
                .expect(rt, "memory")
                .expect(rt, "a value"),
        );
    }
    told
}

/// Calls of each kind that is kept in its own way, some of them denied.
const CALLS: &str = "\
ann stat
bob walk
ann open 66
ann write 0 hi
bob write 0 ho
ann close 7
ann open 1
ann remove 8
bob stat
ann close 4";

/// Stats, a walk, opens, writes, a remove and closes, some denied: by the journal each answer is
/// the one that was given, and None after the last.
#[test]
fn a_journal_gives_each_answer_again(rt: HostRuntime) {
    let users = after(&rt, CALLS);
    let told = told_again(&rt, rt.alloc(), &users.run);
    assert!(rt; told.as_str() == users.told.as_str(), "{told}");
    let past = users.run.answer_at(rt.alloc(), users.run.entries());
    assert!(rt; matches!(past, Ok(None)));
}

/// ann opens the file to be removed on close; a close under bob's pass ends nothing, and hers
/// removes it.
const CLOSES: &str = "\
ann open 64
bob close 2
ann stat
ann close 2
bob stat";

/// What the last calls answer in a word each.
fn is_gone_at_the_end(told: &str) -> bool {
    let gone = told.lines().filter(|line| *line == "Denied(H2)").count();
    gone == 1 && told.ends_with("Denied(H2)\n")
}

/// bob's close of ann's open is closed and leaves it: her file is there until her own close.
#[test]
fn a_close_under_another_pass_ends_nothing(rt: HostRuntime) {
    let users = after(&rt, CLOSES);
    let told = users.told.as_str();
    assert!(rt; is_gone_at_the_end(told), "{told}");
}

/// The last receipt of the pass at a place.
fn last_receipt(passes: &[Pass], place: usize) -> Option<&Receipt> {
    passes.get(place)?.receipts().last()
}

/// The last receipt of bob's pass in the first run: place 3, granted, and it is for a stat of that
/// file.
#[test]
fn a_receipt_has_the_place_of_its_entry(rt: HostRuntime) {
    let users = after(&rt, X);
    let receipt = last_receipt(users.passes.as_slice(), 1).expect(&rt, "a receipt");
    assert!(rt; receipt.place() == 3);
    assert!(rt; matches!(receipt.outcome(), Outcome::Granted));
    assert!(rt; receipt.is_for(&stat()));
}
