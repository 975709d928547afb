//! The calls of a run with a journal.

use super::calls::{Word, call_of, mode_before, open, push_answer, read, stat};
use super::rows::{Row, expect_no_growth, expect_swept};
use super::scene::start_users;
use super::start::{start_tree, user};
use cs_journal::{Pass, PassFault, Run, can_grow};
use cs_permit::Call;
use cs_run::Answer;
use cs_test_memory::{End, Subject};
use cs_tree::PlainTree;
use std::alloc::Global;
use std::sync::Arc;

#[derive(Clone, Copy)]
enum Kind {
    /// A run over the start tree.
    Fresh,
    /// A fifth pass.
    Pass,
    Step(Word),
    /// The answer at that place, of a write and a stat.
    Answer(usize),
}

/// The number of a pass, or the answer of a call.
#[derive(Drop)]
enum Told {
    Pass(u32),
    Answer(Answer),
}

/// A run, a pass of it, and a call under it.
#[derive(Drop)]
struct Kept {
    run: Run<PlainTree>,
    pass: Pass,
    call: Option<Call<'static>>,
    /// Whether the call leaves its pass as many places for closes.
    keeps_places: bool,
}

fn fresh(alloc: Global) -> Option<Run<PlainTree>> {
    let lower = Arc::new(alloc, start_tree(alloc)?).ok()?;
    let users = Arc::new(alloc, start_users(alloc)?).ok()?;
    if !can_grow(&*lower) {
        return None;
    }
    Run::fresh(alloc, lower, users).ok()
}

fn call_in(alloc: Global, kind: Kind) -> Option<Call<'static>> {
    match kind {
        Kind::Step(word) => call_of(alloc, word),
        _ => call_of(alloc, Word::Stat),
    }
}

impl Kept {
    /// Makes a call at second 7.
    fn step(&mut self, alloc: Global, call: Call<'_>) -> Option<Answer> {
        if !self.run.fits(&self.pass) {
            return None;
        }
        Some(self.run.step(alloc, &mut self.pass, 7, call))
    }

    /// Makes the calls before the one that is swept.
    fn begin(&mut self, alloc: Global, kind: Kind) -> Option<()> {
        match kind {
            Kind::Answer(_) => {
                self.step(alloc, call_of(alloc, Word::Write)?)?;
                self.step(alloc, stat(4))?;
            }
            Kind::Pass => {
                for _ in 0..3u8 {
                    self.run.new_pass(alloc).ok()?;
                }
            }
            _ => {}
        }
        if let Kind::Step(word) = kind {
            if let Some(mode) = mode_before(word) {
                self.step(alloc, open(user(alloc, b"ann")?, mode))?;
            }
        }
        Some(())
    }

    fn make(&mut self, alloc: Global, call: Call<'_>) -> Option<End<Told>> {
        match self.step(alloc, call)? {
            Answer::Short => Some(End::Short),
            answer => Some(End::Done(Told::Answer(answer))),
        }
    }

    fn give_pass(&mut self, alloc: Global) -> Option<End<Told>> {
        match self.run.new_pass(alloc) {
            Ok(pass) => Some(End::Done(Told::Pass(pass.number()))),
            Err(PassFault::Memory) => Some(End::Short),
            Err(PassFault::Room | PassFault::Foreign) => None,
        }
    }

    fn answer_at(&self, alloc: Global, place: usize) -> Option<End<Told>> {
        match self.run.answer_at(alloc, place) {
            Ok(answer) => Some(End::Done(Told::Answer(answer?))),
            Err(_) => Some(End::Short),
        }
    }

    /// Adds what a call answers.
    fn push(&mut self, alloc: Global, call: Call<'_>, told: &mut String) -> Option<()> {
        let answer = self.step(alloc, call)?;
        push_answer(told, answer)?;
        told.push('\n').ok()
    }
}

impl Subject for Kept {
    type Row = Row<Kind>;

    type Answer = Told;

    fn start(alloc: Global, row: &Row<Kind>) -> Option<Kept> {
        let mut run = fresh(alloc)?;
        let pass = run.new_pass(alloc).ok()?;
        let ends_open = matches!(row.1, Kind::Step(Word::Close | Word::RemoveOpen));
        let mut kept = Kept {
            run,
            pass,
            call: call_in(alloc, row.1),
            keeps_places: !ends_open,
        };
        kept.begin(alloc, row.1)?;
        Some(kept)
    }

    fn call(&mut self, alloc: Global, row: &Row<Kind>) -> Option<End<Told>> {
        match row.1 {
            Kind::Step(_) => {
                let call = match self.call.take() {
                    Some(call) => call,
                    None => call_in(alloc, row.1)?,
                };
                self.make(alloc, call)
            }
            Kind::Answer(place) => self.answer_at(alloc, place),
            _ => self.give_pass(alloc),
        }
    }

    fn push(answer: Told, said: &mut String) -> Option<()> {
        match answer {
            Told::Pass(number) => write!(said, "pass {number}").ok(),
            Told::Answer(answer) => push_answer(said, answer),
        }
    }

    /// Adds each file's stat, the bytes of `/f` and the entries of the root. The journal's entries
    /// aren't counted: a call that runs out of memory may have one.
    fn tell(&mut self, alloc: Global, told: &mut String) -> Option<()> {
        for number in 0..8u64 {
            self.push(alloc, stat(number), told)?;
        }
        self.push(alloc, read(4, 100), told)?;
        self.push(alloc, read(0, 1_000), told)?;
        if self.keeps_places {
            write!(told, "{} reserved", self.pass.reserved()).ok()?;
        }
        Some(())
    }

    fn spent(row: &Row<Kind>, said: &str) -> Option<bool> {
        match row.1 {
            Kind::Step(Word::Close) => Some(said == "Closed"),
            _ => None,
        }
    }
}

const PASSES: [Row<Kind>; 2] = [
    Row("cs_journal Run::new_pass", Kind::Pass),
    Row("cs_journal Run::answer_at", Kind::Answer(1)),
];

const LOOKS: [Row<Kind>; 5] = [
    Row("cs_journal Run::step", Kind::Step(Word::Attach)),
    Row("cs_journal Run::step", Kind::Step(Word::Walk)),
    Row("cs_journal Run::step", Kind::Step(Word::Read)),
    Row("cs_journal Run::step", Kind::Step(Word::List)),
    Row("cs_journal Run::step", Kind::Step(Word::Stat)),
];

const CHANGES: [Row<Kind>; 7] = [
    Row("cs_journal Run::step", Kind::Step(Word::Open)),
    Row("cs_journal Run::step", Kind::Step(Word::Create)),
    Row("cs_journal Run::step", Kind::Step(Word::Write)),
    Row("cs_journal Run::step", Kind::Step(Word::Close)),
    Row("cs_journal Run::step", Kind::Step(Word::Remove)),
    Row("cs_journal Run::step", Kind::Step(Word::RemoveOpen)),
    Row("cs_journal Run::step", Kind::Step(Word::Wstat)),
];

const NO_GROWTH: [Row<Kind>; 1] = [Row("cs_journal Run::step", Kind::Step(Word::ClosePlainly))];

/// Calls that change nothing on a run with a journal, a pass, and the answer of an entry. A close
/// without remove on close, whose open is there, needs no growth at all.
#[test]
fn a_run_that_is_looked_at_stays_as_it_was(rt: HostRuntime) {
    expect_swept::<Kind, Kept>(&rt, &PASSES);
    expect_swept::<Kind, Kept>(&rt, &LOOKS);
    expect_no_growth::<Kind, Kept>(&rt, &NO_GROWTH);
}

/// Calls that change a run with a journal.
#[test]
fn a_run_stays_as_it_was(rt: HostRuntime) {
    expect_swept::<Kind, Kept>(&rt, &CHANGES);
}
