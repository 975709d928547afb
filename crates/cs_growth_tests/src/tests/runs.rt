//! The calls of a run that keeps no journal.

use super::calls::{Word, call_of, mode_before, open, push_answer, push_data};
use super::rows::{Row, expect_no_growth, expect_swept};
use super::scene::start_users;
use super::shown::push_tree;
use super::start::{start_overlay, user};
use cs_overlay::Overlay;
use cs_permit::Call;
use cs_run::{Answer, CountedRun, Data, Opens, Outcome, Walk, read, walk};
use cs_test_memory::{End, Subject};
use cs_tree::PlainTree;
use cs_users::Users;
use std::alloc::Global;

#[derive(Clone, Copy)]
enum Kind {
    Step(Word),
    /// What a walk does, or a read, without a run.
    Alone(Word),
    /// Room for one more open.
    Reserve,
}

/// A run, a call on it, the users, and a list of opens.
#[derive(Drop)]
struct Kept {
    run: CountedRun<Overlay<PlainTree>>,
    call: Call<'static>,
    users: Users,
    opens: Opens,
}

type Tree = Overlay<PlainTree>;

/// The answer to a call.
#[derive(Drop)]
enum Told {
    Nothing,
    Answer(Answer),
    Data(Data),
    Walk(Walk),
}

/// Makes a call in the run's next turn.
fn step(alloc: Global, run: &mut CountedRun<Tree>, call: &Call<'_>) -> Option<End<Told>> {
    if run.is_full() {
        return None;
    }
    let (outcome, answer) = run.step(alloc, 7, 0, call);
    if outcome == Outcome::Short {
        return Some(End::Short);
    }
    Some(End::Done(Told::Answer(answer)))
}

fn reserve(opens: &mut Opens) -> Option<End<Told>> {
    match opens.reserve() {
        Ok(()) => Some(End::Done(Told::Nothing)),
        Err(_) => Some(End::Short),
    }
}

/// Reads, or walks, in the run's tree.
fn look(
    alloc: Global,
    run: &CountedRun<Tree>,
    users: &Users,
    call: &Call<'_>,
) -> Option<End<Told>> {
    match call {
        Call::Read(call) => match read(alloc, call, run.tree()) {
            Ok(data) => Some(End::Done(Told::Data(data))),
            Err(_) => Some(End::Short),
        },
        Call::Walk(call) => match walk(alloc, call, run.tree(), users) {
            Ok(walk) => Some(End::Done(Told::Walk(walk))),
            Err(_) => Some(End::Short),
        },
        _ => None,
    }
}

fn call_in(alloc: Global, kind: Kind) -> Option<Call<'static>> {
    match kind {
        Kind::Step(word) | Kind::Alone(word) => call_of(alloc, word),
        Kind::Reserve => call_of(alloc, Word::Stat),
    }
}

/// A run over the start tree, in which the call's file is open if the call ends an open.
fn run_before(alloc: Global, kind: Kind) -> Option<CountedRun<Tree>> {
    let mut run = CountedRun::new(alloc, start_overlay(alloc)?, start_users(alloc)?);
    if let Kind::Step(word) = kind {
        if let Some(mode) = mode_before(word) {
            let call = open(user(alloc, b"ann")?, mode);
            step(alloc, &mut run, &call)?;
        }
    }
    Some(run)
}

impl Subject for Kept {
    type Row = Row<Kind>;

    type Answer = Told;

    fn start(alloc: Global, row: &Row<Kind>) -> Option<Kept> {
        Some(Kept {
            run: run_before(alloc, row.1)?,
            call: call_in(alloc, row.1)?,
            users: start_users(alloc)?,
            opens: Opens::new(alloc),
        })
    }

    fn call(&mut self, alloc: Global, row: &Row<Kind>) -> Option<End<Told>> {
        match row.1 {
            Kind::Step(_) => step(alloc, &mut self.run, &self.call),
            Kind::Alone(_) => look(alloc, &self.run, &self.users, &self.call),
            Kind::Reserve => reserve(&mut self.opens),
        }
    }

    fn push(answer: Told, said: &mut String) -> Option<()> {
        match answer {
            Told::Nothing => Some(()),
            Told::Answer(answer) => push_answer(said, answer),
            Told::Data(data) => push_data(said, data),
            Told::Walk(walk) => write!(said, "{walk:?}").ok(),
        }
    }

    fn tell(&mut self, alloc: Global, told: &mut String) -> Option<()> {
        write!(told, "{} opens\n", self.opens.len()).ok()?;
        push_tree(told, alloc, self.run.tree())
    }

    fn spent(row: &Row<Kind>, said: &str) -> Option<bool> {
        match row.1 {
            // the open is released, and the file stays
            Kind::Step(Word::Close) => Some(said == "Closed"),
            _ => None,
        }
    }
}

const ROWS: [Row<Kind>; 14] = [
    Row("cs_run CountedRun::step", Kind::Step(Word::Walk)),
    Row("cs_run CountedRun::step", Kind::Step(Word::Open)),
    Row("cs_run CountedRun::step", Kind::Step(Word::Create)),
    Row("cs_run CountedRun::step", Kind::Step(Word::Read)),
    Row("cs_run CountedRun::step", Kind::Step(Word::List)),
    Row("cs_run CountedRun::step", Kind::Step(Word::Write)),
    Row("cs_run CountedRun::step", Kind::Step(Word::Close)),
    Row("cs_run CountedRun::step", Kind::Step(Word::Remove)),
    Row("cs_run CountedRun::step", Kind::Step(Word::RemoveOpen)),
    Row("cs_run CountedRun::step", Kind::Step(Word::Stat)),
    Row("cs_run CountedRun::step", Kind::Step(Word::Wstat)),
    Row("cs_run read", Kind::Alone(Word::List)),
    Row("cs_run walk", Kind::Alone(Word::Walk)),
    Row("cs_run Opens::reserve", Kind::Reserve),
];

const NO_GROWTH: [Row<Kind>; 2] = [
    Row("cs_run CountedRun::step", Kind::Step(Word::Attach)),
    Row("cs_run CountedRun::step", Kind::Step(Word::ClosePlainly)),
];

/// Each call that needs memory on a run without a journal. After a refusal of a close that would
/// remove its file the open is released, and the file stays. An attach and a plain close need no
/// growth.
#[test]
fn a_tree_stays_as_it_was(rt: HostRuntime) {
    expect_swept::<Kind, Kept>(&rt, &ROWS);
    expect_no_growth::<Kind, Kept>(&rt, &NO_GROWTH);
}
