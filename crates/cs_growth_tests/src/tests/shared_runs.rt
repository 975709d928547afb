//! The calls of a run that threads share.

use super::calls::{Word, call_of, push_answer};
use super::rows::{Row, expect_swept};
use super::shared::{attached_run, published_registry, push_answers};
use cs_journal::Pass;
use cs_names::Text;
use cs_permit::{Call, PassFault};
use cs_run::Answer;
use cs_shared_runs::{AnyScene, SharedRun};
use cs_test_memory::{End, Subject};
use std::alloc::{AllocError, Global};
use std::sync::Wait;

#[derive(Clone, Copy)]
enum Kind {
    /// Of ann, a second time.
    Attach,
    /// Of a file, by ann.
    Create,
}

/// Which call, and the runtime by which its locks wait.
struct Asked<'r, R> {
    rt: &'r R,
    kind: Kind,
}

impl<R> Clone for Asked<'_, R> {
    fn clone(&self) -> Result<Self, AllocError> {
        Ok(*self)
    }
}

impl<R> Copy for Asked<'_, R> {}

/// A run, ann's pass, and what its next call is given.
#[derive(Drop)]
struct Kept<'r, R: Wait> {
    rt: &'r R,
    run: SharedRun<AnyScene>,
    pass: Pass,
    given: Option<(Text, Call<'static>)>,
}

fn given_for(alloc: Global) -> Option<(Text, Call<'static>)> {
    let user = Text::copy_of(alloc, "ann").ok()?;
    Some((user, call_of(alloc, Word::Create)?))
}

fn end_of(answer: Answer) -> Option<End<Answer>> {
    match answer {
        Answer::Short => Some(End::Short),
        answer => Some(End::Done(answer)),
    }
}

impl<'r, R: Wait> Kept<'r, R> {
    fn attach(&mut self, alloc: Global, user: Text) -> Option<End<Answer>> {
        let Kept { rt, run, .. } = self;
        match run.attach(*rt, alloc, 7, user) {
            Ok((_, answer)) => end_of(answer),
            Err(PassFault::Memory) => Some(End::Short),
            Err(_) => None,
        }
    }

    fn make(&mut self, alloc: Global, call: Call<'_>) -> Option<End<Answer>> {
        let Kept { rt, run, pass, .. } = self;
        end_of(run.call(*rt, alloc, pass, 7, call))
    }
}

impl<'r, R: Wait> Subject for Kept<'r, R> {
    type Row = Row<Asked<'r, R>>;

    type Answer = Answer;

    fn start(alloc: Global, row: &Row<Asked<'r, R>>) -> Option<Kept<'r, R>> {
        let rt = row.1.rt;
        let registry = published_registry(rt, alloc)?;
        let (run, pass) = attached_run(rt, alloc, &registry)?;
        Some(Kept {
            rt,
            run,
            pass,
            given: given_for(alloc),
        })
    }

    fn call(&mut self, alloc: Global, row: &Row<Asked<'r, R>>) -> Option<End<Answer>> {
        let (user, call) = match self.given.take() {
            Some(given) => given,
            None => given_for(alloc)?,
        };
        match row.1.kind {
            Kind::Attach => self.attach(alloc, user),
            Kind::Create => self.make(alloc, call),
        }
    }

    fn push(answer: Answer, said: &mut String) -> Option<()> {
        push_answer(said, answer)
    }

    fn tell(&mut self, alloc: Global, told: &mut String) -> Option<()> {
        let Kept { rt, run, .. } = self;
        push_answers(*rt, alloc, run, told)
    }

    fn spent(_row: &Row<Asked<'r, R>>, _said: &str) -> Option<bool> {
        None
    }
}

fn row<'r, R>(name: &'static str, rt: &'r R, kind: Kind) -> Row<Asked<'r, R>> {
    Row(name, Asked { rt, kind })
}

/// ann is attached to a run that threads share, and creates a file. A refused call has no answer in
/// the journal.
#[test]
fn a_shared_run_stays_as_it_was(rt: HostRuntime) {
    let rows = [
        row("cs_shared_runs SharedRun::attach", &rt, Kind::Attach),
        row("cs_shared_runs SharedRun::call", &rt, Kind::Create),
    ];
    expect_swept::<Asked<HostRuntime>, Kept<HostRuntime>>(&rt, &rows);
}
