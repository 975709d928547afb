//! A call that is made with its first growth refused, then with its second, and so on.

use crate::hoard::{GAP, Hoard};
use std::alloc::{AllocError, Global};

/// How a call ended.
#[derive(Debug, Drop)]
pub enum End<A> {
    /// With that answer.
    Done(A),
    /// It ran out of memory.
    Short,
}

/// What a call is made on.
pub trait Subject: Drop {
    /// Which call, and what it is made with.
    type Row;

    type Answer: Drop;

    /// The subject as it is before the call, with all that the call is given.
    fn start(alloc: Global, row: &Self::Row) -> Option<Self>;

    /// Makes the call.
    fn call(&mut self, alloc: Global, row: &Self::Row) -> Option<End<Self::Answer>>;

    /// Adds what the call answered.
    fn push(answer: Self::Answer, said: &mut String) -> Option<()>;

    /// Adds all that can be seen of the subject.
    fn tell(&mut self, alloc: Global, told: &mut String) -> Option<()>;

    /// If a call that was refused counts as made: whether that is the answer to the second call.
    fn spent(row: &Self::Row, said: &str) -> Option<bool>;
}

/// What is looked at.
#[derive(Clone, Copy, Debug, PartialEq, Eq)]
pub enum Look {
    /// What can be seen of the subject after a refusal.
    Refused,
    /// The answer to the call that comes after a refusal.
    AnswerAgain,
    /// What can be seen after that.
    Again,
    /// The answer if no growth was refused.
    Answer,
    /// What can be seen after that.
    Done,
}

/// Why a call is not as it should be.
#[derive(Debug, Drop)]
pub enum SweepFault {
    /// The subject couldn't be made, called or described.
    Setting,
    /// An open hoard left too little memory.
    Memory,
    /// With ample memory it ran out of memory.
    Short,
    /// It was refused with the whole gap free.
    Endless,
    /// What was found, and what was wanted.
    Differs(Look, String, String),
}

impl From<AllocError> for SweepFault {
    fn from(_refused: AllocError) -> SweepFault {
        SweepFault::Memory
    }
}

/// What a call answers with ample memory, and what can be seen of its subject before and after it.
#[derive(Drop)]
struct Usual {
    before: String,
    said: String,
    after: String,
}

fn started<S: Subject>(alloc: Global, row: &S::Row) -> Result<S, SweepFault> {
    match S::start(alloc, row) {
        Some(subject) => Ok(subject),
        None => Err(SweepFault::Setting),
    }
}

fn told<S: Subject>(alloc: Global, subject: &mut S) -> Result<String, SweepFault> {
    let mut text = String::new(alloc);
    match subject.tell(alloc, &mut text) {
        Some(()) => Ok(text),
        None => Err(SweepFault::Setting),
    }
}

fn ended<A>(end: Option<End<A>>) -> Result<End<A>, SweepFault> {
    match end {
        Some(end) => Ok(end),
        None => Err(SweepFault::Setting),
    }
}

fn text_of<S: Subject>(alloc: Global, answer: S::Answer) -> Result<String, SweepFault> {
    let mut said = String::new(alloc);
    match S::push(answer, &mut said) {
        Some(()) => Ok(said),
        None => Err(SweepFault::Setting),
    }
}

/// Makes the call with ample memory; its answer.
fn answer<S: Subject>(alloc: Global, subject: &mut S, row: &S::Row) -> Result<String, SweepFault> {
    match ended(subject.call(alloc, row))? {
        End::Done(answer) => text_of::<S>(alloc, answer),
        End::Short => Err(SweepFault::Short),
    }
}

fn ample<S: Subject>(alloc: Global, row: &S::Row) -> Result<Usual, SweepFault> {
    let before = told(alloc, &mut started::<S>(alloc, row)?)?;
    let mut subject = started::<S>(alloc, row)?;
    let said = answer(alloc, &mut subject, row)?;
    let after = told(alloc, &mut subject)?;
    Ok(Usual {
        before,
        said,
        after,
    })
}

fn same(what: Look, found: String, wanted: &String) -> Result<(), SweepFault> {
    if found.as_str() == wanted.as_str() {
        return Ok(());
    }
    Err(SweepFault::Differs(what, found, wanted.clone()?))
}

/// The call was refused, and is made again with ample memory.
fn again<S: Subject>(
    alloc: Global,
    subject: &mut S,
    row: &S::Row,
    usual: &Usual,
) -> Result<(), SweepFault> {
    same(Look::Refused, told(alloc, subject)?, &usual.before)?;
    let said = answer(alloc, subject, row)?;
    let left = told(alloc, subject)?;
    match S::spent(row, said.as_str()) {
        None => {
            same(Look::AnswerAgain, said, &usual.said)?;
            same(Look::Again, left, &usual.after)
        }
        Some(true) => same(Look::Again, left, &usual.before),
        Some(false) => Err(SweepFault::Differs(Look::AnswerAgain, said, left)),
    }
}

/// Makes the call with about so many bytes left; whether it was refused.
fn squeezed<S: Subject>(
    alloc: Global,
    hoard: &mut Hoard,
    row: &S::Row,
    usual: &Usual,
    bytes: usize,
) -> Result<bool, SweepFault> {
    let mut subject = started::<S>(alloc, row)?;
    hoard.close(alloc, bytes)?;
    let end = subject.call(alloc, row);
    hoard.open(alloc);
    match ended(end)? {
        End::Short => {
            again(alloc, &mut subject, row, usual)?;
            Ok(true)
        }
        End::Done(answer) => {
            same(Look::Answer, text_of::<S>(alloc, answer)?, &usual.said)?;
            same(Look::Done, told(alloc, &mut subject)?, &usual.after)?;
            Ok(false)
        }
    }
}

/// Makes the call of a row on a new subject with no byte left, then with some bytes more each time,
/// until it meets no refusal: how often it was refused. With 16 bytes more each time, as few as
/// malloc gives, each growth is refused in its turn that takes more than was given back before it.
/// After each refusal the subject is as it was before, and the call with ample memory has its usual
/// answer.
pub fn sweep<S: Subject>(
    alloc: Global,
    hoard: &mut Hoard,
    row: &S::Row,
    more: usize,
) -> Result<usize, SweepFault> {
    hoard.open(alloc);
    let usual = ample::<S>(alloc, row)?;
    let mut bytes = 0usize;
    for refusals in 0..GAP {
        if bytes > GAP {
            break;
        }
        if !squeezed::<S>(alloc, hoard, row, &usual, bytes)? {
            return Ok(refusals);
        }
        bytes = bytes.saturating_add(more);
    }
    Err(SweepFault::Endless)
}
