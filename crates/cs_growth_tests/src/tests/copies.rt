//! Copies of messages, and of a change of a connection's table.

use super::messages::{attach, create, open, read, text, walk, walk_on, write, wstat};
use super::rows::{Row, expect_no_growth, expect_swept};
use cs_session::{AttachMessage, CallMessage, TableStep};
use cs_test_memory::{End, Subject};
use std::alloc::{AllocError, Global};

/// What is copied.
#[derive(Clone, Copy)]
enum Word {
    Attach,
    /// By two names.
    Walk,
    /// By none.
    Clone,
    Open,
    Create,
    Read,
    Write,
    Wstat,
    /// Of the table.
    Version,
    HangUp,
}

#[derive(Debug, Drop)]
enum Given {
    Attach(AttachMessage),
    Call(CallMessage<'static>),
    Table(TableStep),
}

fn version(alloc: Global) -> Option<TableStep> {
    Some(TableStep::Version {
        msize: 8192,
        version: text(alloc, "9P2000")?,
    })
}

fn give(alloc: Global, word: Word) -> Option<Given> {
    Some(Given::Call(match word {
        Word::Attach => return Some(Given::Attach(attach(alloc, 2)?)),
        Word::Version => return Some(Given::Table(version(alloc)?)),
        Word::HangUp => return Some(Given::Table(TableStep::HangUp)),
        Word::Walk => walk_on(alloc)?,
        Word::Clone => walk(alloc, 2),
        Word::Open => open(0),
        Word::Create => create(alloc)?,
        Word::Read => read(),
        Word::Write => write(),
        Word::Wstat => wstat(alloc)?,
    }))
}

fn copied(alloc: Global, given: &Given) -> Result<Given, AllocError> {
    Ok(match given {
        Given::Attach(message) => Given::Attach(message.try_clone()?),
        Given::Call(message) => Given::Call(message.try_clone(alloc)?),
        Given::Table(change) => Given::Table(change.try_clone()?),
    })
}

/// What is copied; the original stays as it is.
#[derive(Drop)]
struct Kept {
    given: Given,
}

impl Subject for Kept {
    type Row = Row<Word>;

    type Answer = Given;

    fn start(alloc: Global, row: &Row<Word>) -> Option<Kept> {
        let given = give(alloc, row.1)?;
        Some(Kept { given })
    }

    fn call(&mut self, alloc: Global, _row: &Row<Word>) -> Option<End<Given>> {
        match copied(alloc, &self.given) {
            Ok(copy) => Some(End::Done(copy)),
            Err(_) => Some(End::Short),
        }
    }

    fn push(answer: Given, said: &mut String) -> Option<()> {
        write!(said, "{answer:?}").ok()
    }

    fn tell(&mut self, _alloc: Global, told: &mut String) -> Option<()> {
        write!(told, "{:?}", self.given).ok()
    }

    fn spent(_row: &Row<Word>, _said: &str) -> Option<bool> {
        None
    }
}

const ROWS: [Row<Word>; 6] = [
    Row("cs_session AttachMessage::try_clone", Word::Attach),
    Row("cs_session CallMessage::try_clone", Word::Walk),
    Row("cs_session CallMessage::try_clone", Word::Create),
    Row("cs_session CallMessage::try_clone", Word::Write),
    Row("cs_session CallMessage::try_clone", Word::Wstat),
    Row("cs_session TableStep::try_clone", Word::Version),
];

const NO_GROWTH: [Row<Word>; 4] = [
    Row("cs_session CallMessage::try_clone", Word::Clone),
    Row("cs_session CallMessage::try_clone", Word::Open),
    Row("cs_session CallMessage::try_clone", Word::Read),
    Row("cs_session TableStep::try_clone", Word::HangUp),
];

/// Copies of messages and of a version. Copies of a walk by no name, an open, a read and a hang-up
/// need no growth.
#[test]
fn what_is_copied_stays_as_it_was(rt: HostRuntime) {
    expect_swept::<Word, Kept>(&rt, &ROWS);
    expect_no_growth::<Word, Kept>(&rt, &NO_GROWTH);
}
