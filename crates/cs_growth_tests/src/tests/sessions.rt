//! The calls of a connection, over a port that allocates nothing.

use super::messages::{attach, create, open, read, text, walk, write, wstat};
use super::rows::{Row, expect_no_growth, expect_swept};
use cs_names::{RuleId, Text, Texts};
use cs_permit::{Call, TreeName};
use cs_run::Answer;
use cs_session::{
    AttachMessage, CallMessage, FindFault, Message, PassFault, Port, Reply, Session, WalkMessage,
};
use cs_test_memory::{End, Subject};
use cs_wire::{Qid, RBody, RMessage};
use std::alloc::Global;

/// A step or a message, on a connection whose fid 0 was walked to; the fid 1 is open.
#[derive(Clone, Copy)]
enum Word {
    Find,
    Attach,
    Walk,
    Open,
    Create,
    Read,
    Write,
    Wstat,
    Stat,
    Remove,
    Close,
    /// A whole attach.
    Join,
    /// The bytes of a walk.
    Bytes,
    HangUp,
}

/// The qid in the answer to each attach and open.
const QID: Qid = Qid {
    kind: 0,
    vers: 4,
    path: 3,
};

/// Answers each call according to its kind.
#[derive(Drop)]
struct Fake;

impl Port for Fake {
    ghost gives = { λ p question told p'. Unit {0} };

    fn find(&mut self, _alloc: Global, _name: &TreeName) -> Result<u32, FindFault> {
        Ok(0)
    }

    fn attach(
        &mut self,
        _alloc: Global,
        _now: u32,
        _run: u32,
        _user: Text,
    ) -> Result<(u32, Answer), PassFault> {
        Ok((1, Answer::Attached(QID)))
    }

    fn call(&mut self, _alloc: Global, _now: u32, _run: u32, _pass: u32, call: Call<'_>) -> Answer {
        match call {
            Call::Open(_) | Call::Create(_) => Answer::Opened {
                qid: QID,
                open_number: 0,
                number: 3,
            },
            Call::Write(_) => Answer::Written(3),
            Call::Close(_) => Answer::Closed,
            Call::Remove(_) => Answer::Removed,
            Call::Wstat(_) => Answer::Changed,
            _ => Answer::Denied(RuleId::L1),
        }
    }
}

/// What a step or a message is given.
#[derive(Drop)]
enum Given {
    Attach(AttachMessage),
    Call(CallMessage<'static>),
    Nothing,
}

fn give(alloc: Global, word: Word) -> Option<Given> {
    Some(Given::Call(match word {
        Word::Find | Word::Join => return Some(Given::Attach(attach(alloc, 2)?)),
        Word::Walk => walk(alloc, 2),
        Word::Open => open(0),
        Word::Create => create(alloc)?,
        Word::Read => read(),
        Word::Write => write(),
        Word::Wstat => wstat(alloc)?,
        Word::Stat => CallMessage::Stat(0),
        Word::Remove => CallMessage::Remove(0),
        Word::Attach | Word::Close | Word::Bytes | Word::HangUp => return Some(Given::Nothing),
    }))
}

/// The answer to a step or a message.
#[derive(Drop)]
enum Told {
    Nothing,
    Reply(Reply),
    Message(RMessage),
}

/// A connection, and what its next step is given.
#[derive(Drop)]
struct Kept {
    session: Session,
    port: Fake,
    given: Option<Given>,
}

/// A walk of the fid 0 to no name, as the fid 2.
const WALK: &[u8] = b"\x11\0\0\0n\x01\0\0\0\0\0\x02\0\0\0\0\0";

impl Kept {
    fn answer(&mut self, alloc: Global, message: Message<'_>) -> Option<Reply> {
        if self.session.awaits_attach() {
            return None;
        }
        Some(self.session.answer(alloc, &mut self.port, 7, message))
    }

    /// Begins a session, with a fid that was walked to and one that is open.
    fn begin(&mut self, alloc: Global) -> Option<()> {
        let version = text(alloc, "9P2000")?;
        self.answer(
            alloc,
            Message::Version {
                msize: 8192,
                version,
            },
        )?;
        self.answer(alloc, Message::Attach(attach(alloc, 0)?))?;
        self.answer(alloc, Message::Call(walk(alloc, 1)))?;
        self.answer(alloc, Message::Attach(attach(alloc, 1)?))?;
        self.answer(alloc, Message::Call(open(1)))?;
        Some(())
    }

    /// The reply to bytes: whether it says out of memory.
    fn read_bytes(&mut self, alloc: Global) -> Option<End<Told>> {
        if self.session.awaits_attach() {
            return None;
        }
        let reply = self.session.reply(alloc, &mut self.port, 7, WALK);
        let RBody::Error { ename } = &reply.body else {
            return None;
        };
        if ename.as_str() == "out of memory" {
            return Some(End::Short);
        }
        Some(End::Done(Told::Message(reply)))
    }

    fn hang_up(&mut self, alloc: Global) -> Option<End<Told>> {
        if self.session.awaits_attach() {
            return None;
        }
        self.session.hang_up(alloc, &mut self.port, 7);
        Some(End::Done(Told::Nothing))
    }

    fn step(&mut self, alloc: Global, word: Word, given: Given) -> Option<Reply> {
        let port = &mut self.port;
        match given {
            Given::Attach(message) => match word {
                Word::Find => Some(self.session.find_step(alloc, port, message)),
                _ => self.answer(alloc, Message::Attach(message)),
            },
            Given::Call(message) => Some(self.session.call_step(alloc, port, 7, message)),
            Given::Nothing => match word {
                Word::Attach => Some(self.session.attach_step(alloc, port, 7)),
                _ => Some(self.session.close_step(alloc, port, 7, 1)),
            },
        }
    }
}

fn end_of(reply: Reply) -> End<Told> {
    match reply {
        Reply::Memory => End::Short,
        reply => End::Done(Told::Reply(reply)),
    }
}

impl Subject for Kept {
    type Row = Row<Word>;

    type Answer = Told;

    fn start(alloc: Global, row: &Row<Word>) -> Option<Kept> {
        let mut kept = Kept {
            session: Session::new(alloc),
            port: Fake,
            given: give(alloc, row.1),
        };
        kept.begin(alloc)?;
        if let Word::Attach = row.1 {
            let message = attach(alloc, 2)?;
            kept.step(alloc, Word::Find, Given::Attach(message))?;
        }
        Some(kept)
    }

    fn call(&mut self, alloc: Global, row: &Row<Word>) -> Option<End<Told>> {
        let given = match self.given.take() {
            Some(given) => given,
            None => give(alloc, row.1)?,
        };
        match row.1 {
            Word::Bytes => self.read_bytes(alloc),
            Word::HangUp => self.hang_up(alloc),
            word => Some(end_of(self.step(alloc, word, given)?)),
        }
    }

    fn push(answer: Told, said: &mut String) -> Option<()> {
        match answer {
            Told::Nothing => Some(()),
            Told::Reply(reply) => write!(said, "{reply:?}").ok(),
            Told::Message(reply) => write!(said, "{reply}").ok(),
        }
    }

    /// Asks what each fid is: one that doesn't exist fails another rule, and so does one that is
    /// open.
    fn tell(&mut self, alloc: Global, told: &mut String) -> Option<()> {
        write!(told, "{:?}", self.session.msize()).ok()?;
        for fid in 0..4u32 {
            let stat = CallMessage::Stat(fid);
            let stat = self.session.call_step(alloc, &mut self.port, 7, stat);
            let walk = CallMessage::Walk(WalkMessage {
                fid,
                newfid: fid,
                names: Texts::new(Vec::new(alloc)),
            });
            let walk = self.session.call_step(alloc, &mut self.port, 7, walk);
            write!(told, " {stat:?} {walk:?}").ok()?;
        }
        Some(())
    }

    fn spent(_row: &Row<Word>, _said: &str) -> Option<bool> {
        None
    }
}

const ROWS: [Row<Word>; 8] = [
    Row("cs_session Session::find_step", Word::Find),
    Row("cs_session Session::call_step", Word::Walk),
    Row("cs_session Session::call_step", Word::Open),
    Row("cs_session Session::call_step", Word::Create),
    Row("cs_session Session::call_step", Word::Write),
    Row("cs_session Session::call_step", Word::Wstat),
    Row("cs_session Session::answer", Word::Join),
    Row("cs_session Session::reply", Word::Bytes),
];

const NO_GROWTH: [Row<Word>; 6] = [
    Row("cs_session Session::attach_step", Word::Attach),
    Row("cs_session Session::call_step", Word::Read),
    Row("cs_session Session::call_step", Word::Stat),
    Row("cs_session Session::call_step", Word::Remove),
    Row("cs_session Session::close_step", Word::Close),
    Row("cs_session Session::hang_up", Word::HangUp),
];

/// Steps and messages of a connection over a port that allocates nothing.
#[test]
fn a_connection_stays_as_it_was(rt: HostRuntime) {
    expect_swept::<Word, Kept>(&rt, &ROWS);
    expect_no_growth::<Word, Kept>(&rt, &NO_GROWTH);
}
