//! The port of a connection over a registry that threads share; and a stream without memory for its
//! buffers.

use super::calls::{Word, call_of, push_answer};
use super::rows::{Row, expect_swept};
use super::shared::{published_registry, push_answers};
use cs_connection::{Server, SharedPort, serve_connection};
use cs_names::{RunName, Text};
use cs_permit::{Call, FindFault, PassFault, TreeName};
use cs_run::Answer;
use cs_session::{Clock, Port, ServeFault};
use cs_shared_runs::{AnyScene, SharedRegistry};
use cs_stream::TwoEnded;
use cs_test_memory::{End, Hoard, Subject};
use std::alloc::{AllocError, Global};
use std::sync::Wait;
use std::sync::atomic::{AtomicU32, Ordering};

#[derive(Clone, Copy, PartialEq, Eq)]
enum Kind {
    Find,
    Attach,
    /// Of a file, by ann.
    Create,
}

/// Which call, over which registry. Each port has its own run, named by the next number.
struct Asked<'r, R> {
    rt: &'r R,
    registry: &'r SharedRegistry<AnyScene>,
    next: &'r AtomicU32,
    kind: Kind,
}

impl<R> Clone for Asked<'_, R> {
    fn clone(&self) -> Result<Self, AllocError> {
        Ok(*self)
    }
}

impl<R> Copy for Asked<'_, R> {}

/// A port, the name of its run, and what its next call is given.
#[derive(Drop)]
struct Kept<'r, R: Wait> {
    rt: &'r R,
    registry: &'r SharedRegistry<AnyScene>,
    port: SharedPort<'r, AnyScene, R>,
    name: RunName,
    given: Option<(Text, Call<'static>)>,
    /// Whether the run is found before the call. If not, its journal isn't looked at.
    is_found: bool,
}

/// The place of a found run, or an answer.
#[derive(Drop)]
enum Told {
    Run(u32),
    Answer(Answer),
}

fn given_for(alloc: Global) -> Option<(Text, Call<'static>)> {
    let user = Text::copy_of(alloc, "ann").ok()?;
    Some((user, call_of(alloc, Word::Create)?))
}

fn answer_end(answer: Answer) -> Option<End<Told>> {
    match answer {
        Answer::Short => Some(End::Short),
        answer => Some(End::Done(Told::Answer(answer))),
    }
}

/// The pass's place isn't compared: an attach that runs out of memory on the run has one.
fn attach_end(attached: Result<(u32, Answer), PassFault>) -> Option<End<Told>> {
    match attached {
        Ok((_, answer)) => answer_end(answer),
        Err(PassFault::Memory) => Some(End::Short),
        Err(_) => None,
    }
}

fn find_end(found: Result<u32, FindFault>) -> Option<End<Told>> {
    match found {
        Ok(place) => Some(End::Done(Told::Run(place))),
        Err(FindFault::Memory) => Some(End::Short),
        Err(_) => None,
    }
}

/// The name of a port's run, and the name by which the port finds it.
fn run_name(alloc: Global, number: u32) -> Option<RunName> {
    let name = format!(in alloc; "r{number}").ok()?;
    RunName::read(alloc, name.as_bytes()).ok()
}

impl<'r, R: Wait> Kept<'r, R> {
    fn find(&mut self, alloc: Global) -> Option<End<Told>> {
        let Kept { port, name, .. } = self;
        let name = TreeName {
            state: b"0",
            run: name.as_bytes(),
        };
        find_end(port.find(alloc, &name))
    }

    fn attach(&mut self, alloc: Global, user: Text) -> Option<End<Told>> {
        attach_end(self.port.attach(alloc, 7, 0, user))
    }

    fn make(&mut self, alloc: Global, call: Call<'_>) -> Option<End<Told>> {
        answer_end(self.port.call(alloc, 7, 0, 0, call))
    }

    /// Finds the run, and attaches ann, as the call of that kind needs.
    fn begin(&mut self, alloc: Global, kind: Kind) -> Option<()> {
        if kind == Kind::Find {
            return Some(());
        }
        let _run = self.find(alloc)?;
        if kind == Kind::Create {
            let _pass = self.attach(alloc, Text::copy_of(alloc, "ann").ok()?)?;
        }
        Some(())
    }
}

impl<'r, R: Wait> Subject for Kept<'r, R> {
    type Row = Row<Asked<'r, R>>;

    type Answer = Told;

    fn start(alloc: Global, row: &Row<Asked<'r, R>>) -> Option<Kept<'r, R>> {
        let asked = row.1;
        let number = asked.next.fetch_add(1, Ordering::SeqCst);
        let mut kept = Kept {
            rt: asked.rt,
            registry: asked.registry,
            port: SharedPort::new(asked.rt, alloc, asked.registry),
            name: run_name(alloc, number)?,
            given: given_for(alloc),
            is_found: asked.kind != Kind::Find,
        };
        kept.begin(alloc, asked.kind)?;
        Some(kept)
    }

    fn call(&mut self, alloc: Global, row: &Row<Asked<'r, R>>) -> Option<End<Told>> {
        let (user, call) = match self.given.take() {
            Some(given) => given,
            None => given_for(alloc)?,
        };
        match row.1.kind {
            Kind::Find => self.find(alloc),
            Kind::Attach => self.attach(alloc, user),
            Kind::Create => self.make(alloc, call),
        }
    }

    fn push(answer: Told, said: &mut String) -> Option<()> {
        match answer {
            Told::Run(place) => write!(said, "run {place}").ok(),
            Told::Answer(answer) => push_answer(said, answer),
        }
    }

    fn tell(&mut self, alloc: Global, told: &mut String) -> Option<()> {
        if !self.is_found {
            return Some(());
        }
        let Kept {
            rt,
            registry,
            name,
            ..
        } = self;
        let run = registry.find(*rt, alloc, 0, name).ok()?;
        push_answers(*rt, alloc, &run, told)
    }

    fn spent(_row: &Row<Asked<'r, R>>, _said: &str) -> Option<bool> {
        None
    }
}

fn row<'r, R>(name: &'static str, asked: Asked<'r, R>, kind: Kind) -> Row<Asked<'r, R>> {
    Row(name, Asked { kind, ..asked })
}

/// The port of a connection finds a run, attaches ann to it, and creates a file for her. A refused
/// attach or create has no answer in the run's journal.
#[test]
fn a_port_without_memory_changes_nothing(rt: HostRuntime) {
    let registry = published_registry(&rt, rt.alloc()).expect(&rt, "memory");
    let next = AtomicU32::new(0);
    let asked = Asked {
        rt: &rt,
        registry: &registry,
        next: &next,
        kind: Kind::Find,
    };
    let rows = [
        Row("cs_connection SharedPort::find", asked),
        row("cs_connection SharedPort::attach", asked, Kind::Attach),
        row("cs_connection SharedPort::call", asked, Kind::Create),
    ];
    expect_swept::<Asked<HostRuntime>, Kept<HostRuntime>>(&rt, &rows);
}

/// A clock that is always at second 7.
#[derive(Drop)]
struct Stopped;

impl Clock for Stopped {
    fn now(&mut self) -> u32 {
        7
    }
}

const VERSION: &[u8] = b"\x13\0\0\0d\xff\xff\0 \0\0\x06\09P2000";

const VERSION_REPLY: &[u8] = b"\x13\0\0\0e\xff\xff\0 \0\0\x06\09P2000";

/// A connection without memory for its buffers ends before its stream is read; with memory it is
/// served.
#[test]
fn a_stream_without_memory_for_its_buffers_is_not_read(rt: HostRuntime) {
    let registry = published_registry(&rt, rt.alloc()).expect(&rt, "memory");
    let server = Server::new(registry);
    let mut stream = TwoEnded::new(VERSION, Vec::new(rt.alloc()));
    let mut hoard = Hoard::new(rt.alloc()).expect(&rt, "memory");
    hoard.close(rt.alloc(), 4_096).expect(&rt, "memory");
    let refused = serve_connection(&rt, rt.alloc(), &server, &mut stream, &mut Stopped);
    hoard.open(rt.alloc());
    assert!(rt; refused.result() == Err(ServeFault::Memory));
    assert!(rt; stream.counts().reads == 0);
    let served = serve_connection(&rt, rt.alloc(), &server, &mut stream, &mut Stopped);
    assert!(rt; served.result() == Ok(()));
    assert!(rt; stream.into_writer().as_slice() == VERSION_REPLY);
}
