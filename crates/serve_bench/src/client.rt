//! A client, and how long its works took.

use crate::kind::Kind;
use crate::link::Link;
use crate::messages::{joining, working};
use std::alloc::Global;
use std::io;
use std::net::{Net, TcpStream};
use std::rt::Clock;
use std::time::{Duration, Instant};

/// How far a client goes on with a work.
#[derive(Clone, Copy, Debug, PartialEq, Eq)]
pub struct Limit {
    /// How often it does it, at most.
    pub works: u32,
    /// After how long it does it no more.
    pub time: Duration,
}

/// A connection, and what was measured on it.
#[derive(Drop)]
pub struct Client {
    link: Link,
    number: u32,
    messages: Vec<Vec<u8>>,
    /// Nanoseconds of each work.
    pub times: Vec<u64>,
    /// How many works the last round had, and how long they took together.
    last: (u64, Duration),
    /// Whether a work went wrong.
    pub failed: bool,
}

impl Client {
    pub fn connect<R: Net<Stream = TcpStream>>(
        rt: &R,
        alloc: Global,
        address: &str,
        number: u32,
    ) -> io::Result<Client> {
        let stream = TcpStream::connect(rt, address)?;
        Ok(Client {
            link: Link::new(alloc, stream)?,
            number,
            messages: Vec::new(alloc),
            times: Vec::new(alloc),
            last: (0, Duration::ZERO),
            failed: false,
        })
    }

    /// The client's number among those of its server.
    pub fn number(&self) -> u32 {
        self.number
    }

    /// Comes to a run, to do that work there.
    pub fn join(&mut self, alloc: Global, kind: Kind, run: u32) -> io::Result<()> {
        for message in &joining(alloc, self.number, run)? {
            self.link.ask(message)?;
        }
        self.messages = working(alloc, kind, self.number)?;
        Ok(())
    }

    /// How many works a second it did in the last round.
    pub fn rate(&self) -> u64 {
        let (works, lasted) = self.last;
        let microseconds = u64::try_from(lasted.as_micros()).unwrap_or(u64::MAX);
        works.saturating_mul(1_000_000) / microseconds.max(1)
    }

    /// Does the work once.
    fn work_once(&mut self) -> io::Result<()> {
        for message in &self.messages {
            self.link.ask(message)?;
        }
        Ok(())
    }

    fn work(&mut self, rt: &impl Clock, limit: Limit) -> io::Result<()> {
        let start = Instant::now(rt)?;
        let mut before = Duration::ZERO;
        let works = self.times.len();
        for _ in 0..limit.works {
            self.work_once()?;
            let after = start.elapsed(rt)?;
            let took = after.saturating_sub(before).as_nanos();
            self.times.push(u64::try_from(took).unwrap_or(u64::MAX))?;
            before = after;
            if after >= limit.time {
                break;
            }
        }
        let more = self.times.len().saturating_sub(works);
        self.last = (more as u64, before);
        Ok(())
    }

    /// Does the work again and again; that it went wrong is kept.
    pub fn try_work(&mut self, rt: &impl Clock, limit: Limit) {
        if self.work(rt, limit).is_err() {
            self.failed = true;
        }
    }
}
