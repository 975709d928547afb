//! The clients of one server, and what they measured together.

use crate::client::{Client, Limit};
use crate::kind::Kind;
use std::alloc::Global;
use std::net::{Net, TcpStream};
use std::rt::Clock;
use std::thread::Threads;
use std::{io, mem, thread};

/// The clients of a server.
#[derive(Drop)]
pub struct Side {
    clients: Vec<Client>,
    connections: u32,
    /// Whether each client has a separate run.
    own_runs: bool,
    /// The number of the next run to which nobody attached yet.
    next_run: u32,
    /// How many works a second all of them did in each round.
    rates: Vec<u64>,
}

/// What the clients of a server measured.
#[derive(Drop)]
pub struct Figures {
    /// How many works they did.
    pub works: u64,
    /// How many a second, in each round.
    pub rates: Vec<u64>,
    /// Nanoseconds that all but one work of a hundred took at most.
    pub tail: u64,
    /// How many the client did that did the fewest.
    pub fewest: u64,
}

impl Side {
    /// So many connections to the server at the address.
    pub fn connect<R: Net<Stream = TcpStream>>(
        rt: &R,
        alloc: Global,
        address: &str,
        connections: u32,
        own_runs: bool,
    ) -> io::Result<Side> {
        let mut clients = Vec::new(alloc);
        for number in 0..connections {
            clients.push(Client::connect(rt, alloc, address, number)?)?;
        }
        Ok(Side {
            clients,
            connections,
            own_runs,
            next_run: 0,
            rates: Vec::new(alloc),
        })
    }

    /// All clients attach to runs to which nobody attached yet.
    fn join(&mut self, alloc: Global, kind: Kind) -> io::Result<()> {
        for client in self.clients.iter_mut() {
            let place = if self.own_runs { client.number() } else { 0 };
            client.join(alloc, kind, self.next_run.wrapping_add(place))?;
        }
        let runs = if self.own_runs { self.connections } else { 1 };
        self.next_run = self.next_run.wrapping_add(runs);
        Ok(())
    }

    /// All clients do a work again and again, on fresh runs, at the same time.
    pub fn round<R: AllocGlobal + Clock + Threads + Sync>(
        &mut self,
        rt: &R,
        kind: Kind,
        limit: Limit,
    ) -> io::Result<()> {
        self.join(rt.alloc(), kind)?;
        let threads = self.clients.len().max(1);
        let work = |_: usize, client: &mut Client| client.try_work(rt, limit);
        thread::for_each_mut(rt, self.clients.as_mut_slice(), threads, &work);
        if self.clients.iter().any(|client| client.failed) {
            return Err(io::Error::from(io::ErrorKind::Other));
        }
        let rate = self.rate();
        self.rates.push(rate)?;
        Ok(())
    }

    /// How many works a second they did in the last round.
    fn rate(&self) -> u64 {
        let mut rate = 0u64;
        for client in &self.clients {
            rate = rate.saturating_add(client.rate());
        }
        rate
    }

    /// The times of all works, the shortest first.
    fn times(&self, alloc: Global) -> io::Result<Vec<u64>> {
        let mut times = Vec::new(alloc);
        for client in &self.clients {
            times.extend_from_slice(&client.times)?;
        }
        times.sort_unstable();
        Ok(times)
    }

    /// The works of the client that did the fewest.
    fn fewest(&self) -> u64 {
        let mut fewest = u64::MAX;
        for client in &self.clients {
            fewest = fewest.min(client.times.len() as u64);
        }
        fewest
    }

    /// What was measured since this was asked for the last time.
    pub fn figures(&mut self, alloc: Global) -> io::Result<Figures> {
        let times = self.times(alloc)?;
        let works = times.len();
        let fewest = self.fewest();
        for client in self.clients.iter_mut() {
            client.times.clear();
        }
        let all_but_one = works.saturating_sub(works / 100 + 1);
        Ok(Figures {
            works: works as u64,
            rates: mem::replace(&mut self.rates, Vec::new(alloc)),
            tail: times.get(all_but_one).copied().unwrap_or(0),
            fewest,
        })
    }
}
