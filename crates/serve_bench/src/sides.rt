//! The clients of the server that is measured, and those of each bare one.

use crate::client::Limit;
use crate::keeping::Keeping;
use crate::kind::Kind;
use crate::rows::{print_alone, print_beside};
use crate::side::Side;
use std::io;
use std::net::{Net, TcpStream};
use std::rt::Clock;
use std::thread::Threads;
use std::time::Duration;

/// How often the clients of one server work, and then those of the others.
const ROUNDS: u32 = 10;

/// How long a round is, in milliseconds: the journal of a run has room for its works.
const ROUND: u64 = 100;

/// The clients of a bare server.
#[derive(Drop)]
struct Bare {
    keeping: Keeping,
    side: Side,
}

/// All clients.
#[derive(Drop)]
pub struct Sides {
    ours: Side,
    bare: Vec<Bare>,
    clients: u32,
}

impl Sides {
    /// So many connections to the server at the first address, and to the bare ones at the others,
    /// in their order.
    pub fn connect<R: Net<Stream = TcpStream> + AllocGlobal>(
        rt: &R,
        addresses: &[String],
        clients: u32,
        own_runs: bool,
    ) -> io::Result<Sides> {
        let alloc = rt.alloc();
        let [first, others @ ..] = addresses else {
            return Err(io::Error::from(io::ErrorKind::InvalidInput));
        };
        let ours = Side::connect(rt, alloc, first.as_str(), clients, own_runs)?;
        let mut bare = Vec::new(alloc);
        for (keeping, address) in Keeping::ALL.iter().zip(others) {
            let side = Side::connect(rt, alloc, address.as_str(), clients, own_runs)?;
            bare.push(Bare {
                keeping: *keeping,
                side,
            })?;
        }
        Ok(Sides {
            ours,
            bare,
            clients,
        })
    }

    /// Does a work by the clients of the bare servers that it is held to.
    fn round_of_bare<R: AllocGlobal + Clock + Threads + Sync>(
        &mut self,
        rt: &R,
        kind: Kind,
        limit: Limit,
    ) -> io::Result<()> {
        for bare in self.bare.iter_mut() {
            if kind.least(bare.keeping).is_some() {
                bare.side.round(rt, kind, limit)?;
            }
        }
        Ok(())
    }

    /// Does a work by all clients, those of one server after those of the other, each time in the
    /// other order.
    fn rounds<R: AllocGlobal + Clock + Threads + Sync>(
        &mut self,
        rt: &R,
        kind: Kind,
    ) -> io::Result<()> {
        let limit = Limit {
            works: u32::MAX,
            time: Duration::from_millis(ROUND),
        };
        for round in 0..ROUNDS {
            if round % 2 == 0 {
                self.ours.round(rt, kind, limit)?;
                self.round_of_bare(rt, kind, limit)?;
            } else {
                self.round_of_bare(rt, kind, limit)?;
                self.ours.round(rt, kind, limit)?;
            }
        }
        Ok(())
    }

    /// Measures a work, and prints its rows.
    pub fn measure<R: Print + AllocGlobal + Clock + Threads + Sync>(
        &mut self,
        rt: &R,
        kind: Kind,
    ) -> io::Result<()> {
        self.rounds(rt, kind)?;
        let ours = self.ours.figures(rt.alloc())?;
        print_alone(rt, kind, &ours, self.clients, true)?;
        for bare in self.bare.iter_mut() {
            let figures = bare.side.figures(rt.alloc())?;
            print_beside(rt, kind, &ours, (bare.keeping, &figures))?;
        }
        Ok(())
    }
}
