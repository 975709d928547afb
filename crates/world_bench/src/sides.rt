//! Messages to a world, and to a session over one run only.

use crate::alone::Alone;
use crate::files::{scene, users};
use crate::messages::{opening, send};
use cs_bench::Work;
use cs_script::world_of;
use cs_world::World;
use std::alloc::Global;

/// Messages that are sent to a world one after the other, `repeats` times in a round.
#[derive(Drop)]
pub struct ToWorld {
    pub world: World,
    pub messages: Vec<Vec<u8>>,
    pub out: Vec<u8>,
    pub repeats: u64,
}

/// The same to a session over one run only.
#[derive(Drop)]
pub struct ToSession {
    alone: Alone,
    messages: Vec<Vec<u8>>,
    out: Vec<u8>,
    repeats: u64,
}

/// A world of the states of a trace with so many creats. None if memory runs out.
fn world(alloc: Global, creats: u32) -> Option<World> {
    let users = users(alloc)?;
    world_of(alloc, scene(alloc, creats)?, users).ok()
}

impl ToWorld {
    /// A world of the states of a trace with so many creats, in which the connection 0 has begun a
    /// session. None if memory runs out.
    pub fn of(alloc: Global, creats: u32, repeats: u64) -> Option<ToWorld> {
        let messages = opening(alloc)?;
        let mut side = ToWorld {
            world: world(alloc, creats)?,
            messages,
            out: Vec::new(alloc),
            repeats,
        };
        side.send(alloc)?;
        Some(side)
    }

    /// Sends each message once. None if one is denied.
    fn send(&mut self, alloc: Global) -> Option<()> {
        for bytes in &self.messages {
            send(alloc, &mut self.world, bytes, &mut self.out)?;
        }
        Some(())
    }
}

impl Work for ToWorld {
    /// Sends all messages `repeats` times; how often none was denied.
    fn run(&mut self, alloc: Global) -> u64 {
        let mut done = 0u64;
        for _ in 0..self.repeats {
            done = done.wrapping_add(u64::from(self.send(alloc).is_some()));
        }
        done
    }
}

/// A session over a fresh run of one state. None if memory runs out.
fn alone(alloc: Global) -> Option<Alone> {
    let users = users(alloc)?;
    Alone::new(alloc, scene(alloc, 0)?, users)
}

impl ToSession {
    /// A session that has begun over a fresh run, and the messages that are sent to it.
    pub fn of(alloc: Global, messages: Vec<Vec<u8>>, repeats: u64) -> Option<ToSession> {
        let first = opening(alloc)?;
        let mut side = ToSession {
            alone: alone(alloc)?,
            messages: first,
            out: Vec::new(alloc),
            repeats,
        };
        side.send(alloc)?;
        side.messages = messages;
        Some(side)
    }

    /// Sends each message once. None if one is denied.
    fn send(&mut self, alloc: Global) -> Option<()> {
        for bytes in &self.messages {
            self.alone.send(alloc, bytes, &mut self.out)?;
        }
        Some(())
    }
}

impl Work for ToSession {
    /// Sends all messages `repeats` times; how often none was denied.
    fn run(&mut self, alloc: Global) -> u64 {
        let mut done = 0u64;
        for _ in 0..self.repeats {
            done = done.wrapping_add(u64::from(self.send(alloc).is_some()));
        }
        done
    }
}
