//! How long works take.

use std::alloc::Global;
use std::io;
use std::num::nearest_u64_to_f64;
use std::rt::Clock;
use std::time::{Duration, Instant};

/// Something that can be done again and again.
pub trait Work {
    /// Does it once more: how many of its calls did what they should.
    fn run(&mut self, alloc: Global) -> u64;
}

/// How long a work took in all, and how many of its calls did what they should.
#[derive(Clone, Copy)]
pub struct Total {
    took: Duration,
    done: u64,
}

impl Total {
    /// Nothing was done yet.
    pub fn new() -> Total {
        Total {
            took: Duration::ZERO,
            done: 0,
        }
    }

    /// So many calls more, which took so long.
    pub fn add(&mut self, took: Duration, done: u64) {
        self.took = self.took.saturating_add(took);
        self.done = self.done.wrapping_add(done);
    }

    /// Does a work once more.
    pub fn time<W: Work>(
        &mut self,
        rt: &(impl Clock + AllocGlobal),
        work: &mut W,
    ) -> io::Result<()> {
        let start = Instant::now(rt)?;
        let done = work.run(rt.alloc());
        self.add(start.elapsed(rt)?, done);
        Ok(())
    }

    pub fn done(&self) -> u64 {
        self.done
    }

    pub fn seconds(&self) -> f64 {
        self.took.as_secs_f64()
    }

    /// Nanoseconds of each call.
    pub fn each(&self) -> u128 {
        self.took.as_nanos() / u128::from(self.done.max(1))
    }

    /// How many times as long each call took as each of another work.
    pub fn times(&self, other: &Total) -> f64 {
        let each = self.seconds() / nearest_u64_to_f64(self.done);
        each / (other.seconds() / nearest_u64_to_f64(other.done))
    }
}
