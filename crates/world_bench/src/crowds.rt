//! Messages of a connection that has many open fids, and its end.

use crate::messages::{ask, push, walk};
use crate::sides::ToWorld;
use cs_bench::{Row, Work, compare};
use cs_session::Reply;
use cs_wire::TBody;
use std::alloc::Global;
use std::io;
use std::rt::Clock;

/// How many other fids are open, each on the file.
const MANY: u32 = 4_000;

/// How many fids are open at the hang-up that the other is compared with.
const FEW: u32 = 100;

/// How often a file is opened in a round, and how many rounds are timed.
const REPEATS: u64 = 250;

const ROUNDS: u64 = 20;

/// The number of the first of them.
const FIRST: u32 = 10;

/// Opens the file as one more fid. None if that is denied.
fn open(alloc: Global, side: &mut ToWorld, fid: u32) -> Option<()> {
    let to_file = walk(alloc, 2, fid, None)?;
    ask(alloc, &mut side.world, to_file, &mut side.out)?;
    let open = TBody::Open { fid, mode: 0 };
    ask(alloc, &mut side.world, open, &mut side.out)
}

/// Opens the file as so many fids more, numbered from FIRST on. None if one is denied.
fn open_each(alloc: Global, side: &mut ToWorld, fids: u32) -> Option<()> {
    for fid in FIRST..FIRST.saturating_add(fids) {
        open(alloc, side, fid)?;
    }
    Some(())
}

/// Opens so many fids, and then replaces the messages by those that are timed.
fn prepare(alloc: Global, side: &mut ToWorld, fids: u32) -> Option<()> {
    open_each(alloc, side, fids)?;
    side.messages.clear();
    push(alloc, &mut side.messages, walk(alloc, 2, 4, None))?;
    let open = TBody::Open { fid: 4, mode: 0 };
    push(alloc, &mut side.messages, Some(open))?;
    push(alloc, &mut side.messages, Some(TBody::Clunk { fid: 4 }))
}

/// A walk to the file, an open and a clunk of it, in a world with so many other open fids.
fn crowd(alloc: Global, fids: u32, repeats: u64) -> Option<ToWorld> {
    let mut side = ToWorld::of(alloc, 0, repeats)?;
    prepare(alloc, &mut side, fids)?;
    Some(side)
}

/// The end of a connection that has so many open fids, once.
#[derive(Drop)]
struct HangUp {
    side: ToWorld,
    fids: u32,
}

impl Work for HangUp {
    /// Hangs up, and counts the fids that were open; 0 if the connection isn't closed.
    fn run(&mut self, alloc: Global) -> u64 {
        match self.side.world.hang_up(alloc, 0, 1) {
            Reply::Closed => u64::from(self.fids),
            _ => 0,
        }
    }
}

/// Times a walk to a file, its open and its clunk with many other fids open, and with one.
pub fn crowds(rt: &(impl Clock + Print + AllocGlobal), timed: bool) -> io::Result<()> {
    let alloc = rt.alloc();
    let repeats = if timed { REPEATS } else { 1 };
    let (Some(mut many), Some(mut one)) = (crowd(alloc, MANY, repeats), crowd(alloc, 1, repeats))
    else {
        return println!(rt; "out of memory");
    };
    let row = Row {
        what: "a walk, an open and a clunk, beside 4,000 open fids",
        beside: "beside 1",
        most: 2.0,
        rounds: ROUNDS,
    };
    compare(rt, &row, &mut many, &mut one, timed)
}

/// Times the end of a connection with many open fids, and of one with few, for each fid.
pub fn hang_ups(rt: &(impl Clock + Print + AllocGlobal), timed: bool) -> io::Result<()> {
    let alloc = rt.alloc();
    let (Some(many), Some(few)) = (crowd(alloc, MANY, 1), crowd(alloc, FEW, 1)) else {
        return println!(rt; "out of memory");
    };
    let mut many = HangUp {
        side: many,
        fids: MANY,
    };
    let mut few = HangUp {
        side: few,
        fids: FEW,
    };
    let row = Row {
        what: "a fid of a hang-up of 4,000",
        beside: "of 100",
        most: 2.0,
        rounds: 1,
    };
    compare(rt, &row, &mut many, &mut few, timed)
}
