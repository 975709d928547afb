//! Messages to a world, compared with the same to a session over one run only: stats, reads and
//! writes of 4 kB, and walks of one name; the same among many states and runs; opens and clunks
//! with many open fids, and hang-ups. If you run it with the word `time`, each row says how long
//! its work takes, and whether that is within its bound.
#![tactic(auto)]

mod alone;
mod crowds;
mod files;
mod growth;
mod kind;
mod messages;
mod sides;

use crate::crowds::{crowds, hang_ups};
use crate::growth::growth;
use crate::kind::Kind;
use crate::sides::{ToSession, ToWorld};
use cs_bench::{Row, compare};
use std::rt::Clock;
use std::{env, io};

/// How often each work is done in a round, and how many rounds are timed: a run's journal has room
/// for all.
const REPEATS: u64 = 500;

const ROUNDS: u64 = 50;

/// Times messages of a kind to a world, and the same to a session without one.
fn beside_session(
    rt: &(impl Clock + Print + AllocGlobal),
    kind: Kind,
    timed: bool,
) -> io::Result<()> {
    let alloc = rt.alloc();
    let repeats = if timed { REPEATS } else { 1 };
    let (Some(first), Some(second)) = (kind.messages(alloc), kind.messages(alloc)) else {
        return println!(rt; "out of memory");
    };
    let (Some(mut world), Some(mut alone)) = (
        ToWorld::of(alloc, 0, repeats),
        ToSession::of(alloc, second, repeats),
    ) else {
        return println!(rt; "out of memory");
    };
    world.messages = first;
    let row = Row {
        what: kind.name(),
        beside: "to a session alone",
        most: 1.3,
        rounds: ROUNDS,
    };
    compare(rt, &row, &mut world, &mut alone, timed)
}

/// Prints each row; only with an argument the work is repeated and timed.
fn main(rt: HostRuntime) -> io::Result<()> {
    let timed = env::args(&rt)?.count() > 1;
    for kind in Kind::ALL {
        beside_session(&rt, kind, timed)?;
    }
    growth(&rt, timed)?;
    crowds(&rt, timed)?;
    hang_ups(&rt, timed)
}
