//! Messages to a world of many states, and to one with many runs too, compared with a world of one
//! of each.

use crate::kind::Kind;
use crate::messages::{attach, send_on, spelled, version};
use crate::sides::ToWorld;
use cs_bench::{Row, compare};
use cs_names::limits::CONNECTIONS;
use std::alloc::Global;
use std::io;
use std::rt::Clock;

/// How many files the operations make; there are 16,291 states of them.
const CREATS: u32 = 180;

/// How many runs there are besides the one that the messages go to.
const RUNS: u32 = 4_095;

/// How often each work is done in a round, and how many rounds are timed: a run's journal has room
/// for all.
const REPEATS: u64 = 250;

const ROUNDS: u64 = 20;

/// Begins a session on each connection but the first. None if one is denied.
fn begin_others(alloc: Global, side: &mut ToWorld) -> Option<()> {
    let version = spelled(alloc, version(alloc)?)?;
    for conn in 1..CONNECTIONS {
        send_on(alloc, &mut side.world, conn, &version, &mut side.out)?;
    }
    Some(())
}

/// Attaches on a connection to a run of the state of that number. None if that is denied.
fn find_run(alloc: Global, side: &mut ToWorld, state: u32, run: u32, conn: u32) -> Option<()> {
    let name = format!(in alloc; "{state}/r{run}").ok()?;
    let bytes = spelled(alloc, attach(alloc, run, name.as_str())?)?;
    send_on(alloc, &mut side.world, conn, &bytes, &mut side.out)
}

/// Attaches to so many runs more, of one state after the other. Returns how many were granted.
fn find_runs(alloc: Global, side: &mut ToWorld, states: u32, runs: u32) -> u32 {
    let mut found = 0u32;
    for run in 0..runs {
        let conn = run % (CONNECTIONS - 1) + 1;
        if find_run(alloc, side, run % states.max(1), run, conn).is_some() {
            found = found.wrapping_add(1);
        }
    }
    found
}

/// Begins the other sessions, and attaches on them. Returns to how many runs.
fn begin_and_find(alloc: Global, side: &mut ToWorld, states: u32, runs: u32) -> u32 {
    match begin_others(alloc, side) {
        Some(()) => find_runs(alloc, side, states, runs),
        None => 0,
    }
}

/// A world of one state; one of all states of a trace; one of these with many runs.
#[derive(Drop)]
struct Worlds {
    small: ToWorld,
    states: ToWorld,
    runs: ToWorld,
}

/// Makes the three worlds, smaller ones if nothing is timed, and prints how many runs were added.
/// None if memory runs out.
fn make_worlds(rt: &(impl Print + AllocGlobal), timed: bool) -> Option<Worlds> {
    let alloc = rt.alloc();
    let (creats, count, repeats) = if timed {
        (CREATS, RUNS, REPEATS)
    } else {
        (18, 63, 1)
    };
    let small = ToWorld::of(alloc, 0, repeats);
    let states = ToWorld::of(alloc, creats, repeats);
    let mut runs = ToWorld::of(alloc, creats, repeats)?;
    let found = begin_and_find(alloc, &mut runs, creats, count);
    let _told = println!(rt; "runs beside: {found}");
    match (small, states) {
        (Some(small), Some(states)) => Some(Worlds {
            small,
            states,
            runs,
        }),
        _ => None,
    }
}

/// Times messages of a kind among many states or runs, and among one of each.
fn row(
    rt: &(impl Clock + Print + AllocGlobal),
    kind: Kind,
    among: &str,
    many: &mut ToWorld,
    small: &mut ToWorld,
    timed: bool,
) -> io::Result<()> {
    let alloc = rt.alloc();
    let (Some(first), Some(second)) = (kind.messages(alloc), kind.messages(alloc)) else {
        return println!(rt; "out of memory");
    };
    many.messages = first;
    small.messages = second;
    let name = kind.name();
    let what = format!(in alloc; "{name}, among many {among}")?;
    let row = Row {
        what: what.as_str(),
        beside: "in a world of one",
        most: 2.0,
        rounds: ROUNDS,
    };
    compare(rt, &row, many, small, timed)
}

/// Times messages of each kind in each world.
pub fn growth(rt: &(impl Clock + Print + AllocGlobal), timed: bool) -> io::Result<()> {
    let Some(worlds) = make_worlds(rt, timed) else {
        return println!(rt; "out of memory");
    };
    let Worlds {
        mut small,
        mut states,
        mut runs,
    } = worlds;
    for kind in Kind::ALL {
        row(rt, kind, "states", &mut states, &mut small, timed)?;
        row(rt, kind, "runs", &mut runs, &mut small, timed)?;
    }
    Ok(())
}
