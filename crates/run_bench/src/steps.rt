//! Steps of a run with a journal, compared with the same calls on its tree.

use crate::calls::is_granted;
use crate::ground::{Ground, Side};
use crate::kind::{Kind, blocks};
use cs_bench::{Row, Total, Work};
use cs_overlay::Overlay;
use cs_run::CountedRun;
use cs_tree::PlainTree;
use std::alloc::Global;
use std::io;
use std::rt::Clock;

/// On how many runs the steps are made.
const RUNS: u64 = 16;

/// So many calls, and the blocks from which a write borrows its bytes.
#[derive(Clone, Copy)]
struct Many<'a> {
    kind: Kind,
    blocks: &'a [u8],
    count: u64,
}

/// So many steps of a run.
#[derive(Drop)]
struct Stepping<'a> {
    side: Side,
    many: Many<'a>,
}

impl Work for Stepping<'_> {
    fn run(&mut self, alloc: Global) -> u64 {
        let many = self.many;
        self.side
            .step_all(alloc, many.kind, many.blocks, many.count)
    }
}

/// So many calls on a run that keeps no journal.
#[derive(Drop)]
struct Alone<'a> {
    run: &'a mut CountedRun<Overlay<PlainTree>>,
    many: Many<'a>,
}

impl Work for Alone<'_> {
    fn run(&mut self, alloc: Global) -> u64 {
        let Many {
            kind,
            blocks,
            count,
        } = self.many;
        let mut done = 0u64;
        for place in 0..count {
            if let Some(call) = kind.call(alloc, blocks, place) {
                done = done.wrapping_add(u64::from(is_granted(alloc, self.run, &call)));
            }
        }
        done
    }
}

/// How many steps are made on one run, whose journal has room for them, and how long they may take.
fn row(kind: Kind) -> (u64, f64) {
    match kind {
        Kind::Writes => (6_000, 2.0),
        _ => (60_000, 1.3),
    }
}

/// Makes the steps on fresh runs, each time compared with as many calls on one run without a
/// journal. Of several runs the first doesn't count: its memory was never used before.
fn take_turns(
    rt: &(impl Clock + AllocGlobal),
    many: Many<'_>,
    runs: u64,
) -> io::Result<Option<(Total, Total)>> {
    let alloc = rt.alloc();
    let Some(ground) = Ground::level(alloc) else {
        return Ok(None);
    };
    match ground.plain(alloc) {
        Some(mut plain) => take_each(rt, &ground, &mut plain, many, runs),
        None => Ok(None),
    }
}

/// Makes the steps over that tree. At most one side is dropped at each exit.
fn take_each(
    rt: &(impl Clock + AllocGlobal),
    ground: &Ground,
    plain: &mut CountedRun<Overlay<PlainTree>>,
    many: Many<'_>,
    runs: u64,
) -> io::Result<Option<(Total, Total)>> {
    let alloc = rt.alloc();
    let mut totals = (Total::new(), Total::new());
    for run in 0..runs {
        let Some(side) = Side::fresh(alloc, ground) else {
            return Ok(None);
        };
        if run == 1 {
            totals = (Total::new(), Total::new());
        }
        totals.0.time(rt, &mut Stepping { side, many })?;
        let run = &mut *plain;
        totals.1.time(rt, &mut Alone { run, many })?;
    }
    Ok(Some(totals))
}

/// Makes steps, and the same calls without a journal.
pub fn steps(rt: &(impl Clock + Print + AllocGlobal), kind: Kind, timed: bool) -> io::Result<()> {
    let (steps, most) = row(kind);
    let (count, runs) = if timed { (steps, RUNS) } else { (1, 1) };
    let Some(blocks) = blocks(rt.alloc()) else {
        return println!(rt; "out of memory");
    };
    let blocks = blocks.as_slice();
    let many = Many {
        kind,
        blocks,
        count,
    };
    let Some(totals) = take_turns(rt, many, runs)? else {
        return println!(rt; "out of memory");
    };
    let name = kind.name();
    let what = format!(in rt.alloc(); "steps of {name}")?;
    let row = Row {
        what: what.as_str(),
        beside: "the calls alone",
        most,
        rounds: runs,
    };
    row.print(rt, &totals.0, &totals.1, timed)
}
