//! Benchmarks of many runs at once; of calls on a run without a journal, compared with the tree's
//! own calls; of steps of a run with a journal, compared with such calls; and of audits. Run by
//! hand with the word `time`, each row prints its time or size, and whether that is within its
//! bound.
#![tactic(auto)]

mod audits;
mod calls;
mod files;
mod ground;
mod kind;
mod many;
mod steps;

use crate::audits::audits;
use crate::calls::calls;
use crate::kind::Kind;
use crate::many::measure_fresh_runs;
use crate::steps::steps;
use std::{env, io};

const CALLS: [Kind; 5] = [
    Kind::Stats,
    Kind::Reads,
    Kind::Writes,
    Kind::Walks(1),
    Kind::Walks(16),
];

fn main(rt: HostRuntime) -> io::Result<()> {
    let timed = env::args(&rt)?.count() > 1;
    // first, so that the memory of the runs was never used before
    measure_fresh_runs(&rt, timed)?;
    for kind in CALLS {
        calls(&rt, kind, timed)?;
    }
    for kind in [Kind::Stats, Kind::Reads, Kind::Writes] {
        steps(&rt, kind, timed)?;
    }
    audits(&rt, timed)
}
