//! Audits of journals: of a full one, and of one with an eighth of the entries.

use crate::ground::{Ground, step_all};
use crate::kind::Kind;
use cs_bench::{Bound, Row, Total, Work, compare, print_figure};
use cs_journal::{Pass, Run};
use cs_tree::PlainTree;
use std::alloc::Global;
use std::io;
use std::rt::Clock;

/// How many passes share a journal.
const PASSES: u32 = 64;

/// How many entries a full journal has.
const FULL: u32 = 65_536;

const EIGHTH: u32 = 8_192;

/// How many entries it has if nothing is timed.
const FEW: u32 = 128;

/// How often the audits are made if they are timed.
const ROUNDS: u64 = 100;

/// A run, and the passes that its entries were made under.
#[derive(Drop)]
struct Audit {
    run: Run<PlainTree>,
    passes: Vec<Pass>,
    entries: u32,
}

impl Audit {
    /// A new run, with a pass for each of its users, none of whom has called yet.
    fn begun(alloc: Global) -> Option<Audit> {
        let mut run = Ground::level(alloc)?.run(alloc)?;
        let mut passes = Vec::new(alloc);
        for _ in 0..PASSES {
            passes.push(run.new_pass(alloc).ok()?).ok()?;
        }
        Some(Audit {
            run,
            passes,
            entries: 0,
        })
    }

    /// Makes a stat under one of the passes, which take turns.
    fn stat(&mut self, alloc: Global) -> Option<()> {
        let turn = (self.entries % PASSES) as usize;
        let pass = self.passes.get_mut(turn)?;
        if !self.run.fits(pass) {
            return None;
        }
        let _granted = step_all(alloc, &mut self.run, pass, Kind::Stats, &[], 1);
        self.entries = self.entries.wrapping_add(1);
        Some(())
    }

    /// A journal of so many entries of stats.
    fn of(alloc: Global, entries: u32) -> Option<Audit> {
        let mut audit = Audit::begun(alloc)?;
        for _ in 0..entries {
            audit.stat(alloc)?;
        }
        Some(audit)
    }
}

impl Work for Audit {
    /// The number of entries, if the audit is ok.
    fn run(&mut self, _alloc: Global) -> u64 {
        match self.run.audit(self.passes.as_slice()) {
            Ok(()) => self.run.entries() as u64,
            Err(_) => 0,
        }
    }
}

/// How long one audit takes.
fn whole(
    rt: &(impl Clock + Print + AllocGlobal),
    audit: &mut Audit,
    timed: bool,
) -> io::Result<()> {
    let mut total = Total::new();
    total.time(rt, audit)?;
    let figure = (total.seconds() * 1_000.0, "ms");
    let what = "an audit of a full journal by 64 passes";
    print_figure(rt, what, total.done(), figure, Bound::AtMost(10.0), timed)
}

/// Audits a full journal, and for comparison one with an eighth of the entries.
pub fn audits(rt: &(impl Clock + Print + AllocGlobal), timed: bool) -> io::Result<()> {
    let (many, few) = if timed { (FULL, EIGHTH) } else { (FEW, FEW) };
    let alloc = rt.alloc();
    let (Some(mut many), Some(mut few)) = (Audit::of(alloc, many), Audit::of(alloc, few)) else {
        return println!(rt; "out of memory");
    };
    whole(rt, &mut many, timed)?;
    let row = Row {
        what: "audited, each of 65,536 entries",
        beside: "of 8,192",
        most: 2.0,
        rounds: ROUNDS,
    };
    compare(rt, &row, &mut many, &mut few, timed)
}
