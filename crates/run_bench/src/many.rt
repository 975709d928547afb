//! The memory of many fresh runs of one state.

use crate::files::wide_tree;
use crate::ground::Ground;
use cs_bench::{Bound, print_figure, resident};
use cs_journal::Run;
use cs_tree::PlainTree;
use std::alloc::Global;
use std::io;
use std::num::nearest_u64_to_f64;
use std::rt::Files;

/// How many files the state has.
const FILES: u64 = 1_000;

/// How many runs of it there are.
const RUNS: u64 = 4_096;

/// `count` fresh runs over the tree.
fn fresh_runs(alloc: Global, ground: &Ground, count: u64) -> Option<Vec<Run<PlainTree>>> {
    let mut runs = Vec::new(alloc);
    for _ in 0..count {
        runs.push(ground.run(alloc)?).ok()?;
    }
    Some(runs)
}

/// Makes the runs, and prints by how many bytes the program grows for each.
pub fn measure_fresh_runs(rt: &(impl Files + Print + AllocGlobal), timed: bool) -> io::Result<()> {
    let alloc = rt.alloc();
    let (files, count) = if timed { (FILES, RUNS) } else { (10, 3) };
    let Some(tree) = wide_tree(alloc, files) else {
        return println!(rt; "out of memory");
    };
    let Some(ground) = Ground::new(alloc, tree) else {
        return println!(rt; "out of memory");
    };
    let before = resident(rt)?;
    let Some(runs) = fresh_runs(alloc, &ground, count) else {
        return println!(rt; "out of memory");
    };
    let bytes = resident(rt)?.saturating_sub(before) / count.max(1);
    let figure = (nearest_u64_to_f64(bytes), "bytes");
    let most = Bound::AtMost(2_000.0);
    print_figure(rt, "a fresh run", runs.len() as u64, figure, most, timed)
}
