//! All states of a trace, made and published by workers; and what `script` does before its first
//! line. Run by hand with the word `time`, each row says how long its work takes, and whether it
//! is within its bound; without it the trace is small, and no row says a time.
#![tactic(auto)]

mod publishing;
mod starting;

use crate::publishing::publish;
use crate::starting::start;
use cs_bench::Text;
use cs_plan::Scene;
use cs_trace::read_trace;
use std::alloc::Global;
use std::sync::Arc;
use std::{env, io};

/// How many files the operations make, and how often each is timed.
const FILES: u64 = 180;

const ROUNDS: u64 = 9;

/// The scene of a trace, with a state for each beginning and for each hole.
fn scene(alloc: Global, text: &str) -> Option<Arc<Scene>> {
    let trace = read_trace(alloc, text).ok()?;
    let scene = Scene::of(alloc, trace, true, Vec::new(alloc)).ok()?;
    Arc::new(alloc, scene).ok()
}

fn main(rt: HostRuntime) -> io::Result<()> {
    let timed = env::args(&rt)?.count() > 1;
    let (files, rounds) = if timed { (FILES, ROUNDS) } else { (18, 1) };
    let mut text = Text::new(rt.alloc())?;
    text.made_files(rt.alloc(), 1, files)?;
    start(&rt, text.as_str(), timed)?;
    let Some(scene) = scene(rt.alloc(), text.as_str()) else {
        return println!(&rt; "no plan");
    };
    publish(&rt, &scene, rounds, timed)
}
