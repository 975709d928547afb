//! What `script` does before it reads its first line.

use cs_bench::{Bound, Total, Work, print_figure};
use cs_inputs::{Inputs, scene_of, users_of};
use cs_script::world_of;
use cs_world::World;
use std::alloc::Global;
use std::io;
use std::rt::Clock;

/// A trace that is read, and its states planned, made and published.
#[derive(Drop)]
struct Starting<'a> {
    trace: &'a str,
    world: Option<World>,
}

/// The world of a trace, with all of its states published.
fn started(alloc: Global, trace: &str) -> Option<World> {
    let inputs = Inputs {
        users: b"1:ann::\n".as_slice(),
        trace: trace.as_bytes(),
        picks: b"".as_slice(),
        holes: true,
        verbose: false,
    };
    let scene = scene_of(alloc, &inputs).ok()?;
    let users = users_of(alloc, inputs.users).ok()?;
    world_of(alloc, scene, users).ok()
}

impl Work for Starting<'_> {
    /// Counts the states of the world, which is kept: the time to drop it doesn't count.
    fn run(&mut self, alloc: Global) -> u64 {
        self.world = started(alloc, self.trace);
        match &self.world {
            Some(world) => world.scene().plan().len() as u64,
            None => 0,
        }
    }
}

/// Times it once.
pub fn start(rt: &(impl Clock + Print + AllocGlobal), trace: &str, timed: bool) -> io::Result<()> {
    let mut total = Total::new();
    total.time(rt, &mut Starting { trace, world: None })?;
    let figure = (total.seconds(), "s");
    let what = "states published as script starts";
    print_figure(rt, what, total.done(), figure, Bound::AtMost(3.0), timed)
}
