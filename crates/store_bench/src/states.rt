//! The states of traces: planned, listed, made and kept; and the order of micro-operations.
ghost use Rattle.std.specs.Prelude.{◌≡◌};
ghost use Rattle.cs_micro.specs.Micros.{AreLegalFromStart, micros_in};

use crate::levels::plain;
use cs_apm::order_of;
use cs_bench::{Bound, Row, Text, Total, Work, print_figure, resident};
use cs_micro::{Micros, break_up};
use cs_names::limits::FILE_BYTES;
use cs_plan::{Published, Scene};
use cs_trace::{Trace, read_trace};
use std::alloc::{AllocError, Global};
use std::io;
use std::num::nearest_u64_to_f64;
use std::rt::{Clock, Files};
use std::sync::Arc;

/// The scene of a trace, with holes if they are asked for.
pub fn scene(alloc: Global, text: &str, holes: bool) -> Option<Scene> {
    let trace = read_trace(alloc, text).ok()?;
    Scene::of(alloc, trace, holes, Vec::new(alloc)).ok()
}

/// Plans and lists the states of a trace, and counts them.
#[derive(Drop)]
pub struct Planning<'a> {
    pub text: &'a str,
}

impl Work for Planning<'_> {
    /// Returns how many states the plan has, or 0 if there is no plan.
    fn run(&mut self, alloc: Global) -> u64 {
        let Some(scene) = scene(alloc, self.text, true) else {
            return 0;
        };
        match scene.listing().to_string(alloc) {
            Ok(_) => scene.plan().len() as u64,
            Err(_) => 0,
        }
    }
}

/// Computes the order of micro-operations, and counts them.
#[derive(Drop)]
struct Ordering<'a> {
    micros: &'a Micros,
}

impl Work for Ordering<'_> {
    /// Returns how many micro-operations the order has, or 0 if it runs out of memory.
    fn run(&mut self, alloc: Global) -> u64 {
        match order_of(alloc, self.micros) {
            Ok(order) => order.len() as u64,
            Err(_) => 0,
        }
    }
}

/// All states of a scene, kept at the same time.
#[derive(Drop)]
struct Keeping<'a> {
    scene: &'a Arc<Scene>,
    states: Vec<Published>,
}

impl Work for Keeping<'_> {
    /// Returns how many states it has; one that can't be made is left out.
    fn run(&mut self, alloc: Global) -> u64 {
        for number in 0..self.scene.plan().len() as u32 {
            if let Ok(state) = Scene::make(alloc, self.scene, number) {
                let _full = self.states.push(state);
            }
        }
        self.states.len() as u64
    }
}

/// The states that a trace's first operations leave, as plain stores, one after the other.
#[derive(Drop)]
struct AsPlain<'a> {
    trace: &'a Trace,
}

/// Makes the state of each prefix but the empty one, as a plain store, and counts them.
fn plain_states(alloc: Global, trace: &Trace, micros: &Micros) -> Option<u64>
    requires broken { micros.now ≡ micros_in trace.now }
    requires legal { AreLegalFromStart trace.now micros.now }
{
    let mut places = Vec::new(alloc);
    let mut done = 0u64;
    for place in 0..micros.ops().len() as u32 {
        places.push(place).ok()?;
        plain(alloc, trace, micros, &places)?;
        done = done.wrapping_add(1);
    }
    Some(done)
}

impl Work for AsPlain<'_> {
    /// Returns how many states were made, or 0 if one couldn't be.
    fn run(&mut self, alloc: Global) -> u64 {
        let Ok(micros) = break_up(alloc, self.trace) else {
            return 0;
        };
        plain_states(alloc, self.trace, &micros).unwrap_or(0)
    }
}

/// Times a work once, and prints the seconds.
pub fn time_once<W: Work>(
    rt: &(impl Clock + Print + AllocGlobal),
    what: &str,
    work: &mut W,
    most: f64,
    timed: bool,
) -> io::Result<()> {
    let mut total = Total::new();
    total.time(rt, work)?;
    let figure = (total.seconds(), "s");
    print_figure(rt, what, total.done(), figure, Bound::AtMost(most), timed)
}

/// Times a work, and returns also how many bytes of memory the program has more after it.
fn time_with_memory<W: Work>(
    rt: &(impl Clock + Files + AllocGlobal),
    work: &mut W,
) -> io::Result<(Total, u64)> {
    let before = resident(rt)?;
    let mut total = Total::new();
    total.time(rt, work)?;
    Ok((total, resident(rt)?.saturating_sub(before)))
}

/// Makes all states of a scene and keeps them, in at most `most` MB. Returns how long that takes.
pub fn keep_states(
    rt: &(impl Clock + Files + Print + AllocGlobal),
    what: &str,
    scene: Scene,
    most: f64,
    timed: bool,
) -> io::Result<Total> {
    let alloc = rt.alloc();
    let scene = Arc::new(alloc, scene)?;
    let mut keeping = Keeping {
        scene: &scene,
        states: Vec::new(alloc),
    };
    let (total, bytes) = time_with_memory(rt, &mut keeping)?;
    let figure = (nearest_u64_to_f64(bytes) / 1e6, "MB");
    print_figure(rt, what, total.done(), figure, Bound::AtMost(most), timed)?;
    Ok(total)
}

/// Keeps all states of a trace, with holes if they are asked for, and compares that with plain
/// stores.
fn keep_beside(
    rt: &(impl Clock + Files + Print + AllocGlobal),
    (what, each): (&str, &str),
    (text, holes): (&Text, bool),
    most: f64,
    timed: bool,
) -> io::Result<()> {
    let (Some(scene), Ok(trace)) = (
        scene(rt.alloc(), text.as_str(), holes),
        read_trace(rt.alloc(), text.as_str()),
    ) else {
        return println!(rt; "no plan");
    };
    let total = keep_states(rt, what, scene, most, timed)?;
    let mut beside = Total::new();
    beside.time(rt, &mut AsPlain { trace: &trace })?;
    let row = Row {
        what: each,
        beside: "as plain stores",
        most: 0.1,
        rounds: 1,
    };
    row.print(rt, &total, &beside, timed)
}

/// `files` files are made over a start of `starts` files of `bytes` bytes each.
fn creats(alloc: Global, starts: u64, bytes: u64, files: u64) -> Result<Text, AllocError> {
    let mut text = Text::new(alloc)?;
    text.start_files(alloc, files.saturating_add(1), starts, bytes)?;
    text.made_files(alloc, 1, files)?;
    Ok(text)
}

/// `writes` writes into the blocks of a file of 1 MB.
fn block_writes(alloc: Global, writes: u64) -> Result<Text, AllocError> {
    let mut text = Text::new(alloc)?;
    text.start_file("/f", 1_048_576)?;
    for write in 0..writes {
        text.write("/f", write % 256 * 4_096, 16)?;
    }
    Ok(text)
}

/// `files` files are truncated to the largest size.
fn truncates(alloc: Global, files: u64) -> Result<Text, AllocError> {
    let mut text = Text::new(alloc)?;
    text.start_files(alloc, 1, files, 16)?;
    for file in 1..files.saturating_add(1) {
        let path = format!(in alloc; "/file{file:05}")?;
        text.truncate(path.as_str(), FILE_BYTES)?;
    }
    Ok(text)
}

/// A file is moved `count` times in one directory.
fn moves(alloc: Global, count: u64) -> Result<Text, AllocError> {
    let mut text = Text::new(alloc)?;
    text.make("mkdir", "/d")?;
    text.make("creat", "/d/0")?;
    for from in 0..count {
        let path = format!(in alloc; "/d/{from}")?;
        let to = format!(in alloc; "/d/{}", from + 1)?;
        text.rename(path.as_str(), to.as_str())?;
    }
    Ok(text)
}

/// Truncates files to the largest size, and keeps all states.
fn keep_large(
    rt: &(impl Clock + Files + Print + AllocGlobal),
    files: u64,
    timed: bool,
) -> io::Result<()> {
    let text = truncates(rt.alloc(), files)?;
    let Some(scene) = scene(rt.alloc(), text.as_str(), false) else {
        return println!(rt; "no plan");
    };
    let what = "states of files truncated to the largest size, kept";
    let total = keep_states(rt, what, scene, 10.0, timed)?;
    let figure = (total.seconds(), "s");
    let what = "made";
    print_figure(rt, what, total.done(), figure, Bound::AtMost(0.2), timed)
}

/// Times the order of renames in one directory.
fn order(rt: &(impl Clock + Print + AllocGlobal), count: u64, timed: bool) -> io::Result<()> {
    let text = moves(rt.alloc(), count)?;
    let Ok(trace) = read_trace(rt.alloc(), text.as_str()) else {
        return println!(rt; "no trace");
    };
    let Ok(micros) = break_up(rt.alloc(), &trace) else {
        return println!(rt; "no micro-operations");
    };
    let what = "the order of micro-operations";
    time_once(rt, what, &mut Ordering { micros: &micros }, 0.1, timed)
}

/// Plans, makes and keeps states of each sort.
pub fn states(rt: &(impl Clock + Files + Print + AllocGlobal), timed: bool) -> io::Result<()> {
    let alloc = rt.alloc();
    keep_large(rt, if timed { 512 } else { 16 }, timed)?;
    let writes = if timed { 1_024 } else { 16 };
    let what = ("states of writes into 1 MB, kept", "each made");
    let text = block_writes(alloc, writes)?;
    keep_beside(rt, what, (&text, false), 40.0, timed)?;
    let (starts, bytes, files) = if timed {
        (1_000, 10_000, 180)
    } else {
        (10, 96, 18)
    };
    let text = creats(alloc, starts, bytes, files)?;
    let what = ("states of files made, kept", "each made");
    keep_beside(rt, what, (&text, true), 65.0, timed)?;
    let text = creats(alloc, 0, 0, files)?;
    let mut planning = Planning {
        text: text.as_str(),
    };
    time_once(rt, "states planned and listed", &mut planning, 0.5, timed)?;
    order(rt, if timed { 1_022 } else { 14 }, timed)
}
