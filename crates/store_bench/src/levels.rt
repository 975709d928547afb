//! An overlay over a crash state, in which nothing was changed, compared with the same state as a
//! plain store.
ghost use Rattle.std.specs.Prelude.{◌≡◌};
ghost use Rattle.cs_micro.specs.Micros.{AreLegalFromStart, micros_in};

use crate::store::Store;
use crate::trees::{Pair, listings, look_ups, sizes};
use crate::works::Reads;
use cs_apm::laws::rules_are_sentences;
use cs_apm::{build, order_of};
use cs_bench::{Row, Text, compare};
use cs_micro::{Micros, break_up};
use cs_overlay::Overlay;
use cs_state::{Atlas, StateTree};
use cs_trace::{Trace, read_trace};
use cs_tree::PlainTree;
use std::alloc::Global;
use std::io;
use std::rt::Clock;
use std::sync::Arc;

/// Files that operations make, at most.
const MADE: u64 = 512;

/// The number of the file of 1 MB, whose path is the first.
const BIG: u64 = 1;

const BIG_BYTES: u64 = 1_048_576;

/// A state under an overlay, and as a plain store.
#[derive(Drop)]
pub struct Sides {
    pub levels: Overlay<StateTree>,
    pub plain: PlainTree,
}

/// The first `count` places.
fn first_places(alloc: Global, count: usize) -> Option<Vec<u32>> {
    let mut places = Vec::new(alloc);
    for place in 0..u32::try_from(count).ok()? {
        places.push(place).ok()?;
    }
    Some(places)
}

/// The state of a set, which must be allowed, as a plain store.
pub fn plain(alloc: Global, trace: &Trace, micros: &Micros, places: &[u32]) -> Option<PlainTree>
    requires broken { micros.now ≡ micros_in trace.now }
    requires legal { AreLegalFromStart trace.now micros.now }
{
    let order = order_of(alloc, micros).ok()?;
    rules_are_sentences(micros);
    if order.is_allowed(places) {
        build(alloc, micros, trace, places).ok()
    } else {
        None
    }
}

/// The same state, which shares what is the same in all.
fn shared(alloc: Global, atlas: &Atlas, places: &[u32]) -> Option<StateTree> {
    let micros = atlas.micros();
    let order = order_of(alloc, micros).ok()?;
    rules_are_sentences(micros);
    if order.is_allowed(places) {
        atlas.build(alloc, places).ok()
    } else {
        None
    }
}

/// The state of all operations of the trace, both ways.
fn both(alloc: Global, trace: Trace) -> Option<Sides> {
    let micros = break_up(alloc, &trace).ok()?;
    let places = first_places(alloc, micros.ops().len())?;
    let plain = plain(alloc, &trace, &micros, &places)?;
    let atlas = Atlas::of(alloc, trace, micros).ok()?;
    let state = Arc::new(alloc, shared(alloc, &atlas, &places)?).ok()?;
    let levels = Overlay::over(alloc, state);
    Some(Sides { levels, plain })
}

/// The state of all operations of a trace, both ways.
pub fn read_sides(alloc: Global, text: &str) -> Option<Sides> {
    both(alloc, read_trace(alloc, text).ok()?)
}

/// A file of 1 MB, and so many others, of which operations make the first.
fn text_of(alloc: Global, files: u64) -> Option<Text> {
    let made = MADE.min(files / 2);
    let mut text = Text::new(alloc).ok()?;
    text.start_file("/big", BIG_BYTES).ok()?;
    text.start_files(alloc, made + 1, files.saturating_sub(made), 0)
        .ok()?;
    text.made_files(alloc, 1, made).ok()?;
    Some(text)
}

/// Both ways, with so many files.
fn stores(alloc: Global, files: u64) -> Option<(Store<Overlay<StateTree>>, Store<PlainTree>)> {
    let text = text_of(alloc, files)?;
    let sides = read_sides(alloc, text.as_str())?;
    let levels = Store::new(alloc, sides.levels)?;
    Some((levels, Store::new(alloc, sides.plain)?))
}

/// Reads the file of 1 MB on both.
fn reads(
    rt: &(impl Clock + Print + AllocGlobal),
    pair: &Pair<'_, Store<Overlay<StateTree>>, Store<PlainTree>>,
    timed: bool,
) -> io::Result<()> {
    let (is, files) = (pair.first_is, pair.files);
    let what = format!(in rt.alloc(); "{is}, {files} files: reads of 4 kB from 1 MB")?;
    let row = Row {
        what: what.as_str(),
        beside: pair.second_is,
        most: 1.2,
        rounds: 1_000,
    };
    let mut first = Reads {
        files: pair.first,
        number: BIG,
        bytes: 4_096,
        step: 4_096,
        count: 256,
    };
    let mut second = Reads {
        files: pair.second,
        number: BIG,
        bytes: 4_096,
        step: 4_096,
        count: 256,
    };
    compare(rt, &row, &mut first, &mut second, timed)
}

/// Looks names up, lists and reads over a state of so many files.
fn with_files(rt: &(impl Clock + Print + AllocGlobal), files: u64, timed: bool) -> io::Result<()> {
    let Some((levels, plain)) = stores(rt.alloc(), files) else {
        return println!(rt; "out of memory");
    };
    let pair = Pair {
        first: &levels,
        first_is: "over a state",
        second: &plain,
        second_is: "the store",
        files,
    };
    look_ups(rt, &pair, 1.5, timed)?;
    listings(rt, &pair, timed)?;
    reads(rt, &pair, timed)
}

/// Reads over states of few files and of many.
pub fn levels(rt: &(impl Clock + Print + AllocGlobal), timed: bool) -> io::Result<()> {
    for files in sizes(timed) {
        with_files(rt, files, timed)?;
    }
    Ok(())
}
