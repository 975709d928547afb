//! The plain store compared with std's maps.

use crate::levels::read_sides;
use crate::ordinary::Files;
use crate::store::Store;
use crate::subject::{Subject, names};
use crate::works::{Appends, Changes, Listing, LookUps, Writes, put_each};
use cs_bench::{Row, Text, compare};
use cs_names::Name;
use cs_tree::PlainTree;
use std::alloc::Global;
use std::io;
use std::rt::Clock;

/// How many files are in the root.
pub fn sizes(timed: bool) -> [u64; 3] {
    if timed {
        [16, 1_024, 65_000]
    } else {
        [16, 64, 256]
    }
}

/// How many names are looked up, added and removed at a time.
const NAMES: u64 = 16;

/// Blocks of a file of 1 MB.
const BLOCKS: u64 = 256;

const BLOCK: [u8; 4_096] = [7; 4_096];

const MEGABYTE: usize = 1_048_576;

const MAPS: &str = "std's maps";

/// Two subjects with the same files, so many in the root.
#[derive(Drop)]
pub struct Pair<'a, A, B> {
    pub first: &'a A,
    pub first_is: &'a str,
    pub second: &'a B,
    pub second_is: &'a str,
    pub files: u64,
}

/// Looks names up on both.
pub fn look_ups<A: Subject, B: Subject>(
    rt: &(impl Clock + Print + AllocGlobal),
    pair: &Pair<'_, A, B>,
    most: f64,
    timed: bool,
) -> io::Result<()> {
    let alloc = rt.alloc();
    let Some(names) = names(alloc, 1, NAMES, pair.files / NAMES) else {
        return println!(rt; "out of memory");
    };
    let (is, files) = (pair.first_is, pair.files);
    let what = format!(in alloc; "{is}, {files} files: look-ups")?;
    let row = Row {
        what: what.as_str(),
        beside: pair.second_is,
        most,
        rounds: 200,
    };
    let rounds = if timed { 1_000 } else { 1 };
    let names = names.as_slice();
    let mut first = LookUps {
        files: pair.first,
        names,
        rounds,
    };
    let mut second = LookUps {
        files: pair.second,
        names,
        rounds,
    };
    compare(rt, &row, &mut first, &mut second, timed)
}

/// Lists the root of both.
pub fn listings<A: Subject, B: Subject>(
    rt: &(impl Clock + Print + AllocGlobal),
    pair: &Pair<'_, A, B>,
    timed: bool,
) -> io::Result<()> {
    let (is, files) = (pair.first_is, pair.files);
    let what = format!(in rt.alloc(); "{is}, {files} files: entries of listings")?;
    let row = Row {
        what: what.as_str(),
        beside: pair.second_is,
        most: 2.0,
        rounds: 655_360 / files.max(1),
    };
    let mut first = Listing { files: pair.first };
    let mut second = Listing { files: pair.second };
    compare(rt, &row, &mut first, &mut second, timed)
}

/// Makes a file of each name.
fn make_each<S: Subject>(alloc: Global, files: &mut S, names: &[Name]) -> Option<()> {
    for name in names {
        files.make(alloc, name)?;
    }
    Some(())
}

/// A store with `files` files in the root.
fn store(alloc: Global, files: u64) -> Option<Store<PlainTree>> {
    let text = Text::new(alloc).ok()?;
    let mut store = Store::new(alloc, read_sides(alloc, text.as_str())?.plain)?;
    make_each(alloc, &mut store, &names(alloc, 1, files, 1)?)?;
    Some(store)
}

/// Maps with the same files.
fn maps(alloc: Global, files: u64) -> Option<Files> {
    let mut maps = Files::new(alloc)?;
    make_each(alloc, &mut maps, &names(alloc, 1, files, 1)?)?;
    Some(maps)
}

/// Adds files and removes them.
fn changes(
    rt: &(impl Clock + Print + AllocGlobal),
    (store, maps): (&mut Store<PlainTree>, &mut Files),
    files: u64,
    timed: bool,
) -> io::Result<()> {
    let alloc = rt.alloc();
    let Some(names) = names(alloc, 90_000, NAMES, 1) else {
        return println!(rt; "out of memory");
    };
    let what = format!(in alloc; "the store, {files} files: adds and removes")?;
    let row = Row {
        what: what.as_str(),
        beside: MAPS,
        most: 2.0,
        rounds: 10_000,
    };
    let names = names.as_slice();
    let mut first = Changes {
        files: store,
        names,
    };
    let mut second = Changes { files: maps, names };
    compare(rt, &row, &mut first, &mut second, timed)
}

/// Looks names up, lists, adds and removes, with so many files in the root.
fn with_files(rt: &(impl Clock + Print + AllocGlobal), files: u64, timed: bool) -> io::Result<()> {
    let (Some(mut store), Some(mut maps)) = (store(rt.alloc(), files), maps(rt.alloc(), files))
    else {
        return println!(rt; "out of memory");
    };
    let pair = Pair {
        first: &store,
        first_is: "the store",
        second: &maps,
        second_is: MAPS,
        files,
    };
    look_ups(rt, &pair, 2.0, timed)?;
    listings(rt, &pair, timed)?;
    changes(rt, (&mut store, &mut maps), files, timed)
}

/// Looks the same names up among many files and among few.
fn grown(rt: &(impl Clock + Print + AllocGlobal), timed: bool) -> io::Result<()> {
    let alloc = rt.alloc();
    let [few, _, many] = sizes(timed);
    let (Some(many), Some(few)) = (store(alloc, many), store(alloc, few)) else {
        return println!(rt; "out of memory");
    };
    let Some(names) = names(alloc, 1, NAMES, 1) else {
        return println!(rt; "out of memory");
    };
    let row = Row {
        what: "the store: look-ups among many files",
        beside: "among few",
        most: 8.0,
        rounds: 200,
    };
    let rounds = if timed { 1_000 } else { 1 };
    let names = names.as_slice();
    let mut many = LookUps {
        files: &many,
        names,
        rounds,
    };
    let mut few = LookUps {
        files: &few,
        names,
        rounds,
    };
    compare(rt, &row, &mut many, &mut few, timed)
}

/// Writes blocks over those of a file of 1 MB.
fn writes<A: Subject, B: Subject>(
    rt: &(impl Clock + Print + AllocGlobal),
    (first, second): (&mut A, &mut B),
    timed: bool,
) -> io::Result<()> {
    let bytes = BLOCK.as_slice();
    let row = Row {
        what: "the store: writes of 4 kB into 1 MB",
        beside: MAPS,
        most: 2.0,
        rounds: 1_000,
    };
    put_each(rt.alloc(), first, 1, bytes, BLOCKS);
    put_each(rt.alloc(), second, 1, bytes, BLOCKS);
    let mut first = Writes {
        files: first,
        number: 1,
        bytes,
        count: BLOCKS,
    };
    let mut second = Writes {
        files: second,
        number: 1,
        bytes,
        count: BLOCKS,
    };
    compare(rt, &row, &mut first, &mut second, timed)
}

/// Appends pieces of so many bytes to an empty file, up to 1 MB.
fn appends<A: Subject, B: Subject>(
    rt: &(impl Clock + Print + AllocGlobal),
    (first, second): (&mut A, &mut B),
    piece: usize,
    timed: bool,
) -> io::Result<()> {
    let alloc = rt.alloc();
    let Some(mut first) = Appends::new(alloc, first, piece, MEGABYTE) else {
        return println!(rt; "out of memory");
    };
    let Some(mut second) = Appends::new(alloc, second, piece, MEGABYTE) else {
        return println!(rt; "out of memory");
    };
    let what = format!(in alloc; "the store: appends of {piece} bytes up to 1 MB")?;
    let row = Row {
        what: what.as_str(),
        beside: MAPS,
        most: 2.0,
        rounds: 100,
    };
    compare(rt, &row, &mut first, &mut second, timed)
}

/// Times each work on the plain store and on std's maps.
pub fn trees(rt: &(impl Clock + Print + AllocGlobal), timed: bool) -> io::Result<()> {
    for files in sizes(timed) {
        with_files(rt, files, timed)?;
    }
    grown(rt, timed)?;
    let (Some(mut store), Some(mut maps)) = (store(rt.alloc(), 1), maps(rt.alloc(), 1)) else {
        return println!(rt; "out of memory");
    };
    writes(rt, (&mut store, &mut maps), timed)?;
    appends(rt, (&mut store, &mut maps), 64, timed)?;
    appends(rt, (&mut store, &mut maps), 4_096, timed)
}
