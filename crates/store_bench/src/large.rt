//! Files of the largest size, over a crash state.

use crate::levels::read_sides;
use crate::store::Store;
use crate::subject::{Subject, names};
use crate::works::{Reads, Resizes};
use cs_bench::{Row, Text, compare};
use cs_names::limits::FILE_BYTES;
use cs_overlay::Overlay;
use cs_state::StateTree;
use std::alloc::Global;
use std::io;
use std::rt::Clock;

/// The size of the file that it is compared with: 1 MB.
const SMALL_BYTES: u64 = 1_048_576;

/// The number of the file that is there at the start.
const FILE: u64 = 1;

/// Bytes of a read, and how many there are in a turn.
const READ: usize = 65_536;

const READS: u64 = 16;

const BLOCK: [u8; 4_096] = [7; 4_096];

type Files = Store<Overlay<StateTree>>;

/// A file of so many bytes over a state.
fn one_file(alloc: Global, bytes: u64) -> Option<Files> {
    let mut text = Text::new(alloc).ok()?;
    text.start_file("/f", bytes).ok()?;
    Store::new(alloc, read_sides(alloc, text.as_str())?.levels)
}

/// Reads all over the largest file, and as much of the small one.
fn reads(
    rt: &(impl Clock + Print + AllocGlobal),
    (large, small): (&Files, &Files),
    what: &str,
    bytes: u64,
    timed: bool,
) -> io::Result<()> {
    let row = Row {
        what,
        beside: "from one of 1 MB",
        most: 1.1,
        rounds: 500,
    };
    let mut first = Reads {
        files: large,
        number: FILE,
        bytes: READ,
        step: bytes / READS,
        count: READS,
    };
    let mut second = Reads {
        files: small,
        number: FILE,
        bytes: READ,
        step: SMALL_BYTES / READS,
        count: READS,
    };
    compare(rt, &row, &mut first, &mut second, timed)
}

/// A new file of one block: its number.
fn block(alloc: Global, files: &mut Files) -> Option<u64> {
    let name = names(alloc, 1, 1, 1)?.pop()?;
    let number = files.make(alloc, &name)?;
    files.put(alloc, number, 0, &BLOCK)?;
    Some(number)
}

/// Grows files of one block, to the largest size and to two blocks, and cuts them again.
fn resizes(
    rt: &(impl Clock + Print + AllocGlobal),
    (large, small): (&mut Files, &mut Files),
    timed: bool,
) -> io::Result<()> {
    let (Some(number), Some(beside)) = (block(rt.alloc(), large), block(rt.alloc(), small)) else {
        return println!(rt; "out of memory");
    };
    let row = Row {
        what: "a file of one block grown to the largest size and cut",
        beside: "to two blocks",
        most: 2.0,
        rounds: 1_000,
    };
    let mut first = Resizes {
        store: large,
        number,
        length: FILE_BYTES,
    };
    let mut second = Resizes {
        store: small,
        number: beside,
        length: 8_192,
    };
    compare(rt, &row, &mut first, &mut second, timed)
}

/// Writes a block at the head of the file.
fn change(alloc: Global, files: &mut Files) -> Option<()> {
    files.put(alloc, FILE, 0, &BLOCK)
}

/// Reads the largest file, as it was and after a change, and resizes one.
pub fn large_files(rt: &(impl Clock + Print + AllocGlobal), timed: bool) -> io::Result<()> {
    let alloc = rt.alloc();
    let bytes = if timed { FILE_BYTES } else { SMALL_BYTES };
    let (Some(mut large), Some(mut small)) = (one_file(alloc, bytes), one_file(alloc, SMALL_BYTES))
    else {
        return println!(rt; "out of memory");
    };
    let what = "reads of 64 kB from a large file";
    reads(rt, (&large, &small), what, bytes, timed)?;
    if change(alloc, &mut large).is_none() || change(alloc, &mut small).is_none() {
        return println!(rt; "out of memory");
    }
    let what = "from one that was changed";
    reads(rt, (&large, &small), what, bytes, timed)?;
    resizes(rt, (&mut large, &mut small), timed)
}
