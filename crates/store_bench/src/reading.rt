//! Traces that are read, compared with the time in which only `serde_json` reads the same lines as
//! values: each value dropped before the next line is read, or all of them kept.

use cs_bench::{Row, Text, Work, compare};
use cs_names::limits::FILE_BYTES;
use cs_trace::read_trace;
use serde_json::Value;
use std::alloc::{AllocError, Global};
use std::io;
use std::rt::Clock;

/// Reads the text as a trace, and counts its records and operations.
#[derive(Drop)]
pub struct AsTrace<'a> {
    pub text: &'a str,
}

impl Work for AsTrace<'_> {
    /// Returns 0 if the text is no trace.
    fn run(&mut self, alloc: Global) -> u64 {
        match read_trace(alloc, self.text) {
            Ok(trace) => {
                (trace.records().len() as u64).wrapping_add(trace.operations().len() as u64)
            }
            Err(_) => 0,
        }
    }
}

/// Reads each line of the text as a value, and counts the values.
#[derive(Drop)]
struct AsValues<'a> {
    text: &'a str,
}

/// The same, but keeps each value until the last line is read, as a trace keeps what it read.
#[derive(Drop)]
struct AsKeptValues<'a> {
    text: &'a str,
}

impl Work for AsValues<'_> {
    /// Leaves out a line that is no value.
    fn run(&mut self, alloc: Global) -> u64 {
        let mut count = 0u64;
        for line in self.text.split('\n') {
            if Value::from_str(alloc, line).is_ok() {
                count = count.wrapping_add(1);
            }
        }
        count
    }
}

impl Work for AsKeptValues<'_> {
    /// Leaves out a line that is no value. Returns 0 if it is out of memory.
    fn run(&mut self, alloc: Global) -> u64 {
        let mut kept = Vec::new(alloc);
        for line in self.text.split('\n') {
            if let Ok(value) = Value::from_str(alloc, line) {
                if kept.push(value).is_err() {
                    return 0;
                }
            }
        }
        kept.len() as u64
    }
}

/// What a trace is made of.
#[derive(Clone, Copy)]
enum Kind {
    /// So many small writes into one file.
    SmallWrites,
    /// So many files that are made, synced and renamed.
    Renames,
    /// So many writes of a million bytes.
    LargeWrites,
    /// So many files at the start, below as many directories in one another.
    Starts(u64),
    /// The same, and one of the files is removed.
    Removed(u64),
    /// One file at the start, of so many bytes.
    Large,
}

/// A trace that is timed: how large it is, and how many times as long as its values it may take.
#[derive(Clone, Copy)]
struct Sort {
    what: &'static str,
    kind: Kind,
    count: u64,
    most: f64,
}

/// How many times as long as a list of its values a trace may take.
const KEPT_AT_MOST: f64 = 2.0;

const SORTS: [Sort; 7] = [
    Sort {
        what: "small writes",
        kind: Kind::SmallWrites,
        count: 500_000,
        most: 2.5,
    },
    Sort {
        what: "files made, synced and renamed",
        kind: Kind::Renames,
        count: 60_000,
        most: 2.5,
    },
    Sort {
        what: "writes of 1 MB",
        kind: Kind::LargeWrites,
        count: 50,
        most: 2.5,
    },
    Sort {
        what: "start files in the root",
        kind: Kind::Starts(0),
        count: 65_000,
        most: 2.5,
    },
    Sort {
        what: "start files 60 deep",
        kind: Kind::Starts(60),
        count: 65_000,
        most: 2.5,
    },
    Sort {
        what: "start files 60 deep, one removed",
        kind: Kind::Removed(60),
        count: 65_000,
        most: 2.5,
    },
    Sort {
        what: "one large start file",
        kind: Kind::Large,
        count: FILE_BYTES,
        most: 2.5,
    },
];

/// `count` writes of 16 bytes into one file.
fn small_writes(alloc: Global, count: u64) -> Result<Text, AllocError> {
    let mut text = Text::new(alloc)?;
    text.make("creat", "/log")?;
    for write in 0..count {
        text.write("/log", write % 1_000_000, 16)?;
    }
    Ok(text)
}

/// `count` times a file is made, synced and moved to one of 100 names.
fn renames(alloc: Global, count: u64) -> Result<Text, AllocError> {
    let mut text = Text::new(alloc)?;
    for file in 0..count {
        text.make("creat", "/new")?;
        text.operation("fsync", "/new")?;
        let to = format!(in alloc; "/f{}", file % 100)?;
        text.rename("/new", to.as_str())?;
    }
    Ok(text)
}

/// `count` writes of a million bytes into one file.
fn large_writes(alloc: Global, count: u64) -> Result<Text, AllocError> {
    let mut text = Text::new(alloc)?;
    text.make("creat", "/log")?;
    for _ in 0..count {
        text.write("/log", 0, 1_000_000)?;
    }
    Ok(text)
}

/// Adds `depth` directories, each in the one before, and returns the path of the last.
fn directories(alloc: Global, text: &mut Text, depth: u64) -> Result<String, AllocError> {
    let mut above = String::new(alloc);
    for _ in 0..depth {
        above.push_str("/directory")?;
        text.start_dir(above.as_str())?;
    }
    Ok(above)
}

/// `count` start files below `depth` directories; one of them is removed, if that is asked for.
fn starts(alloc: Global, count: u64, depth: u64, removed: bool) -> Result<Text, AllocError> {
    let mut text = Text::new(alloc)?;
    let above = directories(alloc, &mut text, depth)?;
    for file in 0..count {
        let path = format!(in alloc; "{above}/file{file}")?;
        text.start_file(path.as_str(), 0)?;
    }
    if removed {
        let path = format!(in alloc; "{above}/file0")?;
        text.operation("unlink", path.as_str())?;
    }
    Ok(text)
}

/// One start file of so many bytes.
fn large(alloc: Global, bytes: u64) -> Result<Text, AllocError> {
    let mut text = Text::new(alloc)?;
    text.start_file("/f", bytes)?;
    Ok(text)
}

/// The trace of a kind, of this size.
fn text_of(alloc: Global, kind: Kind, count: u64) -> Result<Text, AllocError> {
    match kind {
        Kind::SmallWrites => small_writes(alloc, count),
        Kind::Renames => renames(alloc, count),
        Kind::LargeWrites => large_writes(alloc, count),
        Kind::Starts(depth) => starts(alloc, count, depth, false),
        Kind::Removed(depth) => starts(alloc, count, depth, true),
        Kind::Large => large(alloc, count),
    }
}

/// Times a trace that is read as a trace, as values, and as values that are kept.
fn read(rt: &(impl Clock + Print + AllocGlobal), sort: Sort, timed: bool) -> io::Result<()> {
    let count = if timed {
        sort.count
    } else {
        sort.count / 1_000 + 1
    };
    let text = text_of(rt.alloc(), sort.kind, count)?;
    let row = Row {
        what: sort.what,
        beside: "as values",
        most: sort.most,
        rounds: 8,
    };
    let kept = Row {
        beside: "as values, kept",
        most: KEPT_AT_MOST,
        ..row
    };
    let text = text.as_str();
    let mut trace = AsTrace { text };
    compare(rt, &row, &mut trace, &mut AsValues { text }, timed)?;
    compare(rt, &kept, &mut trace, &mut AsKeptValues { text }, timed)
}

/// Times traces of many lines, and of half as many.
fn double(rt: &(impl Clock + Print + AllocGlobal), timed: bool) -> io::Result<()> {
    let count = if timed { 500_000 } else { 500 };
    let many = small_writes(rt.alloc(), count)?;
    let half = small_writes(rt.alloc(), count / 2)?;
    let row = Row {
        what: "a line of twice as many",
        beside: "of half as many",
        most: 1.2,
        rounds: 4,
    };
    let mut many = AsTrace {
        text: many.as_str(),
    };
    let mut half = AsTrace {
        text: half.as_str(),
    };
    compare(rt, &row, &mut many, &mut half, timed)
}

/// Times traces of each sort.
pub fn traces(rt: &(impl Clock + Print + AllocGlobal), timed: bool) -> io::Result<()> {
    for sort in SORTS {
        read(rt, sort, timed)?;
    }
    double(rt, timed)
}
