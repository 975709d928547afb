//! A run over a root with one file, and a pass of it.
ghost use Rattle.std.specs.Prelude.{◌≡◌};

use super::asks::split_word;
use cs_fids::Place;
use cs_journal::{Pass, Run, can_grow};
use cs_names::{Path, Text, Texts, UserName};
use cs_permit::{
    AttachCall, Call, CloseCall, OpenCall, ReadCall, RemoveCall, SentBytes, StatCall, WalkCall,
    WriteCall,
};
use cs_run::Answer;
use cs_tree::PlainTree;
use cs_tree_model::{Content, DMDIR, Record};
use cs_users::Users;
use std::alloc::Global;
use std::marker::Model;
use std::process::Abort;
use std::sync::Arc;

/// The number of the file.
const FILE: u64 = 1;

fn user(rt: &impl Abort, alloc: Global) -> UserName {
    UserName::read(alloc, b"ann").expect(rt, "a value")
}

fn record(rt: &impl Abort, alloc: Global, number: u64, mode: u32, content: Content) -> Record {
    Record {
        number,
        vers: 0,
        owner: user(rt, alloc),
        group: user(rt, alloc),
        mode,
        atime: 0,
        mtime: 0,
        muid: user(rt, alloc),
        content,
    }
}

fn root(rt: &impl Abort, alloc: Global) -> Record {
    record(rt, alloc, 0, DMDIR | 0o755, Content::directory())
}

fn file(rt: &impl Abort, alloc: Global) -> Record {
    let bytes = Vec::from_slice(alloc, b"hello").expect(rt, "memory");
    record(rt, alloc, FILE, 0o644, Content::file(bytes))
}

fn push_record(
    rt: &impl Abort,
    alloc: Global,
    records: &mut Vec<(Path, Record)>,
    path: &str,
    record: Record,
) {
    let path = Path::read(alloc, path).expect(rt, "a value");
    records.push((path, record)).expect(rt, "memory")
}

fn tree(rt: &impl Abort, alloc: Global) -> PlainTree {
    let mut records = Vec::new(alloc);
    push_record(rt, alloc, &mut records, "/", root(rt, alloc));
    push_record(rt, alloc, &mut records, "/f", file(rt, alloc));
    PlainTree::try_from_records(alloc, records).expect(rt, "a value")
}

/// A run over the root and the file `f`, which ann owns.
pub fn run(rt: &impl Abort, alloc: Global) -> Run<PlainTree> {
    let users = Arc::new(
        alloc,
        Users::read(alloc, b"1:ann::\n2:bob::\n").expect(rt, "a value"),
    )
    .expect(rt, "a value");
    let lower = Arc::new(alloc, tree(rt, alloc)).expect(rt, "memory");
    assert!(rt; can_grow(&*lower));
    Run::fresh(alloc, lower, users).expect(rt, "memory")
}

/// A run, and a pass of it that fits.
#[derive(Drop)]
pub struct Side {
    run: Run<PlainTree>,
    pass: Pass,
}

impl Model for Side {
    ghost use Rattle.cs_journal.specs.Codes.{side_code};
    ghost use Rattle.cs_journal.specs.Runs.{Fits, PassOf, RunOf};

    ghost Value = { RunOf × PassOf };

    ghost coded = { side_code };

    ghost view = { λ s. (s.run, s.pass) };

    ghost invariant = { λ s. Fits s.run s.pass };
}

impl Side {
    pub fn new(rt: &impl Abort, alloc: Global) -> Side {
        let mut run = run(rt, alloc);
        let pass = run.new_pass(alloc).expect(rt, "memory");
        Side { run, pass }
    }

    /// Makes a call at second 1000.
    pub fn step(&mut self, alloc: Global, call: Call<'_>) -> Answer {
        self.run.step(alloc, &mut self.pass, 1000, call)
    }

    /// The answer to the call of the entry at that place.
    pub fn answer_at(&self, rt: &impl Abort, alloc: Global, place: usize) -> Answer {
        let answer = self.run.answer_at(alloc, place).expect(rt, "memory");
        answer.expect(rt, "an entry")
    }

    /// Whether the pass of the other side fits the run of this one.
    pub fn fits(&self, other: &Side) -> bool {
        self.run.fits(&other.pass)
    }

    /// Adds how many entries there are, receipts, and places for closes.
    pub fn push_counts(&self, rt: &impl Abort, text: &mut String) {
        let entries = self.run.entries();
        let (receipts, reserved) = (self.pass.receipts().len(), self.pass.reserved());
        write!(text, " {entries} {receipts} {reserved}").expect(rt, "memory")
    }
}

pub fn attach(rt: &impl Abort, alloc: Global, user: &str) -> Call<'static> {
    let user = Text::copy_of(alloc, user).expect(rt, "memory");
    Call::Attach(AttachCall { user })
}

fn walk(rt: &impl Abort, alloc: Global) -> Call<'static> {
    let user = user(rt, alloc);
    let mut names = Vec::new(alloc);
    names
        .push(String::from_str(alloc, "f").expect(rt, "memory"))
        .expect(rt, "memory");
    Call::Walk(WalkCall {
        number: 0,
        user,
        names: Texts::new(names),
    })
}

fn open(rt: &impl Abort, alloc: Global, mode: &str) -> Call<'static> {
    let mode = mode.parse::<u8>().expect(rt, "a value");
    Call::Open(OpenCall {
        number: FILE,
        user: user(rt, alloc),
        mode,
    })
}

/// The offset and the bytes.
fn write(rt: &impl Abort, alloc: Global, words: &str) -> Call<'static> {
    let (offset, text) = words.split_once(' ').expect(rt, "a value");
    let offset = offset.parse::<u64>().expect(rt, "a value");
    write_of(rt, alloc, offset, text.as_bytes())
}

pub fn write_of(rt: &impl Abort, alloc: Global, offset: u64, bytes: &[u8]) -> Call<'static> {
    let user = user(rt, alloc);
    let bytes = SentBytes::copy_of(alloc, bytes).expect(rt, "memory");
    Call::Write(WriteCall {
        number: FILE,
        user,
        offset,
        bytes,
    })
}

fn close(rt: &impl Abort, alloc: Global, open_number: &str) -> Call<'static> {
    let open_number = open_number.parse::<u32>().expect(rt, "a value");
    let user = user(rt, alloc);
    Call::Close(CloseCall { open_number, user })
}

fn remove(rt: &impl Abort, alloc: Global, open_number: &str) -> Call<'static> {
    let open_number = open_number.parse::<u32>().expect(rt, "a value");
    Call::Remove(RemoveCall {
        number: FILE,
        user: user(rt, alloc),
        open_number: Some(open_number),
    })
}

/// A read of so many bytes.
pub fn read_of(offset: u64, count: u32) -> Call<'static> {
    Call::Read(ReadCall {
        number: FILE,
        offset,
        count,
        place: Place::start(),
    })
}

pub fn stat() -> Call<'static> {
    Call::Stat(StatCall { number: FILE })
}

/// The call that the words mean: `attach`, `walk` or `stat`; `open` with its mode, `write` with its
/// offset and bytes, `close` or `remove` with the number of the open.
pub fn call_of(rt: &impl Abort, alloc: Global, words: &str) -> Call<'static> {
    let (word, words) = split_word(words);
    match word {
        "attach" => attach(rt, alloc, "ann"),
        "walk" => walk(rt, alloc),
        "open" => open(rt, alloc, words),
        "write" => write(rt, alloc, words),
        "close" => close(rt, alloc, words),
        "remove" => remove(rt, alloc, words),
        _ => stat(),
    }
}
