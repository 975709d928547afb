//! Calls on a run that keeps no journal, compared with the tree's own calls.
ghost use Rattle.std.specs.Prelude.{◌≡◌, IsTrue, IsSome};
ghost use Rattle.cs_tree_model.specs.Stores.{CanStamp};
ghost use Rattle.cs_tree_model.specs.Tree.{content_numbered};

use crate::files::{FILE, name, tree, user, users};
use crate::kind::{BLOCK, Kind, OFFSET, blocks};
use cs_bench::{Row, Work, compare};
use cs_names::{Name, UserName};
use cs_permit::{Call, qid_at, stat_ref};
use cs_run::{Answer, CountedRun};
use cs_tree::PlainTree;
use cs_tree_model::{Kind as FileKind, Stamp, TreeRead, TreeStore};
use cs_wire::Qid;
use std::alloc::Global;
use std::io;
use std::rt::Clock;

/// How often each call is made in a round, and how many rounds are timed.
const REPEATS: u64 = 1_000;

const ROUNDS: u64 = 1_000;

/// A call on a run.
#[derive(Drop)]
struct ByCall<'a> {
    run: CountedRun<PlainTree>,
    call: Call<'a>,
    repeats: u64,
}

/// Makes a call, and returns whether it is granted.
pub fn is_granted<T: TreeStore + Drop>(
    alloc: Global,
    run: &mut CountedRun<T>,
    call: &Call<'_>,
) -> bool {
    if run.is_full() {
        return false;
    }
    let (_outcome, answer) = run.step(alloc, 1, 0, call);
    !matches!(answer, Answer::Denied(_) | Answer::Short)
}

impl Work for ByCall<'_> {
    fn run(&mut self, alloc: Global) -> u64 {
        let mut done = 0u64;
        for _ in 0..self.repeats {
            done = done.wrapping_add(u64::from(is_granted(alloc, &mut self.run, &self.call)));
        }
        done
    }
}

/// Does the same by the tree's own calls.
#[derive(Drop)]
struct ByTree<'a> {
    tree: PlainTree,
    kind: Kind,
    names: Vec<Name>,
    user: UserName,
    bytes: &'a [u8],
    repeats: u64,
}

/// Whether there is a file whose version can grow.
fn takes_bytes(tree: &PlainTree, number: u64) -> bool
    ensures file { IsTrue result → IsSome (content_numbered tree.now number) }
    ensures vers { IsTrue result → CanStamp tree.now number }
{
    let Some(file) = tree.record(number) else {
        return false;
    };
    match file.kind {
        FileKind::Directory => false,
        FileKind::File { .. } => file.vers < u32::MAX,
    }
}

/// Adds the names of so many directories, each in the one before.
fn push_names(alloc: Global, names: &mut Vec<Name>, count: u64) -> Option<()> {
    for depth in 1..count.saturating_add(1) {
        names.push(name(alloc, depth)?).ok()?;
    }
    Some(())
}

impl<'a> ByTree<'a> {
    fn of(alloc: Global, kind: Kind, blocks: &'a [u8], repeats: u64) -> Option<ByTree<'a>> {
        let mut names = Vec::new(alloc);
        if let Kind::Walks(count) = kind {
            push_names(alloc, &mut names, count)?;
        }
        let user = user(alloc)?;
        Some(ByTree {
            tree: tree(alloc)?,
            kind,
            names,
            user,
            bytes: blocks.get(..BLOCK)?,
            repeats,
        })
    }

    fn stat(&self, alloc: Global) -> Option<()> {
        let _stat = stat_ref(&self.tree, FILE)?.to_stat(alloc).ok()?;
        Some(())
    }

    fn read(&self, alloc: Global) -> Option<()> {
        let bytes = self.tree.read_at(alloc, FILE, OFFSET, BLOCK).ok()??;
        (bytes.len() == BLOCK).then_some(())
    }

    fn write(&mut self, alloc: Global) -> Option<()> {
        let bytes = self.bytes;
        if !takes_bytes(&self.tree, FILE) || bytes.is_empty() || bytes.len() > 65_536 {
            return None;
        }
        let user = self.user.try_clone().ok()?;
        let stamp = Stamp { now: 1, user };
        self.tree.write_at(alloc, FILE, OFFSET, bytes, stamp).ok()
    }

    fn walk(&self, alloc: Global) -> Option<()> {
        let mut qids: Vec<Qid> = Vec::with_capacity(alloc, self.names.len()).ok()?;
        let mut number = 0;
        for name in &self.names {
            number = self.tree.find_number(number, name.as_str())?;
            qids.push(qid_at(&self.tree, number)).ok()?;
        }
        Some(())
    }

    fn once(&mut self, alloc: Global) -> Option<()> {
        match self.kind {
            Kind::Stats => self.stat(alloc),
            Kind::Reads => self.read(alloc),
            Kind::Writes => self.write(alloc),
            Kind::Walks(_) => self.walk(alloc),
        }
    }
}

impl Work for ByTree<'_> {
    fn run(&mut self, alloc: Global) -> u64 {
        let mut done = 0u64;
        for _ in 0..self.repeats {
            done = done.wrapping_add(u64::from(self.once(alloc).is_some()));
        }
        done
    }
}

fn by_call<'a>(alloc: Global, kind: Kind, blocks: &'a [u8], repeats: u64) -> Option<ByCall<'a>> {
    let call = kind.call(alloc, blocks, 0)?;
    let users = users(alloc)?;
    Some(ByCall {
        run: CountedRun::new(alloc, tree(alloc)?, users),
        call,
        repeats,
    })
}

/// Makes a call on a run and by the tree's own.
pub fn calls(rt: &(impl Clock + Print + AllocGlobal), kind: Kind, timed: bool) -> io::Result<()> {
    let alloc = rt.alloc();
    let repeats = if timed { REPEATS } else { 1 };
    let Some(blocks) = blocks(alloc) else {
        return println!(rt; "out of memory");
    };
    let (Some(mut call), Some(mut own)) = (
        by_call(alloc, kind, &blocks, repeats),
        ByTree::of(alloc, kind, &blocks, repeats),
    ) else {
        return println!(rt; "out of memory");
    };
    let row = Row {
        what: kind.name(),
        beside: "by the tree's own calls",
        most: 2.0,
        rounds: ROUNDS,
    };
    compare(rt, &row, &mut call, &mut own, timed)
}
