//! Calls that make a tree: from records, from an overlay that won't change again, and over a lower
//! tree.

use super::rows::{Row, expect_swept};
use super::shown::push_tree;
use super::start::{start_overlay, start_records, start_tree, user};
use cs_frozen::Lower;
use cs_names::{Path, UserName};
use cs_overlay::Overlay;
use cs_overlay::laws::lower_stays;
use cs_test_memory::{End, Subject};
use cs_test_stores::{has_bytes, takes_changes};
use cs_tree::{PlainTree, RecordsFault};
use cs_tree_model::{Content, DMDIR, Record, Stamp};
use std::alloc::Global;
use std::sync::Arc;

#[derive(Clone, Copy)]
enum Call {
    /// Of the root only.
    Root,
    /// Of the records of the start tree.
    Records,
    /// Of an overlay over the start tree.
    Freeze,
    /// A write into an overlay over the start tree, with another overlay over it.
    Over,
}

/// What a call is given.
#[derive(Drop)]
enum Given {
    Root(UserName, UserName, UserName),
    Records(Vec<(Path, Record)>),
    Overlay(Overlay<PlainTree>),
    Stamp(Stamp),
}

/// What a call made.
#[derive(Drop)]
enum Made {
    Nothing,
    Plain(PlainTree),
    Frozen(Lower<Overlay<PlainTree>>),
    Both(Overlay<PlainTree>, Overlay<PlainTree>),
}

#[derive(Drop)]
struct Maker {
    lower: Arc<PlainTree>,
    given: Option<Given>,
    made: Made,
}

fn cat(alloc: Global) -> Option<UserName> {
    user(alloc, b"cat")
}

fn give(alloc: Global, call: Call) -> Option<Given> {
    Some(match call {
        Call::Root => Given::Root(cat(alloc)?, cat(alloc)?, cat(alloc)?),
        Call::Records => Given::Records(start_records(alloc)?),
        Call::Freeze => Given::Overlay(start_overlay(alloc)?),
        Call::Over => Given::Stamp(Stamp {
            now: 7,
            user: cat(alloc)?,
        }),
    })
}

/// The tree of a root with these names. Its list of one record is allocated too.
fn of_root(alloc: Global, owner: UserName, group: UserName, muid: UserName) -> Option<PlainTree> {
    let root = Record {
        number: 0,
        vers: 0,
        owner,
        group,
        mode: DMDIR | 0o775,
        atime: 0,
        mtime: 0,
        muid,
        content: Content::directory(),
    };
    let mut records = Vec::new(alloc);
    records.push((Path::root(alloc), root)).ok()?;
    PlainTree::from_records(alloc, records).ok()
}

impl Maker {
    fn keep(&mut self, made: Option<Made>) -> Option<End<()>> {
        match made {
            Some(made) => {
                self.made = made;
                Some(End::Done(()))
            }
            None => Some(End::Short),
        }
    }

    fn of_records(&mut self, alloc: Global, records: Vec<(Path, Record)>) -> Option<End<()>> {
        match PlainTree::try_from_records(alloc, records) {
            Ok(tree) => self.keep(Some(Made::Plain(tree))),
            Err(RecordsFault::Memory) => self.keep(None),
            Err(RecordsFault::NoTree) => None,
        }
    }

    /// After a refusal the overlay is given again, as it came back.
    fn freeze(&mut self, alloc: Global, tree: Overlay<PlainTree>) -> Option<End<()>> {
        match tree.freeze(alloc) {
            Ok(lower) => self.keep(Some(Made::Frozen(lower))),
            Err((tree, _)) => {
                self.given = Some(Given::Overlay(tree));
                self.keep(None)
            }
        }
    }

    fn write_over(&mut self, alloc: Global, stamp: Stamp) -> Option<End<()>> {
        let lower = &self.lower;
        if !has_bytes(&**lower, 4) || !takes_changes(&**lower, 4) {
            return None;
        }
        match lower_stays(alloc, lower, 4, 3, b"HI", stamp) {
            Ok((first, second)) => self.keep(Some(Made::Both(first, second))),
            Err(_) => self.keep(None),
        }
    }
}

impl Subject for Maker {
    type Row = Row<Call>;

    type Answer = ();

    fn start(alloc: Global, row: &Row<Call>) -> Option<Maker> {
        Some(Maker {
            lower: Arc::new(alloc, start_tree(alloc)?).ok()?,
            given: give(alloc, row.1),
            made: Made::Nothing,
        })
    }

    fn call(&mut self, alloc: Global, row: &Row<Call>) -> Option<End<()>> {
        let given = match self.given.take() {
            Some(given) => given,
            None => give(alloc, row.1)?,
        };
        match given {
            Given::Root(owner, group, muid) => {
                let tree = of_root(alloc, owner, group, muid);
                self.keep(match tree {
                    Some(tree) => Some(Made::Plain(tree)),
                    None => None,
                })
            }
            Given::Records(records) => self.of_records(alloc, records),
            Given::Overlay(tree) => self.freeze(alloc, tree),
            Given::Stamp(stamp) => self.write_over(alloc, stamp),
        }
    }

    fn push(_made: (), _said: &mut String) -> Option<()> {
        Some(())
    }

    fn tell(&mut self, alloc: Global, told: &mut String) -> Option<()> {
        push_tree(told, alloc, &*self.lower)?;
        if let Some(Given::Overlay(tree)) = &self.given {
            push_tree(told, alloc, tree)?;
        }
        match &self.made {
            Made::Nothing => Some(()),
            Made::Plain(tree) => push_tree(told, alloc, tree),
            Made::Frozen(tree) => push_tree(told, alloc, tree),
            Made::Both(first, second) => {
                push_tree(told, alloc, first)?;
                push_tree(told, alloc, second)
            }
        }
    }

    fn spent(_row: &Row<Call>, _said: &str) -> Option<bool> {
        None
    }
}

const ROWS: [Row<Call>; 4] = [
    Row("cs_tree PlainTree::from_records", Call::Root),
    Row("cs_tree PlainTree::try_from_records", Call::Records),
    Row("cs_overlay Overlay::freeze", Call::Freeze),
    Row("cs_overlay laws::lower_stays", Call::Over),
];

/// A tree of records; an overlay that is frozen, or given back; a write into one of two overlays.
#[test]
fn trees_are_made_or_not(rt: HostRuntime) {
    expect_swept::<Call, Maker>(&rt, &ROWS);
}
