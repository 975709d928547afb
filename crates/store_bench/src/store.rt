//! A store; before each change, what the store requires of its caller is checked.
ghost use Rattle.std.specs.Prelude.{◌≡◌, IsTrue, IsSome};
ghost use Rattle.cs_tree_model.specs.Tree.{content_numbered};
ghost use Rattle.cs_tree_model.specs.Stores.{CanStamp, CanStampParent, IsDirectoryNumbered};

use crate::subject::Subject;
use cs_names::{Name, UserName};
use cs_tree_model::{Change, Kind, New, Stamp, TreeRead, TreeStore, is_empty};
use std::alloc::Global;

/// The permission bits of a new file.
const MODE: u32 = 0o664;

/// The most bytes of a read or write.
const MOST_BYTES: usize = 65_536;

/// A store, and the user who changes it.
#[derive(Drop)]
pub struct Store<T> {
    tree: T,
    user: UserName,
}

/// Whether the number is that of a directory whose version can still grow.
fn takes_files<T: TreeRead>(tree: &T, number: u64) -> bool
    ensures directory { IsTrue result → IsDirectoryNumbered (T.tree tree.now) number }
    ensures vers { IsTrue result → CanStamp (T.tree tree.now) number }
{
    let Some(file) = tree.record(number) else {
        return false;
    };
    match file.kind {
        Kind::Directory => file.vers < u32::MAX,
        Kind::File { .. } => false,
    }
}

/// Whether the number is that of a file whose version can still grow.
fn takes_bytes<T: TreeRead>(tree: &T, number: u64) -> bool
    ensures file { IsTrue result → IsSome (content_numbered (T.tree tree.now) number) }
    ensures vers { IsTrue result → CanStamp (T.tree tree.now) number }
{
    let Some(file) = tree.record(number) else {
        return false;
    };
    match file.kind {
        Kind::Directory => false,
        Kind::File { .. } => file.vers < u32::MAX,
    }
}

/// Whether the version of its directory can still grow.
fn can_leave<T: TreeRead>(tree: &T, number: u64) -> bool
    ensures { IsTrue result → CanStampParent (T.tree tree.now) number }
{
    let Some(directory) = tree.parent_of(number) else {
        return false;
    };
    takes_files(tree, directory)
}

impl<T: TreeStore + Drop> Store<T> {
    /// The store, whose files the user ann changes.
    pub fn new(alloc: Global, tree: T) -> Option<Store<T>> {
        let user = UserName::read(alloc, b"ann").ok()?;
        Some(Store { tree, user })
    }
}

impl<T: TreeStore> Store<T> {
    /// The stamp of each change: the user, at time 1.
    fn stamp(&self) -> Option<Stamp> {
        let user = self.user.try_clone().ok()?;
        Some(Stamp { now: 1, user })
    }

    /// Gives a file a length of 32 bits at most.
    pub fn resize(&mut self, alloc: Global, number: u64, length: u64) -> Option<()> {
        if !takes_bytes(&self.tree, number) || length > u64::from(u32::MAX) {
            return None;
        }
        let change = Change {
            name: None,
            length: Some(length),
            mode: None,
            group: None,
            mtime: None,
        };
        let stamp = self.stamp()?;
        self.tree.change(alloc, number, &change, stamp).ok()
    }
}

impl<T: TreeStore> Subject for Store<T> {
    /// One search by name in the root.
    fn look_up(&self, name: &Name) -> Option<u64> {
        self.tree.find_number(0, name.as_str())
    }

    /// Asks the store for each entry after the one before.
    fn list(&self) -> u64 {
        let mut last = None;
        let mut count = 0u64;
        for _ in 0..self.tree.count() {
            let Some(entry) = self.tree.entry_after(0, last, None) else {
                break;
            };
            last = Some(entry.name);
            count = count.wrapping_add(1);
        }
        count
    }

    /// Fails if the file has fewer bytes.
    fn read(&self, alloc: Global, number: u64, offset: u64, count: usize) -> Option<()> {
        let bytes = self.tree.read_at(alloc, number, offset, count).ok()??;
        (bytes.len() == count).then_some(())
    }

    /// Fails if the root can't be changed again, no number is left, or there is a file of that
    /// name.
    fn make(&mut self, alloc: Global, name: &Name) -> Option<u64> {
        if !takes_files(&self.tree, 0) || self.tree.last_number() == u64::MAX {
            return None;
        }
        if self.tree.find_number(0, name.as_str()).is_some() {
            return None;
        }
        let name = name.try_clone().ok()?;
        let stamp = self.stamp()?;
        self.tree
            .add(alloc, 0, name, New { mode: MODE }, stamp)
            .ok()
    }

    /// Fails for the root, a directory that isn't empty, or one that can't be changed again.
    fn delete(&mut self, alloc: Global, number: u64) -> Option<()> {
        if number == 0 || self.tree.record(number).is_none() {
            return None;
        }
        if !can_leave(&self.tree, number) || !is_empty(&self.tree, number) {
            return None;
        }
        let stamp = self.stamp()?;
        self.tree.remove(alloc, number, stamp).ok()
    }

    /// Fails for no byte, more than MOST_BYTES, an offset of more than 32 bits, or a file that
    /// can't be changed again.
    fn put(&mut self, alloc: Global, number: u64, offset: u64, bytes: &[u8]) -> Option<()> {
        if bytes.is_empty() || bytes.len() > MOST_BYTES || offset > u64::from(u32::MAX) {
            return None;
        }
        if !takes_bytes(&self.tree, number) {
            return None;
        }
        let stamp = self.stamp()?;
        self.tree.write_at(alloc, number, offset, bytes, stamp).ok()
    }
}
