//! A tree read with fresh numbers. "Here" means in the fresh numbers, "the tree" is the one that
//! was frozen.
ghost use Rattle.std.specs.Prelude.{◌≡◌, ℕ, slice_get, IfErr, IfOk};
ghost use Rattle.cs_tree_model.specs.Fresh.{fresh};
ghost use Rattle.cs_tree_model.specs.Record.{metadata_of_ref};
ghost use Rattle.cs_tree_model.specs.Tree.{IsTree};
ghost use Rattle.cs_frozen.specs.Numbers.{fresh_metadata, IsNumbered};

use crate::numbering::number_tables;
use cs_names::Name;
use cs_tree_model::{ListedEntry, Metadata, TreeRead};
use std::alloc::{AllocError, Global};
use std::marker::Model;

/// No command uses it. A tree that no longer changes, read as if nothing had ever changed it. Each
/// number is the place of the file's path in the order of the paths (the root's is 0). Versions and
/// times are 0, and the last writer of a file is its owner. In addition to the tree, it takes 8
/// bytes for each file, and 8 for each number that the tree ever gave.
#[derive(Drop)]
pub struct Lower<T: TreeRead> {
    tree: T,
    // the tree's number at each number here
    numbers: Vec<u64>,
    // the number here at each of the tree's numbers; 0, which is never read, at those that no file
    // has
    places: Vec<u64>,
}

impl<T: TreeRead> Model for Lower<T> {
    ghost use Rattle.cs_tree_model.specs.Fresh.{fresh};
    ghost use Rattle.cs_tree_model.specs.Tree.{Tree, tree_code};
    ghost use Rattle.cs_frozen.specs.Numbers.{IsNumbered};

    ghost Value = { Tree };

    ghost coded = { tree_code };

    ghost view = { λ a. fresh (T.tree a.tree).files };

    ghost invariant = { λ a. IsNumbered (T.tree a.tree) a.numbers.items a.places.items };
}

impl<T: TreeRead> Lower<T> {
    /// The tree with its two tables of numbers, which `number_tables` has made from this very tree.
    /// It takes no memory.
    fn of(tree: T, numbers: Vec<u64>, places: Vec<u64>) -> Lower<T>
        requires { IsNumbered (T.tree tree) numbers.items places.items }
        ensures { result ≡ fresh (T.tree tree).files }
    {
        Lower {
            tree,
            numbers,
            places,
        }
    }
}

/// No command calls this. The tree, read as if nothing had ever changed it. No record and no byte
/// of a file is copied: only the two tables of numbers take memory, and for a time the paths that
/// they are made from. If memory runs out, the error returns the tree.
pub fn freeze<T: TreeRead>(alloc: Global, tree: T) -> Result<Lower<T>, (T, AllocError)>
    ensures ok { IfOk result (λ lower. lower ≡ fresh (T.tree tree).files) }
    ensures err { IfErr result (λ back. back.0 ≡ tree) }
{
    match number_tables(alloc, &tree) {
        Ok((numbers, places)) => Ok(Lower::of(tree, numbers, places)),
        Err(error) => Err((tree, error)),
    }
}

impl<T: TreeRead> TreeRead for Lower<T> {
    ghost tree = { λ t. t };

    /// The metadata that the tree has of the file, but with the number here, version and times 0,
    /// and the owner as last writer. None if no file has the number.
    fn record(&self, number: u64) -> Option<Metadata<'_>> {
        let own = translate(&self.numbers, number)?;
        // always Some: the table has only numbers of the tree's files
        let metadata = self.tree.record(own)?;
        Some(fresh_metadata(number, metadata))
    }

    /// Looks the name up in the tree, and returns the file's number here. None if the directory has
    /// no such name, or `directory` isn't a directory's number.
    fn find_number(&self, directory: u64, name: &str) -> Option<u64> {
        let own = translate(&self.numbers, directory)?;
        let found = self.tree.find_number(own, name)?;
        // always Some: each of the tree's files has a place
        translate(&self.places, found)
    }

    /// The number here of the directory that has the file in the tree, and 0 for the root. None if
    /// no file has the number.
    fn parent_of(&self, number: u64) -> Option<u64> {
        let own = translate(&self.numbers, number)?;
        // always Some: a file of the tree has a parent, and that has a place
        let parent = self.tree.parent_of(own)?;
        translate(&self.places, parent)
    }

    /// The name that the tree has for the file; None for the root, and if no file has the number.
    fn name_of(&self, number: u64) -> Option<&Name> {
        let own = translate(&self.numbers, number)?;
        self.tree.name_of(own)
    }

    /// The tree's next entry, with the file's number here. None if the tree has none before the
    /// bound, or `directory` isn't a directory's number.
    fn entry_after(
        &self,
        directory: u64,
        last: Option<&Name>,
        bound: Option<&Name>,
    ) -> Option<ListedEntry<'_>> {
        let own = translate(&self.numbers, directory)?;
        let entry = self.tree.entry_after(own, last, bound)?;
        // always Some: each of the tree's files has a place
        let number = translate(&self.places, entry.number)?;
        Some(ListedEntry {
            name: entry.name,
            number,
        })
    }

    /// The number of files, including directories and the root, as in the tree.
    fn count(&self) -> usize {
        self.numbers.len()
    }

    /// One less than the count, since the numbers here begin with the root's, 0, and have no gaps.
    /// The count is at least 1: each tree has a root.
    fn last_number(&self) -> u64 {
        self.numbers.len() as u64 - 1
    }

    /// Reads the file in the tree: its bytes are the same here. None if the number is a directory's
    /// or no file's. The only error is that memory runs out.
    fn read_at(
        &self,
        alloc: Global,
        number: u64,
        offset: u64,
        count: usize,
    ) -> Result<Option<Vec<u8>>, AllocError> {
        let Some(own) = translate(&self.numbers, number) else {
            return Ok(None);
        };
        let bytes = self.tree.read_at(alloc, own, offset, count)?;
        Ok(bytes)
    }
}

/// Translates a number by a table: what the table has at that place. None past the table's end.
fn translate(table: &[u64], number: u64) -> Option<u64>
    ensures { result ≡ slice_get table.now number }
{
    table.get(number as usize).copied()
}

/// The metadata with this number, and as if nothing had ever changed the file: the version and the
/// times are 0, and the owner is the last writer.
fn fresh_metadata(number: u64, metadata: Metadata<'_>) -> Metadata<'_>
    ensures { metadata_of_ref result ≡ fresh_metadata number (metadata_of_ref metadata.entry) }
{
    let owner = metadata.owner;
    Metadata {
        number,
        vers: 0,
        owner,
        group: metadata.group,
        mode: metadata.mode,
        atime: 0,
        mtime: 0,
        muid: owner,
        kind: metadata.kind,
    }
}
