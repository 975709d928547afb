//! The state of a set, read as a tree by the contract of `TreeRead`. Numbers of files and
//! directories are those of the state: their places in the order of paths, from 0, the root.
ghost use Rattle.std.specs.Prelude.{◌≡◌, ◌↔◌, Some, IfSome, IsSome, IsTrue};
ghost use Rattle.std.specs.Option.{option_copied, option_map};
ghost use Rattle.cs_tree_model.specs.Nexts.{entry_name, IsEntryBelow};
ghost use Rattle.cs_state.specs.Named.{IsBeforeBound};
ghost use Rattle.cs_state.specs.States.{number_shown, tree_in, IsMade};

use crate::names::range_after;
use crate::state::State;
use cs_names::Name;
use cs_tree_model::{ListedEntry, Metadata, TreeRead};
use std::alloc::{AllocError, Global};
use std::marker::Model;

/// The state of a set of a trace's micro-operations, as a tree that never changes. It has the
/// members of the set, and what is in the entries that some micro-operation touches. All else it
/// shares with the other states of the trace. Contracts see the tree.
#[derive(Drop)]
pub struct StateTree {
    /// The state.
    state: State,
}

impl Model for StateTree {
    ghost use Rattle.cs_tree_model.specs.Tree.{Tree, tree_code};
    ghost use Rattle.cs_state.specs.States as model;

    ghost Value = { Tree };

    ghost coded = { tree_code };

    ghost view = { λ tree. model.tree_in tree.state };

    ghost invariant = { λ tree. model.IsMade tree.state };
}

impl StateTree {
    /// The state as a tree.
    pub(crate) fn of(state: State) -> StateTree
        requires { IsMade state }
        ensures { result ≡ tree_in state }
    {
        StateTree { state }
    }
}

impl TreeRead for StateTree {
    ghost tree = { λ t. t };

    /// The metadata of the file or directory with the number; None if there is none. A state keeps
    /// no records: each is computed from the members and the shared tables.
    fn record(&self, number: u64) -> Option<Metadata<'_>> {
        let node = self.state.node_at(number)?;
        Some(self.state.metadata(number, node))
    }

    /// The number of what has this name in the directory; None if nothing has, or if `directory`
    /// isn't the number of a directory. The name is looked up among all entries that the directory
    /// has in any state, and then in this state.
    fn find_number(&self, directory: u64, name: &str) -> Option<u64> {
        let directory = self.state.directory_at(directory)?;
        self.state.number_of_name(directory, name)
    }

    /// The number of the directory that has the file or directory with the number; 0 for the root
    /// itself. None if nothing has the number.
    fn parent_of(&self, number: u64) -> Option<u64> {
        let found = self.state.found_at(number)?;
        match self.state.entry_of_id(found.id) {
            None => Some(0),
            Some(entry) => self.state.number_of_directory(entry.directory),
        }
    }

    /// The name of the file or directory with the number; None for the root, and if nothing has the
    /// number. It is borrowed from the entries that all states share.
    fn name_of(&self, number: u64) -> Option<&Name> {
        let found = self.state.found_at(number)?;
        let entry = self.state.entry_of_id(found.id)?;
        Some(&entry.name)
    }

    /// The directory's first name after `last`, or the first of all if `last` is None, with the
    /// number that it has. None if that isn't before `bound` (a `bound` of None is after all), or
    /// if `directory` isn't the number of a directory. Names that hold nothing in this state are
    /// skipped.
    fn entry_after(
        &self,
        directory: u64,
        last: Option<&Name>,
        bound: Option<&Name>,
    ) -> Option<ListedEntry<'_>> {
        let directory = self.state.directory_at(directory)?;
        entry_after_in(&self.state, directory, last, bound)
    }

    /// How many records the state has, that of the root too.
    fn count(&self) -> usize {
        self.state.count()
    }

    /// The greatest number: one less than `count`, which is at least 1, since the root is in every
    /// state.
    fn last_number(&self) -> u64 {
        self.state.count() as u64 - 1
    }

    /// At most `count` bytes of the file with the number, from the offset on: fewer near its end,
    /// and none at its end or past it. None if nothing has the number, or a directory has it. Only
    /// those members are applied that reach the pages that are read. Memory can run out only if
    /// there is a byte to read.
    fn read_at(
        &self,
        alloc: Global,
        number: u64,
        offset: u64,
        count: usize,
    ) -> Result<Option<Vec<u8>>, AllocError> {
        let Some(node) = self.state.node_at(number) else {
            return Ok(None);
        };
        let bytes = self.state.read(alloc, node, offset, count)?;
        Ok(bytes)
    }
}

/// Whether the name comes before the bound, if there is one.
fn is_before(name: &Name, bound: Option<&Name>) -> bool
    ensures { IsTrue result ↔ IsBeforeBound (option_copied bound.entry) name.now }
{
    match bound {
        None => true,
        Some(bound) => name.as_str() < bound.as_str(),
    }
}

/// As `StateTree::entry_after`, for a directory that is given by its number in the trace.
fn entry_after_in<'a>(
    state: &'a State,
    directory: u32,
    last: Option<&Name>,
    bound: Option<&Name>,
) -> Option<ListedEntry<'a>>
    requires { IsMade state.now }
    ensures name { IsEntryBelow (λ y. IsSome (number_shown state.now directory y))
        (option_copied last.entry) (option_copied bound.entry) (option_map entry_name result) }
    ensures number { IfSome result
        (λ e. number_shown state.now directory (entry_name e) ≡ Some e.number) }
{
    let entries = state.entries();
    let (first, end) = range_after(entries, directory, last);
    for place in first..end {
        let name = &entries[place].name;
        if !is_before(name, bound) {
            return None;
        }
        if let Some(number) = state.number_of_place(place) {
            return Some(ListedEntry { name, number });
        }
    }
    None
}
