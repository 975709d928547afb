//! The entries at which directories were made, by the directories' numbers. The home of a directory
//! is the entry of its start line or first mkdir; it stays its home if the directory is moved.
ghost use Rattle.std.specs.Prelude.{◌≡◌, ◌<◌, ◌∷◌, ◌++◌, ◌^◌, [], OnOk, length};
ghost use Rattle.cs_entries.specs.Paths.{entry_in};
ghost use Rattle.cs_trace.specs.Operations.{number_for};

use cs_entries::{Directories, Node};
use cs_trace_lines::Version;
use std::alloc::{AllocError, Global};
use std::marker::Model;

/// An entry at which a directory was made.
#[derive(Drop)]
pub(crate) struct Home {
    /// The number of the parent directory; 0 for the root itself.
    directory: u32,
    /// Empty for the root, which has no entry.
    name: String,
}

/// The entries at which directories were made, in the order of the directories' numbers: the first
/// is that of the root. Contracts see the list.
#[derive(Drop)]
pub(crate) struct Homes {
    /// The entry of the directory with each number.
    list: Vec<Home>,
    /// For each entry in `list`, the directory with the lowest number that was made there: an index
    /// of `list`, by which `number_for` needs no search.
    first: Directories,
}

impl Model for Homes {
    ghost use Rattle.std.specs.Prelude.{List};
    ghost use Rattle.std.specs.Coded.{coded_list};
    ghost use Rattle.cs_entries.specs.Directories.{coded_entry};
    ghost use Rattle.cs_entries.specs.declared.entry.Entry.{Entry};

    ghost Value = { List Entry };

    ghost coded = { coded_list coded_entry };

    ghost use Rattle.cs_trace.specs.Homes as model;

    ghost view = { λ homes. model.homes_in homes.list.items };

    ghost invariant = { λ homes. model.AreFirst homes.first (model.homes_in homes.list.items) };
}

impl Homes {
    /// The homes before the header: no directory was made, not even the root.
    pub(crate) fn new(alloc: Global) -> Homes
        ensures { result ≡ [] }
    {
        Homes {
            list: Vec::new(alloc),
            first: Directories::new(alloc),
        }
    }

    /// How many directories have a number, the root too: the next number.
    pub(crate) fn len(&self) -> usize
        ensures { result ≡ length self.now }
    {
        self.list.len()
    }

    /// The number of a directory that is made under the name in a directory. In version 4 it is the
    /// next one. In versions 1 to 3, where a directory is its path, it is that of the directory
    /// which was made there before; the next one only if there was none.
    pub(crate) fn number_for(&self, version: Version, directory: u32, name: &str) -> u32
        requires { length self.now < 2 ^ 32 }
        ensures { result ≡ number_for version self.now (entry_in directory name.now) }
    {
        let next = self.list.len() as u32;
        if version.is_fourth() {
            return next;
        }
        match self.first.get(directory, name) {
            Some(Node::Directory(number)) => number,
            Some(Node::File(..)) => next,
            None => next,
        }
    }

    /// Adds the home of the directory with the next number: the name in the directory. The root has
    /// an empty name. If the entry is the home of another directory, too, that directory stays the
    /// first there. After an error the caller drops the homes.
    pub(crate) fn push(
        &mut self,
        alloc: Global,
        directory: u32,
        name: &str,
    ) -> Result<(), AllocError>
        requires { length self.old < 2 ^ 32 }
        ensures { OnOk result (self.new ≡ self.old ++ entry_in directory name.now ∷ []) }
    {
        let key = String::from_str(alloc, name)?;
        let kept = String::from_str(alloc, name)?;
        let next = self.list.len() as u32;
        self.list.push(Home {
            directory,
            name: kept,
        })?;
        if self.first.get(directory, name).is_some() {
            return Ok(());
        }
        match self
            .first
            .insert(alloc, directory, key, Node::Directory(next))
        {
            Ok(_) => Ok(()),
            Err(refused) => {
                self.list.pop();
                Err(refused)
            }
        }
    }
}
