//! What each entry of each directory holds, as one value.
ghost use Rattle.std.specs.Prelude.{◌≡◌, IfOk, OnErr, OnOk};
ghost use Rattle.std.specs.FinMap as map;
ghost use Rattle.std.specs.String.{string_bytes};
ghost use Rattle.cs_entries.specs.Paths.{at_path, entry_in};
ghost use Rattle.cs_entries.specs.Tables.{has_entries, held_in};

use crate::changes::{grow, hold, release};
use crate::directories::{has_entries, node_at, node_in};
use crate::node::Node;
use cs_names::Names;
use std::alloc::{AllocError, Global};
use std::collections::HashMap;
use std::marker::Model;

/// What each entry of each directory holds. Contracts see a finite map of entries, in the order of
/// the directories' numbers and then of the names.
#[derive(Drop)]
pub struct Directories {
    /// At each directory's number, what its entries hold, by their names. The last directories may
    /// have no map here, if they have no entry.
    by_number: Vec<HashMap<String, Node>>,
}

impl Model for Directories {
    ghost use Rattle.cs_entries.specs.Directories.{coded_table, table_by};
    ghost use Rattle.cs_entries.specs.Tables.{Table};

    ghost Value = { Table };

    ghost coded = { coded_table };

    ghost view = { λ directories. table_by directories.by_number.items };
}

impl Directories {
    /// No entry in any directory. It takes no memory.
    pub fn new(alloc: Global) -> Directories
        ensures { result ≡ map.empty }
    {
        Directories {
            by_number: Vec::new(alloc),
        }
    }

    /// What the entry of the name holds in the directory of the number; None if there is no such
    /// entry or directory. It takes no memory.
    pub fn get(&self, directory: u32, name: &str) -> Option<Node>
        ensures { result ≡ map.get self.now (entry_in directory name.now) }
    {
        node_in(&self.by_number, directory, name)
    }

    /// What is at a path, by its names: each leads from a directory to what its entry holds. The
    /// root is at the path without names. None if a directory has no such entry, or if names follow
    /// a file: nothing is looked up through a file or a symbolic link. It takes no memory.
    pub fn at(&self, names: Names<'_>) -> Option<Node>
        ensures { result ≡ at_path (held_in self.now) names.entry }
    {
        node_at(&self.by_number, names)
    }

    /// Whether the directory of the number has an entry; false if there is no such directory. It
    /// takes no memory.
    pub fn has_entries(&self, directory: u32) -> bool
        ensures { result ≡ has_entries self.now directory }
    {
        has_entries(&self.by_number, directory)
    }

    /// Puts a node under the name in the directory of the number, and returns what the entry held
    /// before; None if it held nothing. Nothing is checked: callers know that it leaves a tree. The
    /// only error is that memory runs out; then all entries are as they were.
    pub fn insert(
        &mut self,
        alloc: Global,
        directory: u32,
        name: String,
        node: Node,
    ) -> Result<Option<Node>, AllocError>
        ensures before { IfOk result (λ before. before
            ≡ map.get self.old (entry_in directory (string_bytes name))) }
        ensures ok { OnOk result (self.new
            ≡ map.insert self.old (entry_in directory (string_bytes name)) node) }
        ensures err { OnErr result (self.new ≡ self.old) }
    {
        grow(alloc, &mut self.by_number, directory)?;
        hold(&mut self.by_number, directory, name, node)
    }

    /// Removes the entry of the name from the directory of the number, and returns what it held;
    /// None if there is no such entry. If that was a directory, its own entries stay in the table.
    /// It takes no memory.
    pub fn remove(&mut self, directory: u32, name: &str) -> Option<Node>
        ensures before { result ≡ map.get self.old (entry_in directory name.now) }
        ensures state { self.new ≡ map.remove self.old (entry_in directory name.now) }
    {
        release(&mut self.by_number, directory, name)
    }
}
