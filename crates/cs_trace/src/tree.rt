//! The tree after the lines of a trace so far: what each entry of each directory holds now. An
//! error means out of memory; then the caller drops the tree.
ghost use Rattle.std.specs.Prelude.{◌≡◌, ◌∷◌, ◌++◌, [], IfOk, IfSome, OnOk, Some};
ghost use Rattle.std.specs.FinMap as map;
ghost use Rattle.cs_entries.specs.DirEntries.{entry_of};
ghost use Rattle.cs_entries.specs.Paths.{at_path, entry_in};
ghost use Rattle.cs_entries.specs.Tables.{has_entries, held_in};
ghost use Rattle.cs_entries.specs.declared.node.Node.TheVariants.{Directory};
ghost use Rattle.cs_start.specs.Names.{entry_path_of};
ghost use Rattle.cs_tree_model.specs.Tree.{parent_path};

use cs_entries::{DirEntry, Directories, Node};
use cs_names::{Names, Path};
use cs_start::{LastDirectory, PathText};
use std::alloc::{AllocError, Global};
use std::marker::Model;

/// The directory above the path of a start line, with its number.
#[derive(Drop)]
pub(crate) struct Above {
    /// Its path, and the text that spells it if that is known.
    pub(crate) directory: LastDirectory,
    /// Its number.
    pub(crate) number: u32,
}

/// What each entry holds. Contracts see a finite map from entries to nodes; the directory that is
/// remembered isn't part of it.
#[derive(Drop)]
pub(crate) struct Tree {
    /// What each name of each directory holds, by the directory's number.
    directories: Directories,
    /// The directory of the last start line, which is in the tree: most often the next line's, too.
    /// Each change of the tree sets it to None; a start line then sets it again.
    last_directory: Option<Above>,
}

impl Model for Tree {
    ghost use Rattle.cs_entries.specs.Directories.{coded_table};
    ghost use Rattle.cs_entries.specs.Tables.{Table, held_in};

    ghost Value = { Table };

    ghost coded = { coded_table };

    ghost use Rattle.std.specs.Prelude.{◌≡◌, IfSome, Some};
    ghost use Rattle.cs_entries.specs.Paths.{at_path};
    ghost use Rattle.cs_entries.specs.declared.node.Node.TheVariants.{Directory};

    ghost view = { λ tree. tree.directories };

    ghost invariant = { λ tree. IfSome tree.last_directory (λ above.
        at_path (held_in tree.directories) above.directory ≡ Some (Directory above.number)) };
}

impl Tree {
    /// A tree without any entry.
    pub(crate) fn new(alloc: Global) -> Tree
        ensures { result ≡ map.empty }
    {
        Tree {
            directories: Directories::new(alloc),
            last_directory: None,
        }
    }

    /// What the names lead to from the root, without following symbolic links; the root itself for
    /// no names. None if nothing is there. It takes no memory.
    pub(crate) fn at(&self, names: Names<'_>) -> Option<Node>
        ensures { result ≡ at_path (held_in self.now) names.entry }
    {
        self.directories.at(names)
    }

    /// Whether the directory with this number has an entry that holds something. False if there is
    /// no such directory. It takes no memory.
    pub(crate) fn has_entries(&self, directory: u32) -> bool
        ensures { result ≡ has_entries self.now directory }
    {
        self.directories.has_entries(directory)
    }

    /// Forgets the directory of the last start line, which is in the tree, and returns it if it is
    /// the parent of the path. None if the parent is another path, and if no directory was
    /// remembered.
    pub(crate) fn take_directory(&mut self, path: &Path) -> Option<Above>
        ensures same { self.new ≡ self.old }
        ensures above { IfSome result (λ above. above.directory ≡ parent_path path.now) }
        ensures is_there { IfSome result (λ above.
            at_path (held_in self.old) above.directory ≡ Some (Directory above.number)) }
    {
        let above = self.last_directory.take()?;
        if above.directory.path().names() == path.names().parent() {
            return Some(above);
        }
        None
    }

    /// As `take_directory`, but by the text of the path, which is faster, and returns also the path
    /// and its last name (`LastDirectory::path_in`). None for every other text, which may still
    /// spell a path in the directory; then the directory stays remembered.
    pub(crate) fn take_spelled_directory<'a>(
        &mut self,
        text: &'a str,
    ) -> Option<(Above, PathText<'a>, &'a str)>
        ensures same { self.new ≡ self.old }
        ensures path { IfSome result (λ parts. entry_path_of text.now ≡ Some parts.1) }
        ensures named { IfSome result (λ parts. parts.1 ≡ parts.0.directory ++ parts.2.now ∷ []) }
        ensures is_there { IfSome result (λ parts.
            at_path (held_in self.old) parts.0.directory ≡ Some (Directory parts.0.number)) }
    {
        let above = self.last_directory.take()?;
        match above.directory.path_in(text) {
            Some((path, name)) => Some((above, path, name)),
            None => {
                self.last_directory = Some(above);
                None
            }
        }
    }

    /// Remembers the directory of a start line, which must be in the tree, for the next line:
    /// `take_directory` and `take_spelled_directory` then return it.
    pub(crate) fn remember_directory(&mut self, above: Above)
        requires { at_path (held_in self.old) above.directory ≡ Some (Directory above.number) }
        ensures { self.new ≡ self.old }
    {
        self.last_directory = Some(above);
    }

    /// Puts the node under the name in the directory with this number, and returns what the entry
    /// held before; None if nothing. The remembered directory is forgotten.
    pub(crate) fn put_named(
        &mut self,
        alloc: Global,
        directory: u32,
        name: &str,
        node: Node,
    ) -> Result<Option<Node>, AllocError>
        ensures before { IfOk result (λ before. before
            ≡ map.get self.old (entry_in directory name.now)) }
        ensures state { OnOk result
            (self.new ≡ map.insert self.old (entry_in directory name.now) node) }
    {
        self.last_directory = None;
        let key = String::from_str(alloc, name)?;
        self.directories.insert(alloc, directory, key, node)
    }

    /// Puts the node at the entry, and returns what the entry held before; None if nothing. The
    /// remembered directory is forgotten.
    pub(crate) fn put(
        &mut self,
        alloc: Global,
        entry: &DirEntry,
        node: Node,
    ) -> Result<Option<Node>, AllocError>
        ensures before { IfOk result (λ before. before ≡ map.get self.old (entry_of entry.now)) }
        ensures state { OnOk result (self.new ≡ map.insert self.old (entry_of entry.now) node) }
    {
        self.put_named(alloc, entry.directory, entry.name(), node)
    }

    /// Takes away what the entry holds, and returns it; None if it held nothing. The remembered
    /// directory is forgotten. It takes no memory.
    pub(crate) fn take(&mut self, entry: &DirEntry) -> Option<Node>
        ensures before { result ≡ map.get self.old (entry_of entry.now) }
        ensures state { self.new ≡ map.remove self.old (entry_of entry.now) }
    {
        self.last_directory = None;
        self.directories.remove(entry.directory, entry.name())
    }
}
