//! The entries of one directory at the start, by name. Names are faster to compare than whole
//! paths, which are long if the directory is deep. After an error, entries may be missing, or only
//! some of them appended; the callers drop both.
ghost use Rattle.std.specs.Prelude.{◌≡◌, ◌≢◌, ◌∷◌, ◌++◌, [], IfNone, IfOk, IfSome, IsTrue, OnOk};
ghost use Rattle.std.specs.Prelude.{None, Some, false};
ghost use Rattle.std.specs.Prelude.{length};
ghost use Rattle.std.specs.FinMap as map;
ghost use Rattle.std.specs.Option.{is_some, option_map};
ghost use Rattle.cs_names.specs.Legal.{IsLegalName};
ghost use Rattle.cs_tree_model.specs.Tree.{NameBytes};
ghost use Rattle.cs_start.specs.Entries.{with_nodes, with_records};
ghost use Rattle.cs_start.specs.Names.{entry_path_of};
ghost use Rattle.cs_start.specs.Owned.{with_places};
ghost use Rattle.cs_start.specs.Siblings.{AreIn, BeginsAt, IsIn};

use crate::entry::StartEntry;
use crate::last_directory::LastDirectory;
use crate::start_lists::StartLists;
use cs_names::Path;
use std::alloc::{AllocError, Global};
use std::collections::BTreeMap;
use std::marker::Model;

/// The entries of one directory. Contracts see the directory's path, and a finite map of entries at
/// their whole paths.
#[derive(Drop)]
pub(crate) struct Siblings {
    /// The directory, with its text if that is known.
    directory: LastDirectory,
    /// Each entry by the last name of its path.
    by_name: BTreeMap<String, StartEntry>,
}

impl Model for Siblings {
    ghost use Rattle.cs_start.specs.Siblings as model;
    ghost use Rattle.cs_tree_model.specs.Maps.Texts.{by_bytes};

    ghost Value = { model.Siblings };

    ghost coded = { model.siblings_code };

    ghost view = { λ siblings.
        model.siblings_of siblings.directory (by_bytes siblings.by_name.entries) };

    ghost invariant = { λ siblings.
        model.HaveLegalNames (by_bytes siblings.by_name.entries) };
}

/// The last name of the path, if the directory is right above it. None for a path elsewhere or
/// further down, and for the root, which has no last name.
fn name_in<'a>(directory: &LastDirectory, path: &'a Path) -> Option<&'a str>
    ensures there { IfSome result (λ name. path.now ≡ directory.now ++ name.now ∷ []) }
    ensures legal { IfSome result (λ name. IsLegalName name.now) }
    ensures elsewhere { IfNone result ((n : NameBytes) → path.now ≢ directory.now ++ n ∷ []) }
{
    match path.names().split_last() {
        None => None,
        Some((above, name)) => {
            if above == directory.path().names() {
                Some(name)
            } else {
                None
            }
        }
    }
}

impl Siblings {
    /// The entries of the directory, of which there are none yet.
    pub(crate) fn new(alloc: Global, directory: LastDirectory) -> Siblings
        ensures directory { result.directory ≡ directory }
        ensures entries { result.entries ≡ map.empty }
    {
        Siblings {
            directory,
            by_name: BTreeMap::new(alloc),
        }
    }

    /// The path of the directory that all entries are in; there may be none.
    pub(crate) fn directory(&self) -> &Path
        ensures value { result.now ≡ self.now.directory }
        ensures all { AreIn self.now }
    {
        self.directory.path()
    }

    /// The last name of the path that the text spells, if the text is that of the directory, a `/`
    /// and a legal name (`LastDirectory::name_in_text`). None for any other text, which may still
    /// spell a path in the directory.
    pub(crate) fn name_in_text<'a>(&self, text: &'a str) -> Option<&'a str>
        ensures entry { IfSome result (λ name.
            entry_path_of text.now ≡ Some (self.now.directory ++ name.now ∷ [])) }
        ensures legal { IfSome result (λ name. IsLegalName name.now) }
    {
        self.directory.name_in_text(text)
    }

    /// Whether the directory is right above the path. Such a path may or may not have an entry; no
    /// other path has one. False for the root.
    pub(crate) fn is_in_directory(&self, path: &Path) -> bool
        ensures there { IsTrue result → IsIn self.now.directory path.now }
        ensures elsewhere { result ≡ false
            → (n : NameBytes) → path.now ≢ self.now.directory ++ n ∷ [] }
        ensures none { result ≡ false → map.get self.now.entries path.now ≡ None }
    {
        match name_in(&self.directory, path) {
            None => false,
            Some(_) => true,
        }
    }

    /// The entry at the path; None if nothing is there, and for every path outside the directory.
    /// It takes no memory.
    pub(crate) fn entry(&self, path: &Path) -> Option<&StartEntry>
        ensures { option_map (λ entry. entry.now) result ≡ map.get self.now.entries path.now }
    {
        match name_in(&self.directory, path) {
            None => None,
            Some(name) => self.by_name.get(name),
        }
    }

    /// Puts the entry under the name, and returns whether it replaced another.
    pub(crate) fn insert_named(
        &mut self,
        alloc: Global,
        name: &str,
        entry: StartEntry,
    ) -> Result<bool, AllocError>
        requires { IsLegalName name.now }
        ensures directory { self.new.directory ≡ self.old.directory }
        ensures replaced { IfOk result (λ replaced. replaced
            ≡ is_some (map.get self.old.entries (self.old.directory ++ name.now ∷ []))) }
        ensures state { OnOk result (self.new.entries
            ≡ map.insert self.old.entries (self.old.directory ++ name.now ∷ []) entry) }
    {
        let key = String::from_str(alloc, name)?;
        let before = self.by_name.insert(key, entry)?;
        Ok(before.is_some())
    }

    /// Puts the entry at the path, which must be in the directory, and returns whether it replaced
    /// another.
    pub(crate) fn insert(
        &mut self,
        alloc: Global,
        path: &Path,
        entry: StartEntry,
    ) -> Result<bool, AllocError>
        requires { IsIn self.old.directory path.now }
        ensures directory { self.new.directory ≡ self.old.directory }
        ensures replaced { IfOk result (λ replaced. replaced
            ≡ is_some (map.get self.old.entries path.now)) }
        ensures state { OnOk result (self.new.entries
            ≡ map.insert self.old.entries path.now entry) }
    {
        match name_in(&self.directory, path) {
            // By `requires`, the path is in the directory.
            None => unreachable!(),
            Some(name) => self.insert_named(alloc, name, entry),
        }
    }

    /// The first path, in the order of paths, that has an entry, copied; None if there are no
    /// entries.
    pub(crate) fn first(&self, alloc: Global) -> Result<Option<Path>, AllocError>
        ensures some { IfOk result (λ first.
            IfSome first (λ path. BeginsAt self.now.entries path)) }
        ensures none { IfOk result (λ first. IfNone first (self.now.entries ≡ map.empty)) }
    {
        match self.by_name.iter().next() {
            None => Ok(None),
            Some((name, _)) => Ok(Some(self.directory.child(alloc, name)?)),
        }
    }

    /// Moves the entries, each with its path, to the end of the list, in the order of paths.
    pub(crate) fn push_to(
        self,
        alloc: Global,
        list: &mut Vec<(Path, StartEntry)>,
    ) -> Result<(), AllocError>
        ensures { OnOk result (list.new.items ≡ list.old.items ++ map.entries self.entries) }
    {
        let Siblings { directory, by_name } = self;
        for (name, entry) in by_name {
            list.push((directory.child(alloc, &name)?, entry))?;
        }
        Ok(())
    }

    /// How many entries there are. No clause says so, since the number is only used to reserve
    /// memory.
    pub(crate) fn count(&self) -> usize {
        self.by_name.len()
    }

    /// Appends the record and the node of each entry to the lists of the start, in the order of
    /// paths.
    pub(crate) fn append_to(self, alloc: Global, lists: &mut StartLists) -> Result<(), AllocError>
        ensures records { OnOk result (lists.new.records
            ≡ with_records lists.old.records (map.entries self.entries)) }
        ensures nodes { OnOk result (lists.new.nodes.items
            ≡ with_nodes lists.old.nodes.items (map.entries self.entries)) }
        ensures places { OnOk result (lists.new.places.items
            ≡ with_places lists.old.places.items (length lists.old.records)
            (map.entries self.entries)) }
    {
        let Siblings { directory, by_name } = self;
        for (name, entry) in by_name {
            lists.append_child(alloc, directory.path(), name, entry)?;
        }
        Ok(())
    }
}
