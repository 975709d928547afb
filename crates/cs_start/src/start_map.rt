//! The files, symbolic links and directories at the start, by their paths. After an error, entries
//! may be missing, or only some of them appended to the lists of the start; the caller drops both.
ghost use Rattle.std.specs.Prelude.{◌≡◌, IfOk, OnOk, length, replicate};
ghost use Rattle.std.specs.FinMap as map;
ghost use Rattle.std.specs.Option.{is_some, option_map};
ghost use Rattle.cs_start.specs.Entries.{nodes_in, records_in, with_nodes, with_records};
ghost use Rattle.cs_start.specs.Owned.{with_places};

use crate::by_path::{append_both, append_map, has_below, insert_in_map, put_back};
use crate::entry::StartEntry;
use crate::last_directory::LastDirectory;
use crate::path_text::PathText;
use crate::siblings::Siblings;
use crate::start_lists::StartLists;
use cs_names::Path;
use std::alloc::{AllocError, Global};
use std::collections::BTreeMap;
use std::marker::Model;

/// What is at each path at the start. The entries of one directory may be kept apart, by name:
/// start lines come directory by directory, and names are faster to compare than long paths.
/// Contracts see a finite map, in the order of paths, whether or not some are kept apart.
#[derive(Drop)]
pub struct StartMap {
    /// All entries, but for those that are kept apart.
    by_path: BTreeMap<Path, StartEntry>,
    /// The entries of one directory, if they are kept apart. Then no entry in `by_path` is in that
    /// directory, but some may be further down.
    siblings: Option<Siblings>,
}

impl Model for StartMap {
    ghost use Rattle.std.specs.FinMap as map;
    ghost use Rattle.cs_tree_model.specs.Tree.{path_cmp};
    ghost use Rattle.cs_start.specs.Entries as model;
    ghost use Rattle.cs_start.specs.Siblings.{AreApart, with_siblings};

    ghost Value = { model.StartEntries };

    ghost coded = { model.entries_code };

    ghost view = { λ entries.
        with_siblings entries.siblings (map.from_entries entries.by_path.entries) };

    ghost invariant = { λ entries.
        AreApart entries.siblings (map.from_entries {R = path_cmp} entries.by_path.entries) };
}

impl StartMap {
    /// An empty map: even the root has no entry, and no directory is kept apart.
    pub fn new(alloc: Global) -> StartMap
        ensures { result ≡ map.empty }
    {
        StartMap {
            by_path: BTreeMap::new(alloc),
            siblings: None,
        }
    }

    /// The entry at the path; None if nothing is there. It takes no memory. A path in the directory
    /// that is kept apart is looked up only in `siblings`; `insert` chooses in the same way.
    pub fn entry(&self, path: &Path) -> Option<&StartEntry>
        ensures { option_map (λ entry. entry.now) result ≡ map.get self.now path.now }
    {
        match &self.siblings {
            None => self.by_path.get(path),
            Some(siblings) => {
                if siblings.is_in_directory(path) {
                    siblings.entry(path)
                } else {
                    self.by_path.get(path)
                }
            }
        }
    }

    /// Puts the entries that were kept apart back among the others. Then, if nothing is below the
    /// directory yet, its entries are kept apart from now on, which makes it faster to insert many;
    /// if something is, none are kept apart. What the map has stays the same. After an error, those
    /// that were kept apart may be lost.
    pub fn keep_apart(&mut self, alloc: Global, directory: &LastDirectory) -> Result<(), AllocError>
        ensures { OnOk result (self.new ≡ self.old) }
    {
        let siblings = self.siblings.take();
        put_back(alloc, &mut self.by_path, siblings)?;
        if has_below(&self.by_path, directory.path()) {
            return Ok(());
        }
        self.siblings = Some(Siblings::new(alloc, directory.try_clone(alloc)?));
        Ok(())
    }

    /// Puts the entry at the path. Returns whether it replaced another.
    pub fn insert(
        &mut self,
        alloc: Global,
        path: Path,
        entry: StartEntry,
    ) -> Result<bool, AllocError>
        ensures replaced { IfOk result (λ replaced. replaced ≡ is_some (map.get self.old path)) }
        ensures state { OnOk result (self.new ≡ map.insert self.old path entry) }
    {
        match &mut self.siblings {
            None => insert_in_map(&mut self.by_path, path, entry),
            Some(siblings) => {
                if siblings.is_in_directory(&path) {
                    siblings.insert(alloc, &path, entry)
                } else {
                    insert_in_map(&mut self.by_path, path, entry)
                }
            }
        }
    }

    /// As `insert`, for the path that the text spells. If the text is that of the directory that is
    /// kept apart, a `/` and a legal name (`Siblings::name_in_text`), only that name is copied.
    pub fn insert_spelled(
        &mut self,
        alloc: Global,
        path: &PathText<'_>,
        entry: StartEntry,
    ) -> Result<bool, AllocError>
        ensures replaced { IfOk result (λ replaced. replaced
            ≡ is_some (map.get self.old path.now)) }
        ensures state { OnOk result (self.new ≡ map.insert self.old path.now entry) }
    {
        if let Some(siblings) = &mut self.siblings {
            if let Some(name) = siblings.name_in_text(path.text()) {
                return siblings.insert_named(alloc, name, entry);
            }
        }
        let whole = path.to_path(alloc)?;
        self.insert(alloc, whole, entry)
    }

    /// How many entries there are. No clause says so, since the number is only used to reserve
    /// memory. The sum can't overflow, since all entries are in memory; `saturating_add` spares the
    /// proof.
    fn count(&self) -> usize {
        match &self.siblings {
            None => self.by_path.len(),
            Some(siblings) => self.by_path.len().saturating_add(siblings.count()),
        }
    }

    /// The directory whose entries are kept apart; the root if none are. No clause says so, since
    /// `Start` only chooses by it which paths to keep by name.
    fn named_directory(&self, alloc: Global) -> Result<Path, AllocError> {
        match &self.siblings {
            None => Ok(Path::root(alloc)),
            Some(siblings) => siblings.directory().try_clone(alloc),
        }
    }

    /// Appends all entries to the lists, in the order of paths, whether or not some of them are
    /// kept apart.
    fn append_to(self, alloc: Global, lists: &mut StartLists) -> Result<(), AllocError>
        ensures records { OnOk result (lists.new.records
            ≡ with_records lists.old.records (map.entries self)) }
        ensures nodes { OnOk result (lists.new.nodes.items
            ≡ with_nodes lists.old.nodes.items (map.entries self)) }
        ensures places { OnOk result (lists.new.places.items ≡ with_places
            lists.old.places.items (length lists.old.records) (map.entries self)) }
    {
        let StartMap { by_path, siblings } = self;
        match siblings {
            None => append_map(by_path, lists),
            Some(siblings) => append_both(alloc, by_path, siblings, lists),
        }
    }

    /// The lists of the start: a record of each entry, in the order of their paths and numbered
    /// from 0; in the same order the node of each; and for each of the first `files` files and
    /// symbolic links, the place of its record. After an error the map is dropped.
    pub fn into_lists(self, alloc: Global, files: usize) -> Result<StartLists, AllocError>
        ensures records { IfOk result (λ lists. lists.records ≡ records_in self) }
        ensures nodes { IfOk result (λ lists. lists.nodes.items ≡ nodes_in self) }
        ensures places { IfOk result (λ lists. lists.places.items
            ≡ with_places (replicate files 0) 0 (map.entries self)) }
    {
        let directory = self.named_directory(alloc)?;
        let mut lists = StartLists::with_capacity(alloc, directory, self.count(), files)?;
        self.append_to(alloc, &mut lists)?;
        Ok(lists)
    }
}
