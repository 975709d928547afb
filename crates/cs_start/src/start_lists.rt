//! The lists of the start: the records, their nodes, and the places of the files' records. The
//! callers append entries in the order of paths.
ghost use Rattle.std.specs.Prelude.{◌≡◌, ◌∷◌, ◌++◌, [], IfOk, OnOk, length, replicate, slice_set};
ghost use Rattle.std.specs.Prelude.{string_bytes};
ghost use Rattle.cs_names.specs.Legal.{IsLegalName};
ghost use Rattle.cs_start.specs.Entries.{with_nodes, with_records};
ghost use Rattle.cs_start.specs.Owned.{with_place};

use crate::entry::StartEntry;
use crate::start_records::Start;
use cs_entries::Node;
use cs_names::Path;
use std::alloc::{AllocError, Global};

/// The lists of the entries that were appended so far.
#[derive(Drop)]
pub struct StartLists {
    /// Their records, with their paths.
    pub records: Start,
    /// The node of each record, in the same order: a directory, a file or a symbolic link by its
    /// number.
    pub nodes: Vec<Node>,
    /// For each file and symbolic link, by its number, the place of the record at the path that its
    /// own start line has; 0 until that entry is appended.
    pub places: Vec<usize>,
}

impl StartLists {
    /// Empty lists, with memory for `count` entries, of a start with `files` files and symbolic
    /// links. Entries in the directory, if they are appended by `append_child`, will have only
    /// their names.
    pub fn with_capacity(
        alloc: Global,
        directory: Path,
        count: usize,
        files: usize,
    ) -> Result<StartLists, AllocError>
        ensures records { IfOk result (λ lists. lists.records ≡ []) }
        ensures nodes { IfOk result (λ lists. lists.nodes.items ≡ []) }
        ensures places { IfOk result (λ lists. lists.places.items ≡ replicate files 0) }
    {
        Ok(StartLists {
            records: Start::with_capacity(alloc, directory, count)?,
            nodes: Vec::with_capacity(alloc, count)?,
            places: vec![in alloc; 0usize; files]?,
        })
    }

    /// Appends the entry at the path: its record, which has the next number, and its node. If it is
    /// the file's own path (`own`), the place of the record is kept. After an error the place and
    /// the node may be kept without the record; the caller drops the lists.
    pub fn append(&mut self, path: Path, entry: StartEntry) -> Result<(), AllocError>
        ensures records { OnOk result
            (self.new.records ≡ with_records self.old.records ((path, entry) ∷ [])) }
        ensures nodes { OnOk result
            (self.new.nodes.items ≡ with_nodes self.old.nodes.items ((path, entry) ∷ [])) }
        ensures places { OnOk result (self.new.places.items
            ≡ with_place self.old.places.items (length self.old.records) entry) }
    {
        self.keep_place(&entry);
        self.nodes.push(entry.node)?;
        self.records.push(path, entry)
    }

    /// Appends the entry with the name in the directory, as `append` does.
    pub fn append_child(
        &mut self,
        alloc: Global,
        directory: &Path,
        name: String,
        entry: StartEntry,
    ) -> Result<(), AllocError>
        requires { IsLegalName (string_bytes name) }
        ensures records { OnOk result (self.new.records ≡ with_records self.old.records
            ((directory.now ++ string_bytes name ∷ [], entry) ∷ [])) }
        ensures nodes { OnOk result (self.new.nodes.items ≡ with_nodes self.old.nodes.items
            ((directory.now ++ string_bytes name ∷ [], entry) ∷ [])) }
        ensures places { OnOk result (self.new.places.items
            ≡ with_place self.old.places.items (length self.old.records) entry) }
    {
        self.keep_place(&entry);
        self.nodes.push(entry.node)?;
        self.records.push_child(alloc, directory, name, entry)
    }

    /// Keeps the place of the next record for the file with this number. If there is no such file,
    /// nothing changes.
    fn set_place(&mut self, file: u32)
        ensures records { self.new.records ≡ self.old.records }
        ensures nodes { self.new.nodes.items ≡ self.old.nodes.items }
        ensures places { self.new.places.items
            ≡ slice_set self.old.places.items file (length self.old.records) }
    {
        let next = self.records.len();
        let file = file as usize;
        if file < self.places.len() {
            self.places[file] = next;
        }
    }

    /// Keeps the place of the next record, which is that of the entry, if `own` is true of the
    /// entry: for the number in its node. (It never is for a directory.)
    fn keep_place(&mut self, entry: &StartEntry)
        ensures records { self.new.records ≡ self.old.records }
        ensures nodes { self.new.nodes.items ≡ self.old.nodes.items }
        ensures places { self.new.places.items
            ≡ with_place self.old.places.items (length self.old.records) entry.now }
    {
        if !entry.own {
            return;
        }
        match entry.node {
            Node::Directory(number) => self.set_place(number),
            Node::File(_, file) => self.set_place(file),
        }
    }
}
