//! The records of the start, in the order of their paths. An entry of the directory that was kept
//! apart has only its name here, since its whole path may be long.
ghost use Rattle.std.specs.Prelude.{◌≡◌, ◌∷◌, ◌++◌, ◌<◌, ◌↔◌, [], IfOk, IsTrue, OnOk, Some, length};
ghost use Rattle.std.specs.Prelude.{option_map, slice_get, string_bytes};
ghost use Rattle.cs_names.specs.Legal.{IsLegalName};
ghost use Rattle.cs_tree_model.specs.Record.{metadata_of, metadata_of_ref};
ghost use Rattle.cs_start.specs.Entries.{with_records};
ghost use Rattle.cs_start.specs.Starts.{IsLegalPath, record_at, whole_path};

use crate::entry::StartEntry;
use cs_names::Path;
use cs_tree_model::{Content, Metadata};
use std::alloc::{AllocError, Global};
use std::marker::Model;

/// The path of an entry, whole or by its last name.
#[derive(Debug, Drop)]
pub(crate) enum StartPath {
    /// The whole path.
    Whole(Path),
    /// The path of that name in the directory of the `Start`.
    Child(String),
}

/// The files, symbolic links and directories at the start, in the order of their paths. Contracts
/// see the list of the paths, each with its record; the records are numbered by their places, from
/// 0. It never changes once the start is read.
#[derive(Debug, Drop)]
pub struct Start {
    /// The directory of the entries that have only a name.
    directory: Path,
    /// Each entry with its path. The place of a record is its index.
    entries: Vec<(StartPath, StartEntry)>,
}

impl Model for Start {
    ghost use Rattle.std.specs.Prelude.{List, ℕ};
    ghost use Rattle.cs_tree_model.specs.declared.record.Record.{Record};
    ghost use Rattle.cs_start.specs.Starts as model;

    ghost Value = { List (List (List ℕ) × Record) };

    ghost view = { λ start. model.start_records start.directory start.entries.items };

    ghost invariant = { λ start. model.AreLegalEntries start.entries.items };
}

/// Whether the path is that of the name in the directory.
fn is_child(path: &Path, directory: &Path, name: &str) -> bool
    ensures { IsTrue result ↔ (path.now ≡ directory.now ++ name.now ∷ []) }
{
    match path.names().split_last() {
        None => false,
        Some((above, last)) => last == name && above == directory.names(),
    }
}

/// Whether a path is equal to another, which may be kept by its name in `directory`.
fn is_path(path: &Path, directory: &Path, other: &StartPath) -> bool
    ensures { IsTrue result ↔ (path.now ≡ whole_path directory.now other.now) }
{
    match other {
        StartPath::Whole(whole) => path == whole,
        StartPath::Child(name) => is_child(path, directory, name),
    }
}

/// Whether the path of a name in one directory is equal to that of a name in another.
fn are_same_children(directory: &Path, name: &str, other: &Path, other_name: &str) -> bool
    ensures { IsTrue result
        ↔ (directory.now ++ name.now ∷ [] ≡ other.now ++ other_name.now ∷ []) }
{
    name == other_name && directory == other
}

/// Whether two paths of two starts, each of which may be kept by its name in the directory of its
/// start, are equal.
fn are_same_paths(directory: &Path, path: &StartPath, other: &Path, other_path: &StartPath) -> bool
    ensures { IsTrue result
        ↔ (whole_path directory.now path.now ≡ whole_path other.now other_path.now) }
{
    match (path, other_path) {
        (StartPath::Whole(whole), _) => is_path(whole, other, other_path),
        (StartPath::Child(_), StartPath::Whole(whole)) => is_path(whole, directory, path),
        (StartPath::Child(name), StartPath::Child(other_name)) => {
            are_same_children(directory, name, other, other_name)
        }
    }
}

/// The path of the name in `directory`: kept by its name if that is `own`, the directory of the
/// start; whole if not.
fn child_path(
    alloc: Global,
    own: &Path,
    directory: &Path,
    name: String,
) -> Result<StartPath, AllocError>
    requires { IsLegalName (string_bytes name) }
    ensures value { IfOk result (λ path.
        whole_path own.now path ≡ directory.now ++ string_bytes name ∷ []) }
    ensures legal { IfOk result (λ path. IsLegalPath path) }
{
    if own == directory {
        return Ok(StartPath::Child(name));
    }
    Ok(StartPath::Whole(directory.child(alloc, &name)?))
}

impl Start {
    /// A start without entries yet, with memory for `count`. Entries in the directory, if they are
    /// appended by `push_child`, will have only their names.
    pub(crate) fn with_capacity(
        alloc: Global,
        directory: Path,
        count: usize,
    ) -> Result<Start, AllocError>
        ensures { IfOk result (λ start. start ≡ []) }
    {
        Ok(Start {
            directory,
            entries: Vec::with_capacity(alloc, count)?,
        })
    }

    /// Appends the entry at the path; its record has the next number. After an error the start is
    /// as it was, and the entry is dropped.
    pub(crate) fn push(&mut self, path: Path, entry: StartEntry) -> Result<(), AllocError>
        ensures { OnOk result (self.new ≡ with_records self.old ((path, entry) ∷ [])) }
    {
        self.entries.push((StartPath::Whole(path), entry))?;
        Ok(())
    }

    /// Appends the entry with the name in the directory; its record has the next number. After an
    /// error the start is as it was, and the entry is dropped.
    pub(crate) fn push_child(
        &mut self,
        alloc: Global,
        directory: &Path,
        name: String,
        entry: StartEntry,
    ) -> Result<(), AllocError>
        requires { IsLegalName (string_bytes name) }
        ensures { OnOk result (self.new ≡ with_records self.old
            ((directory.now ++ string_bytes name ∷ [], entry) ∷ [])) }
    {
        let path = child_path(alloc, &self.directory, directory, name)?;
        self.entries.push((path, entry))?;
        Ok(())
    }

    /// How many records there are: a file with several paths has one for each.
    pub fn len(&self) -> usize
        ensures { result ≡ length self.now }
    {
        self.entries.len()
    }

    /// The path and the entry at this place. The directory, in front of both, is that of paths that
    /// are kept by name.
    fn entry(&self, place: usize) -> (&Path, &StartPath, &StartEntry)
        requires { place < length self.now }
        ensures value { slice_get self.now place
            ≡ Some (record_at place result.0.now result.1.now result.2.now) }
        ensures legal { IsLegalPath result.1.now }
    {
        let (path, entry) = &self.entries[place];
        (&self.directory, path, entry)
    }

    /// A copy of the path of the record at this place.
    pub fn path_of(&self, alloc: Global, place: usize) -> Result<Path, AllocError>
        requires { place < length self.now }
        ensures { IfOk result (λ path.
            option_map (λ e. e.0) (slice_get self.now place) ≡ Some path) }
    {
        let (directory, path, _) = self.entry(place);
        match path {
            StartPath::Whole(path) => path.try_clone(alloc),
            StartPath::Child(name) => directory.child(alloc, name),
        }
    }

    /// The metadata of the record at this place, whose number is the place. No client has changed
    /// it: its version and times are 0, and the user who changed it last (muid) is its owner.
    pub fn metadata(&self, place: usize) -> Metadata<'_>
        requires { place < length self.now }
        ensures { option_map (λ e. metadata_of e.1) (slice_get self.now place)
            ≡ Some (metadata_of_ref result) }
    {
        let (_, _, entry) = self.entry(place);
        entry.metadata(place as u64)
    }

    /// The content of the record at this place, borrowed; a directory has none.
    pub fn content(&self, place: usize) -> &Content
        requires { place < length self.now }
        ensures { option_map (λ e. e.1.content) (slice_get self.now place) ≡ Some result.now }
    {
        let (_, _, entry) = self.entry(place);
        entry.content.get()
    }

    /// Whether the path of the record at this place is that of the record at `other_place` of the
    /// other start. It takes no memory.
    pub fn is_same_path(&self, place: usize, other: &Start, other_place: usize) -> bool
        requires first { place < length self.now }
        requires second { other_place < length other.now }
        ensures { IsTrue result ↔ (option_map (λ e. e.0) (slice_get self.now place)
            ≡ option_map (λ e. e.0) (slice_get other.now other_place)) }
    {
        let (directory, path, _) = self.entry(place);
        let (other_directory, other_path, _) = other.entry(other_place);
        are_same_paths(directory, path, other_directory, other_path)
    }

    /// Whether both have equal paths and records at this place. It takes no memory.
    fn is_same_at(&self, other: &Start, place: usize) -> bool
        requires first { place < length self.now }
        requires second { place < length other.now }
        ensures { IsTrue result ↔ (slice_get self.now place ≡ slice_get other.now place) }
    {
        let (directory, path, entry) = self.entry(place);
        let (other_directory, other_path, other_entry) = other.entry(place);
        entry.has_same_record(other_entry)
            && are_same_paths(directory, path, other_directory, other_path)
    }

    /// Whether both starts have the same paths with equal records, in the same order. It takes no
    /// memory.
    pub fn is_same_start(&self, other: &Start) -> bool
        ensures { IsTrue result ↔ (self.now ≡ other.now) }
    {
        if self.len() != other.len() {
            return false;
        }
        for place in 0..self.len() {
            if !self.is_same_at(other, place) {
                return false;
            }
        }
        true
    }
}
