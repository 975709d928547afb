//! The state after the lines of a trace that were read so far, and what an operation changes in it.
//! An error means out of memory; then the state is dropped, so no clause says what is left of it.
//! What the header and the start lines change is in `start`.
ghost use Rattle.std.specs.Prelude.{◌≡◌, ◌<◌, ◌≤◌, ◌+◌, ◌^◌, OnOk, length, slice_set};
ghost use Rattle.cs_names.specs.declared.limits.TheConstants.{TREE_RECORDS};
ghost use Rattle.cs_trace.specs.Attributes.{attributes_after, kept_in};
ghost use Rattle.cs_trace.specs.Kept.{IsWithin, attributes_of, state_of};
ghost use Rattle.cs_trace.specs.Operations.{made_by, sizes_after, written_size};
ghost use Rattle.cs_trace.specs.State.{empty_state};
ghost use Rattle.cs_trace.specs.States.{after_operation};

use crate::attributes::Attributes;
use crate::homes::Homes;
use crate::moves::{change_entries, change_homes};
use crate::operation::Operation;
use crate::tree::Tree;
use cs_names::{Bytes, Path};
use cs_start::{Rights, Shared, StartMap};
use cs_trace_lines::Version;
use std::alloc::{AllocError, Global};

/// The state after the lines that were read so far. Files here are symbolic links, too.
#[derive(Drop)]
pub(crate) struct LinesSoFar {
    /// The version of the header; the first version until there is a header.
    pub(crate) version: Version,
    /// What was at each path at the start.
    pub(crate) start: StartMap,
    /// How many files and symbolic links there are at the start. Their paths are only in `start`.
    pub(crate) file_count: usize,
    /// The further paths of files at the start, in the order of their lines, each with the file's
    /// number.
    pub(crate) links: Vec<(Path, u32)>,
    /// What each entry holds now.
    pub(crate) tree: Tree,
    /// The size of each file in bytes, by its number, also if it was removed; of a symbolic link,
    /// of its target.
    pub(crate) sizes: Vec<u64>,
    /// The entries at which directories were made, by the directories' numbers.
    pub(crate) homes: Homes,
    /// How many records were ever made, the root's and removed ones too; 0 before the header. At
    /// most TREE_RECORDS.
    pub(crate) made: usize,
    /// The rights of the last line that has rights; the next such line shares them if they are
    /// equal. Only to save memory.
    pub(crate) last_rights: Option<Shared<Rights>>,
    /// Owner, group and permissions of each file and directory now. Empty in version 1, which has
    /// no chmod and chown.
    pub(crate) attributes: Attributes,
    /// The operations, in the order of their lines.
    pub(crate) operations: Vec<Operation>,
}

/// The size of a file that had `size` bytes, after a write of these bytes at the offset. A write
/// never makes a file shorter, and a write of no byte leaves the size as it is at any offset.
fn written_size(size: u64, offset: u64, bytes: &Bytes) -> u64
    requires { 0 < length bytes.now → offset + length bytes.now < 2 ^ 64 }
    ensures { result ≡ written_size size offset bytes.now }
{
    let count = bytes.as_slice().len() as u64;
    if count == 0 {
        return size;
    }
    size.max(offset + count)
}

/// Sets the size of the file with this number. If there is no such file, nothing changes; an
/// operation that was checked never names one. (`set_rights` of `attributes` does the same to
/// rights.)
fn set_size(sizes: &mut [u64], file: u32, size: u64)
    ensures { sizes.new ≡ slice_set sizes.old file size }
{
    let place = file as usize;
    if place < sizes.len() {
        sizes[place] = size;
    }
}

/// Applies the operation to the sizes of the files: a creat adds a size of 0 and a symlink that of
/// its target, a write and a truncate set the size of their file, and the others change nothing.
fn change_sizes(sizes: &mut Vec<u64>, operation: &Operation) -> Result<(), AllocError>
    requires { IsWithin operation.now }
    ensures { OnOk result (sizes.new.items ≡ sizes_after sizes.old.items operation.now) }
{
    match operation {
        Operation::Creat { .. } => sizes.push(0)?,
        Operation::Symlink { target, .. } => sizes.push(target.as_slice().len() as u64)?,
        Operation::Write {
            file,
            size,
            offset,
            bytes,
        } => set_size(sizes, *file, written_size(*size, *offset, bytes)),
        Operation::Truncate { file, length, .. } => set_size(sizes, *file, *length),
        Operation::Mkdir { .. }
        | Operation::Link { .. }
        | Operation::Unlink { .. }
        | Operation::Rmdir { .. }
        | Operation::Rename { .. }
        | Operation::SetAttr { .. }
        | Operation::Sync(_)
        | Operation::Say => {}
    }
    Ok(())
}

/// Applies the operation to the attributes (`Attributes::change`); in version 1, which keeps none,
/// nothing changes. `last` are the rights that a line may share, as in `LinesSoFar::last_rights`.
fn change_attributes(
    alloc: Global,
    version: Version,
    attributes: &mut Attributes,
    last: &mut Option<Shared<Rights>>,
    operation: &Operation,
) -> Result<(), AllocError>
    ensures { OnOk result (attributes_of attributes.new
        ≡ kept_in version (attributes_of attributes.old)
        (attributes_after (attributes_of attributes.old) operation.now)) }
{
    match version {
        // Version 1 has no operation that changes attributes.
        Version::First => Ok(()),
        Version::Second(_) | Version::Third(..) | Version::Fourth(..) => {
            attributes.change(alloc, last, operation)
        }
    }
}

/// How many records the operation counts for, of the TREE_RECORDS that a trace may make: 1 for a
/// creat, a mkdir, a symlink and a link; in version 4 also for a rename into another directory,
/// which may reach the disk as a link and an unlink; and 0 for the others.
fn made_by(version: Version, operation: &Operation) -> usize
    ensures value { result ≡ made_by version operation.now }
    ensures one { result ≤ 1 }
{
    match operation {
        Operation::Creat { .. }
        | Operation::Mkdir { .. }
        | Operation::Symlink { .. }
        | Operation::Link { .. } => 1,
        Operation::Rename { from, to, .. } => {
            if version.is_fourth() && from.directory != to.directory {
                return 1;
            }
            0
        }
        Operation::Unlink { .. }
        | Operation::Rmdir { .. }
        | Operation::Write { .. }
        | Operation::Truncate { .. }
        | Operation::SetAttr { .. }
        | Operation::Sync(_)
        | Operation::Say => 0,
    }
}

impl LinesSoFar {
    /// The state before the first line: nothing is there, not even the root.
    pub(crate) fn new(alloc: Global) -> LinesSoFar
        ensures { state_of result ≡ empty_state }
    {
        LinesSoFar {
            version: Version::First,
            start: StartMap::new(alloc),
            file_count: 0,
            links: Vec::new(alloc),
            tree: Tree::new(alloc),
            sizes: Vec::new(alloc),
            homes: Homes::new(alloc),
            made: 0,
            last_rights: None,
            attributes: Attributes::new(alloc),
            operations: Vec::new(alloc),
        }
    }

    /// Applies the operation, which `resolve` returned for this state, to each part of the state,
    /// and appends it to the operations. If memory runs out, parts may be changed: the caller drops
    /// the state.
    pub(crate) fn apply(&mut self, alloc: Global, operation: Operation) -> Result<(), AllocError>
        requires within { IsWithin operation }
        requires few { self.old.made ≤ TREE_RECORDS }
        requires housed { length self.old.homes ≤ self.old.made }
        ensures { OnOk result (state_of self.new ≡ after_operation (state_of self.old) operation) }
    {
        change_entries(alloc, &mut self.tree, &operation)?;
        change_sizes(&mut self.sizes, &operation)?;
        change_homes(alloc, &mut self.homes, &operation)?;
        self.made += made_by(self.version, &operation);
        change_attributes(
            alloc,
            self.version,
            &mut self.attributes,
            &mut self.last_rights,
            &operation,
        )?;
        self.operations.push(operation)?;
        Ok(())
    }
}
