//! Metadata and bytes of what an entry of a state holds. `parts` are those of the trace, and
//! `members` has for each micro-operation whether the state has it. In names, `owner` means owner,
//! group and permissions, as in `owner_steps`. A file may be a symbolic link.

ghost use Rattle.std.specs.Prelude.{◌≡◌, ◌≢◌, ◌+◌, ◌<◌, ◌≤◌, ◌^◌, [], true, Some, drop, length};
ghost use Rattle.std.specs.Prelude.{slice_get, take, IfErr, IfOk, IsErr, IsSomeAnd};
ghost use Rattle.std.specs.Option.{option_map};
ghost use Rattle.cs_tree_model.specs.Fresh.{fresh_record};
ghost use Rattle.cs_tree_model.specs.Record.{metadata_of_ref, metadata_of};
ghost use Rattle.cs_apm.specs.Slots.{IsKnown};
ghost use Rattle.cs_apm.specs.States.{kind_bit, visible};
ghost use Rattle.cs_state.specs.Parts.{AreMembers, AreParts, bytes_before, directory_in, file_in};
ghost use Rattle.cs_state.specs.Parts.{owner_in};
ghost use Rattle.cs_state.specs.Parts.{record_in, read_in, unchanged_metadata};
ghost use Rattle.cs_state.specs.Steps.{members_in};
ghost use Rattle.cs_state.specs.Windows.{IsPart};

use crate::bytes::{copy_piece, part_left, size_after_members};
use crate::file_steps::start_bytes;
use crate::owner_steps::{directory_after_members, owner_after_members};
use crate::parts::Parts;
use cs_entries::{FileKind, Node};
use cs_trace::Rights;
use cs_tree_model::{DMDIR, DMSYMLINK, Kind, Metadata};
use std::alloc::{AllocError, Global};

/// The bytes of the file before any change: those at the start, or those with which it is made
/// (`start_bytes`).
fn bytes_at_start<'a>(parts: &'a Parts, file: u32) -> &'a [u8]
    requires { AreParts parts.now }
    ensures { result.now ≡ bytes_before parts.now file }
{
    start_bytes(
        &parts.trace,
        parts.micros.ops(),
        &parts.tables,
        file as usize,
    )
}

/// The size in bytes, after the members, of a file that some micro-operation changes; `size` is its
/// size before any change.
fn changed_size(parts: &Parts, members: &[bool], file: u32, size: u64) -> u64
    requires parts { AreParts parts.now }
    requires known { file < length parts.now.tables.owners.items }
    requires changed { slice_get parts.now.tables.changed.items file ≡ Some true }
    requires set { AreMembers parts.now members.now }
    requires size { size ≡ length (bytes_before parts.now file) }
    ensures { result ≡ (file_in parts.now (members_in members.now) file).size }
{
    let size_changes = &parts.steps[file as usize].size_changes;
    size_after_members(
        file as usize,
        size,
        parts.micros.ops(),
        size_changes,
        members,
    )
}

/// The size of the file after the members, in bytes: the one before any change if no
/// micro-operation of the trace changes it.
fn file_size(parts: &Parts, members: &[bool], file: u32) -> u64
    requires parts { AreParts parts.now }
    requires known { file < length parts.now.tables.owners.items }
    requires set { AreMembers parts.now members.now }
    ensures { result ≡ (file_in parts.now (members_in members.now) file).size }
{
    let size = bytes_at_start(parts, file).len() as u64;
    if parts.tables.changed[file as usize] {
        changed_size(parts, members, file, size)
    } else {
        size
    }
}

/// `count` bytes, from the offset on, of a file that some micro-operation changes, as the members
/// leave it. It must be at least one byte, and all must be before the file's end. `start` has the
/// file's bytes before any change.
fn changed_part(
    alloc: Global,
    parts: &Parts,
    members: &[bool],
    file: u32,
    start: &[u8],
    offset: usize,
    count: usize,
) -> Result<Vec<u8>, AllocError>
    requires parts { AreParts parts.now }
    requires known { file < length parts.now.tables.owners.items }
    requires changed { slice_get parts.now.tables.changed.items file ≡ Some true }
    requires set { AreMembers parts.now members.now }
    requires start { start.now ≡ bytes_before parts.now file }
    requires some { 0 < count }
    requires few { offset + count < 2 ^ 64 }
    requires inside { offset + count ≤ (file_in parts.now (members_in members.now) file).size }
    ensures long { IfOk result (λ part. length part.items ≡ count) }
    ensures part { IfOk result
        (λ part. IsPart offset (file_in parts.now (members_in members.now) file) part.items) }
{
    let steps = &parts.steps[file as usize];
    let ops = parts.micros.ops();
    let part = part_left(alloc, start, ops, steps, members, offset, count)?;
    Ok(part)
}

/// At most `count` bytes, from the offset on, of a file that some micro-operation changes, as the
/// members leave it: fewer near its end, and none at its end or past it. `start` has the file's
/// bytes before any change. Memory can run out only if there is a byte to read.
fn changed_bytes(
    alloc: Global,
    parts: &Parts,
    members: &[bool],
    file: u32,
    start: &[u8],
    offset: u64,
    count: usize,
) -> Result<Vec<u8>, AllocError>
    requires parts { AreParts parts.now }
    requires known { file < length parts.now.tables.owners.items }
    requires changed { slice_get parts.now.tables.changed.items file ≡ Some true }
    requires set { AreMembers parts.now members.now }
    requires start { start.now ≡ bytes_before parts.now file }
    ensures value { IfOk result
        (λ bytes. bytes.items
        ≡ take count (drop offset (visible (file_in parts.now (members_in members.now) file)))) }
    ensures memory { IsErr result
        → take count (drop offset (visible (file_in parts.now (members_in members.now) file))) ≢
        [] }
{
    let size = changed_size(parts, members, file, start.len() as u64);
    if size <= offset || count == 0 {
        return Ok(Vec::new(alloc));
    }
    let count = count.min((size - offset) as usize);
    let offset = offset as usize;
    let bytes = changed_part(alloc, parts, members, file, start, offset, count)?;
    Ok(bytes)
}

/// At most `count` bytes of the file after the members, from the offset on: fewer near its end, and
/// none at its end or past it. Memory can run out only if there is a byte to read.
fn file_bytes(
    alloc: Global,
    parts: &Parts,
    members: &[bool],
    file: u32,
    offset: u64,
    count: usize,
) -> Result<Vec<u8>, AllocError>
    requires parts { AreParts parts.now }
    requires known { file < length parts.now.tables.owners.items }
    requires set { AreMembers parts.now members.now }
    ensures value { IfOk result
        (λ bytes. bytes.items
        ≡ take count (drop offset (visible (file_in parts.now (members_in members.now) file)))) }
    ensures memory { IsErr result
        → take count (drop offset (visible (file_in parts.now (members_in members.now) file))) ≢
        [] }
{
    let start = bytes_at_start(parts, file);
    if parts.tables.changed[file as usize] {
        changed_bytes(alloc, parts, members, file, start, offset, count)
    } else {
        copy_piece(alloc, start, offset, count)
    }
}

/// The owner, group and permissions of the directory, given by its number in the trace, after the
/// members.
fn directory_owner_of<'a>(parts: &'a Parts, members: &[bool], directory: u32) -> &'a Rights
    requires parts { AreParts parts.now }
    requires known { directory < length parts.now.tables.directories.items }
    requires set { AreMembers parts.now members.now }
    ensures { result.now ≡ directory_in parts.now (members_in members.now) directory }
{
    let made = &parts.tables.directories[directory as usize];
    let steps = parts.owner_steps.directory_row(directory);
    directory_after_members(directory, made, parts.micros.ops(), steps, members)
}

/// The owner, group and permissions of the file, given by its number in the trace, after the
/// members.
fn owner_of<'a>(parts: &'a Parts, members: &[bool], file: u32) -> &'a Rights
    requires parts { AreParts parts.now }
    requires known { file < length parts.now.tables.owners.items }
    requires set { AreMembers parts.now members.now }
    ensures { result.now ≡ owner_in parts.now (members_in members.now) file }
{
    let made = &parts.tables.owners[file as usize];
    let steps = parts.owner_steps.row(file);
    owner_after_members(file, made, parts.micros.ops(), steps, members)
}

/// The metadata of a record that no client has changed: version and times are 0, and the user who
/// changed it last (muid) is the owner. `bit` is DMDIR for a directory, DMSYMLINK for a symbolic
/// link, and 0 for another file. Of the permissions, the lowest nine bits count. (`record_with` of
/// cs_apm makes such a record.)
fn unchanged_metadata(number: u64, rights: &Rights, bit: u32, kind: Kind) -> Metadata<'_>
    requires { bit ≤ DMDIR }
    ensures { metadata_of_ref result ≡ unchanged_metadata number rights.now bit kind }
{
    Metadata {
        number,
        vers: 0,
        owner: &rights.owner,
        group: &rights.group,
        mode: bit + u32::from(rights.permissions % 512),
        atime: 0,
        mtime: 0,
        muid: &rights.owner,
        kind,
    }
}

/// The bit that a file of this kind has in its mode above the permissions: DMSYMLINK of 9P2000.u
/// for a symbolic link, 0 for a regular file. (`kind_bit` in `making` of cs_apm has the same body.)
fn kind_bit(kind: FileKind) -> u32
    ensures { result ≡ kind_bit kind }
{
    match kind {
        FileKind::Regular => 0,
        FileKind::Symlink => DMSYMLINK,
    }
}

/// The metadata, after the members, of the file, symbolic link or directory `node`. `number` is the
/// one that it has in the state's tree, not the node's. (`record_at` in `making` of cs_apm makes
/// the record with this metadata.)
pub fn metadata_of<'a>(parts: &'a Parts, members: &[bool], number: u64, node: Node) -> Metadata<'a>
    requires parts { AreParts parts.now }
    requires known { IsKnown (length parts.now.tables.directories.items)
        (length parts.now.tables.owners.items) (Some node) }
    requires set { AreMembers parts.now members.now }
    ensures { metadata_of_ref result
        ≡ metadata_of (fresh_record number (record_in parts.now (members_in members.now) node)) }
{
    match node {
        Node::Directory(directory) => {
            let owner = directory_owner_of(parts, members, directory);
            unchanged_metadata(number, owner, DMDIR, Kind::Directory)
        }
        Node::File(kind, file) => {
            let length = file_size(parts, members, file);
            let owner = owner_of(parts, members, file);
            unchanged_metadata(number, owner, kind_bit(kind), Kind::File { length })
        }
    }
}

/// At most `count` bytes, from the offset on, of the file `node` after the members: fewer near its
/// end, and none at its end or past it. None (not an empty list) for a directory. Memory can run
/// out only if there is a byte to read.
pub fn read_node(
    alloc: Global,
    parts: &Parts,
    members: &[bool],
    node: Node,
    offset: u64,
    count: usize,
) -> Result<Option<Vec<u8>>, AllocError>
    requires parts { AreParts parts.now }
    requires known { IsKnown (length parts.now.tables.directories.items)
        (length parts.now.tables.owners.items) (Some node) }
    requires set { AreMembers parts.now members.now }
    ensures value { IfOk result
        (λ bytes. option_map (λ v. v.items) bytes
        ≡ read_in parts.now (members_in members.now) node offset count) }
    ensures memory { IsErr result
        → IsSomeAnd (read_in parts.now (members_in members.now) node offset count)
        (λ bytes. bytes ≢ []) }
{
    match node {
        Node::File(_, file) => {
            let bytes = file_bytes(alloc, parts, members, file, offset, count)?;
            Ok(Some(bytes))
        }
        Node::Directory(_) => Ok(None),
    }
}
