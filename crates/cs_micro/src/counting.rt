//! How many micro-operations operations break into, counted before the first is made, so that
//! TooMany takes no memory. Here `size` is the size of a file before the operation, in bytes.
//! Nothing here allocates.
ghost use Rattle.std.specs.Prelude.{◌≡◌, ◌+◌, ◌<◌, ◌≤◌, ◌↔◌, length, IsTrue, List, Option, ℕ};
ghost use Rattle.std.specs.List.{All};
ghost use Rattle.cs_entries.specs.declared.node.Node.{Node};
ghost use Rattle.cs_trace.specs.Limits.{most_bytes};
ghost use Rattle.cs_trace_lines.specs.Versions.{block_bytes};
ghost use Rattle.cs_micro.specs.Blocks.{block_writes};
ghost use Rattle.cs_micro.specs.MicroOperations.{IsWithinLimit, comes_in_halves, growth_micros};
ghost use Rattle.cs_micro.specs.MicroOperations.{micro_operations_of, micros_of, rename_micros};
ghost use Rattle.cs_micro.specs.MicroOperations.{same_rights, truncate_micros, write_micros};
ghost use Rattle.cs_micro.specs.MicroOperations.{zero_micros};

use crate::blocks::block_of;
use crate::pages::{count_zeros, grows_past_page};
use cs_entries::{DirEntry, Node};
use cs_names::limits::MICRO_OPERATIONS;
use cs_trace::{BlockSize, LARGE_FILE_BYTES, Operation, Profile, Rights, Version};

/// How many blocks `count` bytes from the offset on touch. There must be at least one byte.
fn count_of_blocks(block_size: BlockSize, offset: u64, count: usize) -> usize
    requires some { 0 < count }
    requires end { offset + count ≤ LARGE_FILE_BYTES }
    ensures value { (file : ℕ) (bytes : List ℕ) → length bytes ≡ count
        → result ≡ length (block_writes (block_bytes block_size) file offset bytes) }
    ensures few { result ≤ LARGE_FILE_BYTES }
{
    let last = offset + count as u64 - 1;
    (block_of(block_size, last) + 1 - block_of(block_size, offset)) as usize
}

/// How many changes of size a write becomes that ends at `end`: none if the file doesn't grow; two
/// if, in version 4, it grows past the end of a last page that is partly used; else one.
fn count_of_growth(version: Version, size: u64, end: u64) -> usize
    requires { end ≤ LARGE_FILE_BYTES }
    ensures value { (file : ℕ) → result ≡ length (growth_micros version file size end) }
    ensures few { result ≤ 2 }
{
    if size >= end {
        return 0;
    }
    if version.is_fourth() && grows_past_page(size, end) {
        return 2;
    }
    1
}

/// How many micro-operations `push_write` appends for a write: its changes of size, and one for
/// each block that it touches; none if it has no bytes.
fn count_of_write(version: Version, size: u64, offset: u64, bytes: &[u8]) -> usize
    requires { 0 < length bytes.now → offset + length bytes.now ≤ most_bytes version }
    ensures { (file : ℕ) → result ≡ length (write_micros version file size offset bytes.now) }
{
    if bytes.is_empty() {
        return 0;
    }
    let end = offset + bytes.len() as u64;
    let changes = count_of_growth(version, size, end);
    changes + count_of_blocks(version.block_size(), offset, bytes.len())
}

/// How many micro-operations `push_zeros` appends: one for each block into which zeros are written
/// before a file is cut to `to`; none before version 4.
fn count_of_zeros(version: Version, size: u64, to: u64) -> usize
    requires { to ≤ LARGE_FILE_BYTES }
    ensures value { (file : ℕ) → result ≡ length (zero_micros version file size to) }
    ensures few { result ≤ LARGE_FILE_BYTES }
{
    if !version.is_fourth() {
        return 0;
    }
    let count = count_zeros(size, to);
    if count == 0 {
        return 0;
    }
    count_of_blocks(version.block_size(), to, count)
}

/// How many micro-operations `push_truncate` appends: those of the zeros and one change of size;
/// none if the size stays.
fn count_of_truncate(version: Version, size: u64, to: u64) -> usize
    requires { to ≤ most_bytes version }
    ensures { (file : ℕ) → result ≡ length (truncate_micros version file size to) }
{
    if size == to {
        return 0;
    }
    count_of_zeros(version, size, to) + 1
}

/// Whether a rename of a file or a symbolic link has two halves, which reach the disk one by one:
/// in version 4 with the profile `blocks`, into another directory. A directory's never has.
pub fn comes_in_halves(version: Version, from: &DirEntry, to: &DirEntry) -> bool
    ensures { result ≡ comes_in_halves version from.now to.now }
{
    version.is_fourth() && version.profile() == Profile::Blocks && from.directory != to.directory
}

/// How many micro-operations `push_rename` appends: two for a rename in halves, one for any other,
/// and none for a rename of an entry to itself.
fn count_of_rename(version: Version, from: &DirEntry, to: &DirEntry, node: Node) -> usize
    ensures { (replaced : Option Node)
        → result ≡ length (rename_micros version from.now to.now node replaced) }
{
    if from.is_same_entry(to) {
        return 0;
    }
    match node {
        Node::Directory(_) => 1,
        Node::File(..) => 1 + usize::from(comes_in_halves(version, from, to)),
    }
}

/// Whether a chmod or a chown from the rights `before` to those `after` changes nothing: owner,
/// group and permissions are the same.
pub fn is_no_change(before: &Rights, after: &Rights) -> bool
    ensures { result ≡ same_rights before.now after.now }
{
    before == after
}

/// How many micro-operations an operation breaks into, as `push_micros` appends them: 0 for a sync,
/// a write of no bytes, a rename of an entry to itself, and a truncate or a change of rights that
/// changes nothing. Each operation of a trace that was read is within the limit that this requires.
pub fn micro_count(version: Version, operation: &Operation) -> usize
    requires { IsWithinLimit version operation.now }
    ensures { result ≡ length (micros_of version operation.now) }
{
    match operation {
        Operation::Creat { .. }
        | Operation::Mkdir { .. }
        | Operation::Symlink { .. }
        | Operation::Unlink { .. }
        | Operation::Rmdir { .. }
        | Operation::Link { .. }
        | Operation::Say => 1,
        Operation::Rename { from, to, node, .. } => count_of_rename(version, from, to, *node),
        Operation::Write {
            size,
            offset,
            bytes,
            ..
        } => count_of_write(version, *size, *offset, bytes.as_slice()),
        Operation::Truncate { size, length, .. } => count_of_truncate(version, *size, *length),
        Operation::SetAttr { before, after, .. } => usize::from(!is_no_change(before, after)),
        Operation::Sync(_) => 0,
    }
}

/// Whether the operations break into at most MICRO_OPERATIONS micro-operations, all together.
pub fn has_room(version: Version, operations: &[Operation]) -> bool
    requires { All (IsWithinLimit version) operations.now }
    ensures { IsTrue result
        ↔ (length (micro_operations_of version operations.now) ≤ MICRO_OPERATIONS) }
{
    let mut total = 0;
    for operation in operations {
        let count = micro_count(version, operation);
        if count > MICRO_OPERATIONS - total {
            return false;
        }
        total += count;
    }
    true
}
