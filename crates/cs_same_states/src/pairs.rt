//! Whether two sets of micro-operations leave a file, or the owner, group and permissions of a
//! directory, the same. If an answer is true, they do; if it is false, they may, too.
ghost use Rattle.std.specs.Prelude.{◌≡◌, ◌≤◌, ◌+◌, ◌<◌, ◌^◌, ◌↔◌, ℕ, length, IfOk, IsTrue};
ghost use Rattle.cs_apm.specs.Atlases.{content_before};
ghost use Rattle.std.specs.List.{All};
ghost use Rattle.cs_apm.specs.Contents.{IsSmall, content_left};
ghost use Rattle.cs_apm.specs.States.{visible};
ghost use Rattle.cs_state.specs.Windows.{byte_of, whole_content};
ghost use Rattle.cs_same_states.specs.Pairs.{IsPair, IsSettled, first_content, first_owner};
ghost use Rattle.cs_same_states.specs.Pairs.{first_directory, second_content, second_directory};
ghost use Rattle.cs_same_states.specs.Pairs.{second_owner};

use crate::metadata::is_same_user_name;
use crate::reaching::{Span, floor_of, size_after_places, span_reached};
use crate::starts::start_bytes;
use crate::windows::window_left;
use cs_apm::content::FileContent;
use cs_apm::owners::{directory_left, owner_left};
use cs_apm::tables::Tables;
use cs_micro::MicroOp;
use cs_trace::{Rights, Trace};
use std::alloc::{AllocError, Global};

/// Two sets of a trace's micro-operations, which are compared.
#[derive(Clone, Copy)]
pub struct Pair<'a> {
    /// The trace.
    pub trace: &'a Trace,
    /// Its micro-operations.
    pub ops: &'a [MicroOp],
    /// Its tables.
    pub tables: &'a Tables,
    /// The places of the members of the first set.
    pub places: &'a [u32],
    /// The places of the members of the second set.
    pub others: &'a [u32],
}

/// Whether both have the same owner, group and permissions. If not, it is false; the contract says
/// only that true is right.
pub fn are_equal_rights(rights: &Rights, other: &Rights) -> bool
    ensures { IsTrue result → rights.now ≡ other.now }
{
    is_same_user_name(&rights.owner, &other.owner)
        && is_same_user_name(&rights.group, &other.group)
        && rights.permissions == other.permissions
}

/// Whether both sets leave the same window of the file: the same size of the whole file, and the
/// same bytes in the span. `start` has the file's bytes before any micro-operation changes it. The
/// span's bytes are copied for both sets.
fn are_same_windows(
    alloc: Global,
    pair: &Pair<'_>,
    start: &[u8],
    file: u32,
    span: Span,
) -> Result<bool, AllocError>
    requires pair { IsPair pair.now }
    requires few { span.offset + span.count < 2 ^ 64 }
    requires start { whole_content start.now
        ≡ content_before pair.now.trace.now pair.now.ops.now file }
    ensures size { IfOk result
        (λ same. IsTrue same
        → (first_content pair.now file).size ≡ (second_content pair.now file).size) }
    ensures bytes { IfOk result
        (λ same. IsTrue same → (i : ℕ) → span.offset ≤ i → i < span.offset + span.count
        → byte_of (first_content pair.now file) i ≡ byte_of (second_content pair.now file) i) }
{
    let offset = span.offset as usize;
    let count = span.count as usize;
    let window = window_left(alloc, start, file, pair.ops, pair.places, offset, count)?;
    let other = window_left(alloc, start, file, pair.ops, pair.others, offset, count)?;
    if window.size != other.size {
        return Ok(false);
    }
    Ok(window.bytes == other.bytes)
}

/// Whether `file` after the first set has the same owner, group and permissions as `other` after
/// the second set. Both are files of the trace.
fn are_same_owners(pair: &Pair<'_>, file: u32, other: u32) -> bool
    requires pair { IsPair pair.now }
    requires first { file < length pair.now.tables.now.owners.items }
    requires second { other < length pair.now.tables.now.owners.items }
    ensures { IsTrue result → first_owner pair.now file ≡ second_owner pair.now other }
{
    let owners = &pair.tables.owners;
    let owner = owner_left(owners, pair.ops, pair.places, file);
    let another = owner_left(owners, pair.ops, pair.others, other);
    are_equal_rights(owner, another)
}

/// Whether both sets leave the directory with this number with the same owner, group and
/// permissions. False if the trace has no such directory.
pub fn are_same_directories(pair: &Pair<'_>, directory: u32) -> bool
    requires { IsPair pair.now }
    ensures { IsTrue result
        → first_directory pair.now directory ≡ second_directory pair.now directory }
{
    let directories = &pair.tables.directories;
    if directory as usize >= directories.len() {
        return false;
    }
    let rights = directory_left(directories, pair.ops, pair.places, directory);
    let others = directory_left(directories, pair.ops, pair.others, directory);
    are_equal_rights(rights, others)
}

/// Whether the file, which `op` changes, is the same after both sets as far as `op` can change it:
/// it has the same size, owner, group and permissions, and the same bytes in the span that `op` can
/// change. Callers pass an `op` that is in only one of the sets. False if the trace has no such
/// file.
pub fn is_settled(
    alloc: Global,
    pair: &Pair<'_>,
    file: u32,
    op: &MicroOp,
) -> Result<bool, AllocError>
    requires pair { IsPair pair.now }
    requires small { IsSmall op.now }
    ensures { IfOk result (λ same. IsTrue same → IsSettled pair.now file op.now) }
{
    if file as usize >= pair.tables.owners.len() {
        return Ok(false);
    }
    if !are_same_owners(pair, file, file) {
        return Ok(false);
    }
    let start = start_bytes(pair.trace, pair.ops, pair.tables, file as usize);
    let size = size_after_places(file, start.len() as u64, pair.ops, pair.places);
    let span = span_reached(op, floor_of(pair.ops, file), size);
    are_same_windows(alloc, pair, start, file, span)
}

/// All bytes of the file, up to its size, after the micro-operations at `places`, which are one of
/// the pair's sets.
fn all_bytes_left(
    alloc: Global,
    pair: &Pair<'_>,
    places: &[u32],
    file: u32,
) -> Result<Vec<u8>, AllocError>
    requires pair { IsPair pair.now }
    requires inside { All (λ place. place < length pair.now.ops.now) places.now }
    ensures { IfOk result
        (λ bytes. bytes.items
        ≡ visible
        (content_left file (content_before pair.now.trace.now pair.now.ops.now file)
        pair.now.ops.now places.now)) }
{
    let start = start_bytes(pair.trace, pair.ops, pair.tables, file as usize);
    let mut content = FileContent::of(Vec::from_slice(alloc, start)?);
    content.apply_members(file, pair.ops, places)?;
    content.into_visible()
}

/// Whether `file` after the first set has the same bytes, owner, group and permissions as `other`
/// after the second set. All bytes are compared. False if the trace lacks one of these files.
pub fn are_same_files(
    alloc: Global,
    pair: &Pair<'_>,
    file: u32,
    other: u32,
) -> Result<bool, AllocError>
    requires pair { IsPair pair.now }
    ensures owner { IfOk result
        (λ same. IsTrue same → first_owner pair.now file ≡ second_owner pair.now other) }
    ensures bytes { IfOk result
        (λ same. IsTrue same
        → visible (first_content pair.now file) ≡ visible (second_content pair.now other)) }
    ensures known { IfOk result
        (λ same. IsTrue same → (file < length pair.now.tables.now.owners.items)
        × (other < length pair.now.tables.now.owners.items)) }
{
    let count = pair.tables.owners.len();
    if file as usize >= count || other as usize >= count {
        return Ok(false);
    }
    if !are_same_owners(pair, file, other) {
        return Ok(false);
    }
    let first_bytes = all_bytes_left(alloc, pair, pair.places, file)?;
    let second_bytes = all_bytes_left(alloc, pair, pair.others, other)?;
    Ok(first_bytes == second_bytes)
}
