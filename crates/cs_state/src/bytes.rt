//! The bytes of a state's file: those before any change, with what the members of its set wrote.
//! `members` has for each micro-operation whether it is a member. The bytes before any change are
//! those at the start, or those with which the file is made.

ghost use Rattle.std.specs.Prelude.{◌≡◌, ◌≢◌, ◌+◌, ◌*◌, ◌<◌, ◌≤◌, ◌^◌, ◌⊎◌, [], ℕ, true, false};
ghost use Rattle.std.specs.Prelude.{drop, fold, length, map, slice_index_or, take, IfOk, IsErr};
ghost use Rattle.std.specs.List.{All};
ghost use Rattle.cs_apm.specs.Contents.{IsSmall};
ghost use Rattle.cs_apm.specs.Rules.{op_at};
ghost use Rattle.cs_apm.specs.States.{Content};
ghost use Rattle.cs_state.specs.Numbers.{kept_at};
ghost use Rattle.cs_state.specs.Shares.{numbers_that_pass, mark_at};
ghost use Rattle.cs_state.specs.Steps.{members_in, resizes, row_at, content_after_cut, struck_by};
ghost use Rattle.cs_state.specs.Steps.{AgreeIn, IsPartIn};
ghost use Rattle.cs_state.specs.Windows.{size_after, whole_content, IsPart};

use crate::file_part::{copy_part, write_piece, zero_past};
use crate::file_steps::{FileSteps, PAGE_BYTES, size_after};
use crate::members::{count_members, is_member};
use cs_micro::MicroOp;
use std::alloc::{AllocError, Global};

/// The size of the file after the members, in bytes: what the last member in `size_changes` sets,
/// or `size`, the one before any change, if none is a member. `size_changes` has the places of all
/// micro-operations that change the size. The members must be the first of them, as P1 makes them
/// in an allowed set.
pub fn size_after_members(
    file: usize,
    size: u64,
    ops: &[MicroOp],
    size_changes: &[u32],
    members: &[bool],
) -> u64
    requires sizes { size_changes.now
        ≡ numbers_that_pass (λ k. resizes file (op_at ops.now k)) (length ops.now) }
    requires first { (i j : ℕ) → i < j → j < length size_changes.now
        → mark_at members.now (kept_at size_changes.now j) ≡ true
        → mark_at members.now (kept_at size_changes.now i) ≡ true }
    requires long { length members.now ≡ length ops.now }
    ensures { result ≡ fold (size_after file) size (map (op_at ops.now) (members_in members.now)) }
{
    let count = count_members(members, size_changes);
    if count == 0 {
        return size;
    }
    size_after(file, size, &ops[size_changes[count - 1] as usize])
}

/// At most `count` of the bytes, from the offset on: fewer near their end, and none at their end or
/// past it. (`part_of` of cs_tree and `part_of` of cs_overlay do the same.)
fn piece_at(bytes: &[u8], offset: usize, count: usize) -> &[u8]
    ensures { result.now ≡ take count (drop offset bytes.now) }
{
    let rest = &bytes[bytes.len().min(offset)..];
    &rest[..rest.len().min(count)]
}

/// A copy of at most `count` of the bytes, from the offset on: fewer near their end, and none at
/// their end or past it. (`copy_part` fills up with zeros.) Memory can run out only if there is a
/// byte to copy.
pub fn copy_piece(
    alloc: Global,
    bytes: &[u8],
    offset: u64,
    count: usize,
) -> Result<Vec<u8>, AllocError>
    ensures value { IfOk result (λ piece. piece.items ≡ take count (drop offset bytes.now)) }
    ensures memory { IsErr result → take count (drop offset bytes.now) ≢ [] }
{
    let piece = piece_at(bytes, offset as usize, count);
    if piece.is_empty() {
        return Ok(Vec::new(alloc));
    }
    Vec::from_slice(alloc, piece)
}

/// Applies a cut or a write, whichever file it names, to a part of a file that begins at the
/// offset. The part keeps its length. A change of size zeroes all that is past the new size, hidden
/// bytes too: callers pass only changes that make the file shorter. Any other micro-operation
/// changes nothing. (`FileContent::apply` of cs_apm does the same to a whole file, but a greater
/// size leaves the bytes past it hidden there.)
fn apply_to_part(part: &mut [u8], offset: usize, op: &MicroOp)
    requires room { offset + length part.old < 2 ^ 64 }
    requires small { IsSmall op.now }
    ensures long { length part.new ≡ length part.old }
    ensures part { (f : Content) → IsPart offset f part.old
        → IsPart offset (content_after_cut f op.now) part.new }
{
    match op {
        MicroOp::ChangeFileSize { length, .. } => zero_past(part, offset, *length as usize),
        MicroOp::WriteBlock {
            start,
            at,
            bytes,
            ..
        } => write_piece(part, offset, (*start + *at) as usize, bytes.as_slice()),
        _ => {}
    }
}

/// Applies the micro-operations at those of the places that are members, in their order, to a part
/// of a file that begins at the offset. The caller passes only places of writes into this file, and
/// of changes that make it shorter: `apply_to_part` doesn't look at the file's number.
fn apply_members_to_part(
    part: &mut [u8],
    offset: usize,
    ops: &[MicroOp],
    places: &[u32],
    members: &[bool],
)
    requires room { offset + length part.old < 2 ^ 64 }
    requires small { All IsSmall ops.now }
    requires inside { All (λ place. place < length ops.now) places.now }
    ensures long { length part.new ≡ length part.old }
    ensures part { (f : Content) → IsPart offset f part.old
        → IsPart offset (struck_by ops.now members.now f places.now) part.new }
{
    for place in places {
        if is_member(members, *place) {
            apply_to_part(part, offset, &ops[*place as usize]);
        }
    }
}

/// Applies the micro-operations at those of the places that are members, in their order, to the
/// bytes of a part that are in one page; the others stay. At least one must be in the page. The
/// part begins at the offset in the file; `page` is the page's number in the file.
fn apply_to_page(
    part: &mut [u8],
    offset: usize,
    page: usize,
    ops: &[MicroOp],
    places: &[u32],
    members: &[bool],
)
    requires room { offset + length part.old < 2 ^ 64 }
    requires begins { page * PAGE_BYTES < offset + length part.old }
    requires ends { offset < page * PAGE_BYTES + PAGE_BYTES }
    requires small { All IsSmall ops.now }
    requires inside { All (λ place. place < length ops.now) places.now }
    ensures long { length part.new ≡ length part.old }
    ensures inside { (f : Content) → IsPartIn page offset f part.old
        → IsPartIn page offset (struck_by ops.now members.now f places.now) part.new }
    ensures outside { (k : ℕ) → (offset + k < page * PAGE_BYTES)
        ⊎ (page * PAGE_BYTES + PAGE_BYTES ≤ offset + k)
        → slice_index_or part.new k 0 ≡ slice_index_or part.old k 0 }
{
    let first = page * PAGE_BYTES as usize;
    // The part may begin in the page, and the page may end past 2^64.
    let from = first.saturating_sub(offset);
    let end = first.saturating_add(PAGE_BYTES as usize) - offset;
    let end = part.len().min(end);
    apply_members_to_part(&mut part[from..end], offset + from, ops, places, members);
}

/// `count` bytes, at least one, of a file after the members, from the offset on, with zeros past
/// its end. `start` has its bytes before any change, and `steps` the places of the micro-operations
/// that change it. Page by page, only those are applied that reach the page.
pub fn part_left(
    alloc: Global,
    start: &[u8],
    ops: &[MicroOp],
    steps: &FileSteps,
    members: &[bool],
    offset: usize,
    count: usize,
) -> Result<Vec<u8>, AllocError>
    requires some { 0 < count }
    requires few { offset + count < 2 ^ 64 }
    requires small { All IsSmall ops.now }
    requires inside { (page : ℕ) → All (λ place. place < length ops.now) (row_at steps.now page) }
    ensures long { IfOk result (λ part. length part.items ≡ count) }
    ensures part { IfOk result
        (λ part. (g : Content)
        → ((page : ℕ)
        → AgreeIn page
        (struck_by ops.now members.now (whole_content start.now) (row_at steps.now page)) g)
        → IsPart offset g part.items) }
{
    let mut part = copy_part(alloc, start, offset, count)?;
    let first = offset / PAGE_BYTES as usize;
    let last = (offset + count - 1) / PAGE_BYTES as usize;
    for page in first..last + 1 {
        let row = steps.row(page as u64);
        apply_to_page(&mut part, offset, page, ops, row, members);
    }
    Ok(part)
}
