//! Which bytes of a file a micro-operation can change, whatever other micro-operations a state has.
ghost use Rattle.std.specs.Prelude.{◌≡◌, ◌+◌, ◌<◌, ◌≤◌, ◌^◌, true, ℕ, fold, length, map};
ghost use Rattle.std.specs.List.{All};
ghost use Rattle.cs_apm.specs.Contents.{IsSmall};
ghost use Rattle.cs_apm.specs.Rules.{op_at};
ghost use Rattle.cs_state.specs.Owners as owners;
ghost use Rattle.cs_state.specs.Windows as windows;
ghost use Rattle.cs_same_states.specs.Reaching as reaching;
ghost use Rattle.cs_same_states.specs.Reaching.{floor_after, floor_in, reaches};

use cs_entries::Node;
use cs_micro::MicroOp;
use cs_trace::{LARGE_FILE_BYTES, Target};

/// Some bytes of a file, one after another.
#[derive(Clone, Copy, Debug)]
pub struct Span {
    /// The offset of the first byte.
    pub offset: u64,
    /// How many bytes; may be 0.
    pub count: u64,
}

/// The number of the file whose size, bytes, owner, group or permissions the micro-operation
/// changes; None if it changes no file. One that makes, links, moves or removes a file doesn't
/// change it.
pub fn changed_file(op: &MicroOp) -> Option<u32>
    ensures { result ≡ reaching.changed_file op.now }
{
    match op {
        MicroOp::ChangeFileSize { file, .. }
        | MicroOp::WriteBlock { file, .. }
        | MicroOp::SetAttr {
            target: Target::File(file),
            ..
        } => Some(*file),
        _ => None,
    }
}

/// The number of the directory that the micro-operation makes, or whose owner, group and
/// permissions it sets; None if it does neither. (`directory_set` of cs_state has the same body.)
pub fn directory_set(op: &MicroOp) -> Option<u32>
    ensures { result ≡ owners.directory_set op.now }
{
    match op {
        MicroOp::CreateDirEntry {
            node: Node::Directory(number),
            ..
        } => Some(*number),
        MicroOp::SetAttr {
            target: Target::Directory { number, .. },
            ..
        } => Some(*number),
        _ => None,
    }
}

/// The lesser of `floor` and the size that the micro-operation gives the file; `floor` if it
/// doesn't change the size of this file.
fn floor_after(file: u32, floor: u64, op: &MicroOp) -> u64
    ensures { result ≡ floor_after file floor op.now }
{
    match op {
        MicroOp::ChangeFileSize {
            file: other,
            length,
        } => {
            if *other == file && *length < floor {
                *length
            } else {
                floor
            }
        }
        _ => floor,
    }
}

/// The file's floor: the least size that some micro-operation of the trace gives the file, or
/// LARGE_FILE_BYTES if none gives it a size. A change of the file's size changes no byte before the
/// floor, whatever other members a set has.
pub fn floor_of(ops: &[MicroOp], file: u32) -> u64
    ensures { result ≡ floor_in ops.now file }
{
    let mut floor = LARGE_FILE_BYTES;
    for op in ops {
        floor = floor_after(file, floor, op);
    }
    floor
}

/// The size of the file after a micro-operation, if its size before is `size`: the same, unless the
/// micro-operation sets it. `size_after` in `file_steps` of cs_state has the same body.
fn size_after_op(file: u32, size: u64, op: &MicroOp) -> u64
    ensures { result ≡ windows.size_after file size op.now }
{
    match op {
        MicroOp::ChangeFileSize {
            file: other,
            length,
        } => { if *other == file { *length } else { size } }
        _ => size,
    }
}

/// The size of the file in bytes after the micro-operations at `places`; `size` is its size before
/// them.
pub fn size_after_places(file: u32, size: u64, ops: &[MicroOp], places: &[u32]) -> u64
    requires { All (λ place. place < length ops.now) places.now }
    ensures { result ≡ fold (windows.size_after file) size (map (op_at ops.now) places.now) }
{
    let mut left = size;
    for place in places {
        left = size_after_op(file, left, &ops[*place as usize]);
    }
    left
}

/// The bytes from the offset `from` on and before the offset `end`; none if `end` isn't after
/// `from`.
fn span_between(from: u64, end: u64) -> Span
    ensures few { result.offset + result.count < 2 ^ 64 }
    ensures all { (i : ℕ) → from ≤ i → i < end → (result.offset ≤ i)
        × (i < result.offset + result.count) }
{
    Span {
        offset: from,
        count: end.saturating_sub(from),
    }
}

/// The bytes that the micro-operation can change in its file, if that file has this floor (as
/// `floor_of` says) and ends with this size: those that a write writes before the file's end, or
/// those between floor and end for a change of size. None for any other micro-operation.
pub fn span_reached(op: &MicroOp, floor: u64, size: u64) -> Span
    requires { IsSmall op.now }
    ensures few { result.offset + result.count < 2 ^ 64 }
    ensures all { (file i : ℕ) → i < size → reaches floor file i op.now ≡ true → (result.offset ≤ i)
        × (i < result.offset + result.count) }
{
    match op {
        MicroOp::ChangeFileSize { .. } => span_between(floor, size),
        MicroOp::WriteBlock {
            start,
            at,
            bytes,
            ..
        } => {
            let from = *start + *at;
            span_between(from, size.min(from + bytes.as_slice().len() as u64))
        }
        _ => span_between(0, 0),
    }
}
