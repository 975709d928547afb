//! Some bytes of a file from an offset on (a window), as a set leaves them. No other byte of the
//! file is read. (The windows in which a check divides a long trace are another thing.)
ghost use Rattle.std.specs.Prelude.{◌≡◌, ◌+◌, ◌<◌, ◌^◌, length, IfOk};
ghost use Rattle.std.specs.List.{All};
ghost use Rattle.cs_apm.specs.Contents.{IsSmall, content_after, content_left};
ghost use Rattle.cs_apm.specs.States.{Content, content_with_size};
ghost use Rattle.cs_state.specs.Windows.{whole_content};
ghost use Rattle.cs_same_states.specs.Windows.{IsWindow};

use cs_apm::content::changes_file;
use cs_micro::MicroOp;
use cs_state::file_part::{copy_part, write_piece, zero_past};
use std::alloc::{AllocError, Global};

/// The size of a file, and some of its bytes from an offset on.
#[derive(Debug, Drop)]
pub struct Window {
    /// The size of the whole file, in bytes.
    pub size: u64,
    /// The bytes from the offset on, as many as were asked for, with zeros past the file's end.
    pub bytes: Vec<u8>,
}

/// Changes the part of a file that begins at the offset as a change of the file's size from `size`
/// to `to` does: what is cut off becomes zero. A change to the same or a greater size cuts nothing
/// off.
fn zero_cut(part: &mut [u8], offset: usize, size: u64, to: u64)
    ensures long { length part.new ≡ length part.old }
    ensures window { (f : Content) → IsWindow offset f size part.old
        → IsWindow offset (content_with_size to f) to part.new }
{
    if to < size {
        zero_past(part, offset, to as usize);
    }
}

/// Applies the micro-operation to the part of the file that begins at the offset, if it changes
/// that file. Returns the file's size after it; `size` is the one before.
fn apply_to_window(part: &mut [u8], offset: usize, size: u64, file: u32, op: &MicroOp) -> u64
    requires room { offset + length part.old < 2 ^ 64 }
    requires small { IsSmall op.now }
    ensures long { length part.new ≡ length part.old }
    ensures window { (f : Content) → IsWindow offset f size part.old
        → IsWindow offset (content_after file f op.now) result part.new }
{
    if !changes_file(file, op) {
        return size;
    }
    match op {
        MicroOp::ChangeFileSize { length, .. } => {
            zero_cut(part, offset, size, *length);
            *length
        }
        MicroOp::WriteBlock {
            start,
            at,
            bytes,
            ..
        } => {
            let from = (*start + *at) as usize;
            write_piece(part, offset, from, bytes.as_slice());
            size
        }
        // `changes_file` is false for all others.
        _ => unreachable!(),
    }
}

/// Applies the micro-operations at `places`, in this order, to the part of the file that begins at
/// the offset. Returns the file's size after them; `size` is the one before.
fn apply_places(
    part: &mut [u8],
    offset: usize,
    size: u64,
    file: u32,
    ops: &[MicroOp],
    places: &[u32],
) -> u64
    requires room { offset + length part.old < 2 ^ 64 }
    requires small { All IsSmall ops.now }
    requires inside { All (λ place. place < length ops.now) places.now }
    ensures long { length part.new ≡ length part.old }
    ensures window { (f : Content) → IsWindow offset f size part.old
        → IsWindow offset (content_left file f ops.now places.now) result part.new }
{
    let mut left = size;
    for place in places {
        left = apply_to_window(part, offset, left, file, &ops[*place as usize]);
    }
    left
}

/// The file's size after the micro-operations at `places`, and `count` of its bytes from the offset
/// on, with zeros past its end. `start` has the file's bytes before any micro-operation changes it.
pub fn window_left(
    alloc: Global,
    start: &[u8],
    file: u32,
    ops: &[MicroOp],
    places: &[u32],
    offset: usize,
    count: usize,
) -> Result<Window, AllocError>
    requires few { offset + count < 2 ^ 64 }
    requires small { All IsSmall ops.now }
    requires inside { All (λ place. place < length ops.now) places.now }
    ensures long { IfOk result (λ window. length window.bytes.items ≡ count) }
    ensures window { IfOk result
        (λ window. IsWindow offset (content_left file (whole_content start.now) ops.now places.now)
        window.size window.bytes.items) }
{
    let mut bytes = copy_part(alloc, start, offset, count)?;
    let size = apply_places(&mut bytes, offset, start.len() as u64, file, ops, places);
    Ok(Window { size, bytes })
}
