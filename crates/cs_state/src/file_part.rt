//! A part of a file: some of its bytes from an offset on, with zeros past its end, and what changes
//! them. cs_same_states uses these functions, too.
ghost use Rattle.std.specs.Prelude.{◌≡◌, ◌+◌, ◌<◌, ◌≤◌, ◌^◌, length, take, IfOk};
ghost use Rattle.cs_trace.specs.declared.limits.TheConstants.{LARGE_FILE_BYTES};
ghost use Rattle.cs_apm.specs.States.{Content, overwritten};
ghost use Rattle.cs_state.specs.Windows.{whole_content, IsPart};

use cs_apm::content::put_at;
use std::alloc::{AllocError, Global};

/// A copy of `count` bytes of a file from the offset on, with zeros past its end. `bytes` are all
/// bytes of the file. (`copy_piece` returns fewer bytes there, in place of zeros.)
pub fn copy_part(
    alloc: Global,
    bytes: &[u8],
    offset: usize,
    count: usize,
) -> Result<Vec<u8>, AllocError>
    requires { offset + count < 2 ^ 64 }
    ensures long { IfOk result (λ part. length part.items ≡ count) }
    ensures part { IfOk result (λ part. IsPart offset (whole_content bytes.now) part.items) }
{
    let from = offset.min(bytes.len());
    let end = bytes.len().min(offset + count);
    let mut part = Vec::from_slice(alloc, &bytes[from..end.max(from)])?;
    part.resize(count, 0)?;
    Ok(part)
}

/// Zeroes those bytes of a part that are past the first `size` bytes of the file, as a change of
/// size to `size` does. The part begins at the offset in the file.
pub fn zero_past(part: &mut [u8], offset: usize, size: usize)
    ensures long { length part.new ≡ length part.old }
    ensures part { (f : Content) → IsPart offset f part.old
        → IsPart offset (record f { bytes = take size f.bytes }) part.new }
{
    // The whole part if it begins past the size, nothing if it ends before the size.
    let from = size.saturating_sub(offset).min(part.len());
    part[from..].fill(0);
}

/// Writes those bytes of the piece that fall into a part; if none does, nothing changes. The part
/// begins at `offset` in the file, and the piece at `at`.
pub fn write_piece(part: &mut [u8], offset: usize, at: usize, piece: &[u8])
    requires room { offset + length part.old < 2 ^ 64 }
    requires small { at + length piece.now ≤ LARGE_FILE_BYTES }
    ensures long { length part.new ≡ length part.old }
    ensures part { (f : Content) → IsPart offset f part.old
        → IsPart offset (overwritten at piece.now f) part.new }
{
    let from = at.max(offset);
    let end = (at + piece.len()).min(offset + part.len());
    if from < end {
        put_at(part, from - offset, &piece[from - at..end - at]);
    }
}
