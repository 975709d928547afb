//! Appends what changes the size or the bytes of a file. Here `size` is the size of the file before
//! the operation, in bytes. After an error, some of the micro-operations may have been appended.
ghost use Rattle.std.specs.Prelude.{◌≡◌, ◌++◌, ◌+◌, ◌<◌, ◌≤◌, length, IsErr, OnOk};
ghost use Rattle.cs_trace.specs.Limits.{most_bytes};
ghost use Rattle.cs_micro.specs.MicroOperations.{growth_micros, truncate_micros, write_micros};
ghost use Rattle.cs_micro.specs.MicroOperations.{zero_micros};

use crate::blocks::push_blocks;
use crate::micro_op::MicroOp;
use crate::pages::{count_zeros, grows_past_page, page_end};
use cs_trace::{LARGE_FILE_BYTES, Version};
use std::alloc::{AllocError, Global};

/// Appends the changes of size of a write that ends at `end`: nothing if the file doesn't grow. In
/// version 4 a file that grows past the end of a partly used last page grows to that end first.
fn push_growth(
    ops: &mut Vec<MicroOp>,
    version: Version,
    file: u32,
    size: u64,
    end: u64,
) -> Result<(), AllocError>
    requires { end ≤ LARGE_FILE_BYTES }
    ensures { OnOk result (ops.new.items ≡ ops.old.items ++ growth_micros version file size end) }
{
    if size >= end {
        return Ok(());
    }
    if version.is_fourth() && grows_past_page(size, end) {
        ops.push(MicroOp::ChangeFileSize {
            file,
            length: page_end(size),
        })?;
    }
    ops.push(MicroOp::ChangeFileSize { file, length: end })?;
    Ok(())
}

/// Appends the micro-operations of a write: its changes of size, and then the write into each block
/// that it touches. Nothing if the write has no bytes. `count_of_write` counts them.
pub fn push_write(
    alloc: Global,
    ops: &mut Vec<MicroOp>,
    version: Version,
    file: u32,
    size: u64,
    offset: u64,
    bytes: &[u8],
) -> Result<(), AllocError>
    requires { 0 < length bytes.now → offset + length bytes.now ≤ most_bytes version }
    ensures value { OnOk result (ops.new.items ≡ ops.old.items
        ++ write_micros version file size offset bytes.now) }
    ensures memory { IsErr result → 0 < length (write_micros version file size offset bytes.now) }
{
    if bytes.is_empty() {
        return Ok(());
    }
    push_growth(ops, version, file, size, offset + bytes.len() as u64)?;
    push_blocks(alloc, ops, version.block_size(), file, offset, bytes)
}

/// Appends the writes of zeros that come before a cut to `to` bytes: from there to the end of the
/// page or of the file. Nothing before version 4, or if the file isn't cut inside a page.
fn push_zeros(
    alloc: Global,
    ops: &mut Vec<MicroOp>,
    version: Version,
    file: u32,
    size: u64,
    to: u64,
) -> Result<(), AllocError>
    requires { to ≤ LARGE_FILE_BYTES }
    ensures { OnOk result (ops.new.items ≡ ops.old.items ++ zero_micros version file size to) }
{
    if !version.is_fourth() {
        return Ok(());
    }
    let count = count_zeros(size, to);
    if count == 0 {
        return Ok(());
    }
    let zeros = vec![in alloc; 0u8; count]?;
    push_blocks(alloc, ops, version.block_size(), file, to, &zeros)
}

/// Appends the micro-operations of a truncate to `to` bytes: first the zeros of a cut
/// (`push_zeros`), then the change of size. Nothing if the file has that size.
pub fn push_truncate(
    alloc: Global,
    ops: &mut Vec<MicroOp>,
    version: Version,
    file: u32,
    size: u64,
    to: u64,
) -> Result<(), AllocError>
    requires { to ≤ most_bytes version }
    ensures value { OnOk result (ops.new.items ≡ ops.old.items
        ++ truncate_micros version file size to) }
    ensures memory { IsErr result → 0 < length (truncate_micros version file size to) }
{
    if size == to {
        return Ok(());
    }
    push_zeros(alloc, ops, version, file, size, to)?;
    ops.push(MicroOp::ChangeFileSize { file, length: to })?;
    Ok(())
}
