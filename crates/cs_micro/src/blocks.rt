//! The blocks of a file that a write touches, and what it writes into each. Here `block` is the
//! number of a block in its file, from 0, and offsets are in bytes from the start of the file.
ghost use Rattle.std.specs.Prelude.{◌≡◌, ◌++◌, ◌+◌, ◌<◌, ◌≤◌, length, IfOk, OnOk};
ghost use Rattle.std.specs.List.{flat_map};
ghost use Rattle.cs_trace_lines.specs.Versions.{block_bytes};
ghost use Rattle.cs_micro.specs.Blocks.{block_of, block_write, block_writes, bytes_in, start_of};
ghost use Rattle.cs_micro.specs.Blocks.{touched_blocks};

use crate::micro_op::MicroOp;
use cs_names::Bytes;
use cs_trace::{BlockSize, LARGE_FILE_BYTES};
use std::alloc::{AllocError, Global};

/// The number, from 0, of the block that has the byte at this offset of a file, if blocks have this
/// size.
pub fn block_of(block_size: BlockSize, offset: u64) -> u64
    ensures value { result ≡ block_of (block_bytes block_size) offset }
    ensures few { result ≤ offset }
{
    offset / block_size.bytes()
}

/// The micro-operation that writes into one block those of the bytes that fall into it. At least
/// one must. The first of `bytes` has the offset `offset` in the file.
fn write_block(
    alloc: Global,
    block_size: BlockSize,
    file: u32,
    block: u64,
    offset: u64,
    bytes: &[u8],
) -> Result<MicroOp, AllocError>
    requires end { offset + length bytes.now ≤ LARGE_FILE_BYTES }
    requires begins { start_of (block_bytes block_size) block < offset + length bytes.now }
    requires ends { offset < start_of (block_bytes block_size) (block + 1) }
    ensures { IfOk result
        (λ op. op ≡ block_write (block_bytes block_size) file offset bytes.now block) }
{
    let start = block_size.bytes() * block;
    let from = offset.max(start);
    let to = (offset + bytes.len() as u64).min(start + block_size.bytes());
    let piece = &bytes[(from - offset) as usize..(to - offset) as usize];
    Ok(MicroOp::WriteBlock {
        file,
        block,
        start,
        at: from - start,
        bytes: Bytes::copy_of(alloc, piece)?,
    })
}

/// Appends a write of at least one byte at the offset, as one micro-operation for each block that
/// it touches, in ascending order. After an error, some of them may have been appended.
pub fn push_blocks(
    alloc: Global,
    ops: &mut Vec<MicroOp>,
    block_size: BlockSize,
    file: u32,
    offset: u64,
    bytes: &[u8],
) -> Result<(), AllocError>
    requires some { 0 < length bytes.now }
    requires end { offset + length bytes.now ≤ LARGE_FILE_BYTES }
    ensures { OnOk result (ops.new.items ≡ ops.old.items
        ++ block_writes (block_bytes block_size) file offset bytes.now) }
{
    let first = block_of(block_size, offset);
    let last = block_of(block_size, offset + bytes.len() as u64 - 1);
    for block in first..last + 1 {
        ops.push(write_block(alloc, block_size, file, block, offset, bytes)?)?;
    }
    Ok(())
}

/// A law: the bytes that a write puts into the blocks that it touches, one block after another, are
/// the bytes of the write, of which there must be at least one. The call does nothing.
pub fn blocks_make_up_a_write(block_size: BlockSize, offset: u64, bytes: &[u8])
    requires { 0 < length bytes.now }
    ensures { flat_map (λ block. bytes_in (block_bytes block_size) block offset bytes.now)
        (touched_blocks (block_bytes block_size) offset bytes.now) ≡ bytes.now }
{}
