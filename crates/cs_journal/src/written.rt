//! The bytes that the calls of a journal write.
ghost use Rattle.std.specs.Prelude.{◌≡◌, ◌<◌, [], IfOk, IfSome, IsTrue, OnOk, length};
ghost use Rattle.cs_journal.specs.Written.{IsWithin, Keeps, bytes_at, bytes_in};

use std::alloc::{AllocError, Global};
use std::marker::Model;

/// The size of each of the first blocks, in bytes; a longer write gets a block of its own size.
const SMALL_BLOCK: usize = 65_536;

/// The size of each later block.
const LARGE_BLOCK: usize = 1_048_576;

/// How many blocks are small, so that a run with few writes uses little memory.
const SMALL_BLOCKS: usize = 4;

/// The place of the bytes of a write: all are in the block of that index, from `start` on.
#[derive(Clone, Copy)]
pub(crate) struct Piece {
    /// Which block of the journal's `Written`.
    pub(crate) block_index: u32,
    /// In bytes, from the start of the block.
    pub(crate) start: u32,
    /// In bytes.
    pub(crate) len: u32,
}

/// The bytes of writes, in blocks, each write's within one block. Contracts see the bytes of each
/// block.
#[derive(Drop)]
pub(crate) struct Written {
    /// A block never grows past its capacity, so its bytes are never copied.
    blocks: Vec<Vec<u8>>,
}

impl Model for Written {
    ghost use Rattle.std.specs.Prelude.{List, ℕ};
    ghost use Rattle.cs_journal.specs.Written.{bytes_in};

    ghost Value = { List (List ℕ) };

    ghost view = { λ written. bytes_in written.blocks.items };
}

/// Whether the last block has room for `more` bytes; false if there is no block.
fn has_room(blocks: &[Vec<u8>], more: usize) -> bool
    ensures { IsTrue result → 0 < length blocks.now }
{
    match blocks.last() {
        Some(block) => more <= block.capacity() - block.len(),
        None => false,
    }
}

/// Adds an empty block if the last has no room for `more` bytes, or there is no block. The error is
/// out of memory; no block is added then.
fn add_block_for(alloc: Global, blocks: &mut Vec<Vec<u8>>, more: usize) -> Result<(), AllocError>
    ensures kept { Keeps (bytes_in blocks.old.items) (bytes_in blocks.new.items) }
    ensures some { OnOk result (0 < length blocks.new.items) }
{
    if has_room(blocks.as_slice(), more) {
        return Ok(());
    }
    let is_early = blocks.len() < SMALL_BLOCKS;
    let room = if is_early { SMALL_BLOCK } else { LARGE_BLOCK };
    blocks.reserve(1)?;
    let block = Vec::with_capacity(alloc, room.max(more))?;
    blocks.push_reserved(block);
    Ok(())
}

/// The piece of `len` bytes from `start` on in the block of that index. None if a number has more
/// than 32 bits, as the length of a write of 4 GiB, which no message can carry.
fn piece_of(block_index: usize, start: usize, len: usize) -> Option<Piece>
    ensures block { IfSome result (λ piece. piece.block_index ≡ block_index) }
    ensures start { IfSome result (λ piece. piece.start ≡ start) }
    ensures len { IfSome result (λ piece. piece.len ≡ len) }
{
    let block_index = u32::try_from(block_index).ok()?;
    let start = u32::try_from(start).ok()?;
    let len = u32::try_from(len).ok()?;
    Some(Piece {
        block_index,
        start,
        len,
    })
}

/// Appends the bytes to the last block, and returns their piece. If `piece_of` has none for them,
/// that counts as out of memory. An error leaves the bytes of older pieces as they are. There must
/// be a block.
fn put_last(blocks: &mut Vec<Vec<u8>>, bytes: &[u8]) -> Result<Piece, AllocError>
    requires some { 0 < length blocks.old.items }
    ensures kept { Keeps (bytes_in blocks.old.items) (bytes_in blocks.new.items) }
    ensures within { IfOk result (λ piece. IsWithin (bytes_in blocks.new.items) piece) }
    ensures bytes { IfOk result (λ piece. bytes_at (bytes_in blocks.new.items) piece ≡ bytes.now) }
{
    let last = blocks.len() - 1;
    let start = blocks[last].len();
    let Some(piece) = piece_of(last, start, bytes.len()) else {
        return Err(AllocError);
    };
    blocks[last].extend_from_slice(bytes)?;
    Ok(piece)
}

impl Written {
    /// A store without bytes and without blocks.
    pub(crate) fn new(alloc: Global) -> Written
        ensures { result ≡ [] }
    {
        Written {
            blocks: Vec::new(alloc),
        }
    }

    /// Stores the bytes of a write, and returns their piece. The error is out of memory. The pieces
    /// returned before keep their bytes, even after an error.
    pub(crate) fn push_bytes(&mut self, alloc: Global, bytes: &[u8]) -> Result<Piece, AllocError>
        ensures kept { Keeps self.old self.new }
        ensures within { IfOk result (λ piece. IsWithin self.new piece) }
        ensures bytes { IfOk result (λ piece. bytes_at self.new piece ≡ bytes.now) }
    {
        add_block_for(alloc, &mut self.blocks, bytes.len())?;
        put_last(&mut self.blocks, bytes)
    }

    /// The bytes of a piece, which `push_bytes` of the same store must have returned.
    pub(crate) fn bytes_of(&self, piece: Piece) -> &[u8]
        requires { IsWithin self.now piece }
        ensures { result.now ≡ bytes_at self.now piece }
    {
        let block = self.blocks[piece.block_index as usize].as_slice();
        let start = piece.start as usize;
        &block[start..start + piece.len as usize]
    }
}
