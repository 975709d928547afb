//! A block of a file that an overlay changed: the file's bytes from a multiple of 4,096 on.
ghost use Rattle.std.specs.Prelude.{◌≡◌, ◌+◌, ◌++◌, ◌≤◌, ◌<◌, ◌^◌, ℕ, length, map, replicate, take};
ghost use Rattle.std.specs.Prelude.{drop, slice_index, OnOk};
ghost use Rattle.std.specs.List.{range_with_len};
ghost use Rattle.cs_overlay.specs.Patch.{put_in};

use std::alloc::AllocError;
use std::marker::Model;

/// The bytes of one block, from its start; what is past them, up to 4,096, reads as zero.
#[derive(Drop)]
pub struct Block {
    bytes: Vec<u8>,
}

impl Model for Block {
    ghost use Rattle.std.specs.Prelude.{List, ℕ};

    ghost Value = { List ℕ };

    ghost view = { λ b. b.bytes.items };
}

impl Block {
    /// The block that has these bytes, at most 4,096.
    pub fn of(bytes: Vec<u8>) -> Block
        ensures { result ≡ bytes.items }
    {
        Block { bytes }
    }

    /// Lends the block's bytes.
    pub fn bytes(&self) -> &[u8]
        ensures { result.now ≡ self.now }
    {
        &self.bytes
    }

    /// Keeps the first `length` bytes and drops the rest; a block that has no more is unchanged.
    pub fn truncate(&mut self, length: usize)
        ensures { self.new ≡ take length self.old }
    {
        self.bytes.truncate(length);
    }

    /// Replaces the block's bytes from `start` on by the piece, which ends within the block.
    pub fn overwrite(&mut self, start: usize, piece: &[u8])
        requires { start + length piece.now ≤ length self.old }
        ensures { self.new ≡ put_in start piece.now self.old }
    {
        overwrite_bytes(&mut self.bytes, start, piece);
    }

    /// Appends zeros until the block has at least `needed` bytes; a block that has them is
    /// unchanged. After an error some of the zeros may be there. No read shows them, since bytes
    /// past the block's end read as zero anyway.
    pub fn lengthen(&mut self, needed: usize) -> Result<(), AllocError>
        ensures longer { (z : ℕ) × (self.new ≡ self.old ++ replicate z 0) }
        ensures there { OnOk result (needed ≤ length self.new) }
    {
        let end = self.bytes.len().max(needed);
        self.bytes.resize(end, 0)?;
        Ok(())
    }
}

/// At most `count` bytes from `start` on: fewer if the bytes end before, none at their end or past
/// it. (`part_of` of cs_tree and `piece_at` of cs_state do the same.)
fn part_of(bytes: &[u8], start: usize, count: usize) -> &[u8]
    ensures { result.now ≡ take count (drop start bytes.now) }
{
    let start = bytes.len().min(start);
    let rest = &bytes[start..];
    let end = rest.len().min(count);
    &rest[..end]
}

/// Appends exactly `count` bytes: those of the source from `start` on, and zeros for those past its
/// end. `out` stays below 2^63 bytes. After an error it may have some of them.
pub fn append_part(
    out: &mut Vec<u8>,
    source: &[u8],
    start: usize,
    count: usize,
) -> Result<(), AllocError>
    requires { length out.old.items + count < 2 ^ 63 }
    ensures { OnOk result
        (out.new.items ≡ out.old.items
        ++ map (slice_index source.now) (range_with_len start count)) }
{
    let end = out.len() + count;
    out.extend_from_slice(part_of(source, start, count))?;
    out.resize(end, 0)?;
    Ok(())
}

/// Replaces the bytes from `start` on by the piece, which ends within them. It is the body of
/// `Block::overwrite`. (`put_at` of cs_apm and `overwrite` of cs_tree do the same.)
fn overwrite_bytes(bytes: &mut [u8], start: usize, piece: &[u8])
    requires { start + length piece.now ≤ length bytes.old }
    ensures bytes { bytes.new ≡ put_in start piece.now bytes.old }
    ensures length { length bytes.new ≡ length bytes.old }
{
    bytes[start..start + piece.len()].copy_from_slice(piece);
}
