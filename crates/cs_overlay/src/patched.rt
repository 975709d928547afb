//! The bytes of a file over a lower one, and its length. Reads are in `reading`, writes in
//! `writing`.
ghost use Rattle.std.specs.Prelude.{◌≡◌, ◌≤◌, ◌++◌, ℕ, List, [], length, min, take, replicate};
ghost use Rattle.std.specs.Prelude.{None, OnOk, OnErr};
ghost use Rattle.std.specs.Ordering.{nat_cmp};
ghost use Rattle.std.specs.BTreeMap.{get, IsUnchanged};
ghost use Rattle.cs_overlay.specs.Patch.{cut_blocks};
ghost use Rattle.cs_overlay.specs.Files.{file_byte, file_bytes, NothingHidden};

use crate::block::Block;
use std::alloc::{AllocError, Global};
use std::collections::BTreeMap;

/// A file over a lower one: its own blocks of 4,096 bytes, and between them what still shows of the
/// lower file. Only its own blocks take memory. Each call keeps it so that past the end there is
/// nothing that would show if the file grew (`NothingHidden`).
#[derive(Drop)]
pub struct Patched {
    /// The number of bytes of the file, as a stat shows it.
    pub size: u64,
    /// The number of the lower file's first bytes that still show, unless the file has its own
    /// block there.
    pub kept: u64,
    /// The file's own blocks by number: block k has the bytes from 4,096 k on. What a block doesn't
    /// have, up to its 4,096 bytes, reads as zero.
    pub blocks: BTreeMap<u64, Block>,
}

impl Patched {
    /// The lower file, which has `size` bytes, without changes; with a size of 0 an empty file,
    /// even if there is no lower one. It takes no memory.
    pub fn of_lower(alloc: Global, size: u64) -> Patched
        ensures bytes { (lower : List ℕ) → length lower ≡ size → file_bytes lower result ≡ lower }
        ensures hides { (lower : List ℕ) → NothingHidden lower result }
        ensures size { result.size ≡ size }
    {
        Patched {
            size,
            kept: size,
            blocks: BTreeMap::new(alloc),
        }
    }

    /// Sets the length in bytes: new bytes read as zero, and bytes that were cut off never show
    /// again. After an error no read shows a difference.
    pub fn resize(&mut self, size: u64) -> Result<(), AllocError>
        ensures size { OnOk result (self.new.size ≡ size) }
        ensures hides { (lower : List ℕ) → NothingHidden lower self.old
            → NothingHidden lower self.new }
        ensures ok { OnOk result
            ((lower : List ℕ) → NothingHidden lower self.old
            → file_bytes lower self.new
            ≡ take size (file_bytes lower self.old ++ replicate size 0)) }
        ensures err { OnErr result
            ((lower : List ℕ) → file_bytes lower self.new ≡ file_bytes lower self.old) }
        ensures err_size { OnErr result (self.new.size ≡ self.old.size) }
    {
        if size < self.size {
            self.shrink(size)?;
        } else {
            self.grow(size);
        }
        Ok(())
    }

    /// Sets the length to `size` bytes, which the caller knows not to be above the present length.
    /// Bytes that are cut off never show again. After an error no read shows a difference.
    fn shrink(&mut self, size: u64) -> Result<(), AllocError>
        requires shorter { size ≤ self.old.size }
        ensures size { OnOk result (self.new.size ≡ size) }
        ensures hides { OnOk result ((lower : List ℕ) → NothingHidden lower self.new) }
        ensures bytes { OnOk result
            ((lower : List ℕ)
            → file_bytes lower self.new
            ≡ take size (file_bytes lower self.old ++ replicate size 0)) }
        ensures err { OnErr result
            ((lower : List ℕ) (i : ℕ) → file_byte lower self.new i ≡ file_byte lower self.old i) }
        ensures err_size { OnErr result (self.new.size ≡ self.old.size) }
    {
        truncate_blocks(&mut self.blocks, size)?;
        self.kept = self.kept.min(size);
        self.size = size;
        Ok(())
    }

    /// Sets the length to `size` bytes, which the caller knows not to be below the present length.
    /// The new bytes read as zero. It takes no memory.
    fn grow(&mut self, size: u64)
        requires longer { self.old.size ≤ size }
        ensures size { self.new.size ≡ size }
        ensures hides { (lower : List ℕ) → NothingHidden lower self.old
            → NothingHidden lower self.new }
        ensures bytes { (lower : List ℕ) → NothingHidden lower self.old
            → file_bytes lower self.new
            ≡ take size (file_bytes lower self.old ++ replicate size 0) }
    {
        self.size = size;
    }
}

/// Drops what the blocks have from the file's byte `size` on: the rest of the block with that byte,
/// and all blocks after it. A block whose bytes are all dropped stays, if it has byte `size`. After
/// an error the blocks are unchanged.
fn truncate_blocks(blocks: &mut BTreeMap<u64, Block>, size: u64) -> Result<(), AllocError>
    ensures ok { OnOk result
        ((k : ℕ) → get nat_cmp blocks.new k ≡ cut_blocks size (get nat_cmp blocks.old) k) }
    ensures err { OnErr result (IsUnchanged blocks.old blocks.new) }
{
    let last = size / 4096;
    blocks.split_off(&(last + 1))?;
    if let Some(block) = blocks.get_mut(&last) {
        block.truncate((size % 4096) as usize);
    }
    Ok(())
}
