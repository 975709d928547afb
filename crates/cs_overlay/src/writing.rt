//! Writes of a range of a file, block by block. Block k has the 4,096 bytes from 4,096 k on.
ghost use Rattle.std.specs.Prelude.{◌≡◌, ◌≤◌, ◌<◌, ◌+◌, ◌^◌, ◌%◌, ◌/◌, ℕ, List, length, max};
ghost use Rattle.std.specs.Prelude.{IfSome, IsSome, OnOk, OnErr};
ghost use Rattle.std.specs.Option.{option_map};
ghost use Rattle.std.specs.Ordering.{nat_cmp};
ghost use Rattle.std.specs.BTreeMap.{get, Updates};
ghost use Rattle.cs_overlay.specs.Files.{file_bytes, NothingHidden};
ghost use Rattle.cs_overlay.specs.Patch.{byte_at, put_in, written_byte, Reaches, lower_bytes};
ghost use Rattle.cs_tree_model.specs.Effects.{bytes_after_write};

use crate::block::Block;
use crate::growing::copy_blocks_up;
use crate::patched::Patched;
use cs_tree_model::TreeRead;
use std::alloc::{AllocError, Global};
use std::collections::BTreeMap;

impl Patched {
    /// Writes bytes, at least one, into the file. `number` is the lower file's. If the offset is
    /// past the end, the bytes between are zeros. Only the blocks that the bytes touch are copied.
    /// After an error no read shows a difference, but some blocks may be copied.
    pub fn write_at<L: TreeRead>(
        &mut self,
        alloc: Global,
        lower: &L,
        number: u64,
        offset: u64,
        bytes: &[u8],
    ) -> Result<(), AllocError>
        requires some { 0 < length bytes.now }
        requires room { offset + length bytes.now < 2 ^ 63 }
        requires hides { NothingHidden (lower_bytes (L.tree lower.now) number) self.old }
        ensures size { OnOk result (self.new.size ≡ max self.old.size (offset + length bytes.now)) }
        ensures hides { NothingHidden (lower_bytes (L.tree lower.now) number) self.new }
        ensures ok { OnOk result
            (file_bytes (lower_bytes (L.tree lower.now) number) self.new
            ≡ bytes_after_write offset bytes.now
            (file_bytes (lower_bytes (L.tree lower.now) number) self.old)) }
        ensures err { OnErr result
            (file_bytes (lower_bytes (L.tree lower.now) number) self.new
            ≡ file_bytes (lower_bytes (L.tree lower.now) number) self.old) }
        ensures err_size { OnErr result (self.new.size ≡ self.old.size) }
    {
        let end = offset + bytes.len() as u64;
        copy_blocks_up(
            alloc,
            lower,
            number,
            self.kept,
            &mut self.blocks,
            offset,
            end,
        )?;
        self.write_in_place(offset, bytes);
        Ok(())
    }

    /// Writes bytes, at least one, into a file. The caller has given the file its own copy of each
    /// block that they touch, long enough for them. If the offset is past the end, the bytes
    /// between are zeros. It takes no memory.
    fn write_in_place(&mut self, offset: u64, bytes: &[u8])
        requires reaches { Reaches (get nat_cmp self.old.blocks) offset
            (offset + length bytes.now) }
        requires some { 0 < length bytes.now }
        requires room { offset + length bytes.now < 2 ^ 63 }
        ensures size { self.new.size ≡ max self.old.size (offset + length bytes.now) }
        ensures hides { (lower : List ℕ) → NothingHidden lower self.old
            → NothingHidden lower self.new }
        ensures bytes { (lower : List ℕ) → NothingHidden lower self.old
            → file_bytes lower self.new
            ≡ bytes_after_write offset bytes.now (file_bytes lower self.old) }
    {
        write_blocks(&mut self.blocks, offset, bytes);
        self.size = self.size.max(offset + bytes.len() as u64);
    }
}

/// Replaces the file's bytes from `offset` on by these. The caller has made a block for each of
/// them, long enough. It takes no memory.
fn write_blocks(blocks: &mut BTreeMap<u64, Block>, offset: u64, bytes: &[u8])
    requires reaches { Reaches (get nat_cmp blocks.old) offset (offset + length bytes.now) }
    requires room { offset + length bytes.now < 2 ^ 63 }
    ensures { (lower : List ℕ) (kept i : ℕ)
        → byte_at lower kept (get nat_cmp blocks.new) i
        ≡ written_byte offset bytes.now (byte_at lower kept (get nat_cmp blocks.old)) i }
{
    let end = offset + bytes.len() as u64;
    let mut at = offset;
    while at < end {
        let stop = end.min((at / 4096 + 1) * 4096);
        let piece = &bytes[(at - offset) as usize..(stop - offset) as usize];
        write_block(blocks, at, piece);
        at = stop;
    }
}

/// Writes a piece at the file's byte `at` into the only block that it touches. The caller has made
/// this block, long enough.
fn write_block(blocks: &mut BTreeMap<u64, Block>, at: u64, piece: &[u8])
    requires there { IsSome (get nat_cmp blocks.old (at / 4096)) }
    requires reaches { IfSome (get nat_cmp blocks.old (at / 4096))
        (λ s. at % 4096 + length piece.now ≤ length s) }
    ensures { Updates nat_cmp blocks.old blocks.new (at / 4096)
        (option_map (put_in (at % 4096) piece.now) (get nat_cmp blocks.old (at / 4096))) }
{
    match blocks.get_mut(&(at / 4096)) {
        Some(block) => block.overwrite((at % 4096) as usize, piece),
        // the caller's block is there
        None => unreachable!(),
    }
}
