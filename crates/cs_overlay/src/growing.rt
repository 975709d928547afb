//! Copies of the lower file's blocks, made before a write changes them. No read shows the
//! difference. In each function `number` is that of the lower file (if the lower tree has no such
//! file, nothing shows), and `kept` is the number of its first bytes that still show. Block k has
//! the 4,096 bytes from 4,096 k on, and ends within 2^63 bytes: k is below 2^51.
ghost use Rattle.std.specs.Prelude.{◌≡◌, ◌≤◌, ◌<◌, ◌^◌, ℕ, List, Some, length, IfOk, IfSome};
ghost use Rattle.std.specs.Prelude.{IsSome, OnOk};
ghost use Rattle.std.specs.Ordering.{nat_cmp};
ghost use Rattle.std.specs.BTreeMap.{get};
ghost use Rattle.cs_overlay.specs.Patch.{byte_at, block_of, lower_bytes, AreLonger, Reaches};

use crate::block::Block;
use cs_tree_model::TreeRead;
use std::alloc::{AllocError, Global};
use std::collections::BTreeMap;

/// What shows of the lower file in a block that the file has no copy of: 4,096 bytes, fewer if what
/// shows ends in the block, none if it ends before. The only error is that memory runs out.
fn shown_block<L: TreeRead>(
    alloc: Global,
    lower: &L,
    number: u64,
    kept: u64,
    index: u64,
) -> Result<Block, AllocError>
    requires { index < 2 ^ 51 }
    ensures { IfOk result (λ b. b ≡ block_of (lower_bytes (L.tree lower.now) number) kept index) }
{
    let start = index * 4096;
    // 0 if what shows ends before the block
    let count = kept.saturating_sub(start).min(4096) as usize;
    let Some(bytes) = lower.read_at(alloc, number, start, count)? else {
        return Ok(Block::of(Vec::new(alloc)));
    };
    Ok(Block::of(bytes))
}

/// Appends zeros to the file's copy of a block until the copy has at least `needed` bytes. The
/// caller has made the copy; without one nothing happens. After an error some of the zeros may be
/// there, which no read shows.
fn lengthen_block(
    blocks: &mut BTreeMap<u64, Block>,
    index: u64,
    needed: usize,
) -> Result<(), AllocError>
    ensures longer { AreLonger (get nat_cmp blocks.old) (get nat_cmp blocks.new) }
    ensures there { OnOk result (IfSome (get nat_cmp blocks.new index) (λ s. needed ≤ length s)) }
{
    if let Some(block) = blocks.get_mut(&index) {
        block.lengthen(needed)?;
    }
    Ok(())
}

/// Copies a block of the lower file up, unless the file has a copy of it already. After an error
/// the blocks are unchanged.
fn copy_block_up<L: TreeRead>(
    alloc: Global,
    lower: &L,
    number: u64,
    kept: u64,
    blocks: &mut BTreeMap<u64, Block>,
    index: u64,
) -> Result<(), AllocError>
    requires { index < 2 ^ 51 }
    ensures same { (i : ℕ)
        → byte_at (lower_bytes (L.tree lower.now) number) kept (get nat_cmp blocks.new) i
        ≡ byte_at (lower_bytes (L.tree lower.now) number) kept (get nat_cmp blocks.old) i }
    ensures keeps { (a b : ℕ) → Reaches (get nat_cmp blocks.old) a b
        → Reaches (get nat_cmp blocks.new) a b }
    ensures there { OnOk result (IsSome (get nat_cmp blocks.new index)) }
{
    if blocks.contains_key(&index) {
        return Ok(());
    }
    let block = shown_block(alloc, lower, number, kept, index)?;
    blocks.insert(index, block)?;
    Ok(())
}

/// Copies a block of the lower file up, unless the file has a copy of it already, and lengthens the
/// copy to at least `needed` bytes. After an error no read shows a difference.
fn make_block_reach<L: TreeRead>(
    alloc: Global,
    lower: &L,
    number: u64,
    kept: u64,
    blocks: &mut BTreeMap<u64, Block>,
    index: u64,
    needed: usize,
) -> Result<(), AllocError>
    requires { index < 2 ^ 51 }
    ensures same { (i : ℕ)
        → byte_at (lower_bytes (L.tree lower.now) number) kept (get nat_cmp blocks.new) i
        ≡ byte_at (lower_bytes (L.tree lower.now) number) kept (get nat_cmp blocks.old) i }
    ensures keeps { (a b : ℕ) → Reaches (get nat_cmp blocks.old) a b
        → Reaches (get nat_cmp blocks.new) a b }
    ensures there { OnOk result
        ((s : List ℕ) × (get nat_cmp blocks.new index ≡ Some s) × (needed ≤ length s)) }
{
    copy_block_up(alloc, lower, number, kept, blocks, index)?;
    lengthen_block(blocks, index, needed)?;
    Ok(())
}

/// Copies up each block that the file's bytes from `offset` on and before `end` touch, and makes
/// the copies long enough for these bytes, so that a write there takes no memory. Does nothing if
/// `end` isn't above `offset`. After an error some blocks may be copied; no read shows the
/// difference.
pub fn copy_blocks_up<L: TreeRead>(
    alloc: Global,
    lower: &L,
    number: u64,
    kept: u64,
    blocks: &mut BTreeMap<u64, Block>,
    offset: u64,
    end: u64,
) -> Result<(), AllocError>
    requires { end < 2 ^ 63 }
    ensures same { (i : ℕ)
        → byte_at (lower_bytes (L.tree lower.now) number) kept (get nat_cmp blocks.new) i
        ≡ byte_at (lower_bytes (L.tree lower.now) number) kept (get nat_cmp blocks.old) i }
    ensures there { OnOk result (Reaches (get nat_cmp blocks.new) offset end) }
{
    let mut at = offset;
    while at < end {
        let index = at / 4096;
        let stop = end.min((index + 1) * 4096);
        make_block_reach(
            alloc,
            lower,
            number,
            kept,
            blocks,
            index,
            (stop - index * 4096) as usize,
        )?;
        at = stop;
    }
    Ok(())
}
