//! Reads of a range of a file, block by block. Block k has the 4,096 bytes from 4,096 k on.
ghost use Rattle.std.specs.Prelude.{◌≡◌, ◌≢◌, ◌≤◌, ◌<◌, ◌+◌, ◌-◌, ◌%◌, ◌^◌, ◌++◌, [], length, map};
ghost use Rattle.std.specs.Prelude.{min, take, drop, IfOk, IsErr, OnOk};
ghost use Rattle.std.specs.List.{range_with_len};
ghost use Rattle.std.specs.Option.{option_copied};
ghost use Rattle.std.specs.Ordering.{nat_cmp};
ghost use Rattle.std.specs.BTreeMap.{get};
ghost use Rattle.cs_overlay.specs.Files.{file_bytes};
ghost use Rattle.cs_overlay.specs.Patch.{lower_bytes, piece_byte, shown_byte};

use crate::block::{Block, append_part};
use crate::patched::Patched;
use cs_tree_model::TreeRead;
use std::alloc::{AllocError, Global};

impl Patched {
    /// At most `count` bytes of the file, from `offset` on: fewer if the file ends before, none at
    /// its end or past it. `number` is the lower file's. The only error is that memory runs out; if
    /// no byte is returned, none is taken. If the file has no block of its own and all the bytes
    /// show from the lower file, they are copied only once.
    pub fn read_at<L: TreeRead>(
        &self,
        alloc: Global,
        lower: &L,
        number: u64,
        offset: u64,
        count: usize,
    ) -> Result<Vec<u8>, AllocError>
        ensures value { IfOk result
            (λ v. v.items
            ≡ take count
            (drop offset (file_bytes (lower_bytes (L.tree lower.now) number) self.now))) }
        ensures memory { IsErr result
            → take count
            (drop offset (file_bytes (lower_bytes (L.tree lower.now) number) self.now)) ≢ [] }
    {
        // 0 if the offset is at the file's end or past it
        let n = (count as u64).min(self.size.saturating_sub(offset)) as usize;
        if n == 0 {
            return Ok(Vec::new(alloc));
        }
        let shown = lower_part(alloc, lower, number, self.kept, offset, n)?;
        if self.blocks.is_empty() && shown.len() == n {
            return Ok(shown);
        }
        let bytes = self.join_pieces(alloc, &shown, offset, n)?;
        Ok(bytes)
    }

    /// The `n` bytes from `offset` on, which the file has, joined block by block. `shown` is what
    /// shows of the lower file from `offset` on. The error may also mean that no memory has room
    /// for `n` bytes.
    fn join_pieces(
        &self,
        alloc: Global,
        shown: &[u8],
        offset: u64,
        n: usize,
    ) -> Result<Vec<u8>, AllocError>
        requires { offset + n < 2 ^ 64 }
        ensures { IfOk result
            (λ v. v.items
            ≡ map (shown_byte shown.now offset (get nat_cmp self.now.blocks))
            (range_with_len offset n)) }
    {
        if n >= 1 << 63 {
            // more than any memory has room for
            return Err(AllocError);
        }
        let mut out = Vec::with_capacity(alloc, n)?;
        let end = offset + n as u64;
        let mut at = offset;
        while at < end {
            let count = (4096 - at % 4096).min(end - at);
            let block = self.blocks.get(&(at / 4096));
            append_piece(&mut out, block, shown, offset, at, count as usize)?;
            at += count;
        }
        Ok(out)
    }
}

/// Appends `count` bytes of the file from its byte `at` on, which are all in one block. They come
/// from the file's own block; if it has none, from `shown`, which is what shows of the lower file
/// from its byte `shown_from` on. What neither has is zero. After an error `out` may have some of
/// the bytes.
fn append_piece(
    out: &mut Vec<u8>,
    block: Option<&Block>,
    shown: &[u8],
    shown_from: u64,
    at: u64,
    count: usize,
) -> Result<(), AllocError>
    requires fits { length out.old.items + count < 2 ^ 63 }
    requires after { shown_from ≤ at }
    requires within { at % 4096 + count ≤ 4096 }
    ensures { OnOk result
        (out.new.items ≡ out.old.items
        ++ map (piece_byte (option_copied block.entry) shown.now shown_from)
        (range_with_len at count)) }
{
    match block {
        Some(block) => append_part(out, block.bytes(), (at % 4096) as usize, count),
        None => append_part(out, shown, (at - shown_from) as usize, count),
    }
}

/// At most `count` bytes of what shows of the lower file, from `offset` on: fewer if that ends
/// before, none at its end or past it, or if there is no lower file. `kept` is how many of the
/// lower file's first bytes still show.
fn lower_part<L: TreeRead>(
    alloc: Global,
    lower: &L,
    number: u64,
    kept: u64,
    offset: u64,
    count: usize,
) -> Result<Vec<u8>, AllocError>
    ensures { IfOk result
        (λ v. v.items
        ≡ take (min (kept - offset) count) (drop offset (lower_bytes (L.tree lower.now) number))) }
{
    // 0 if what shows ends before the offset
    let m = kept.saturating_sub(offset).min(count as u64) as usize;
    let Some(bytes) = lower.read_at(alloc, number, offset, m)? else {
        return Ok(Vec::new(alloc));
    };
    Ok(bytes)
}
