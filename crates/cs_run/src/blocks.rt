//! Opens kept in blocks, so that removing one moves few others. `Opens` is the list that the other
//! files use.
ghost use Rattle.std.specs.Prelude.{◌≡◌, ◌≢◌, ◌<◌, ◌≤◌, ◌+◌, ◌∷◌, ◌++◌, [], ℕ, length, IfSome};
ghost use Rattle.std.specs.Prelude.{IsNone, OnOk, Some, false, true, option_map, slice_get};
ghost use Rattle.std.specs.Prelude.{slice_index_or};
ghost use Rattle.std.specs.List.{All, position, remove};
ghost use Rattle.cs_permit.specs.Opens.{is_open as is_on};
ghost use Rattle.cs_permit.specs.declared.call.OpenFile.{OpenFile as Opened};
ghost use Rattle.cs_run.specs.Blocks.{AreFilled, Block, FilledBut, HasOpen, count_before};
ghost use Rattle.cs_run.specs.Blocks.{ends_below, all_opens, last_room};
ghost use Rattle.cs_run.specs.Opens.{IsAscending, is_open};

use cs_permit::OpenFile;
use std::alloc::AllocError;

/// How many opens a block holds at most. Removing one moves fewer than these: under 3 KiB.
const BLOCK: usize = 128;

/// The place of an open: the index of its block, and its index within that block.
#[derive(Clone, Copy)]
pub(crate) struct OpenPlace {
    /// Of its block, from 0.
    pub(crate) block_index: usize,
    /// Its index in the block, from 0.
    pub(crate) at: usize,
}

/// Whether the block's last open has a number below `number`; false if the block is empty.
fn ends_below(block: &Vec<OpenFile>, number: u32) -> bool
    ensures { result ≡ ends_below number block.now }
{
    match block.last() {
        Some(open) => open.number < number,
        None => false,
    }
}

/// The index of the open of that number among `opens`, which are in ascending order of their
/// numbers. None if no open has the number.
fn index_of_open(opens: &[OpenFile], number: u32) -> Option<usize>
    requires { IsAscending opens.now }
    ensures bound { IfSome result (λ at. at < length opens.now) }
    ensures found { IfSome result (λ at. (o : Opened) → (slice_index_or opens.now at o).number
        ≡ number) }
    ensures missing { IsNone result → All (λ o. o.number ≢ number) opens.now }
{
    match opens.binary_search_by_key(&number, |open| open.number) {
        Ok(at) => Some(at),
        Err(_) => None,
    }
}

/// How many blocks, all at the front, end below the number. Only the block after them, if there is
/// one, can have an open of that number.
fn blocks_below(blocks: &[Vec<OpenFile>], number: u32) -> usize
    requires ascending { IsAscending (all_opens blocks.now) }
    requires filled { AreFilled blocks.now }
    ensures bound { result ≤ length blocks.now }
    ensures below { (k : ℕ) (b : Block) → k < result → ends_below number
        (slice_index_or blocks.now k b) ≡ true }
    ensures next { (b : Block) → result < length blocks.now
        → ends_below number (slice_index_or blocks.now result b) ≡ false }
{
    blocks.partition_point(|block| ends_below(block, number))
}

/// The place of the open of that number and pass; None if no open has both. The opens ascend, and
/// only the last block may be empty.
pub(crate) fn open_place_of(blocks: &[Vec<OpenFile>], number: u32, pass: u32) -> Option<OpenPlace>
    requires ascending { IsAscending (all_opens blocks.now) }
    requires filled { AreFilled blocks.now }
    ensures value { position (is_open number pass) (all_opens blocks.now)
        ≡ option_map (λ place. count_before blocks.now place.block_index + place.at) result }
    ensures has_open { IfSome result (λ place. HasOpen blocks.now place.block_index place.at) }
{
    let block_index = blocks_below(blocks, number);
    if block_index == blocks.len() {
        return None;
    }
    let opens = blocks[block_index].as_slice();
    let Some(at) = index_of_open(opens, number) else {
        return None;
    };
    if opens[at].pass == pass {
        Some(OpenPlace { block_index, at })
    } else {
        None
    }
}

/// Adds an empty block if the last is full or there is none. The error is out of memory; no block
/// is added then.
fn add_block_if_full(blocks: &mut Vec<Vec<OpenFile>>) -> Result<(), AllocError>
    requires { AreFilled blocks.old.items }
    ensures opens { all_opens blocks.new.items ≡ all_opens blocks.old.items }
    ensures filled { AreFilled blocks.new.items }
    ensures some { OnOk result (0 < length blocks.new.items) }
{
    let is_full = match blocks.last() {
        Some(block) => block.len() >= BLOCK,
        None => true,
    };
    if !is_full {
        return Ok(());
    }
    blocks.reserve(1)?;
    let block = Vec::new(*blocks.allocator());
    blocks.push_reserved(block);
    Ok(())
}

/// Makes room for one more open in the last block, which may be a new one. The error is out of
/// memory; the opens are as they were, and at most an empty block is new.
pub(crate) fn widen_last(blocks: &mut Vec<Vec<OpenFile>>) -> Result<(), AllocError>
    requires { AreFilled blocks.old.items }
    ensures opens { all_opens blocks.new.items ≡ all_opens blocks.old.items }
    ensures filled { AreFilled blocks.new.items }
    ensures room { OnOk result (0 < last_room blocks.new.items) }
{
    add_block_if_full(blocks)?;
    let last = blocks.len() - 1;
    blocks[last].reserve(1)
}

/// Adds an open at the end of the last block, which has room for it.
pub(crate) fn push_last(blocks: &mut Vec<Vec<OpenFile>>, opened: OpenFile)
    requires room { 0 < last_room blocks.old.items }
    requires filled { AreFilled blocks.old.items }
    ensures opens { all_opens blocks.new.items ≡ all_opens blocks.old.items ++ opened ∷ [] }
    ensures filled { AreFilled blocks.new.items }
{
    let last = blocks.len() - 1;
    blocks[last].push_reserved(opened);
}

/// The open at a place that has one.
pub(crate) fn open_at(blocks: &[Vec<OpenFile>], place: OpenPlace) -> OpenFile
    requires { HasOpen blocks.now place.block_index place.at }
    ensures { Some result ≡ slice_get (all_opens blocks.now)
        (count_before blocks.now place.block_index + place.at) }
{
    let opens = blocks[place.block_index].as_slice();
    opens[place.at]
}

/// All opens of the first block that has an open on that file, those on other files too; empty if
/// no block has one.
pub(crate) fn first_block_on_file(blocks: &[Vec<OpenFile>], file: u64) -> &[OpenFile]
    ensures { is_on result.now file ≡ is_on (all_opens blocks.now) file }
{
    for block in blocks {
        if is_on(block.as_slice(), file) {
            return block.as_slice();
        }
    }
    &[]
}

/// Whether one of the opens is on that file; false if there are no opens. cs_permit's
/// `is_file_open` is the same, but private there: change both.
fn is_on(opens: &[OpenFile], file: u64) -> bool
    ensures { result ≡ is_on opens.now file }
{
    opens.iter().any(|open| open.file == file)
}

/// Removes the open at a place that has one, and returns it. It allocates nothing. A block that is
/// then empty is dropped, unless it is the last.
pub(crate) fn remove_open(blocks: &mut Vec<Vec<OpenFile>>, place: OpenPlace) -> OpenFile
    requires has_open { HasOpen blocks.old.items place.block_index place.at }
    requires filled { AreFilled blocks.old.items }
    ensures value { Some result ≡ slice_get (all_opens blocks.old.items)
        (count_before blocks.old.items place.block_index + place.at) }
    ensures opens { all_opens blocks.new.items ≡ remove (all_opens blocks.old.items)
        (count_before blocks.old.items place.block_index + place.at) }
    ensures filled { AreFilled blocks.new.items }
{
    let open = blocks[place.block_index].remove(place.at);
    drop_if_empty(blocks, place.block_index);
    open
}

/// Drops the block at that index, which must exist, if it is empty and not the last. No other block
/// but the last may be empty.
fn drop_if_empty(blocks: &mut Vec<Vec<OpenFile>>, block_index: usize)
    requires bound { block_index < length blocks.old.items }
    requires filled { FilledBut block_index blocks.old.items }
    ensures opens { all_opens blocks.new.items ≡ all_opens blocks.old.items }
    ensures filled { AreFilled blocks.new.items }
{
    if block_index + 1 < blocks.len() && blocks[block_index].is_empty() {
        // the removed block is empty, so it is dropped
        let _empty = blocks.remove(block_index);
    }
}
