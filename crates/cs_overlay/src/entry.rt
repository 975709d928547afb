//! Reads of one number. In each function `entry` is what the overlay has at the number: a node, or
//! `Some(None)` if the file was removed. If it is None, the overlay has nothing there, and the
//! lower tree is read.
ghost use Rattle.std.specs.Prelude.{◌≡◌, ◌≢◌, [], IfOk, IsErr, IsSomeAnd, take, drop};
ghost use Rattle.std.specs.Option.{option_copied, option_map};
ghost use Rattle.cs_tree_model.specs.Record.{metadata_of_ref};
ghost use Rattle.cs_overlay.specs.Layers.{found_at, metadata_at, parent_at, own_name_at};
ghost use Rattle.cs_overlay.specs.Layers.{content_at};

use crate::node::{Body, Node};
use cs_names::Name;
use cs_tree_model::{Metadata, TreeRead};
use std::alloc::{AllocError, Global};

/// The fields of the record without its bytes; None if no file has the number.
pub fn record<'a, L: TreeRead>(
    lower: &'a L,
    entry: Option<&'a Option<Node>>,
    number: u64,
) -> Option<Metadata<'a>>
    ensures { option_map metadata_of_ref result
        ≡ metadata_at (L.tree lower.now) number (option_copied entry.entry) }
{
    match entry {
        Some(Some(node)) => Some(node.metadata.lend()),
        Some(None) => None,
        None => lower.record(number),
    }
}

/// The number of the file of that name in the directory; None if the directory has no such file, or
/// `directory` isn't a directory's number. `entry` is the directory's; if it has no answer for the
/// name, the lower tree decides.
pub fn find<L: TreeRead>(
    lower: &L,
    entry: Option<&Option<Node>>,
    directory: u64,
    name: &str,
) -> Option<u64>
    ensures { result ≡ found_at (L.tree lower.now) directory name.now (option_copied entry.entry) }
{
    match entry {
        Some(Some(node)) => match node.body.answer(name) {
            Some(number) => number,
            None => lower.find_number(directory, name),
        },
        Some(None) => None,
        None => lower.find_number(directory, name),
    }
}

/// The number of the file's directory; the root's is the root. None if no file has the number.
pub fn parent<L: TreeRead>(lower: &L, entry: Option<&Option<Node>>, number: u64) -> Option<u64>
    ensures { result ≡ parent_at (L.tree lower.now) number (option_copied entry.entry) }
{
    match entry {
        Some(Some(node)) => Some(node.parent),
        Some(None) => None,
        None => lower.parent_of(number),
    }
}

/// The file's name in its directory; None for the root, and if no file has the number.
pub fn name<'a, L: TreeRead>(
    lower: &'a L,
    entry: Option<&'a Option<Node>>,
    number: u64,
) -> Option<&'a Name>
    ensures { option_copied result
        ≡ own_name_at (L.tree lower.now) number (option_copied entry.entry) }
{
    match entry {
        Some(Some(node)) => node.name.as_ref(),
        Some(None) => None,
        None => lower.name_of(number),
    }
}

/// At most `count` bytes of the file from `offset` on, none at its end or past it. None if the
/// number is a directory's, or no file has it. The only error is that memory runs out; if no byte
/// is returned, none is taken.
pub fn read<L: TreeRead>(
    alloc: Global,
    lower: &L,
    entry: Option<&Option<Node>>,
    number: u64,
    offset: u64,
    count: usize,
) -> Result<Option<Vec<u8>>, AllocError>
    ensures value { IfOk result
        (λ bytes. option_map (λ v. v.items) bytes
        ≡ option_map (λ b. take count (drop offset b))
        (content_at (L.tree lower.now) number (option_copied entry.entry))) }
    ensures memory { IsErr result
        → IsSomeAnd
        (option_map (λ b. take count (drop offset b))
        (content_at (L.tree lower.now) number (option_copied entry.entry))) (λ bytes. bytes ≢ []) }
{
    match entry {
        Some(Some(node)) => match &node.body {
            Body::Directory(_) => Ok(None),
            Body::File(file) => Ok(Some(file.read_at(alloc, lower, number, offset, count)?)),
        },
        Some(None) => Ok(None),
        None => lower.read_at(alloc, number, offset, count),
    }
}
