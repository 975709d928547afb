//! Whether two trees are equal. A file may be a directory here, as in `TreeRead`, and its number is
//! that of its record.
ghost use Rattle.std.specs.Prelude.{◌≡◌, ◌↔◌, IfOk, IsTrue};
ghost use Rattle.cs_tree_model.specs.Record.{metadata_of};
ghost use Rattle.cs_tree_model.specs.Tree.{bytes_at, name_numbered, parent_numbered};
ghost use Rattle.cs_tree_model.specs.Tree.{record_numbered};
ghost use Rattle.std.specs.Option.{option_copied};
ghost use Rattle.cs_same_states.specs.Trees.{AreSameAt};

use crate::metadata::are_same_metadata;
use cs_names::Name;
use cs_names::laws::know;
use cs_tree_model::{Kind, TreeRead};
use std::alloc::{AllocError, Global};

/// Whether the file with this number is in the same directory in both trees; true if neither tree
/// has such a file.
fn have_same_parent<A: TreeRead, B: TreeRead>(tree: &A, other: &B, number: u64) -> bool
    ensures { IsTrue result ↔
        (parent_numbered (A.tree tree.now) number ≡ parent_numbered (B.tree other.now) number) }
{
    tree.parent_of(number) == other.parent_of(number)
}

/// Whether both are None, or the same name.
fn is_same_name(name: Option<&Name>, other: Option<&Name>) -> bool
    ensures { IsTrue result ↔ (option_copied name.entry ≡ option_copied other.entry) }
{
    match (name, other) {
        (None, None) => true,
        (Some(name), Some(other)) => name == other,
        _ => false,
    }
}

/// Whether the file with this number has the same last name in both trees; true if neither tree has
/// such a file, and for the root, which has no name.
fn have_same_name<A: TreeRead, B: TreeRead>(tree: &A, other: &B, number: u64) -> bool
    ensures { IsTrue result ↔
        (name_numbered (A.tree tree.now) number ≡ name_numbered (B.tree other.now) number) }
{
    is_same_name(tree.name_of(number), other.name_of(number))
}

/// Whether the first `count` bytes of the file with this number are the same in both trees; true if
/// neither tree has such a file. They are copied from both trees.
fn have_same_bytes<A: TreeRead, B: TreeRead>(
    alloc: Global,
    tree: &A,
    other: &B,
    number: u64,
    count: usize,
) -> Result<bool, AllocError>
    ensures { IfOk result
        (λ same. IsTrue same ↔
        (bytes_at (A.tree tree.now) number 0 count ≡ bytes_at (B.tree other.now) number 0 count)) }
{
    let bytes = tree.read_at(alloc, number, 0, count)?;
    let others = other.read_at(alloc, number, 0, count)?;
    Ok(bytes == others)
}

/// Whether the file with this number has the same metadata and the same bytes in both trees; true
/// if neither tree has such a file.
fn have_same_record<A: TreeRead, B: TreeRead>(
    alloc: Global,
    tree: &A,
    other: &B,
    number: u64,
) -> Result<bool, AllocError>
    ensures { IfOk result
        (λ same. IsTrue same ↔
        (record_numbered (A.tree tree.now) number ≡ record_numbered (B.tree other.now) number)) }
{
    let Some(metadata) = tree.record(number) else {
        return Ok(other.record(number).is_none());
    };
    let Some(others) = other.record(number) else {
        return Ok(false);
    };
    if !are_same_metadata(&metadata, &others) {
        return Ok(false);
    }
    match metadata.kind {
        Kind::Directory => Ok(true),
        Kind::File { length } => have_same_bytes(alloc, tree, other, number, length as usize),
    }
}

/// Whether the file with this number has the same directory, name, metadata and bytes in both
/// trees; true if neither tree has such a file.
fn are_same_at<A: TreeRead, B: TreeRead>(
    alloc: Global,
    tree: &A,
    other: &B,
    number: u64,
) -> Result<bool, AllocError>
    ensures { IfOk result
        (λ same. IsTrue same ↔ AreSameAt (A.tree tree.now) (B.tree other.now) number) }
{
    if !have_same_parent(tree, other, number) {
        return Ok(false);
    }
    if !have_same_name(tree, other, number) {
        return Ok(false);
    }
    have_same_record(alloc, tree, other, number)
}

/// Whether two trees are equal: they have the same paths, and at each the same record with the same
/// bytes; and the next file gets the same number. The files are compared one number after another.
/// To compare a file's bytes, they are copied from both trees.
pub fn are_same_trees<A: TreeRead, B: TreeRead>(
    alloc: Global,
    tree: &A,
    other: &B,
) -> Result<bool, AllocError>
    ensures { IfOk result (λ same. IsTrue same ↔ (A.tree tree.now ≡ B.tree other.now)) }
{
    // By the contract of `count`, both are trees.
    know((tree.count(), other.count()));
    let last = tree.last_number();
    if last != other.last_number() {
        return Ok(false);
    }
    for number in 0..last {
        if !are_same_at(alloc, tree, other, number)? {
            return Ok(false);
        }
    }
    are_same_at(alloc, tree, other, last)
}
