//! Which files are in slots, and whether two sets leave the same in the slots. A slot is what an
//! entry holds: a directory, a file or nothing. If an answer about two sets is true, they do leave
//! the same; if it is false, they may, too.
ghost use Rattle.std.specs.Prelude.{◌≡◌, ◌<◌, ◌⊎◌, ◌↔◌, ℕ, fold, length, IfOk, IsTrue, Some};
ghost use Rattle.cs_apm.specs.Slots.{slot_at};
ghost use Rattle.cs_same_states.specs.Pairs.{IsPair};
ghost use Rattle.cs_same_states.specs.Slots.{AreAlike, AreFilesAlike, AreFlagged, IsInBoth};
ghost use Rattle.cs_same_states.specs.Slots.{file_in};
ghost use Rattle.cs_same_states.specs.Slots.{flagged};
ghost use Rattle.cs_same_states.specs.Slots as model;
ghost use Rattle.cs_entries.specs.declared.node.Node.TheVariants as nodes;

use crate::pairs::{Pair, are_same_files};
use cs_entries::{FileKind, Node};
use std::alloc::{AllocError, Global};

/// Sets the flag of the file that is in the slot. If the slot has no file, or the file has no flag,
/// nothing changes.
fn set_flag(flags: &mut [bool], slot: Option<Node>)
    ensures { flags.new ≡ flagged flags.old slot }
{
    if let Some(Node::File(_, file)) = slot {
        if (file as usize) < flags.len() {
            flags[file as usize] = true;
        }
    }
}

/// Sets the flags of all files that are in these slots.
fn flag_all(flags: &mut [bool], slots: &[Option<Node>])
    ensures { flags.new ≡ fold flagged flags.old slots.now }
{
    for slot in slots {
        set_flag(flags, *slot);
    }
}

/// For each of the first `count` files, by its number, whether it is in one of these slots.
pub fn files_in_slots(
    alloc: Global,
    slots: &[Option<Node>],
    count: usize,
) -> Result<Vec<bool>, AllocError>
    ensures { IfOk result (λ flags. AreFlagged slots.now count flags.items) }
{
    let mut flags = vec![in alloc; false; count]?;
    flag_all(&mut flags, slots);
    Ok(flags)
}

/// The flag of the file with this number; false if it has none. (`flag_at` of `entries` and
/// `is_member` of cs_state do the same.)
pub fn flag_at(flags: &[bool], file: u32) -> bool
    ensures { result ≡ model.flag_at flags.now file }
{
    flags.get(file as usize).copied().unwrap_or(false)
}

/// Whether this file is in the slot; false for a slot with a directory and for an empty one.
/// (`is_held` of cs_different has the same body.)
fn is_file(slot: Option<Node>, file: u32) -> bool
    ensures { IsTrue result ↔ (file_in slot ≡ Some file) }
{
    match slot {
        Some(Node::File(_, other)) => other == file,
        _ => false,
    }
}

/// Whether the file is in the same slot in both lists, which have the same length. A file may be in
/// several slots: one that is the same is enough.
pub fn is_in_both(slots: &[Option<Node>], others: &[Option<Node>], file: u32) -> bool
    requires { length slots.now ≡ length others.now }
    ensures { IsInBoth slots.now others.now file → IsTrue result }
{
    for place in 0..slots.len() {
        if is_file(slots[place], file) && is_file(others[place], file) {
            return true;
        }
    }
    false
}

/// Whether both are of one kind.
fn is_same_kind(kind: FileKind, other: FileKind) -> bool
    ensures { IsTrue result → kind ≡ other }
{
    match (kind, other) {
        (FileKind::Regular, FileKind::Regular) | (FileKind::Symlink, FileKind::Symlink) => true,
        _ => false,
    }
}

/// Whether `file` after the first set is seen to have the same record as `other` after the second
/// set: they are of one kind, with equal bytes, owner, group and permissions. All bytes are
/// compared.
fn are_files_alike(
    alloc: Global,
    pair: &Pair<'_>,
    kind: FileKind,
    file: u32,
    another: FileKind,
    other: u32,
) -> Result<bool, AllocError>
    requires { IsPair pair.now }
    ensures { IfOk result (λ same. IsTrue same
        → AreFilesAlike pair.now (Some (nodes.File kind file)) (Some (nodes.File another other))) }
{
    if !is_same_kind(kind, another) {
        return Ok(false);
    }
    are_same_files(alloc, pair, file, other)
}

/// Whether two nodes, as the first set and the second set leave them in one slot, are seen to be
/// alike: the same directory, the same file, or two files with the same record. If both are the
/// same directory or file, its bytes and rights aren't compared here, but by `are_alike_by` in
/// `leaving`.
fn are_nodes_alike(
    alloc: Global,
    pair: &Pair<'_>,
    node: Node,
    other: Node,
) -> Result<bool, AllocError>
    requires { IsPair pair.now }
    ensures { IfOk result (λ same. IsTrue same → AreAlike pair.now (Some node) (Some other)) }
{
    if node == other {
        return Ok(true);
    }
    match (node, other) {
        (Node::File(kind, file), Node::File(another, number)) => {
            are_files_alike(alloc, pair, kind, file, another, number)
        }
        _ => Ok(false),
    }
}

/// Whether one slot, which the first set leaves as `slot` and the second as `other`, is seen to be
/// alike: empty after both, or with nodes that `are_nodes_alike` finds alike.
fn are_alike(
    alloc: Global,
    pair: &Pair<'_>,
    slot: Option<Node>,
    other: Option<Node>,
) -> Result<bool, AllocError>
    requires { IsPair pair.now }
    ensures { IfOk result (λ same. IsTrue same → AreAlike pair.now slot other) }
{
    match (slot, other) {
        (None, None) => Ok(true),
        (Some(node), Some(another)) => are_nodes_alike(alloc, pair, node, another),
        _ => Ok(false),
    }
}

/// Whether `are_alike` is true for each slot of the first set and the slot at the same place of the
/// second, `others`, which has the same length.
pub fn are_all_alike(
    alloc: Global,
    pair: &Pair<'_>,
    slots: &[Option<Node>],
    others: &[Option<Node>],
) -> Result<bool, AllocError>
    requires pair { IsPair pair.now }
    requires long { length slots.now ≡ length others.now }
    ensures { IfOk result
        (λ same. IsTrue same → (r : ℕ) → r < length slots.now
        → AreAlike pair.now (slot_at slots.now r) (slot_at others.now r)) }
{
    for place in 0..slots.len() {
        if !are_alike(alloc, pair, slots[place], others[place])? {
            return Ok(false);
        }
    }
    Ok(true)
}
