//! Appends what changes entries of directories. After an error, some of the micro-operations may
//! have been appended.
ghost use Rattle.std.specs.Prelude.{◌≡◌, ◌++◌, ◌∷◌, [], ◌<◌, length, IsErr, None, OnOk, true};
ghost use Rattle.std.specs.Prelude.{false};
ghost use Rattle.cs_entries.specs.declared.node.FileKind.TheVariants.{Regular};
ghost use Rattle.cs_micro.specs.MicroOperations.{halves, rename_micros};

use crate::counting::comes_in_halves;
use crate::micro_op::MicroOp;
use cs_entries::{DirEntry, FileKind, Node};
use cs_names::Bytes;
use cs_trace::{Rights, Version};
use std::alloc::{AllocError, Global};

/// Appends the making of a directory, a file or a symbolic link with its entry. It has these bytes
/// from the beginning: the target of a symbolic link, none for others.
pub fn push_create(
    alloc: Global,
    ops: &mut Vec<MicroOp>,
    entry: &DirEntry,
    node: Node,
    rights: &Rights,
    bytes: &[u8],
) -> Result<(), AllocError>
    ensures { OnOk result (ops.new.items ≡ ops.old.items
        ++ MicroOp.CreateDirEntry entry.now node rights.now bytes.now ∷ []) }
{
    ops.push(MicroOp::CreateDirEntry {
        entry: entry.try_clone(alloc)?,
        node,
        rights: rights.try_clone()?,
        bytes: Bytes::copy_of(alloc, bytes)?,
    })?;
    Ok(())
}

/// Appends the removal of an entry; `node` is what it holds.
pub fn push_delete(
    alloc: Global,
    ops: &mut Vec<MicroOp>,
    entry: &DirEntry,
    node: Node,
) -> Result<(), AllocError>
    ensures { OnOk result (ops.new.items ≡ ops.old.items
        ++ MicroOp.DeleteDirEntry entry.now node ∷ []) }
{
    ops.push(MicroOp::DeleteDirEntry {
        entry: entry.try_clone(alloc)?,
        node,
    })?;
    Ok(())
}

/// Appends one more entry of a regular file (a hard link). The entry holds nothing before.
pub fn push_link(
    alloc: Global,
    ops: &mut Vec<MicroOp>,
    entry: &DirEntry,
    file: u32,
) -> Result<(), AllocError>
    ensures { OnOk result (ops.new.items ≡ ops.old.items
        ++ MicroOp.LinkDirEntry entry.now Regular file None false ∷ []) }
{
    ops.push(MicroOp::LinkDirEntry {
        entry: entry.try_clone(alloc)?,
        kind: FileKind::Regular,
        file,
        replaced: None,
        is_half: false,
    })?;
    Ok(())
}

/// Appends the two halves of a rename of a file or a symbolic link: its new entry, which replaces
/// what is there, and then the removal of the old one.
fn push_halves(
    alloc: Global,
    ops: &mut Vec<MicroOp>,
    from: &DirEntry,
    to: &DirEntry,
    kind: FileKind,
    file: u32,
    replaced: Option<Node>,
) -> Result<(), AllocError>
    ensures { OnOk result (ops.new.items ≡ ops.old.items
        ++ halves from.now to.now kind file replaced) }
{
    ops.push(MicroOp::LinkDirEntry {
        entry: to.try_clone(alloc)?,
        kind,
        file,
        replaced,
        is_half: true,
    })?;
    push_delete(alloc, ops, from, Node::File(kind, file))
}

/// Appends a move to another entry as one micro-operation. `replaced` is what that entry holds.
fn push_move(
    alloc: Global,
    ops: &mut Vec<MicroOp>,
    from: &DirEntry,
    to: &DirEntry,
    node: Node,
    replaced: Option<Node>,
) -> Result<(), AllocError>
    ensures { OnOk result (ops.new.items ≡ ops.old.items
        ++ MicroOp.MoveDirEntry from.now to.now node replaced ∷ []) }
{
    ops.push(MicroOp::MoveDirEntry {
        from: from.try_clone(alloc)?,
        to: to.try_clone(alloc)?,
        node,
        replaced,
    })?;
    Ok(())
}

/// Appends the rename of an entry: two halves if `comes_in_halves` says so, else one move; nothing
/// if `from` and `to` are the same entry. A directory always has one move.
pub fn push_rename(
    alloc: Global,
    ops: &mut Vec<MicroOp>,
    version: Version,
    from: &DirEntry,
    to: &DirEntry,
    node: Node,
    replaced: Option<Node>,
) -> Result<(), AllocError>
    ensures value { OnOk result (ops.new.items ≡ ops.old.items
        ++ rename_micros version from.now to.now node replaced) }
    ensures memory { IsErr result
        → 0 < length (rename_micros version from.now to.now node replaced) }
{
    if from.is_same_entry(to) {
        return Ok(());
    }
    if let Node::File(kind, file) = node {
        if comes_in_halves(version, from, to) {
            return push_halves(alloc, ops, from, to, kind, file, replaced);
        }
    }
    push_move(alloc, ops, from, to, node, replaced)
}
