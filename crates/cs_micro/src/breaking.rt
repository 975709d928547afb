//! Breaks a list of operations into micro-operations and sync points. After an error, some may have
//! been appended; `micros_and_syncs` then drops both lists.
ghost use Rattle.std.specs.Prelude.{◌≡◌, ◌++◌, ◌∷◌, [], ◌+◌, ◌<◌, length, IfOk, IsErr, OnOk};
ghost use Rattle.std.specs.List.{All};
ghost use Rattle.cs_micro.specs.MicroOperations.{IsWithinLimit, micro_operations_of, micros_of};
ghost use Rattle.cs_micro.specs.MicroOperations.{set_attr_micros};
ghost use Rattle.cs_micro.specs.SyncPoints.{points_after, sync_points_of};

use crate::copies::{copy_covers, copy_target};
use crate::counting::is_no_change;
use crate::micro_op::MicroOp;
use crate::moving::{push_create, push_delete, push_link, push_rename};
use crate::resizing::{push_truncate, push_write};
use crate::sync_point::SyncPoint;
use cs_entries::{FileKind, Node};
use cs_trace::{Operation, Rights, Target, Version};
use std::alloc::{AllocError, Global};

/// Appends a change of the target's owner, group and permissions from `before` to `after`; nothing
/// if they are equal. The micro-operation has all three as they are after it.
fn push_set_attr(
    alloc: Global,
    ops: &mut Vec<MicroOp>,
    target: &Target,
    before: &Rights,
    after: &Rights,
) -> Result<(), AllocError>
    ensures value { OnOk result (ops.new.items ≡ ops.old.items
        ++ set_attr_micros target.now before.now after.now) }
    ensures memory { IsErr result → 0 < length (set_attr_micros target.now before.now after.now) }
{
    if is_no_change(before, after) {
        return Ok(());
    }
    ops.push(MicroOp::SetAttr {
        target: copy_target(alloc, target)?,
        rights: after.try_clone()?,
    })?;
    Ok(())
}

/// Appends an acknowledged line, without its text.
fn push_say(ops: &mut Vec<MicroOp>) -> Result<(), AllocError>
    ensures { OnOk result (ops.new.items ≡ ops.old.items ++ MicroOp.Say ∷ []) }
{
    ops.push(MicroOp::Say)?;
    Ok(())
}

/// Appends the micro-operations of one operation, as many as `micro_count` says; none for a sync.
/// After an error, some of them may have been appended.
fn push_micros(
    alloc: Global,
    ops: &mut Vec<MicroOp>,
    version: Version,
    operation: &Operation,
) -> Result<(), AllocError>
    requires { IsWithinLimit version operation.now }
    ensures value { OnOk result (ops.new.items ≡ ops.old.items ++ micros_of version operation.now) }
    ensures memory { IsErr result → 0 < length (micros_of version operation.now) }
{
    match operation {
        Operation::Creat {
            entry,
            file,
            rights,
        } => {
            let node = Node::File(FileKind::Regular, *file);
            push_create(alloc, ops, entry, node, rights, &[])
        }
        Operation::Mkdir {
            entry,
            directory,
            rights,
        } => push_create(alloc, ops, entry, Node::Directory(*directory), rights, &[]),
        Operation::Symlink {
            entry,
            file,
            rights,
            target,
        } => {
            let node = Node::File(FileKind::Symlink, *file);
            push_create(alloc, ops, entry, node, rights, target.as_slice())
        }
        Operation::Unlink { entry, kind, file } => {
            push_delete(alloc, ops, entry, Node::File(*kind, *file))
        }
        Operation::Rmdir { entry, directory } => {
            push_delete(alloc, ops, entry, Node::Directory(*directory))
        }
        Operation::Rename {
            from,
            to,
            node,
            replaced,
        } => push_rename(alloc, ops, version, from, to, *node, *replaced),
        Operation::Link { entry, file } => push_link(alloc, ops, entry, *file),
        Operation::Write {
            file,
            size,
            offset,
            bytes,
        } => push_write(alloc, ops, version, *file, *size, *offset, bytes.as_slice()),
        Operation::Truncate { file, size, length } => {
            push_truncate(alloc, ops, version, *file, *size, *length)
        }
        Operation::SetAttr {
            target,
            before,
            after,
        } => push_set_attr(alloc, ops, target, before, after),
        Operation::Sync(_) => Ok(()),
        Operation::Say => push_say(ops),
    }
}

/// Appends the sync point of the operation, which comes after `count` micro-operations; nothing if
/// the operation is no sync.
fn push_sync(
    alloc: Global,
    syncs: &mut Vec<SyncPoint>,
    count: usize,
    operation: &Operation,
) -> Result<(), AllocError>
    ensures value { OnOk result (syncs.new.items ≡ syncs.old.items
        ++ points_after count operation.now) }
    ensures memory { IsErr result → 0 < length (points_after count operation.now) }
{
    if let Operation::Sync(covers) = operation {
        syncs.push(SyncPoint {
            at: count,
            covers: copy_covers(alloc, covers)?,
        })?;
    }
    Ok(())
}

/// The micro-operations of these operations, and their sync points, both in the order of the
/// operations. Memory can run out only if there is at least one of either.
pub fn micros_and_syncs(
    alloc: Global,
    version: Version,
    operations: &[Operation],
) -> Result<(Vec<MicroOp>, Vec<SyncPoint>), AllocError>
    requires { All (IsWithinLimit version) operations.now }
    ensures ops { IfOk result (λ both. both.0.items
        ≡ micro_operations_of version operations.now) }
    ensures syncs { IfOk result (λ both. both.1.items
        ≡ sync_points_of version operations.now) }
    ensures memory { IsErr result
        → 0 < length (micro_operations_of version operations.now)
        + length (sync_points_of version operations.now) }
{
    let mut ops = Vec::new(alloc);
    let mut syncs = Vec::new(alloc);
    for operation in operations {
        push_sync(alloc, &mut syncs, ops.len(), operation)?;
        push_micros(alloc, &mut ops, version, operation)?;
    }
    Ok((ops, syncs))
}
