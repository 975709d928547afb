//! What an operation does to what entries hold, and to the list of the entries at which directories
//! were made (their homes). After an error, the caller drops the whole state.
ghost use Rattle.std.specs.Prelude.{◌≡◌, ◌<◌, ◌^◌, OnOk, length};
ghost use Rattle.cs_entries.specs.DirEntries.{entry_of};
ghost use Rattle.cs_entries.specs.Entries as entries;
ghost use Rattle.cs_entries.specs.Tables.{table_after};
ghost use Rattle.cs_trace.specs.Operations.{entry_op, homes_after};

use crate::homes::Homes;
use crate::operation::Operation;
use crate::tree::Tree;
use cs_entries::{DirEntry, FileKind, Node};
use std::alloc::{AllocError, Global};

/// Moves what the entry `from` holds to the entry `to`, over what that held. If both are the same
/// entry, nothing changes; nor if `from` holds nothing, which no operation that was checked has.
/// `node` and `replaced` are for the contract only.
#[tactic(auto, using(crate::proofs::Moving::move_same, crate::proofs::Moving::move_none, crate::proofs::Moving::move_some))]
fn move_node(
    alloc: Global,
    tree: &mut Tree,
    from: &DirEntry,
    to: &DirEntry,
    node: Node,
    replaced: Option<Node>,
) -> Result<(), AllocError>
    ensures { OnOk result (tree.new
        ≡ table_after tree.old (entry_op (Operation.Rename from.now to.now node replaced))) }
{
    if from.is_same_entry(to) {
        return Ok(());
    }
    let Some(held) = tree.take(from) else {
        return Ok(());
    };
    tree.put(alloc, to, held)?;
    Ok(())
}

/// Puts a node at an entry, in place of what that held.
fn put_node(alloc: Global, tree: &mut Tree, entry: &DirEntry, node: Node) -> Result<(), AllocError>
    ensures { OnOk result (tree.new
        ≡ table_after tree.old (entries.Create (entry_of entry.now) node)) }
{
    tree.put(alloc, entry, node)?;
    Ok(())
}

/// Applies the operation to what the entries hold. One that makes, removes or moves no entry
/// changes nothing.
pub(crate) fn change_entries(
    alloc: Global,
    tree: &mut Tree,
    operation: &Operation,
) -> Result<(), AllocError>
    ensures { OnOk result (tree.new ≡ table_after tree.old (entry_op operation.now)) }
{
    match operation {
        Operation::Creat { entry, file, .. } => {
            put_node(alloc, tree, entry, Node::File(FileKind::Regular, *file))
        }
        Operation::Mkdir {
            entry,
            directory,
            ..
        } => put_node(alloc, tree, entry, Node::Directory(*directory)),
        Operation::Symlink { entry, file, .. } => {
            put_node(alloc, tree, entry, Node::File(FileKind::Symlink, *file))
        }
        Operation::Link { entry, file } => {
            put_node(alloc, tree, entry, Node::File(FileKind::Regular, *file))
        }
        Operation::Unlink { entry, .. } | Operation::Rmdir { entry, .. } => {
            tree.take(entry);
            Ok(())
        }
        Operation::Rename {
            from,
            to,
            node,
            replaced,
        } => move_node(alloc, tree, from, to, *node, *replaced),
        Operation::Write { .. }
        | Operation::Truncate { .. }
        | Operation::SetAttr { .. }
        | Operation::Sync(_)
        | Operation::Say => Ok(()),
    }
}

/// Applies the operation to the homes of directories: a mkdir of a directory with the next number
/// adds its entry. Any other operation changes nothing, also a rename or an rmdir of a directory.
pub(crate) fn change_homes(
    alloc: Global,
    homes: &mut Homes,
    operation: &Operation,
) -> Result<(), AllocError>
    requires { length homes.old < 2 ^ 32 }
    ensures { OnOk result (homes.new ≡ homes_after homes.old operation.now) }
{
    match operation {
        Operation::Mkdir {
            entry,
            directory,
            ..
        } => {
            // A directory that is made again at its entry has the number that it had.
            if *directory as usize == homes.len() {
                homes.push(alloc, entry.directory, entry.name())?;
            }
            Ok(())
        }
        Operation::Creat { .. }
        | Operation::Symlink { .. }
        | Operation::Link { .. }
        | Operation::Unlink { .. }
        | Operation::Rmdir { .. }
        | Operation::Rename { .. }
        | Operation::Write { .. }
        | Operation::Truncate { .. }
        | Operation::SetAttr { .. }
        | Operation::Sync(_)
        | Operation::Say => Ok(()),
    }
}
