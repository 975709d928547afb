//! What a single micro-operation does to entries and directories, as tests. It touches an entry if
//! it makes, deletes or links it, or moves something from or to it.
ghost use Rattle.std.specs.Prelude.{◌≡◌};
ghost use Rattle.cs_entries.specs.DirEntries.{entry_of};
ghost use Rattle.cs_entries.specs.Entries.{touches};
ghost use Rattle.cs_entries.specs.Rules.{makes, moves_directory, removes};
ghost use Rattle.cs_micro.specs.Legal.{entry_op};
ghost use Rattle.cs_apm.specs.Rules as rules;

use cs_entries::{DirEntry, Node};
use cs_micro::MicroOp;
use cs_trace::Target;

/// Whether the micro-operation touches the entry: makes, deletes or links it, or moves something
/// from or to it. A change of what the entry holds (its bytes, its owner) doesn't touch it.
pub fn touches(op: &MicroOp, at: &DirEntry) -> bool
    ensures { result ≡ touches (entry_op op.now) (entry_of at.now) }
{
    match op {
        MicroOp::CreateDirEntry { entry, .. } => entry.is_same_entry(at),
        MicroOp::DeleteDirEntry { entry, .. } => entry.is_same_entry(at),
        MicroOp::LinkDirEntry { entry, .. } => entry.is_same_entry(at),
        MicroOp::MoveDirEntry { from, to, .. } => from.is_same_entry(at) || to.is_same_entry(at),
        MicroOp::ChangeFileSize { .. }
        | MicroOp::WriteBlock { .. }
        | MicroOp::SetAttr { .. }
        | MicroOp::Say => false,
    }
}

/// Whether the micro-operation touches, as `touches` says, an entry in the directory with this
/// number. The directory's own entry is in its parent, and doesn't count.
pub fn touches_entry_of(op: &MicroOp, directory: u32) -> bool
    ensures { result ≡ rules.touches_entry_of op.now directory }
{
    match op {
        MicroOp::CreateDirEntry { entry, .. } => entry.directory == directory,
        MicroOp::DeleteDirEntry { entry, .. } => entry.directory == directory,
        MicroOp::LinkDirEntry { entry, .. } => entry.directory == directory,
        MicroOp::MoveDirEntry { from, to, .. } => {
            from.directory == directory || to.directory == directory
        }
        MicroOp::ChangeFileSize { .. }
        | MicroOp::WriteBlock { .. }
        | MicroOp::SetAttr { .. }
        | MicroOp::Say => false,
    }
}

/// Whether the micro-operation makes the directory with this number. A move of it doesn't make it.
pub fn makes(op: &MicroOp, directory: u32) -> bool
    ensures { result ≡ makes (entry_op op.now) directory }
{
    match op {
        MicroOp::CreateDirEntry {
            node: Node::Directory(number),
            ..
        } => *number == directory,
        _ => false,
    }
}

/// Whether the micro-operation removes the directory with this number, or replaces it by a move.
pub fn removes(op: &MicroOp, directory: u32) -> bool
    ensures { result ≡ removes (entry_op op.now) directory }
{
    match op {
        MicroOp::DeleteDirEntry {
            node: Node::Directory(number),
            ..
        } => *number == directory,
        MicroOp::MoveDirEntry {
            replaced: Some(Node::Directory(number)),
            ..
        } => *number == directory,
        _ => false,
    }
}

/// Whether the micro-operation sets owner, group and permissions of the directory with this number,
/// which is there already: a `set_attr`.
pub fn sets_directory(op: &MicroOp, directory: u32) -> bool
    ensures { result ≡ rules.sets_directory op.now directory }
{
    match op {
        MicroOp::SetAttr {
            target: Target::Directory { number, .. },
            ..
        } => *number == directory,
        _ => false,
    }
}

/// Whether the micro-operation makes or removes the directory with this number (also by a move that
/// replaces it), or sets its owner, group and permissions. Two of these are in order, by P2. The
/// last of them settles whether the directory is there, and with which rights.
pub fn settles(op: &MicroOp, directory: u32) -> bool
    ensures { result ≡ rules.settles op.now directory }
{
    makes(op, directory) || removes(op, directory) || sets_directory(op, directory)
}

/// Whether the micro-operation moves a directory. Only traces of version 4 have such moves.
pub fn moves_directory(op: &MicroOp) -> bool
    ensures { result ≡ moves_directory (entry_op op.now) }
{
    match op {
        MicroOp::MoveDirEntry {
            node: Node::Directory(_),
            ..
        } => true,
        _ => false,
    }
}
