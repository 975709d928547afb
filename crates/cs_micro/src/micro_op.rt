//! The kinds of micro-operations, and how a list of them prints each.
ghost use Rattle.std.specs.Prelude.{◌≡◌, Some};
ghost use Rattle.cs_micro.specs.Texts.{kind_text, op_text};

use crate::attributes::{RightsText, TargetText};
use cs_entries::{DirEntry, FileKind, Node};
use cs_names::Bytes;
use cs_trace::{Rights, Target};
use std::fmt;

/// A micro-operation: a step that reaches the disk whole or not at all. It names files and
/// directories by their numbers, and an entry by its directory's number and a name: the last name
/// of the path in the entry, whose other names are only for printing.
#[derive(Debug, Drop)]
pub enum MicroOp {
    /// A file, a symbolic link or a directory is made, with its entry.
    CreateDirEntry {
        /// The new entry.
        entry: DirEntry,
        /// What is made.
        node: Node,
        /// Its owner, group and permissions.
        rights: Rights,
        /// The bytes that it is made with: a symbolic link's target. A file or a directory has
        /// none.
        bytes: Bytes,
    },
    /// An entry is removed. A file stays while it has another entry.
    DeleteDirEntry {
        /// The entry.
        entry: DirEntry,
        /// What it held.
        node: Node,
    },
    /// What an entry holds moves to another entry, and replaces what is there.
    MoveDirEntry {
        /// The old entry.
        from: DirEntry,
        /// The new entry.
        to: DirEntry,
        /// What is moved. By P2, each allowed set that has the move has what put it at `from`.
        node: Node,
        /// What it replaces at `to`; None if nothing is there.
        replaced: Option<Node>,
    },
    /// A new entry of a file that exists: one more path for it.
    LinkDirEntry {
        /// The new entry.
        entry: DirEntry,
        /// Whether the file is a regular file or a symbolic link.
        kind: FileKind,
        /// The number of the file.
        file: u32,
        /// What it replaces; only the first half of a rename replaces something.
        replaced: Option<Node>,
        /// Whether it is the first half of a rename into another directory. The next
        /// micro-operation is the second half: it removes the old entry.
        is_half: bool,
    },
    /// The file has `length` bytes from now on: it grows by zeros, or is cut.
    ChangeFileSize {
        /// The number of the file.
        file: u32,
        /// The new size, in bytes.
        length: u64,
    },
    /// Bytes are written into one block of a file.
    WriteBlock {
        /// The number of the file.
        file: u32,
        /// The block's number in the file, from 0.
        block: u64,
        /// The offset of the block in the file.
        start: u64,
        /// The offset of the bytes in the block.
        at: u64,
        /// At least one byte; all of them are in the block.
        bytes: Bytes,
    },
    /// A file, a symbolic link or a directory has this owner, group and permissions from now on.
    SetAttr {
        /// What it is of.
        target: Target,
        /// All three, also if the operation set only some of them.
        rights: Rights,
    },
    /// A line that the application acknowledges to its users, without its text.
    Say,
}

/// The word for what is made: `dir`, `file` or `symlink`. (`kind_word` of cs_list has the same
/// body.)
fn node_word(node: Node) -> &'static str
    ensures { result.now ≡ kind_text node }
{
    match node {
        Node::Directory(_) => "dir",
        Node::File(FileKind::Regular, _) => "file",
        Node::File(FileKind::Symlink, _) => "symlink",
    }
}

/// Prints the micro-operation as the list of a trace's micro-operations does, without its place:
/// its kind, and then its fields. The fields of an entry operation are its path or paths, with the
/// word for what is made or the number of the file that is linked; those of a change of size, the
/// file's number and the length; those of a write, the file's number, the block, the offset in it
/// and the number of bytes; and those of a `set_attr`, what it is of and the rights.
impl fmt::Display for MicroOp {
    ghost output = { λ op. Some (op_text op) };

    /// Prints one line without its end, as in `write_block 0 1 0 904`.
    fn fmt<W: fmt::Write>(&self, f: &mut fmt::Formatter<W>) -> fmt::Result {
        match self {
            MicroOp::CreateDirEntry { entry, node, .. } => {
                let path = &entry.path;
                write!(f, "create_dir_entry {path} {}", node_word(*node))
            }
            MicroOp::DeleteDirEntry { entry, .. } => {
                let path = &entry.path;
                write!(f, "delete_dir_entry {path}")
            }
            MicroOp::MoveDirEntry { from, to, .. } => {
                let (from, to) = (&from.path, &to.path);
                write!(f, "move_dir_entry {from} {to}")
            }
            MicroOp::LinkDirEntry { entry, file, .. } => {
                let path = &entry.path;
                write!(f, "link_dir_entry {path} {file}")
            }
            MicroOp::ChangeFileSize { file, length } => {
                write!(f, "change_file_size {file} {length}")
            }
            MicroOp::WriteBlock {
                file,
                block,
                at,
                bytes,
                ..
            } => {
                let count = bytes.as_slice().len();
                write!(f, "write_block {file} {block} {at} {count}")
            }
            MicroOp::SetAttr { target, rights } => {
                let (target, rights) = (TargetText(target), RightsText(rights));
                write!(f, "set_attr {target} {rights}")
            }
            MicroOp::Say => f.write_str("say"),
        }
    }
}
