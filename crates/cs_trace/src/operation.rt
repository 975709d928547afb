//! The operations of a trace, after their lines were checked. Files and directories are named by
//! their numbers instead of their paths. A file's number counts files and symbolic links, those of
//! the start first; a directory's number counts directories from 0, the root. In versions 1 to 3 a
//! directory that is made again at its path has the number that it had.
ghost use Rattle.std.specs.Prelude.{◌≡◌};
ghost use Rattle.cs_trace.specs.Attributes.{target_of};

use cs_entries::{DirEntry, FileKind, Node};
use cs_names::{Bytes, Path};
use cs_start::Rights;

/// What a sync covers: which of the changes before it are on the disk after it. The table in
/// docs/MODEL.md, "What a sync covers", says more.
#[derive(Debug, Drop, PartialEq)]
pub enum Covers {
    /// A sync: everything.
    All,
    /// An fsync of the file with this number: its bytes, its size, its owner, group and mode, but
    /// none of its entries.
    File(u32),
    /// An fdatasync of the file with this number: its bytes and its size.
    Data(u32),
    /// An fsync_range: some bytes of a file, and its size.
    Range {
        /// The number of the file.
        file: u32,
        /// The offset of the first of the bytes.
        offset: u64,
        /// How many bytes. The range may end above the greatest `u64`.
        length: u64,
    },
    /// An fsync of a directory: the entries in it, and its own owner, group and mode.
    Directory {
        /// The number of the directory.
        number: u32,
        /// Its path at the operation's line, only for printing.
        path: Path,
    },
}

/// What a chmod or a chown is of: that whose owner, group and permissions are set.
#[derive(Debug, Drop, PartialEq)]
pub enum Target {
    /// The file or symbolic link with this number.
    File(u32),
    /// A directory.
    Directory {
        /// The number of the directory.
        number: u32,
        /// Its path at the operation's line, only for printing.
        path: Path,
    },
}

/// An operation of a trace. It names files and directories by their numbers, and an entry by its
/// directory's number and a name: the last name of the path in the entry, which is that of the
/// line. `kind` says whether a file is a regular file or a symbolic link.
#[derive(Debug, Drop, PartialEq)]
pub enum Operation {
    /// A new file without a byte, with the next number of a file.
    Creat {
        /// The entry of the file.
        entry: DirEntry,
        /// The file's number.
        file: u32,
        /// Its owner, group and permissions.
        rights: Rights,
    },
    /// A new directory. Its number is the next one; in versions 1 to 3 it is the earlier number if
    /// a directory was at the entry before.
    Mkdir {
        /// The entry of the directory.
        entry: DirEntry,
        /// The directory's number.
        directory: u32,
        /// Its owner, group and permissions.
        rights: Rights,
    },
    /// A new symbolic link, with the next number of a file. Its permissions are 777.
    Symlink {
        /// The entry of the symbolic link.
        entry: DirEntry,
        /// Its number.
        file: u32,
        /// Its owner, group and permissions.
        rights: Rights,
        /// Its target in UTF-8, which is its bytes.
        target: Bytes,
    },
    /// One more entry for a regular file (a hard link).
    Link {
        /// The new entry.
        entry: DirEntry,
        /// The number of the file, which has an entry already.
        file: u32,
    },
    /// An entry of a file or a symbolic link is removed. The file stays while it has another.
    Unlink {
        /// The entry that is removed.
        entry: DirEntry,
        /// Whether it held a regular file or a symbolic link.
        kind: FileKind,
        /// The number of the file that it held.
        file: u32,
    },
    /// An empty directory is removed, with its entry.
    Rmdir {
        /// The entry of the directory.
        entry: DirEntry,
        /// The directory's number.
        directory: u32,
    },
    /// What one entry holds is moved to another entry, and replaces what is there. If `from` and
    /// `to` are the same entry, nothing changes. A rename onto another path of the same file, which
    /// does nothing by rename(2), has that path as both `from` and `to`.
    Rename {
        /// The old entry.
        from: DirEntry,
        /// The new entry.
        to: DirEntry,
        /// What is moved: what `from` held.
        node: Node,
        /// What `to` held: it is replaced. None if it held nothing.
        replaced: Option<Node>,
    },
    /// Bytes are written from an offset on. A write of no byte changes nothing at any offset.
    Write {
        /// The number of the file.
        file: u32,
        /// The file's size before it, in bytes.
        size: u64,
        /// Where the bytes go in the file.
        offset: u64,
        /// The bytes; a byte between the size and the offset becomes zero.
        bytes: Bytes,
    },
    /// The file is cut, or filled up with zeros, to another length in bytes. If the length is its
    /// size, nothing changes.
    Truncate {
        /// The number of the file.
        file: u32,
        /// The file's size before it.
        size: u64,
        /// Its size after it.
        length: u64,
    },
    /// A chmod or a chown. If it sets what was set before, nothing changes.
    SetAttr {
        /// What it is of.
        target: Target,
        /// Owner, group and permissions before it.
        before: Rights,
        /// Owner, group and permissions after it.
        after: Rights,
    },
    /// A sync of everything, of a file, of its data or a range of it, or of a directory.
    Sync(Covers),
    /// A line that the application acknowledges to its users. The text isn't kept.
    Say,
}

impl Target {
    /// The target of a chmod or a chown of `node`, which is at the path: a file or symbolic link by
    /// its number alone (the path is dropped), or a directory by its number and path.
    pub(crate) fn of(node: Node, path: Path) -> Target
        ensures { result ≡ target_of node path }
    {
        match node {
            Node::Directory(number) => Target::Directory { number, path },
            Node::File(_, file) => Target::File(file),
        }
    }
}
