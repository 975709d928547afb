//! The file, symbolic link or directory at a path at the start, and the record that it becomes.
ghost use Rattle.std.specs.Prelude.{◌≡◌, ◌↔◌, false, IfOk, IsTrue};
ghost use Rattle.cs_tree_model.specs.Fresh.{fresh_record};
ghost use Rattle.cs_tree_model.specs.Record.{metadata_of, metadata_of_ref};
ghost use Rattle.cs_start.specs.Entries.{file_mode, kind_bits, record_of};

use crate::rights::Rights;
use crate::shared::Shared;
use cs_entries::{FileKind, Node};
use cs_tree_model::{Content, DMDIR, DMSYMLINK, Metadata};
use std::alloc::AllocError;

/// A file, a symbolic link or a directory at the start, without its path.
#[derive(Debug, Drop)]
pub struct StartEntry {
    /// What it is, with its number.
    pub node: Node,
    /// Whether it is a file or a symbolic link whose own start line has this path. False for a
    /// further path of a file, which a link gives it, and for a directory.
    pub own: bool,
    /// Its owner, group and permissions.
    pub rights: Shared<Rights>,
    /// The bytes of a file, or the target of a symbolic link; a directory has none.
    pub content: Shared<Content>,
}

/// The bits of a record's mode, above the permissions, that say what it is of: DMDIR for a
/// directory, DMSYMLINK of 9P2000.u for a symbolic link, none for a file.
fn kind_bits(node: Node) -> u32
    ensures { result ≡ kind_bits node }
{
    match node {
        Node::Directory(_) => DMDIR,
        Node::File(FileKind::Regular, _) => 0,
        Node::File(FileKind::Symlink, _) => DMSYMLINK,
    }
}

/// The mode of a record: the permissions, and above them the bits of its kind.
fn file_mode(node: Node, permissions: u16) -> u32
    ensures { result ≡ file_mode node permissions }
{
    kind_bits(node) + u32::from(permissions)
}

impl StartEntry {
    /// The entry for a further path of the file (`own` is false). It shares the rights and the
    /// content with this one.
    pub fn try_clone(&self) -> Result<StartEntry, AllocError>
        ensures { IfOk result (λ copy. copy ≡ record self.now { own = false }) }
    {
        Ok(StartEntry {
            node: self.node,
            own: false,
            rights: self.rights.try_clone()?,
            content: self.content.try_clone()?,
        })
    }

    /// The mode of the entry's record, with the bits of its kind.
    fn mode(&self) -> u32
        ensures { result ≡ file_mode self.now.node self.now.rights.permissions }
    {
        file_mode(self.node, self.rights.get().permissions)
    }

    /// The metadata of the entry's record, with this number. No client has changed it: its version
    /// and times are 0, and the user who changed it last (muid) is its owner.
    pub(crate) fn metadata(&self, number: u64) -> Metadata<'_>
        ensures { metadata_of_ref result
            ≡ metadata_of (fresh_record number (record_of self.now)) }
    {
        let rights = self.rights.get();
        Metadata {
            number,
            vers: 0,
            owner: &rights.owner,
            group: &rights.group,
            mode: self.mode(),
            atime: 0,
            mtime: 0,
            muid: &rights.owner,
            kind: self.content.get().kind(),
        }
    }

    /// Whether the records of both entries are equal but for their numbers: owner, group, mode and
    /// content are. It takes no memory.
    pub(crate) fn has_same_record(&self, other: &StartEntry) -> bool
        ensures { IsTrue result ↔ (record_of self.now ≡ record_of other.now) }
    {
        let rights = self.rights.get();
        let other_rights = other.rights.get();
        rights.owner == other_rights.owner
            && rights.group == other_rights.group
            && self.mode() == other.mode()
            && self.content.get() == other.content.get()
    }
}
