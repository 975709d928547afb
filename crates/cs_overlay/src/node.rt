//! The nodes of an overlay: the files and directories that differ from the lower tree's.
ghost use Rattle.std.specs.Prelude.{◌≡◌, ◌+◌, ◌<◌, ◌^◌, ℕ, List, Option, None, Some, OnOk, OnErr};
ghost use Rattle.std.specs.Prelude.{IfOk, IfSome, IsSome, length};
ghost use Rattle.std.specs.Option.{option_copied};
ghost use Rattle.cs_tree_model.specs.Effects.{new_record, record_with_length};
ghost use Rattle.cs_tree_model.specs.Record.{kind_of};
ghost use Rattle.cs_tree_model.specs.Stores.{changed_record, stamped_write};
ghost use Rattle.cs_tree_model.specs.Table.{node_in};
ghost use Rattle.cs_tree_model.specs.Tree.{content_numbered};
ghost use Rattle.cs_overlay.specs.Layers.{content_over, own_in, with_answer};
ghost use Rattle.cs_overlay.specs.Layers.{IsCopy, IsNewFile, IsNode, IsStep, HidesPast};

use crate::answers::Answers;
use crate::patched::Patched;
use cs_names::{Name, UserName};
use cs_tree_model::{Change, Kind, MetadataBuf, New, Stamp, TreeRead, is_directory_mode};
use std::alloc::{AllocError, Global};

/// What a node has of its own: a directory's answers for names, or a file's blocks and length.
#[derive(Drop)]
pub enum Body {
    /// For some names, which file has them; the lower directory has the rest.
    Directory(Answers),
    /// The file's length, and the blocks that changed.
    File(Patched),
}

impl Body {
    /// The body of a copy of a lower file or directory, which shows the same. It takes no memory.
    fn of_copy(alloc: Global, kind: Kind) -> Body
        ensures content { (low : Option (List ℕ)) → kind ≡ kind_of low
            → content_over low result ≡ low }
        ensures hides { (low : Option (List ℕ)) → HidesPast low result }
        ensures own { (x : List ℕ) → own_in result x ≡ None }
    {
        match kind {
            Kind::Directory => Body::Directory(Answers::new(alloc)),
            Kind::File { length } => Body::File(Patched::of_lower(alloc, length)),
        }
    }

    /// The directory's own answer for a name: the number of its file, or `Some(None)` if no file
    /// has it. None if there is no own answer, or if this is a file's body.
    pub fn answer(&self, name: &str) -> Option<Option<u64>>
        ensures { result ≡ own_in self.now name.now }
    {
        match self {
            Body::Directory(answers) => answers.get(name),
            Body::File(_) => None,
        }
    }
}

/// A file or directory that may differ from the lower tree's of its number, or whose number the
/// lower tree doesn't have.
#[derive(Drop)]
pub struct Node {
    /// The number of its directory; the root's is the root.
    pub parent: u64,
    /// Its name in that directory; None only for the root.
    pub name: Option<Name>,
    /// All fields of its record, its kind included.
    pub metadata: MetadataBuf,
    /// What it has over the lower tree's file or directory of its number.
    pub body: Body,
}

impl Node {
    /// A node that shows what the lower tree has at the number; None if the lower tree has nothing
    /// there. It copies the record's fields and the name, but no byte of a file and no entry of a
    /// directory. The only error is that memory runs out.
    pub fn copy_of<L: TreeRead>(
        alloc: Global,
        lower: &L,
        number: u64,
    ) -> Result<Option<Node>, AllocError>
        ensures copy { IfOk result (λ o. IfSome o (IsCopy (L.tree lower.now) number)) }
        ensures there { OnOk result
            (IsSome (node_in (L.tree lower.now) number) → IfOk result IsSome) }
    {
        let Some(metadata) = lower.record(number) else {
            return Ok(None);
        };
        let Some(parent) = lower.parent_of(number) else {
            // each file has a directory, and the root's is the root
            unreachable!();
        };
        let name = try_clone_name(lower.name_of(number))?;
        let metadata = metadata.to_owned()?;
        let body = Body::of_copy(alloc, metadata.kind);
        Ok(Some(Node {
            parent,
            name,
            metadata,
            body,
        }))
    }

    /// The node of a new file, or of a new directory if the mode has DMDIR, which the stamp's user
    /// made at the stamp's moment. It has no bytes or entries, and version 0; the user is its owner
    /// and last writer. The caller's number is one that the lower tree doesn't have.
    pub fn of_new(
        alloc: Global,
        number: u64,
        parent: u64,
        name: Name,
        group: UserName,
        new: New,
        stamp: &Stamp,
    ) -> Result<Node, AllocError>
        ensures { IfOk result
            (IsNewFile parent name (new_record number group new stamp.entry.now)) }
    {
        let owner = stamp.user.try_clone()?;
        let muid = stamp.user.try_clone()?;
        let (kind, body) = if is_directory_mode(new.mode) {
            (Kind::Directory, Body::Directory(Answers::new(alloc)))
        } else {
            // the lower tree has no file of this number, so none of its bytes show
            let empty = Patched::of_lower(alloc, 0);
            (Kind::File { length: 0 }, Body::File(empty))
        };
        let metadata = MetadataBuf {
            number,
            vers: 0,
            owner,
            group,
            mode: new.mode,
            atime: stamp.now,
            mtime: stamp.now,
            muid,
            kind,
        };
        Ok(Node {
            parent,
            name: Some(name),
            metadata,
            body,
        })
    }

    /// Sets the directory's answer for a name: the number of its file, or None if no file has it.
    /// Callers pass the node of a directory; that of a file stays as it is. After an error the node
    /// is unchanged.
    pub fn insert_answer(&mut self, name: Name, answer: Option<u64>) -> Result<(), AllocError>
        ensures ok { OnOk result (self.new ≡ with_answer self.old name answer) }
        ensures err { OnErr result (self.new ≡ self.old) }
    {
        if let Body::Directory(answers) = &mut self.body {
            answers.insert(name, answer)?;
        }
        Ok(())
    }

    /// Replaces the directory's answer for a name, which the caller knows to have one (so the node
    /// is a directory's). It takes no memory, unlike `insert_answer`.
    pub fn set_answer(&mut self, name: &str, answer: Option<u64>)
        requires { IsSome (own_in self.old.body name.now) }
        ensures { self.new ≡ with_answer self.old name.now answer }
    {
        match &mut self.body {
            Body::Directory(answers) => answers.replace(name, answer),
            // a file's body has no answers
            Body::File(_) => unreachable!(),
        }
    }

    /// Writes bytes, at least one, into the file at an offset, and stamps the node. `number` is the
    /// file's, here and in the lower tree. Only the blocks that the bytes touch are copied. After
    /// an error no read shows a difference. Callers pass the node of a file; that of a directory is
    /// only stamped.
    pub fn write<L: TreeRead>(
        &mut self,
        alloc: Global,
        lower: &L,
        number: u64,
        offset: u64,
        bytes: &[u8],
        stamp: Stamp,
    ) -> Result<(), AllocError>
        requires vers { self.old.metadata.vers + 1 < 2 ^ 32 }
        requires some { 0 < length bytes.now }
        requires room { offset + length bytes.now < 2 ^ 63 }
        requires node { IsNode (content_numbered (L.tree lower.now) number) number self.old }
        ensures ok { OnOk result
            (IsStep (content_numbered (L.tree lower.now) number) number
            (stamped_write offset bytes.now stamp) self.old self.new) }
        ensures err { OnErr result
            (IsStep (content_numbered (L.tree lower.now) number) number (λ r. r) self.old
            self.new) }
    {
        if let Body::File(file) = &mut self.body {
            file.write_at(alloc, lower, number, offset, bytes)?;
            self.metadata.kind = Kind::File { length: file.size };
        }
        self.metadata.stamp(stamp);
        Ok(())
    }

    /// Sets the file's length in bytes, and its mtime and muid to the stamp's. The version is
    /// unchanged. After an error no read shows a difference. Callers pass the node of a file; that
    /// of a directory gets only mtime and muid.
    fn set_length(&mut self, length: u64, stamp: Stamp) -> Result<(), AllocError>
        ensures ok { OnOk result
            ((low : Option (List ℕ)) (m : ℕ) → IsNode low m self.old
            → IsStep low m
            (λ r. record (record_with_length length r) { mtime = stamp.now; muid = stamp.user })
            self.old self.new) }
        ensures err { OnErr result
            ((low : Option (List ℕ)) (m : ℕ) → IsNode low m self.old
            → IsStep low m (λ r. r) self.old self.new) }
        ensures vers { self.new.metadata.vers ≡ self.old.metadata.vers }
    {
        if let Body::File(file) = &mut self.body {
            file.resize(length)?;
            self.metadata.kind = Kind::File { length };
        }
        self.metadata.mtime = stamp.now;
        self.metadata.muid = stamp.user;
        Ok(())
    }

    /// Sets the fields that a change has, except the name, and counts the change in the version.
    /// `group` is a copy of the change's group, which the caller makes before it changes anything.
    /// Only setting a length can fail, and then no read shows a difference.
    pub fn change(
        &mut self,
        fields: &Change,
        group: Option<UserName>,
        stamp: Stamp,
    ) -> Result<(), AllocError>
        requires vers { self.old.metadata.vers + 1 < 2 ^ 32 }
        requires group { group ≡ fields.now.group }
        ensures ok { OnOk result
            ((low : Option (List ℕ)) (n : ℕ) → IsNode low n self.old
            → (IsSome fields.now.length → IsSome (content_over low self.old.body))
            → IsStep low n (changed_record fields.now stamp) self.old self.new) }
        ensures err { OnErr result
            ((low : Option (List ℕ)) (n : ℕ) → IsNode low n self.old
            → IsStep low n (λ r. r) self.old self.new) }
    {
        if let Some(length) = fields.length {
            self.set_length(length, stamp)?;
        }
        self.metadata
            .set_attributes(fields.mode, group, fields.mtime);
        Ok(())
    }
}

/// A copy of a name; None if there is none. The only error is that memory runs out.
/// (`try_clone_name` of cs_run has the same body.)
pub fn try_clone_name(name: Option<&Name>) -> Result<Option<Name>, AllocError>
    ensures { IfOk result (λ copy. copy ≡ option_copied name.entry) }
{
    match name {
        Some(name) => Ok(Some(name.try_clone()?)),
        None => Ok(None),
    }
}
