//! The attributes of the files and directories while a trace is read: their owner, group and
//! permissions, called rights. They are kept in version 2 and later, which have chmod and chown. An
//! error means out of memory; then the caller drops them, so no clause says what is left.
ghost use Rattle.std.specs.Prelude.{◌≡◌, ◌∷◌, ◌++◌, [], OnOk, option_map, slice_set};
ghost use Rattle.cs_trace.specs.Attributes.{attributes_after, no_attributes, rights_at};
ghost use Rattle.cs_trace.specs.Attributes.{rights_with, with_directory, with_file, with_set};
ghost use Rattle.cs_trace.specs.Kept.{attributes_of, with_node};

use crate::operation::{Operation, Target};
use crate::rights::shared_rights;
use cs_entries::Node;
use cs_start::{Rights, Shared};
use std::alloc::{AllocError, Global};

/// Owner, group and permissions of each file, symbolic link and directory now.
#[derive(Drop)]
pub(crate) struct Attributes {
    /// The rights of each file and symbolic link, by its number, also if it was removed.
    pub(crate) files: Vec<Shared<Rights>>,
    /// The rights of each directory, by its number. In versions 2 and 3 several directories of one
    /// path have one number: the last counts.
    pub(crate) directories: Vec<Shared<Rights>>,
}

/// The rights inside a shared value; None if there is none.
fn lend(shared: Option<&Shared<Rights>>) -> Option<&Rights>
    ensures { option_map (λ rights. rights.now) result
        ≡ option_map (λ shared. shared.now) shared.entry }
{
    match shared {
        None => None,
        Some(shared) => Some(shared.get()),
    }
}

/// Replaces the rights with this number. If there are none, nothing changes; an operation that was
/// checked never names such a number. (`set_size` of `state` does the same to a size.)
fn set_rights(all: &mut [Shared<Rights>], number: u32, rights: Shared<Rights>)
    ensures { all.new ≡ slice_set all.old number rights }
{
    let place = number as usize;
    if place < all.len() {
        all[place] = rights;
    }
}

/// Replaces the rights with this number, or appends them if it is the next one. For a higher
/// number, which no operation has, nothing changes.
fn put_rights(
    all: &mut Vec<Shared<Rights>>,
    number: u32,
    rights: Shared<Rights>,
) -> Result<(), AllocError>
    ensures { OnOk result (all.new.items ≡ rights_with all.old.items number rights) }
{
    if number as usize == all.len() {
        all.push(rights)?;
        return Ok(());
    }
    set_rights(all, number, rights);
    Ok(())
}

impl Attributes {
    /// The attributes before the header: there is no file and no directory yet.
    pub(crate) fn new(alloc: Global) -> Attributes
        ensures { attributes_of result ≡ no_attributes }
    {
        Attributes {
            files: Vec::new(alloc),
            directories: Vec::new(alloc),
        }
    }

    /// Adds the rights of a file or a symbolic link, which gets the next number.
    fn add_file(&mut self, rights: Shared<Rights>) -> Result<(), AllocError>
        ensures { OnOk result (attributes_of self.new ≡ with_file (attributes_of self.old) rights) }
    {
        self.files.push(rights)?;
        Ok(())
    }

    /// Sets the rights of the directory with this number, which may be a new one with the next
    /// number.
    fn put_directory(&mut self, number: u32, rights: Shared<Rights>) -> Result<(), AllocError>
        ensures { OnOk result
            (attributes_of self.new ≡ with_directory (attributes_of self.old) number rights) }
    {
        put_rights(&mut self.directories, number, rights)
    }

    /// Adds the rights of what a start line makes. Those of a file or a symbolic link get the next
    /// number, whatever `node` says; a directory has the number in `node`.
    pub(crate) fn add(&mut self, node: Node, rights: &Shared<Rights>) -> Result<(), AllocError>
        ensures { OnOk result (attributes_of self.new
            ≡ with_node (attributes_of self.old) node rights.now) }
    {
        let rights = rights.try_clone()?;
        match node {
            Node::Directory(number) => self.put_directory(number, rights),
            Node::File(..) => self.add_file(rights),
        }
    }

    /// The rights of the file, symbolic link or directory, by its number. None if it has none: in
    /// version 1 none are kept, and later everything has some. It takes no memory.
    pub(crate) fn rights(&self, node: Node) -> Option<&Rights>
        ensures { option_map (λ rights. rights.now) result
            ≡ rights_at (attributes_of self.now) node }
    {
        match node {
            Node::Directory(number) => lend(self.directories.get(number as usize)),
            Node::File(_, file) => lend(self.files.get(file as usize)),
        }
    }

    /// Sets the rights of what a chmod or a chown is of. If a file has no rights yet, nothing
    /// changes.
    fn set(&mut self, target: &Target, rights: Shared<Rights>) -> Result<(), AllocError>
        ensures { OnOk result (attributes_of self.new
            ≡ with_set (attributes_of self.old) target.now rights) }
    {
        match target {
            Target::File(file) => {
                set_rights(&mut self.files, *file, rights);
                Ok(())
            }
            Target::Directory { number, .. } => self.put_directory(*number, rights),
        }
    }

    /// Applies an operation. A creat, a symlink and a mkdir add the rights of what they make, a
    /// chmod and a chown set rights, and any other operation changes none. Rights that are equal to
    /// `last` share its memory; others become `last`.
    pub(crate) fn change(
        &mut self,
        alloc: Global,
        last: &mut Option<Shared<Rights>>,
        operation: &Operation,
    ) -> Result<(), AllocError>
        ensures { OnOk result (attributes_of self.new
            ≡ attributes_after (attributes_of self.old) operation.now) }
    {
        match operation {
            Operation::Creat { rights, .. } | Operation::Symlink { rights, .. } => {
                self.add_file(shared_rights(alloc, last, rights)?)
            }
            Operation::Mkdir {
                directory,
                rights,
                ..
            } => {
                let rights = shared_rights(alloc, last, rights)?;
                self.put_directory(*directory, rights)
            }
            Operation::SetAttr { target, after, .. } => {
                let after = shared_rights(alloc, last, after)?;
                self.set(target, after)
            }
            Operation::Link { .. }
            | Operation::Unlink { .. }
            | Operation::Rmdir { .. }
            | Operation::Rename { .. }
            | Operation::Write { .. }
            | Operation::Truncate { .. }
            | Operation::Sync(_)
            | Operation::Say => Ok(()),
        }
    }
}
