//! The store: a tree over a lower one, with the calls that read and change it.
ghost use Rattle.std.specs.Prelude.{◌≡◌, ◌≢◌, None, Some, IfErr, IfOk, IfSome, IsSome, OnErr, OnOk};
ghost use Rattle.std.specs.Arc.{arc_value};
ghost use Rattle.cs_tree_model.specs.Fresh.{fresh};
ghost use Rattle.cs_tree_model.specs.Stores.{tree_with_change, CanStamp, CanStampParent};
ghost use Rattle.cs_tree_model.specs.Tree.{content_numbered, number_in, parent_numbered};
ghost use Rattle.cs_tree_model.specs.Tree.{record_numbered};

use crate::node::{Node, try_clone_name};
use crate::table::{
    change_entry, copy_directory_up, copy_up, insert_answer, insert_both_answers, move_name,
    set_entry, stamp_directory, write_to_entry,
};
use crate::{entry, listing};
use cs_frozen::Lower;
use cs_names::{Name, UserName};
use cs_tree_model::{Change, ListedEntry, Metadata, New, Stamp, TreeRead, TreeStore};
use std::alloc::{AllocError, Global};
use std::collections::HashMap;
use std::marker::Model;
use std::sync::Arc;

/// A tree that differs from a lower one, which is shared and never changes. It takes memory only
/// for what differs: the first change of a file copies its record's fields, and no entry of a
/// directory. A write copies the blocks that it touches. To look up a name it asks the lower tree
/// at most once.
#[derive(Drop)]
pub struct Overlay<L: TreeRead> {
    lower: Arc<L>,
    // at the numbers that changed; None if the file was removed
    nodes: HashMap<u64, Option<Node>>,
    // the greatest number that was ever given to a file
    greatest: u64,
    // the number of files, the root and all directories included
    count: usize,
}

impl<L: TreeRead> Model for Overlay<L> {
    ghost use Rattle.std.specs.Arc.{arc_value};
    ghost use Rattle.std.specs.HashMap as hash;
    ghost use Rattle.std.specs.Prelude.{◌+◌, nat_eq};
    ghost use Rattle.cs_tree_model.specs.Tree.{Tree, tree_code};
    ghost use Rattle.cs_tree_model.specs.Table.{tree_of};
    ghost use Rattle.cs_overlay.specs.Layers.{layers, IsOver};

    ghost Value = { Tree };

    ghost coded = { tree_code };

    ghost view = { λ a. tree_of (layers (L.tree (arc_value a.lower)) (hash.get nat_eq a.nodes))
        (a.greatest + 1) };

    ghost invariant = { λ a. IsOver (L.tree (arc_value a.lower)) (hash.get nat_eq a.nodes)
        (a.greatest + 1) a.count };
}

impl<L: TreeRead> Overlay<L> {
    /// An overlay without changes, which shows the lower tree. It takes no memory.
    pub fn over(alloc: Global, lower: Arc<L>) -> Overlay<L>
        ensures { result ≡ L.tree (arc_value lower) }
    {
        let greatest = lower.last_number();
        let count = lower.count();
        Overlay {
            lower,
            nodes: HashMap::new(alloc),
            greatest,
            count,
        }
    }

    /// No command calls this. The tree, read as if nothing had ever changed it: the same paths and
    /// contents, with fresh numbers, versions and times, and the owner as the last writer. No
    /// record and no byte of a file is copied: it allocates tables of numbers, and for a time the
    /// paths. If memory runs out, the error returns the overlay.
    pub fn freeze(self, alloc: Global) -> Result<Lower<Overlay<L>>, (Overlay<L>, AllocError)>
        ensures ok { IfOk result (λ lower. lower ≡ fresh self.files) }
        ensures err { IfErr result (λ back. back.0 ≡ self) }
    {
        cs_frozen::freeze(alloc, self)
    }

    /// Sets the length, mode, group and mtime that a change has. The caller's change has no name,
    /// and its file is there. `group` is a copy of the change's group, made before anything
    /// changes, so that after an error the tree is unchanged.
    fn set_fields(
        &mut self,
        alloc: Global,
        number: u64,
        fields: &Change,
        group: Option<UserName>,
        stamp: Stamp,
    ) -> Result<(), AllocError>
        requires group { group ≡ fields.now.group }
        requires unnamed { fields.now.name ≡ None }
        requires there { IsSome (record_numbered self.old number) }
        requires vers { CanStamp self.old number }
        requires file { IsSome fields.now.length → IsSome (content_numbered self.old number) }
        ensures ok { OnOk result (self.new ≡ tree_with_change number fields.now stamp self.old) }
        ensures err { OnErr result (self.new ≡ self.old) }
    {
        copy_up(alloc, &*self.lower, &mut self.nodes, number)?;
        change_entry(&mut self.nodes, number, fields, group, stamp)?;
        Ok(())
    }

    /// Renames a file in its directory, and sets what else the change has. The caller's file isn't
    /// the root, and the new name is free. `group` and `name` are copies of the change's, made
    /// before anything changes. Answers for both names are inserted first, so that nothing can fail
    /// after `change_entry`. After an error the tree is unchanged.
    fn rename(
        &mut self,
        alloc: Global,
        number: u64,
        fields: &Change,
        group: Option<UserName>,
        name: Name,
        stamp: Stamp,
    ) -> Result<(), AllocError>
        requires group { group ≡ fields.now.group }
        requires named { fields.now.name ≡ Some name }
        requires not_root { number ≢ 0 }
        requires there { IsSome (record_numbered self.old number) }
        requires vers { CanStamp self.old number }
        requires file { IsSome fields.now.length → IsSome (content_numbered self.old number) }
        requires free { IfSome (parent_numbered self.old number)
            (λ d. number_in self.old d name ≡ None) }
        requires vers_above { CanStampParent self.old number }
        ensures ok { OnOk result (self.new ≡ tree_with_change number fields.now stamp self.old) }
        ensures err { OnErr result (self.new ≡ self.old) }
    {
        let Some(directory) = self.parent_of(number) else {
            // the caller names a file of the tree
            unreachable!();
        };
        let Some(old) = self.name_of(number) else {
            // it isn't the root
            unreachable!();
        };
        let old = old.try_clone()?;
        let old_answer = old.try_clone()?;
        let new_answer = name.try_clone()?;
        let moment = stamp.try_clone()?;
        let (lower, nodes) = (&*self.lower, &mut self.nodes);
        copy_up(alloc, lower, nodes, number)?;
        insert_both_answers(
            alloc, lower, nodes, directory, number, old_answer, new_answer,
        )?;
        change_entry(nodes, number, fields, group, moment)?;
        move_name(nodes, directory, number, old.as_str(), name, stamp);
        Ok(())
    }
}

impl<L: TreeRead> TreeRead for Overlay<L> {
    ghost tree = { λ t. t };

    /// The node's record, or the lower tree's if the overlay has no entry at the number. None if no
    /// file has the number.
    fn record(&self, number: u64) -> Option<Metadata<'_>> {
        entry::record(&*self.lower, self.nodes.get(&number), number)
    }

    /// The directory's own answer for the name, or else the lower tree's; None if the directory has
    /// no such file, or `directory` isn't a directory's number.
    fn find_number(&self, directory: u64, name: &str) -> Option<u64> {
        entry::find(&*self.lower, self.nodes.get(&directory), directory, name)
    }

    /// The number of the file's directory, from the node or else the lower tree; the root's is the
    /// root. None if no file has the number.
    fn parent_of(&self, number: u64) -> Option<u64> {
        entry::parent(&*self.lower, self.nodes.get(&number), number)
    }

    /// The file's name, from the node or else the lower tree; None for the root, and if no file has
    /// the number.
    fn name_of(&self, number: u64) -> Option<&Name> {
        let nodes = &self.nodes;
        // the root has no name
        if number == 0 {
            return None;
        }
        entry::name(&*self.lower, nodes.get(&number), number)
    }

    /// The next entry, from the directory's own answers merged with the lower directory's entries;
    /// None if there is none before the bound, or `directory` isn't a directory's number.
    fn entry_after(
        &self,
        directory: u64,
        last: Option<&Name>,
        bound: Option<&Name>,
    ) -> Option<ListedEntry<'_>> {
        let entry = self.nodes.get(&directory);
        listing::entry_after(&*self.lower, entry, directory, last, bound)
    }

    /// The number of records, the root's included. The overlay keeps it in a field.
    fn count(&self) -> usize {
        self.count
    }

    /// The greatest number ever given to a file, here or in the lower tree, even if that file was
    /// removed.
    fn last_number(&self) -> u64 {
        self.greatest
    }

    /// At most `count` bytes from `offset` on, from the file's own blocks and what still shows of
    /// the lower file; None if the number isn't a file's.
    fn read_at(
        &self,
        alloc: Global,
        number: u64,
        offset: u64,
        count: usize,
    ) -> Result<Option<Vec<u8>>, AllocError> {
        let entry = self.nodes.get(&number);
        let bytes = entry::read(alloc, &*self.lower, entry, number, offset, count)?;
        Ok(bytes)
    }
}

impl<L: TreeRead> TreeStore for Overlay<L> {
    /// Adds a node and the directory's answer for the name, and stamps the directory, whose node is
    /// copied up first. Returns the file's number, the next after the greatest ever given. After an
    /// error the tree is unchanged.
    fn add(
        &mut self,
        alloc: Global,
        directory: u64,
        name: Name,
        new: New,
        stamp: Stamp,
    ) -> Result<u64, AllocError> {
        let number = self.greatest + 1;
        let Some(count) = self.count.checked_add(1) else {
            // more files than any memory holds
            return Err(AllocError);
        };
        let Some(above) = self.record(directory) else {
            // the caller names a directory of the tree
            unreachable!();
        };
        let group = above.group.try_clone()?;
        let key = name.try_clone()?;
        let node = Node::of_new(alloc, number, directory, name, group, new, &stamp)?;
        copy_directory_up(alloc, &*self.lower, &mut self.nodes, directory)?;
        insert_answer(&mut self.nodes, directory, key, Some(number))?;
        stamp_directory(&mut self.nodes, directory, stamp);
        set_entry(&mut self.nodes, number, Some(node));
        self.greatest = number;
        self.count = count;
        Ok(number)
    }

    /// Marks the number as removed, and its name as one that no file has, and stamps the directory.
    /// The caller's file isn't the root and has no entries. After an error the tree is unchanged.
    fn remove(&mut self, alloc: Global, number: u64, stamp: Stamp) -> Result<(), AllocError> {
        let Some(directory) = self.parent_of(number) else {
            // the caller names a file of the tree
            unreachable!();
        };
        let Some(name) = self.name_of(number) else {
            // it isn't the root
            unreachable!();
        };
        let name = name.try_clone()?;
        copy_directory_up(alloc, &*self.lower, &mut self.nodes, directory)?;
        insert_answer(&mut self.nodes, directory, name, None)?;
        stamp_directory(&mut self.nodes, directory, stamp);
        set_entry(&mut self.nodes, number, None);
        self.count -= 1;
        Ok(())
    }

    /// Copies the node and the blocks up, writes into the blocks, and stamps the node. After an
    /// error the tree is unchanged.
    fn write_at(
        &mut self,
        alloc: Global,
        number: u64,
        offset: u64,
        bytes: &[u8],
        stamp: Stamp,
    ) -> Result<(), AllocError> {
        copy_up(alloc, &*self.lower, &mut self.nodes, number)?;
        write_to_entry(
            alloc,
            &*self.lower,
            &mut self.nodes,
            number,
            offset,
            bytes,
            stamp,
        )?;
        Ok(())
    }

    /// Copies the nodes up, and then changes them: `rename` if the change has a name, and else
    /// `set_fields`. After an error the tree is unchanged.
    fn change(
        &mut self,
        alloc: Global,
        number: u64,
        fields: &Change,
        stamp: Stamp,
    ) -> Result<(), AllocError> {
        let group = try_clone_user(&fields.group)?;
        match try_clone_name(fields.name.as_ref())? {
            None => self.set_fields(alloc, number, fields, group, stamp)?,
            Some(name) => self.rename(alloc, number, fields, group, name, stamp)?,
        }
        Ok(())
    }
}

/// A copy of the name of a user or group; None if there is none. The only error is that memory runs
/// out. (cs_tree has the same function, private, for its own store.)
fn try_clone_user(name: &Option<UserName>) -> Result<Option<UserName>, AllocError>
    ensures { IfOk result (λ again. again ≡ name.now) }
{
    match name {
        Some(name) => Ok(Some(name.try_clone()?)),
        None => Ok(None),
    }
}
