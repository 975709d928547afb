//! The table of a tree's nodes by their numbers: how each call changes it. Only allocations can
//! fail.
ghost use Rattle.std.specs.Prelude.{◌≡◌, ◌≢◌, ◌+◌, ◌<◌, ◌^◌, ℕ, nat_eq, List, None, Some, OnOk};
ghost use Rattle.std.specs.Prelude.{OnErr, IfOk, IfSome, IsSome, length, option_and_then};
ghost use Rattle.std.specs.Prelude.{string_bytes, unwrap_or};
ghost use Rattle.std.specs.Option.{option_map};
ghost use Rattle.std.specs.HashMap.{get, spare};
ghost use Rattle.cs_tree.specs.Node.{Alike, CanStampNode, IsNodeOf, IsRootTable, renamed};
ghost use Rattle.cs_tree.specs.Node.{resized_bytes, step_at, with_at, with_attributes, with_bytes};
ghost use Rattle.cs_tree.specs.Node.{with_child, with_name, with_stamp, with_write, without_child};
ghost use Rattle.cs_tree.specs.Node.{without_node};

use crate::bytes::FileBytes;
use crate::node::{Body, Node};
use cs_names::{Name, UserName};
use cs_tree_model::{Change, Record, Stamp};
use std::alloc::{AllocError, Global};
use std::collections::HashMap;
use std::mem;

/// A table that has only the root, made from its record.
pub fn root_table(alloc: Global, root: Record) -> Result<HashMap<u64, Node>, AllocError>
    ensures { IfOk result (λ nodes. IsRootTable (get nat_eq nodes) root) }
{
    let mut nodes = HashMap::new(alloc);
    nodes.insert(0, Node::of(alloc, 0, None, root))?;
    Ok(nodes)
}

/// Adds an entry to a directory, which the caller knows to be in the table, and doesn't stamp it.
/// After an error the table is unchanged.
fn link_child(
    nodes: &mut HashMap<u64, Node>,
    directory: u64,
    name: String,
    number: u64,
) -> Result<(), AllocError>
    requires { IsSome (get nat_eq nodes.old directory) }
    ensures ok { OnOk result
        (Alike (step_at (get nat_eq nodes.old) directory
        (λ d. with_child d (string_bytes name) number)) (get nat_eq nodes.new)) }
    ensures err { OnErr result (Alike (get nat_eq nodes.old) (get nat_eq nodes.new)) }
    ensures spare { spare nodes.new ≡ spare nodes.old }
{
    match nodes.get_mut(&directory) {
        Some(node) => node.link(name, number),
        // the directory is in the table
        None => unreachable!(),
    }
}

/// Puts a node into the table. The caller has reserved room for it, so it takes no memory.
fn insert_node(nodes: &mut HashMap<u64, Node>, number: u64, node: Node)
    requires { 0 < spare nodes.old }
    ensures { Alike (with_at (get nat_eq nodes.old) number (Some node)) (get nat_eq nodes.new) }
{
    match nodes.insert(number, node) {
        Ok(_) => {}
        // there is room
        Err(_) => unreachable!(),
    }
}

/// Adds a new node to the table, and an entry to its directory, which the caller knows to be in the
/// table. The caller stamps the directory. After an error the table is unchanged.
pub fn add_node(
    nodes: &mut HashMap<u64, Node>,
    directory: u64,
    name: String,
    number: u64,
    node: Node,
) -> Result<(), AllocError>
    requires { IsSome (get nat_eq nodes.old directory) }
    ensures ok { OnOk result
        (Alike (with_at
        (step_at (get nat_eq nodes.old) directory (λ d. with_child d (string_bytes name) number))
        number (Some node)) (get nat_eq nodes.new)) }
    ensures err { OnErr result (Alike (get nat_eq nodes.old) (get nat_eq nodes.new)) }
{
    nodes.reserve(1)?;
    link_child(nodes, directory, name, number)?;
    insert_node(nodes, number, node);
    Ok(())
}

/// Stamps a directory after one of its entries was changed; if no node has the number, nothing
/// happens. Its version must be below the greatest u32.
pub fn stamp_node(nodes: &mut HashMap<u64, Node>, number: u64, stamp: Stamp)
    requires { CanStampNode (get nat_eq nodes.old) number }
    ensures { Alike (step_at (get nat_eq nodes.old) number (λ d. with_stamp d stamp))
        (get nat_eq nodes.new) }
{
    if let Some(node) = nodes.get_mut(&number) {
        node.metadata.stamp(stamp);
    }
}

/// Removes an entry of a directory, and stamps the directory. Callers know the directory to be in
/// the table; if it isn't, nothing happens.
fn unlink_and_stamp(nodes: &mut HashMap<u64, Node>, directory: u64, name: &str, stamp: Stamp)
    requires { CanStampNode (get nat_eq nodes.old) directory }
    ensures { Alike
        (step_at (get nat_eq nodes.old) directory
        (λ d. with_stamp (without_child d name.now) stamp)) (get nat_eq nodes.new) }
{
    if let Some(node) = nodes.get_mut(&directory) {
        node.unlink(name);
        node.metadata.stamp(stamp);
    }
}

/// Removes a file from the table and from its directory, which is stamped. The caller's number is
/// that of a node, and not of the root. It takes no memory.
pub fn remove_node(nodes: &mut HashMap<u64, Node>, number: u64, stamp: Stamp)
    requires there { IsSome (get nat_eq nodes.old number) }
    requires named { IfSome (get nat_eq nodes.old number) (λ d. IsSome d.name) }
    requires vers { IfSome (get nat_eq nodes.old number)
        (λ d. CanStampNode (get nat_eq nodes.old) d.parent) }
    ensures { IfSome (get nat_eq nodes.old number)
        (λ d. Alike (without_node (get nat_eq nodes.old) number d stamp) (get nat_eq nodes.new)) }
{
    let Some(node) = nodes.remove(&number) else {
        // the file is in the table
        unreachable!();
    };
    let Some(name) = &node.name else {
        // only the root has no name
        unreachable!();
    };
    unlink_and_stamp(nodes, node.parent, name.as_str(), stamp);
}

/// Writes bytes, at least one, into a file at an offset, and stamps the file, which the caller
/// knows to be in the table. After an error the table is unchanged.
pub fn write_node(
    nodes: &mut HashMap<u64, Node>,
    number: u64,
    offset: u64,
    bytes: &[u8],
    stamp: Stamp,
) -> Result<(), AllocError>
    requires there { IsSome (get nat_eq nodes.old number) }
    requires vers { CanStampNode (get nat_eq nodes.old) number }
    requires some { 0 < length bytes.now }
    requires room { offset + length bytes.now < 2 ^ 63 }
    ensures ok { OnOk result
        (Alike (step_at (get nat_eq nodes.old) number (λ d. with_write d offset bytes.now stamp))
        (get nat_eq nodes.new)) }
    ensures err { OnErr result (Alike (get nat_eq nodes.old) (get nat_eq nodes.new)) }
{
    match nodes.get_mut(&number) {
        Some(node) => node.write(offset, bytes, stamp),
        // the file is in the table
        None => unreachable!(),
    }
}

/// Sets the name of a file's node, and returns the old one. None if the node had no name, or if no
/// node has the number.
fn set_name(nodes: &mut HashMap<u64, Node>, number: u64, name: Name) -> Option<Name>
    ensures old { result ≡ option_and_then (λ d. d.name) (get nat_eq nodes.old number) }
    ensures set { Alike (step_at (get nat_eq nodes.old) number (λ d. with_name d name))
        (get nat_eq nodes.new) }
{
    match nodes.get_mut(&number) {
        Some(node) => mem::replace(&mut node.name, Some(name)),
        None => None,
    }
}

/// Gives a file a new name in its directory, which is stamped. The caller's number is that of a
/// node, and not of the root, and the name is free there. After an error the table is unchanged.
pub fn rename(
    nodes: &mut HashMap<u64, Node>,
    number: u64,
    name: &Name,
    stamp: Stamp,
) -> Result<(), AllocError>
    requires there { IsSome (get nat_eq nodes.old number) }
    requires above { IfSome (get nat_eq nodes.old number)
        (λ d. IsSome (get nat_eq nodes.old d.parent)) }
    requires named { IfSome (get nat_eq nodes.old number) (λ d. IsSome d.name) }
    requires vers { IfSome (get nat_eq nodes.old number)
        (λ d. CanStampNode (get nat_eq nodes.old) d.parent) }
    ensures ok { OnOk result
        (IfSome (get nat_eq nodes.old number)
        (λ d. Alike (renamed (get nat_eq nodes.old) number d name.now stamp)
        (get nat_eq nodes.new))) }
    ensures err { OnErr result (Alike (get nat_eq nodes.old) (get nat_eq nodes.new)) }
{
    let directory = match nodes.get(&number) {
        Some(node) => node.parent,
        // the file is in the table
        None => unreachable!(),
    };
    let key = name.as_string().clone()?;
    let name = name.try_clone()?;
    link_child(nodes, directory, key, number)?;
    let Some(old) = set_name(nodes, number, name) else {
        // only the root has no name
        unreachable!();
    };
    unlink_and_stamp(nodes, directory, old.as_str(), stamp);
    Ok(())
}

/// A copy of a file's bytes with that length: cut there, or with zeros after the old end. None if
/// `length` is None, or the number is a directory's or no node's. The only error is that memory
/// runs out.
pub fn bytes_with_length(
    alloc: Global,
    nodes: &HashMap<u64, Node>,
    number: u64,
    length: Option<u64>,
) -> Result<Option<FileBytes>, AllocError>
    requires { IfSome length (λ n. n < 2 ^ 63) }
    ensures { IfOk result (λ bytes. bytes ≡ resized_bytes (get nat_eq nodes.now) number length) }
{
    let Some(length) = length else {
        return Ok(None);
    };
    let Some(node) = nodes.get(&number) else {
        return Ok(None);
    };
    match &node.body {
        Body::Directory(_) => Ok(None),
        Body::File(bytes) => Ok(Some(bytes.with_length(alloc, length)?)),
    }
}

/// Sets the fields that a change has, except the name; if no node has the number, nothing happens.
/// `group` is a copy of the change's group, and `bytes` are the file's bytes with the change's
/// length, or None if it has none. The caller makes both before it changes anything, so nothing
/// here can fail. The version must be below the greatest u32.
pub fn set_fields(
    nodes: &mut HashMap<u64, Node>,
    number: u64,
    change: &Change,
    group: Option<UserName>,
    bytes: Option<FileBytes>,
    stamp: Stamp,
)
    requires { CanStampNode (get nat_eq nodes.old) number }
    ensures { Alike
        (step_at (get nat_eq nodes.old) number
        (λ d. with_attributes (with_bytes d bytes stamp) change.now.mode group change.now.mtime))
        (get nat_eq nodes.new) }
{
    if let Some(node) = nodes.get_mut(&number) {
        node.set_bytes(bytes, stamp);
        node.metadata
            .set_attributes(change.mode, group, change.mtime);
    }
}
