//! The entries of an overlay by number, and how each call changes them. An entry is a node, or None
//! if the file of the number was removed. A number without an entry shows what the lower tree has.
//! "The table" is the map of all entries.
ghost use Rattle.std.specs.Prelude.{◌≡◌, ◌≢◌, ◌+◌, ◌<◌, ◌^◌, ℕ, List, nat_eq, Option, None, Some};
ghost use Rattle.std.specs.Prelude.{OnOk, OnErr, IfSome, IsSome, IsSomeAnd, length};
ghost use Rattle.std.specs.Option.{option_map};
ghost use Rattle.std.specs.HashMap.{get, spare};
ghost use Rattle.cs_tree_model.specs.Record.{IsDirectory};
ghost use Rattle.cs_tree_model.specs.Stores.{changed_record, stamped_write};
ghost use Rattle.cs_tree_model.specs.Tree.{Tree, content_numbered};
ghost use Rattle.cs_overlay.specs.Layers.{content_over, layered_lookup, layers, own_in, step_at};
ghost use Rattle.cs_overlay.specs.Layers.{with_answer, with_at, with_name, with_stamp, SameNodes};
ghost use Rattle.cs_overlay.specs.Layers.{AreNodes, CanStampNode, HasNode, IsFileIf, IsNode};
ghost use Rattle.cs_overlay.specs.Layers.{IsStep, KeepsNodes, SameLayers, SaysBoth, StepsAt};

use crate::node::Node;
use cs_names::{Name, UserName};
use cs_tree_model::{Change, Stamp, TreeRead};
use std::alloc::{AllocError, Global};
use std::collections::HashMap;

/// Makes a node for a file of the lower tree, unless the table has an entry for it. The caller
/// knows the file to be there, so an entry that the table has is a node. No read shows the
/// difference, even after an error.
pub fn copy_up<L: TreeRead>(
    alloc: Global,
    lower: &L,
    nodes: &mut HashMap<u64, Option<Node>>,
    number: u64,
) -> Result<(), AllocError>
    requires { IsSome (layers (L.tree lower.now) (get nat_eq nodes.old) number) }
    ensures same { SameLayers (L.tree lower.now) (get nat_eq nodes.old) (get nat_eq nodes.new) }
    ensures keeps { KeepsNodes (get nat_eq nodes.old) (get nat_eq nodes.new) }
    ensures there { OnOk result (HasNode (get nat_eq nodes.new) number) }
{
    if nodes.contains_key(&number) {
        return Ok(());
    }
    let Some(node) = Node::copy_of(alloc, lower, number)? else {
        // without an entry the file is one of the lower tree
        unreachable!();
    };
    nodes.insert(number, Some(node))?;
    Ok(())
}

/// Copies a directory's node up, and reserves memory for one more entry of the table. The caller
/// knows the directory to be there. No read shows the difference, even after an error.
pub fn copy_directory_up<L: TreeRead>(
    alloc: Global,
    lower: &L,
    nodes: &mut HashMap<u64, Option<Node>>,
    directory: u64,
) -> Result<(), AllocError>
    requires { IsSome (layers (L.tree lower.now) (get nat_eq nodes.old) directory) }
    ensures same { SameLayers (L.tree lower.now) (get nat_eq nodes.old) (get nat_eq nodes.new) }
    ensures there { OnOk result (HasNode (get nat_eq nodes.new) directory) }
    ensures room { OnOk result (0 < spare nodes.new) }
{
    copy_up(alloc, lower, nodes, directory)?;
    nodes.reserve(1)?;
    Ok(())
}

/// Sets the answer for a name in an entry, which the caller knows to be a directory's node. After
/// an error the entry is unchanged.
fn insert_node_answer(
    entry: &mut Option<Node>,
    name: Name,
    answer: Option<u64>,
) -> Result<(), AllocError>
    requires { IsSome entry.old }
    ensures ok { OnOk result (entry.new ≡ option_map (λ d. with_answer d name answer) entry.old) }
    ensures err { OnErr result (entry.new ≡ entry.old) }
{
    match entry {
        Some(node) => node.insert_answer(name, answer),
        // the entry is a node
        None => unreachable!(),
    }
}

/// Sets the answer for a name in a directory, which the caller knows to have a node: the number of
/// the name's file, or None if no file has it. After an error the table is unchanged.
pub fn insert_answer(
    nodes: &mut HashMap<u64, Option<Node>>,
    directory: u64,
    name: Name,
    answer: Option<u64>,
) -> Result<(), AllocError>
    requires { HasNode (get nat_eq nodes.old) directory }
    ensures ok { OnOk result
        (SameNodes (step_at (get nat_eq nodes.old) directory (λ d. with_answer d name answer))
        (get nat_eq nodes.new)) }
    ensures err { OnErr result (SameNodes (get nat_eq nodes.old) (get nat_eq nodes.new)) }
    ensures spare { spare nodes.new ≡ spare nodes.old }
{
    match nodes.get_mut(&directory) {
        Some(entry) => insert_node_answer(entry, name, answer),
        // the directory has a node
        None => unreachable!(),
    }
}

/// Stamps the node of an entry. Callers pass no entry of a removed file; it would be left as it is.
fn stamp_entry(entry: &mut Option<Node>, stamp: Stamp)
    requires { IfSome entry.old (λ d. d.metadata.vers + 1 < 2 ^ 32) }
    ensures { entry.new ≡ option_map (λ d. with_stamp d stamp) entry.old }
{
    if let Some(node) = entry {
        node.metadata.stamp(stamp);
    }
}

/// Stamps a directory after a change of its names. Callers have copied it up; without a node
/// nothing happens. Its version must be below the greatest u32.
pub fn stamp_directory(nodes: &mut HashMap<u64, Option<Node>>, number: u64, stamp: Stamp)
    requires { CanStampNode (get nat_eq nodes.old) number }
    ensures step { SameNodes (step_at (get nat_eq nodes.old) number (λ d. with_stamp d stamp))
        (get nat_eq nodes.new) }
    ensures spare { spare nodes.new ≡ spare nodes.old }
{
    if let Some(entry) = nodes.get_mut(&number) {
        stamp_entry(entry, stamp);
    }
}

/// Sets the entry at a number: a node, or None if the file was removed. The caller has reserved
/// room for it, so it takes no memory.
pub fn set_entry(nodes: &mut HashMap<u64, Option<Node>>, number: u64, node: Option<Node>)
    requires { 0 < spare nodes.old }
    ensures { SameNodes (with_at (get nat_eq nodes.old) number (Some node)) (get nat_eq nodes.new) }
{
    match nodes.insert(number, node) {
        Ok(_) => {}
        // there is room
        Err(_) => unreachable!(),
    }
}

/// Writes bytes, at least one, into an entry, which the caller knows to be a file's node, and
/// stamps it. After an error no read shows a difference. (`write_to_entry` finds the entry.)
fn write_node<L: TreeRead>(
    alloc: Global,
    lower: &L,
    entry: &mut Option<Node>,
    number: u64,
    offset: u64,
    bytes: &[u8],
    stamp: Stamp,
) -> Result<(), AllocError>
    requires there { IsSome entry.old }
    requires vers { IfSome entry.old (λ d. d.metadata.vers + 1 < 2 ^ 32) }
    requires some { 0 < length bytes.now }
    requires room { offset + length bytes.now < 2 ^ 63 }
    requires node { IfSome entry.old (IsNode (content_numbered (L.tree lower.now) number) number) }
    ensures ok { OnOk result
        (IfSome entry.old
        (λ d. IfSome entry.new
        (IsStep (content_numbered (L.tree lower.now) number) number
        (stamped_write offset bytes.now stamp) d))) }
    ensures err { OnErr result
        (IfSome entry.old
        (λ d. IfSome entry.new
        (IsStep (content_numbered (L.tree lower.now) number) number (λ r. r) d))) }
    ensures there { IsSome entry.old → IsSome entry.new }
{
    match entry {
        Some(node) => node.write(alloc, lower, number, offset, bytes, stamp),
        // the entry is a node
        None => unreachable!(),
    }
}

/// Writes bytes, at least one, into a file, which the caller knows to have a node, and stamps it.
/// Its version must be below the greatest u32. After an error no read shows a difference.
pub fn write_to_entry<L: TreeRead>(
    alloc: Global,
    lower: &L,
    nodes: &mut HashMap<u64, Option<Node>>,
    number: u64,
    offset: u64,
    bytes: &[u8],
    stamp: Stamp,
) -> Result<(), AllocError>
    requires there { HasNode (get nat_eq nodes.old) number }
    requires vers { CanStampNode (get nat_eq nodes.old) number }
    requires some { 0 < length bytes.now }
    requires room { offset + length bytes.now < 2 ^ 63 }
    requires nodes { AreNodes (L.tree lower.now) (get nat_eq nodes.old) }
    ensures ok { OnOk result
        (StepsAt (L.tree lower.now) number (stamped_write offset bytes.now stamp)
        (get nat_eq nodes.old) (get nat_eq nodes.new)) }
    ensures err { OnErr result
        (StepsAt (L.tree lower.now) number (λ r. r) (get nat_eq nodes.old) (get nat_eq nodes.new)) }
{
    match nodes.get_mut(&number) {
        Some(entry) => write_node(alloc, lower, entry, number, offset, bytes, stamp),
        // the file has a node
        None => unreachable!(),
    }
}

/// Sets the fields that a change has, except the name, in an entry, which the caller knows to be a
/// node. `group` is a copy of the change's group. After an error no read shows a difference.
/// (`change_entry` finds the entry.)
fn change_node(
    entry: &mut Option<Node>,
    fields: &Change,
    group: Option<UserName>,
    stamp: Stamp,
) -> Result<(), AllocError>
    requires there { IsSome entry.old }
    requires vers { IfSome entry.old (λ d. d.metadata.vers + 1 < 2 ^ 32) }
    requires group { group ≡ fields.now.group }
    ensures ok { OnOk result
        (IfSome entry.old
        (λ d. IfSome entry.new
        (λ e. (low : Option (List ℕ)) (n : ℕ) → IsNode low n d
        → (IsSome fields.now.length → IsSome (content_over low d.body))
        → IsStep low n (changed_record fields.now stamp) d e))) }
    ensures err { OnErr result
        (IfSome entry.old
        (λ d. IfSome entry.new
        (λ e. (low : Option (List ℕ)) (n : ℕ) → IsNode low n d → IsStep low n (λ r. r) d e))) }
    ensures there { IsSome entry.old → IsSome entry.new }
{
    match entry {
        Some(node) => node.change(fields, group, stamp),
        // the entry is a node
        None => unreachable!(),
    }
}

/// Sets the fields that a change has, except the name, of a file, which the caller knows to have a
/// node. `group` is a copy of the change's group, made before anything changes. Its version must be
/// below the greatest u32. After an error no read shows a difference.
pub fn change_entry(
    nodes: &mut HashMap<u64, Option<Node>>,
    number: u64,
    fields: &Change,
    group: Option<UserName>,
    stamp: Stamp,
) -> Result<(), AllocError>
    requires there { HasNode (get nat_eq nodes.old) number }
    requires vers { CanStampNode (get nat_eq nodes.old) number }
    requires group { group ≡ fields.now.group }
    ensures ok { OnOk result
        ((t : Tree) → AreNodes t (get nat_eq nodes.old)
        → IsFileIf fields.now.length t (get nat_eq nodes.old) number
        → StepsAt t number (changed_record fields.now stamp) (get nat_eq nodes.old)
        (get nat_eq nodes.new)) }
    ensures err { OnErr result
        ((t : Tree) → AreNodes t (get nat_eq nodes.old)
        → StepsAt t number (λ r. r) (get nat_eq nodes.old) (get nat_eq nodes.new)) }
    ensures others { (q : ℕ) → q ≢ number → get nat_eq nodes.new q ≡ get nat_eq nodes.old q }
{
    match nodes.get_mut(&number) {
        Some(entry) => change_node(entry, fields, group, stamp),
        // the file has a node
        None => unreachable!(),
    }
}

/// Gives a directory its own answers for a file's old name and for its new one, which no file has
/// yet. Both are what a look-up finds already, so no read shows the difference, even after an
/// error.
pub fn insert_both_answers<L: TreeRead>(
    alloc: Global,
    lower: &L,
    nodes: &mut HashMap<u64, Option<Node>>,
    directory: u64,
    number: u64,
    old: Name,
    new: Name,
) -> Result<(), AllocError>
    requires there { IsSomeAnd (layers (L.tree lower.now) (get nat_eq nodes.old) directory)
        (λ d. IsDirectory d.file) }
    requires old { layered_lookup (L.tree lower.now) (get nat_eq nodes.old) directory old
        ≡ Some number }
    requires new { layered_lookup (L.tree lower.now) (get nat_eq nodes.old) directory new ≡ None }
    ensures same { SameLayers (L.tree lower.now) (get nat_eq nodes.old) (get nat_eq nodes.new) }
    ensures keeps { KeepsNodes (get nat_eq nodes.old) (get nat_eq nodes.new) }
    ensures there { OnOk result (SaysBoth (get nat_eq nodes.new) directory old new) }
{
    copy_up(alloc, lower, nodes, directory)?;
    insert_answer(nodes, directory, old, Some(number))?;
    insert_answer(nodes, directory, new, None)?;
    Ok(())
}

/// Exchanges the answers for a file's old and new name in a directory's entry: the file gets the
/// new name, and no file has the old one. Stamps the directory. The entry has own answers for both
/// names. Callers know the entry to be a node; that of a removed directory would be left as it is.
fn exchange_answers(entry: &mut Option<Node>, old: &str, new: &str, number: u64, stamp: Stamp)
    requires vers { IfSome entry.old (λ d. d.metadata.vers + 1 < 2 ^ 32) }
    requires old { IfSome entry.old (λ d. IsSome (own_in d.body old.now)) }
    requires new { IfSome entry.old (λ d. IsSome (own_in d.body new.now)) }
    ensures { entry.new
        ≡ option_map
        (λ d. with_stamp (with_answer (with_answer d old.now None) new.now (Some number)) stamp)
        entry.old }
{
    if let Some(node) = entry {
        node.set_answer(old, None);
        node.set_answer(new, Some(number));
        node.metadata.stamp(stamp);
    }
}

/// Sets the name in the node of an entry. Callers know the entry to be a node; that of a removed
/// file would be left as it is.
fn set_node_name(entry: &mut Option<Node>, name: Name)
    ensures { entry.new ≡ option_map (λ d. with_name d name) entry.old }
{
    if let Some(node) = entry {
        node.name = Some(name);
    }
}

/// Renames a file in its directory, and stamps the directory. `name` is the new name. The caller
/// has copied both nodes up, and given the directory own answers for both names; one that isn't
/// there would be left out. It takes no memory.
pub fn move_name(
    nodes: &mut HashMap<u64, Option<Node>>,
    directory: u64,
    number: u64,
    old: &str,
    name: Name,
    stamp: Stamp,
)
    requires vers { CanStampNode (get nat_eq nodes.old) directory }
    requires said { SaysBoth (get nat_eq nodes.old) directory old.now name }
    ensures { SameNodes
        (step_at (step_at (get nat_eq nodes.old) directory
        (λ d. with_stamp (with_answer (with_answer d old.now None) name (Some number)) stamp))
        number (λ d. with_name d name)) (get nat_eq nodes.new) }
{
    if let Some(entry) = nodes.get_mut(&directory) {
        exchange_answers(entry, old, name.as_str(), number, stamp);
    }
    if let Some(entry) = nodes.get_mut(&number) {
        set_node_name(entry, name);
    }
}
