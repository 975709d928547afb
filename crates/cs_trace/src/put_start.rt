//! Puts the files, symbolic links and directories of the start into the state. An error means out
//! of memory; then the caller drops the state, so no clause says what is left of it.
ghost use Rattle.std.specs.Prelude.{◌≡◌, ◌<◌, ◌^◌, ◌+◌, ◌≢◌, [], false, true, IfOk, OnOk};
ghost use Rattle.std.specs.Prelude.{None, length};
ghost use Rattle.std.specs.FinMap as map;
ghost use Rattle.std.specs.Option.{is_some};
ghost use Rattle.cs_entries.specs.DirEntries.{entry_of, last_name};
ghost use Rattle.cs_entries.specs.Paths.{entry_in};
ghost use Rattle.cs_start.specs.Entries.{size_of};
ghost use Rattle.cs_trace.specs.Attributes.{kept_in};
ghost use Rattle.cs_start.specs.Owned.{number_of};
ghost use Rattle.cs_trace.specs.Judging.{entry_at, entry_below};
ghost use Rattle.cs_trace.specs.Kept.{IsStarting, attributes_of, state_of, with_node};
ghost use Rattle.cs_trace.specs.Putting.{count_with, homes_with, sizes_with};
ghost use Rattle.cs_trace.specs.States.{is_leaf, node_for, with_entry, with_link};

use crate::attributes::Attributes;
use crate::homes::Homes;
use crate::state::LinesSoFar;
use cs_entries::Node;
use cs_names::Path;
use cs_start::{PathText, StartEntry};
use cs_trace_lines::Version;
use cs_tree_model::{Content, Kind};
use std::alloc::{AllocError, Global};

/// How many bytes a file or a symbolic link with this content has; 0 for a directory.
fn size_of(content: &Content) -> u64
    ensures { result ≡ size_of content.now }
{
    match content.kind() {
        Kind::Directory => 0,
        Kind::File { length } => length,
    }
}

/// How many files and symbolic links the start has after `node` was added, if it had `count`
/// before. `sizes` are the sizes before: until the first operation, all of them are of the start's
/// files.
fn file_count_with(count: usize, sizes: &[u64], node: Node) -> usize
    ensures { result ≡ count_with count sizes.now node }
{
    match node {
        Node::Directory(_) => count,
        Node::File(..) => sizes.len() + 1,
    }
}

/// Keeps the size of a new file or symbolic link; nothing for a directory.
fn put_size(sizes: &mut Vec<u64>, entry: &StartEntry) -> Result<(), AllocError>
    ensures { OnOk result (sizes.new.items
        ≡ sizes_with sizes.old.items entry.now.node entry.now.content) }
{
    match entry.node {
        Node::Directory(_) => {}
        Node::File(..) => sizes.push(size_of(entry.content.get()))?,
    }
    Ok(())
}

/// Keeps the entry at which a new directory is made: the name in the directory with the number.
/// Nothing changes if the node is no directory.
fn put_home(
    alloc: Global,
    homes: &mut Homes,
    directory: u32,
    name: &str,
    node: Node,
) -> Result<(), AllocError>
    requires { length homes.old < 2 ^ 32 }
    ensures { OnOk result (homes.new ≡ homes_with homes.old (entry_in directory name.now) node) }
{
    match node {
        Node::Directory(_) => homes.push(alloc, directory, name),
        Node::File(..) => Ok(()),
    }
}

/// Keeps owner, group and permissions of a new entry; nothing in version 1, in which no operation
/// changes them. `change_attributes` of `state` has the same cases.
fn put_rights(
    attributes: &mut Attributes,
    version: Version,
    entry: &StartEntry,
) -> Result<(), AllocError>
    ensures { OnOk result (attributes_of attributes.new
        ≡ kept_in version (attributes_of attributes.old)
        (with_node (attributes_of attributes.old) entry.now.node entry.now.rights)) }
{
    match version {
        // Version 1 has no operation that changes attributes.
        Version::First => Ok(()),
        Version::Second(_) | Version::Third(..) | Version::Fourth(..) => {
            attributes.add(entry.node, &entry.rights)
        }
    }
}

/// Keeps the parts of a new entry that aren't in `start` or `tree`: the count of files, its size,
/// its home, its rights; and counts one more record. The entry is under the name in the directory
/// with the number.
fn put_parts(
    alloc: Global,
    state: &mut LinesSoFar,
    directory: u32,
    name: &str,
    entry: &StartEntry,
) -> Result<(), AllocError>
    requires few { state.old.made < 2 ^ 32 }
    requires housed { length state.old.homes < 2 ^ 32 }
    ensures version { OnOk result (state.new.version ≡ state.old.version) }
    ensures start { OnOk result (state.new.start ≡ state.old.start) }
    ensures count { OnOk result (state.new.file_count
        ≡ count_with state.old.file_count state.old.sizes.items entry.now.node) }
    ensures links { OnOk result (state.new.links.items ≡ state.old.links.items) }
    ensures tree { OnOk result (state.new.tree ≡ state.old.tree) }
    ensures sizes { OnOk result (state.new.sizes.items
        ≡ sizes_with state.old.sizes.items entry.now.node entry.now.content) }
    ensures homes { OnOk result (state.new.homes
        ≡ homes_with state.old.homes (entry_in directory name.now) entry.now.node) }
    ensures made { OnOk result (state.new.made ≡ state.old.made + 1) }
    ensures attributes { OnOk result (attributes_of state.new.attributes
        ≡ kept_in state.old.version (attributes_of state.old.attributes)
        (with_node (attributes_of state.old.attributes) entry.now.node entry.now.rights)) }
    ensures operations { OnOk result (state.new.operations.items ≡ state.old.operations.items) }
{
    state.file_count = file_count_with(state.file_count, &state.sizes, entry.node);
    put_size(&mut state.sizes, entry)?;
    put_home(alloc, &mut state.homes, directory, name, entry.node)?;
    put_rights(&mut state.attributes, state.version, entry)?;
    state.made += 1;
    Ok(())
}

/// The last name of the path; an empty text for the root.
pub(crate) fn last_name(path: &Path) -> &str
    ensures { result.now ≡ last_name path.now }
{
    match path.names().split_last() {
        Some((_, name)) => name,
        None => "",
    }
}

/// Adds the root, the directory with the number 0, as the first record.
pub(crate) fn put_root(
    alloc: Global,
    state: &mut LinesSoFar,
    entry: StartEntry,
) -> Result<(), AllocError>
    requires first { state.old.made ≡ 0 }
    requires housed { length state.old.homes < 2 ^ 32 }
    requires starting { IsStarting (state_of state.old) }
    requires further { entry.own ≡ false }
    requires directory { is_leaf entry.node ≡ false }
    requires free { map.get state.old.start [] ≡ None }
    ensures { OnOk result (state_of state.new ≡ with_entry (state_of state.old) [] entry) }
{
    put_parts(alloc, state, 0, "", &entry)?;
    state.start.insert(alloc, Path::root(alloc), entry)?;
    Ok(())
}

/// Adds the entry of a new file, symbolic link or directory at the path, in the directory with the
/// number. Returns whether something was at the path: then the caller reports Exists, and no clause
/// says what is left of the state.
pub(crate) fn put_entry(
    alloc: Global,
    state: &mut LinesSoFar,
    path: Path,
    directory: u32,
    entry: StartEntry,
) -> Result<bool, AllocError>
    requires few { state.old.made < 2 ^ 32 }
    requires housed { length state.old.homes < 2 ^ 32 }
    requires starting { IsStarting (state_of state.old) }
    requires own { entry.own ≡ is_leaf entry.node }
    requires number { is_leaf entry.node ≡ true → number_of entry.node
        ≡ length state.old.sizes.items }
    requires named { path ≢ [] }
    requires above { entry_at (state_of state.old) path ≡ entry_below directory path }
    requires absent { map.get state.old.tree (entry_of (entry_below directory path)) ≡ None
        → map.get state.old.start path ≡ None }
    ensures replaced { IfOk result (λ replaced. replaced
        ≡ is_some (map.get state.old.tree (entry_of (entry_below directory path)))) }
    ensures state { IfOk result (λ replaced. replaced ≡ false → state_of state.new
        ≡ with_entry (state_of state.old) path entry) }
{
    let name = last_name(&path);
    put_parts(alloc, state, directory, name, &entry)?;
    let before = state.tree.put_named(alloc, directory, name, entry.node)?;
    state.start.insert(alloc, path, entry)?;
    Ok(before.is_some())
}

/// As `put_entry`, at the path that the text spells, whose last name is `name`. Faster if the start
/// keeps the entries of the directory apart: then the path isn't copied.
pub(crate) fn put_spelled(
    alloc: Global,
    state: &mut LinesSoFar,
    path: &PathText<'_>,
    directory: u32,
    name: &str,
    entry: StartEntry,
) -> Result<bool, AllocError>
    requires few { state.old.made < 2 ^ 32 }
    requires housed { length state.old.homes < 2 ^ 32 }
    requires starting { IsStarting (state_of state.old) }
    requires own { entry.own ≡ is_leaf entry.node }
    requires number { is_leaf entry.node ≡ true → number_of entry.node
        ≡ length state.old.sizes.items }
    requires named { last_name path.now ≡ name.now }
    requires some { path.now ≢ [] }
    requires above { entry_at (state_of state.old) path.now ≡ entry_below directory path.now }
    requires absent { map.get state.old.tree (entry_in directory name.now) ≡ None
        → map.get state.old.start path.now ≡ None }
    ensures replaced { IfOk result (λ replaced. replaced
        ≡ is_some (map.get state.old.tree (entry_in directory name.now))) }
    ensures state { IfOk result (λ replaced. replaced ≡ false → state_of state.new
        ≡ with_entry (state_of state.old) path.now entry) }
{
    put_parts(alloc, state, directory, name, &entry)?;
    let before = state.tree.put_named(alloc, directory, name, entry.node)?;
    state.start.insert_spelled(alloc, path, entry)?;
    Ok(before.is_some())
}

/// Adds one more path for a file of the start: to the links, to the tree, and with `entry`, a copy
/// of what the start has at another of the file's paths, to the start. Counts one more record. The
/// caller has checked that nothing is at the path.
pub(crate) fn put_link(
    alloc: Global,
    state: &mut LinesSoFar,
    path: Path,
    directory: u32,
    entry: StartEntry,
    file: u32,
) -> Result<(), AllocError>
    requires few { state.old.made < 2 ^ 32 }
    requires named { path ≢ [] }
    requires above { entry_at (state_of state.old) path ≡ entry_below directory path }
    requires absent { map.get state.old.start path ≡ None }
    requires further { entry.own ≡ false }
    ensures { OnOk result (state_of state.new ≡ with_link (state_of state.old) path entry file) }
{
    state.links.push((path.try_clone(alloc)?, file))?;
    let name = last_name(&path);
    state.tree.put_named(alloc, directory, name, entry.node)?;
    state.start.insert(alloc, path, entry)?;
    state.made += 1;
    Ok(())
}
