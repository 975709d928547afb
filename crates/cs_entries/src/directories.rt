//! What each entry holds, and what is at a path by that. `directories` has a map of the entries of
//! each directory, at the index that is the directory's number.
ghost use Rattle.std.specs.Prelude.{◌≡◌, false, true};
ghost use Rattle.cs_entries.specs.Directories.{entries_in};
ghost use Rattle.cs_entries.specs.Legal.{HasEntry, IsEmpty};
ghost use Rattle.cs_entries.specs.Paths.{at_path, entry_in};

use crate::node::Node;
use cs_names::Names;
use std::collections::HashMap;

/// What the entry of the name holds in the directory of the number; None if there is no such entry
/// or directory. It takes no memory.
pub(crate) fn node_in(
    directories: &[HashMap<String, Node>],
    directory: u32,
    name: &str,
) -> Option<Node>
    ensures { result ≡ entries_in directories.now (entry_in directory name.now) }
{
    match directories.get(directory as usize) {
        None => None,
        Some(names) => names.get(name).copied(),
    }
}

/// What is at a path, by its names: each leads from a directory to what its entry holds. The root
/// is at the path without names. None if a directory has no such entry, or if names follow a file:
/// nothing is looked up through a file or a symbolic link. It takes no memory.
pub(crate) fn node_at(directories: &[HashMap<String, Node>], names: Names<'_>) -> Option<Node>
    ensures { result ≡ at_path (entries_in directories.now) names.entry }
{
    let mut node = Node::Directory(0);
    for name in names {
        match node {
            Node::File(..) => return None,
            Node::Directory(directory) => match node_in(directories, directory, name) {
                None => return None,
                Some(next) => node = next,
            },
        }
    }
    Some(node)
}

/// Whether the directory of the number has an entry; false if there is no such directory. It takes
/// no memory.
pub(crate) fn has_entries(directories: &[HashMap<String, Node>], directory: u32) -> bool
    ensures none { result ≡ false → IsEmpty (entries_in directories.now) directory }
    ensures some { result ≡ true → HasEntry (entries_in directories.now) directory }
{
    match directories.get(directory as usize) {
        None => false,
        Some(names) => !names.is_empty(),
    }
}
