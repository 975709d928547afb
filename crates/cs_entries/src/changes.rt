//! Changes of what entries hold. `directories` has a map of the entries of each directory, at the
//! index that is the directory's number.
ghost use Rattle.std.specs.Prelude.{◌≡◌, ◌<◌, IfOk, None, OnErr, OnOk, Some, length};
ghost use Rattle.cs_entries.specs.Directories.{entries_in};
ghost use Rattle.cs_entries.specs.Entries.{Entry, put};
ghost use Rattle.cs_entries.specs.Paths.{entry_in};
ghost use Rattle.std.specs.String.{string_bytes};

use crate::node::Node;
use std::alloc::{AllocError, Global};
use std::collections::HashMap;

/// Adds empty maps at the end until the directory of the number has one. The only error is that
/// memory runs out; then some of the maps may be there, which hold nothing.
pub(crate) fn grow(
    alloc: Global,
    directories: &mut Vec<HashMap<String, Node>>,
    directory: u32,
) -> Result<(), AllocError>
    ensures enough { OnOk result (directory < length directories.new.items) }
    ensures same { (e : Entry) → entries_in directories.new.items e
        ≡ entries_in directories.old.items e }
{
    'maps: while directories.len() <= directory as usize {
        directories.push(HashMap::new(alloc))?;
    }
    Ok(())
}

/// Puts a node under the name in the directory of the number, whose map is there, and returns what
/// the entry held before; None if it held nothing. The only error is that memory runs out; then
/// everything is as it was.
pub(crate) fn hold(
    directories: &mut [HashMap<String, Node>],
    directory: u32,
    name: String,
    node: Node,
) -> Result<Option<Node>, AllocError>
    requires { directory < length directories.old }
    ensures before { IfOk result (λ before. before
        ≡ entries_in directories.old (entry_in directory (string_bytes name))) }
    ensures ok { OnOk result ((e : Entry) → entries_in directories.new e
        ≡ put (entries_in directories.old) (entry_in directory (string_bytes name)) (Some node) e) }
    ensures err { OnErr result ((e : Entry) → entries_in directories.new e
        ≡ entries_in directories.old e) }
{
    let before = directories[directory as usize].insert(name, node)?;
    Ok(before)
}

/// Removes the entry of the name from the directory of the number, and returns what it held; None
/// if there is no such entry. If that was a directory, its own entries stay. It takes no memory.
pub(crate) fn release(
    directories: &mut [HashMap<String, Node>],
    directory: u32,
    name: &str,
) -> Option<Node>
    ensures before { result ≡ entries_in directories.old (entry_in directory name.now) }
    ensures state { (e : Entry) → entries_in directories.new e
        ≡ put (entries_in directories.old) (entry_in directory name.now) None e }
{
    if directories.len() <= directory as usize {
        return None;
    }
    directories[directory as usize].remove(name)
}
