//! What an operation needs to be at its paths, and the limits of a trace. Each function looks at
//! the tree that the lines so far leave, and changes nothing. The faults are those of
//! docs/reference/trace.md.
ghost use Rattle.std.specs.Prelude.{◌≡◌, ◌||◌, nat_le, nat_lt};
ghost use Rattle.cs_entries.specs.Paths.{at_path};
ghost use Rattle.cs_entries.specs.Tables.{held_in};
ghost use Rattle.cs_names.specs.declared.limits.TheConstants.{TRACE_PATH_NAMES, TREE_RECORDS};
ghost use Rattle.cs_trace.specs.Judging.{directory_number, emptied_by, ends_above, entry_below};
ghost use Rattle.cs_trace.specs.Judging.{file_by, is_path_of, leaf_by, parent_by, size_in};
ghost use Rattle.cs_trace.specs.Judging.{under_directory, under_file};
ghost use Rattle.cs_trace.specs.Kept.{free_number, parent_number};
ghost use Rattle.cs_tree_model.specs.Tree.{parent_path};

use crate::fault::TraceFaultKind;
use crate::limits::most_bytes;
use crate::tree::Tree;
use cs_entries::{DirEntry, FileKind, Node};
use cs_names::Path;
use cs_names::limits::{TRACE_PATH_NAMES, TREE_RECORDS};
use cs_trace_lines::Version;

/// The number of the regular file that was found at a path. None, nothing there, is Missing; a
/// directory and a symbolic link are NotFile.
pub(crate) fn file_by(here: Option<Node>) -> Result<u32, TraceFaultKind>
    ensures { result ≡ file_by here }
{
    match here {
        None => Err(TraceFaultKind::Missing),
        Some(Node::Directory(_) | Node::File(FileKind::Symlink, _)) => Err(TraceFaultKind::NotFile),
        Some(Node::File(FileKind::Regular, file)) => Ok(file),
    }
}

/// The number of the regular file at the path. Nothing there is Missing; a directory and a symbolic
/// link are NotFile.
pub(crate) fn file_at(tree: &Tree, path: &Path) -> Result<u32, TraceFaultKind>
    ensures { result ≡ file_by (at_path (held_in tree.now) path.now) }
{
    file_by(tree.at(path.names()))
}

/// The file or symbolic link at the path, by kind and number: a leaf of the tree. Nothing there is
/// Missing, and a directory is NotFile.
pub(crate) fn leaf_at(tree: &Tree, path: &Path) -> Result<(FileKind, u32), TraceFaultKind>
    ensures { result ≡ leaf_by (at_path (held_in tree.now) path.now) }
{
    match tree.at(path.names()) {
        None => Err(TraceFaultKind::Missing),
        Some(Node::Directory(_)) => Err(TraceFaultKind::NotFile),
        Some(Node::File(kind, file)) => Ok((kind, file)),
    }
}

/// The number of the directory that was found above a path. None, nothing there, is NoParent; a
/// file or a symbolic link is NotDir.
pub(crate) fn parent_by(here: Option<Node>) -> Result<u32, TraceFaultKind>
    ensures { result ≡ parent_by here }
{
    match here {
        None => Err(TraceFaultKind::NoParent),
        Some(Node::File(..)) => Err(TraceFaultKind::NotDir),
        Some(Node::Directory(directory)) => Ok(directory),
    }
}

/// The number of the directory above the path; the root is above itself. Nothing there is NoParent,
/// and a file or a symbolic link is NotDir.
pub(crate) fn parent_of(tree: &Tree, path: &Path) -> Result<u32, TraceFaultKind>
    ensures { result ≡ parent_number tree.now path.now }
{
    parent_by(tree.at(path.names().parent()))
}

/// The number of the directory above a path at which a new entry may be made. The faults are those
/// of `parent_of`, and then Exists if anything is at the path.
pub(crate) fn free_in(tree: &Tree, path: &Path) -> Result<u32, TraceFaultKind>
    ensures { result ≡ free_number tree.now path.now }
{
    let directory = parent_of(tree, path)?;
    match tree.at(path.names()) {
        Some(_) => Err(TraceFaultKind::Exists),
        None => Ok(directory),
    }
}

/// The entry of a path at which something is: its last name in the directory above it. If there is
/// no directory above it, which callers have checked, the number is 0.
pub(crate) fn entry_at(tree: &Tree, path: Path) -> DirEntry
    ensures { result
        ≡ entry_below (directory_number (at_path (held_in tree.now) (parent_path path))) path }
{
    let directory = match tree.at(path.names().parent()) {
        Some(Node::Directory(directory)) => directory,
        _ => 0,
    };
    DirEntry { directory, path }
}

/// What a rename of a file or symbolic link replaces: nothing, a file or a symbolic link, as it was
/// found at the path. A directory is NotFile.
pub(crate) fn under_file(here: Option<Node>) -> Result<Option<Node>, TraceFaultKind>
    ensures { result ≡ under_file here }
{
    match here {
        Some(Node::Directory(_)) => Err(TraceFaultKind::NotFile),
        _ => Ok(here),
    }
}

/// The number of the empty directory that was found at a path. None, nothing there, is Missing, a
/// file or a symbolic link is NotDir, and a directory with an entry is NotEmpty.
pub(crate) fn emptied_by(tree: &Tree, here: Option<Node>) -> Result<u32, TraceFaultKind>
    ensures { result ≡ emptied_by tree.now here }
{
    match here {
        None => Err(TraceFaultKind::Missing),
        Some(Node::File(..)) => Err(TraceFaultKind::NotDir),
        Some(Node::Directory(directory)) => {
            if tree.has_entries(directory) {
                return Err(TraceFaultKind::NotEmpty);
            }
            Ok(directory)
        }
    }
}

/// What a rename of a directory replaces: nothing, or an empty directory, as it was found at the
/// path. A file or a symbolic link is NotDir, and a directory with an entry is NotEmpty.
pub(crate) fn under_directory(
    tree: &Tree,
    here: Option<Node>,
) -> Result<Option<Node>, TraceFaultKind>
    ensures { result ≡ under_directory tree.now here }
{
    if here.is_none() {
        return Ok(None);
    }
    let directory = emptied_by(tree, here)?;
    Ok(Some(Node::Directory(directory)))
}

/// Whether what was found at a path is the file or symbolic link with this number, so that the path
/// is one of its paths. False for a directory, and for None, nothing there.
pub(crate) fn is_path_of(file: u32, here: Option<Node>) -> bool
    ensures { result ≡ is_path_of file here }
{
    match here {
        None | Some(Node::Directory(_)) => false,
        Some(Node::File(_, other)) => other == file,
    }
}

/// Whether a path of so many names is over the limit of the paths in a line, TRACE_PATH_NAMES.
pub(crate) fn are_too_many_names(names: usize) -> bool
    ensures { result ≡ nat_lt TRACE_PATH_NAMES names }
{
    names > TRACE_PATH_NAMES
}

/// Whether a new record is over a limit: its path has more than TRACE_PATH_NAMES names, or `made`
/// records, as many as TREE_RECORDS allows, were made before.
pub(crate) fn is_over_limits(made: usize, names: usize) -> bool
    ensures { result ≡ (nat_lt TRACE_PATH_NAMES names || nat_le TREE_RECORDS made) }
{
    are_too_many_names(names) || made >= TREE_RECORDS
}

/// Whether a write of these bytes at the offset ends above the greatest size of a file. A write of
/// no byte never does, at any offset.
pub(crate) fn ends_above(version: Version, offset: u64, bytes: &[u8]) -> bool
    ensures { result ≡ ends_above version offset bytes.now }
{
    let most = most_bytes(version);
    let count = bytes.len() as u64;
    count > 0 && (offset > most || count > most - offset)
}

/// The size in bytes of the file with this number. If there is no such file, it is 0; callers pass
/// files of the tree, all of which have sizes.
pub(crate) fn size_in(sizes: &[u64], file: u32) -> u64
    ensures { result ≡ size_in sizes.now file }
{
    sizes.get(file as usize).copied().unwrap_or(0)
}
