//! Renames, as rename(2). Paths are copied, and then looked up in the tree. The state is only read.
//! A path of more than TRACE_PATH_NAMES names is TooLarge, after all other faults.
ghost use Rattle.std.specs.Prelude.{◌≡◌};
ghost use Rattle.cs_trace.specs.Judging.{is_too_much_to_move, moved, rename, rename_directory};
ghost use Rattle.cs_trace.specs.Judging.{rename_file};
ghost use Rattle.cs_trace.specs.Kept.{Freely, state_of};
ghost use Rattle.cs_trace.specs.Outcomes.{Gives};
ghost use Rattle.cs_trace.specs.Resolving.{unmoved_within};

use crate::fault::TraceFaultKind;
use crate::judge::{
    are_too_many_names, entry_at, is_path_of, parent_of, under_directory, under_file,
};
use crate::operation::Operation;
use crate::state::LinesSoFar;
use cs_entries::{DirEntry, FileKind, Node};
use cs_names::Path;
use cs_names::limits::TREE_RECORDS;
use cs_start::PathText;
use std::alloc::Global;

/// Whether a rename from one entry to the other is over the limit of TREE_RECORDS records: in
/// version 4 it counts as a record if the entries are in two directories.
fn is_too_much_to_move(state: &LinesSoFar, from: &DirEntry, to: &DirEntry) -> bool
    ensures { result ≡ is_too_much_to_move (state_of state.now) from.now to.now }
{
    state.version.is_fourth() && from.directory != to.directory && state.made >= TREE_RECORDS
}

/// The rename of `node`, which is at the path `from`, to the entry `to`, which holds `replaced`. If
/// a path has too many names, or there would be too many records, it is TooLarge.
fn moved(
    state: &LinesSoFar,
    from: Path,
    to: DirEntry,
    node: Node,
    replaced: Option<Node>,
) -> Result<Operation, TraceFaultKind>
    ensures { result ≡ moved (state_of state.now) from to node replaced }
{
    let from = entry_at(&state.tree, from);
    if are_too_many_names(from.path.names().len())
        || are_too_many_names(to.path.names().len())
        || is_too_much_to_move(state, &from, &to)
    {
        return Err(TraceFaultKind::TooLarge);
    }
    Ok(Operation::Rename {
        from,
        to,
        node,
        replaced,
    })
}

/// The rename of an entry to itself, which does nothing; it is also what a rename between two paths
/// of one file is read as. `others` is how many names the path `from` of the line has. If it or the
/// entry's path has too many names, it is TooLarge.
fn unmoved(
    alloc: Global,
    others: usize,
    entry: DirEntry,
    node: Node,
) -> Result<Operation, TraceFaultKind>
    ensures { Gives (unmoved_within others entry node) result Freely }
{
    if are_too_many_names(others) || are_too_many_names(entry.path.names().len()) {
        return Err(TraceFaultKind::TooLarge);
    }
    let from = entry.try_clone(alloc)?;
    Ok(Operation::Rename {
        from,
        to: entry,
        node,
        replaced: Some(node),
    })
}

/// The rename of the file or symbolic link at `from`, which may replace one at `to`. A missing
/// parent of `to` is NoParent, a parent that is no directory is NotDir, and a directory at `to` is
/// NotFile. If both are paths of one file, rename(2) does nothing: the result is a rename of `to`
/// to itself.
#[tactic(auto, using(crate::proofs::Renamed::file_refused, crate::proofs::Renamed::file_over, crate::proofs::Renamed::file_unmoved, crate::proofs::Renamed::file_moved))]
fn rename_file(
    alloc: Global,
    state: &LinesSoFar,
    from: Path,
    to: Path,
    kind: FileKind,
    file: u32,
) -> Result<Operation, TraceFaultKind>
    ensures { Gives (rename_file (state_of state.now) from to kind file) result Freely }
{
    let directory = parent_of(&state.tree, &to)?;
    let replaced = under_file(state.tree.at(to.names()))?;
    let entry = DirEntry {
        directory,
        path: to,
    };
    if is_path_of(file, replaced) {
        return unmoved(alloc, from.names().len(), entry, Node::File(kind, file));
    }
    moved(state, from, entry, Node::File(kind, file), replaced)
}

/// The rename of the directory at `from`. A missing parent of `to` is NoParent, a parent that is no
/// directory is NotDir, and then a `to` below `from` is BadName. At `to` may be the directory
/// itself (nothing changes), nothing, or an empty directory, which is replaced; a file or symbolic
/// link is NotDir, and a directory with an entry is NotEmpty.
#[tactic(auto, using(crate::proofs::Renamed::directory_refused, crate::proofs::Renamed::directory_below, crate::proofs::Renamed::directory_unmoved, crate::proofs::Renamed::directory_over, crate::proofs::Renamed::directory_moved))]
fn rename_directory(
    alloc: Global,
    state: &LinesSoFar,
    from: Path,
    to: Path,
    directory: u32,
) -> Result<Operation, TraceFaultKind>
    ensures { Gives (rename_directory (state_of state.now) from to directory) result Freely }
{
    let above = parent_of(&state.tree, &to)?;
    if from.names().len() < to.names().len() && to.begins_with(&from) {
        return Err(TraceFaultKind::BadName);
    }
    let node = Node::Directory(directory);
    if from == to {
        let entry = DirEntry {
            directory: above,
            path: to,
        };
        return unmoved(alloc, 0, entry, node);
    }
    let replaced = under_directory(&state.tree, state.tree.at(to.names()))?;
    let entry = DirEntry {
        directory: above,
        path: to,
    };
    moved(state, from, entry, node, replaced)
}

/// The rename of what is at `from` to the path `to`. Nothing at `from` is Missing; a directory is
/// NotFile before version 4. The other faults are those of `rename_file` and `rename_directory`.
pub(crate) fn rename(
    alloc: Global,
    state: &LinesSoFar,
    from: &PathText<'_>,
    to: &PathText<'_>,
) -> Result<Operation, TraceFaultKind>
    ensures { Gives (rename (state_of state.now) from.now to.now) result Freely }
{
    let from = from.to_path(alloc)?;
    let to = to.to_path(alloc)?;
    match state.tree.at(from.names()) {
        None => Err(TraceFaultKind::Missing),
        Some(Node::File(kind, file)) => rename_file(alloc, state, from, to, kind, file),
        Some(Node::Directory(directory)) => {
            if !state.version.is_fourth() {
                return Err(TraceFaultKind::NotFile);
            }
            rename_directory(alloc, state, from, to, directory)
        }
    }
}
