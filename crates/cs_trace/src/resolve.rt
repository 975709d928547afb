//! From the line of an operation to the operation: its names are checked, its paths copied, and
//! then looked up in the tree. The state is only read; `LinesSoFar::apply` changes it. The faults
//! and their order are those of docs/reference/trace.md. A path of more than TRACE_PATH_NAMES names
//! has too many.
ghost use Rattle.std.specs.Prelude.{◌≡◌, ◌<◌, ◌^◌, length};
ghost use Rattle.cs_trace.specs.Judging.{fdatasync, fsync, fsync_range, may_set, or_bad_name};
ghost use Rattle.cs_trace.specs.Judging.{resolve, rmdir, say, set_attr, truncate, unlink, write};
ghost use Rattle.cs_trace.specs.Kept.{Freely, state_of};
ghost use Rattle.cs_trace.specs.Names.{set_path_of};
ghost use Rattle.cs_trace.specs.Outcomes.{Gives};
ghost use Rattle.cs_trace.specs.Resolving.{covers_at, synced_file_at};
ghost use Rattle.cs_trace_lines.specs.Said.{change_value, operation_value};

use crate::fault::TraceFaultKind;
use crate::judge::{
    are_too_many_names, emptied_by, ends_above, entry_at, file_at, leaf_at, size_in,
};
use crate::limits::most_bytes;
use crate::making::{creat, link, mkdir, symlink};
use crate::names::{any_path, are_set_names, entry_path};
use crate::operation::{Covers, Operation, Target};
use crate::renaming::rename;
use crate::rights::changed_rights;
use crate::state::LinesSoFar;
use cs_entries::{FileKind, Node};
use cs_names::limits::SAY_BYTES;
use cs_names::{Bytes, Path};
use cs_start::PathText;
use cs_trace_lines::{Change, OperationLine};
use std::alloc::Global;

/// The path of a chmod or a chown, which may be the root. A path that isn't legal is BadName, and
/// so is an owner or a group of a chown.
fn set_path<'a>(text: &'a str, change: &Change) -> Result<PathText<'a>, TraceFaultKind>
    ensures { result ≡ or_bad_name (set_path_of text.now (change_value change.now)) }
{
    let path = any_path(text)?;
    if !are_set_names(change) {
        return Err(TraceFaultKind::BadName);
    }
    Ok(path)
}

/// The unlink of the path of a file or a symbolic link. Nothing there is Missing, a directory is
/// NotFile, and last, too many names are TooLarge.
fn unlink(
    alloc: Global,
    state: &LinesSoFar,
    path: &PathText<'_>,
) -> Result<Operation, TraceFaultKind>
    ensures { Gives (unlink (state_of state.now) path.now) result Freely }
{
    let whole = path.to_path(alloc)?;
    let (kind, file) = leaf_at(&state.tree, &whole)?;
    if are_too_many_names(path.len()) {
        return Err(TraceFaultKind::TooLarge);
    }
    let entry = entry_at(&state.tree, whole);
    Ok(Operation::Unlink { entry, kind, file })
}

/// The rmdir of the empty directory at the path. Nothing there is Missing, a file or a symbolic
/// link is NotDir, a directory with an entry is NotEmpty, and last, too many names are TooLarge.
fn rmdir(
    alloc: Global,
    state: &LinesSoFar,
    path: &PathText<'_>,
) -> Result<Operation, TraceFaultKind>
    ensures { Gives (rmdir (state_of state.now) path.now) result Freely }
{
    let whole = path.to_path(alloc)?;
    let directory = emptied_by(&state.tree, state.tree.at(whole.names()))?;
    if are_too_many_names(path.len()) {
        return Err(TraceFaultKind::TooLarge);
    }
    let entry = entry_at(&state.tree, whole);
    Ok(Operation::Rmdir { entry, directory })
}

/// The write of bytes at the offset to the file at the path. Nothing there is Missing, and what is
/// no regular file is NotFile. Last, too many names are TooLarge, and so is a write of at least one
/// byte that ends above `most_bytes`.
fn write(
    alloc: Global,
    state: &LinesSoFar,
    path: &PathText<'_>,
    offset: u64,
    bytes: Vec<u8>,
) -> Result<Operation, TraceFaultKind>
    ensures { Gives (write (state_of state.now) path.now offset bytes.items) result Freely }
{
    let whole = path.to_path(alloc)?;
    let file = file_at(&state.tree, &whole)?;
    if are_too_many_names(path.len()) || ends_above(state.version, offset, &bytes) {
        return Err(TraceFaultKind::TooLarge);
    }
    Ok(Operation::Write {
        file,
        size: size_in(&state.sizes, file),
        offset,
        bytes: Bytes::new(bytes),
    })
}

/// The truncate of the file at the path to a length in bytes, which may be greater than its size.
/// Nothing there is Missing, and what is no regular file is NotFile. Last, too many names are
/// TooLarge, and so is a length above `most_bytes`.
fn truncate(
    alloc: Global,
    state: &LinesSoFar,
    path: &PathText<'_>,
    length: u64,
) -> Result<Operation, TraceFaultKind>
    ensures { Gives (truncate (state_of state.now) path.now length) result Freely }
{
    let whole = path.to_path(alloc)?;
    let file = file_at(&state.tree, &whole)?;
    if are_too_many_names(path.len()) || length > most_bytes(state.version) {
        return Err(TraceFaultKind::TooLarge);
    }
    let size = size_in(&state.sizes, file);
    Ok(Operation::Truncate { file, size, length })
}

/// Whether the change may be made of the node: all but a chmod of a symbolic link.
fn may_set(change: &Change, node: Node) -> bool
    ensures { result ≡ may_set (change_value change.now) node }
{
    match (change, node) {
        (Change::Mode(_), Node::File(FileKind::Symlink, _)) => false,
        _ => true,
    }
}

/// The chmod or chown of what is at the path, with its owner, group and permissions before and
/// after. Nothing there is Missing, a chmod of a symbolic link is NotFile, and last, too many names
/// are TooLarge. What has no rights in the state is Missing, too; in the versions that have chmod
/// and chown, everything has some.
fn set_attr(
    alloc: Global,
    state: &LinesSoFar,
    path: &PathText<'_>,
    change: &Change,
) -> Result<Operation, TraceFaultKind>
    ensures { Gives (set_attr (state_of state.now) path.now (change_value change.now))
        result Freely }
{
    let whole = path.to_path(alloc)?;
    let Some(node) = state.tree.at(whole.names()) else {
        return Err(TraceFaultKind::Missing);
    };
    if !may_set(change, node) {
        return Err(TraceFaultKind::NotFile);
    }
    let Some(rights) = state.attributes.rights(node) else {
        return Err(TraceFaultKind::Missing);
    };
    if are_too_many_names(path.len()) {
        return Err(TraceFaultKind::TooLarge);
    }
    let before = rights.try_clone()?;
    let after = changed_rights(alloc, rights, change)?;
    Ok(Operation::SetAttr {
        target: Target::of(node, whole),
        before,
        after,
    })
}

/// What an fsync of the path covers: the regular file there, or the directory there, with the path.
/// Nothing there is Missing, and a symbolic link is NotFile.
fn covered_at(state: &LinesSoFar, path: Path) -> Result<Covers, TraceFaultKind>
    ensures { covers_at (state_of state.now) path ≡ result }
{
    match state.tree.at(path.names()) {
        None => Err(TraceFaultKind::Missing),
        Some(Node::File(FileKind::Symlink, _)) => Err(TraceFaultKind::NotFile),
        Some(Node::File(FileKind::Regular, file)) => Ok(Covers::File(file)),
        Some(Node::Directory(number)) => Ok(Covers::Directory { number, path }),
    }
}

/// The fsync of the file or directory at the path. Nothing there is Missing, a symbolic link is
/// NotFile, and last, too many names are TooLarge.
#[tactic(auto, using(crate::proofs::Renamed::fsync_fails, crate::proofs::Renamed::fsync_made))]
fn fsync(
    alloc: Global,
    state: &LinesSoFar,
    path: &PathText<'_>,
) -> Result<Operation, TraceFaultKind>
    ensures { Gives (fsync (state_of state.now) path.now) result Freely }
{
    let covers = covered_at(state, path.to_path(alloc)?)?;
    if are_too_many_names(path.len()) {
        return Err(TraceFaultKind::TooLarge);
    }
    Ok(Operation::Sync(covers))
}

/// The number of the regular file at the path, for an fdatasync and an fsync_range. Nothing there
/// is Missing, what is no regular file is NotFile, and last, too many names are TooLarge.
fn synced_file(
    alloc: Global,
    state: &LinesSoFar,
    path: &PathText<'_>,
) -> Result<u32, TraceFaultKind>
    ensures { Gives (synced_file_at (state_of state.now) path.now) result Freely }
{
    let whole = path.to_path(alloc)?;
    let file = file_at(&state.tree, &whole)?;
    if are_too_many_names(path.len()) {
        return Err(TraceFaultKind::TooLarge);
    }
    Ok(file)
}

/// The fdatasync of the regular file at the path. The faults are those of `synced_file`.
#[tactic(auto, using(crate::proofs::Renamed::fdatasync_fails, crate::proofs::Renamed::fdatasync_made))]
fn fdatasync(
    alloc: Global,
    state: &LinesSoFar,
    path: &PathText<'_>,
) -> Result<Operation, TraceFaultKind>
    ensures { Gives (fdatasync (state_of state.now) path.now) result Freely }
{
    let file = synced_file(alloc, state, path)?;
    Ok(Operation::Sync(Covers::Data(file)))
}

/// The fsync_range of `length` bytes of the regular file at the path, from the offset on. The range
/// may end after the end of the file, and even above 2^64. The faults are those of `synced_file`.
#[tactic(auto, using(crate::proofs::Renamed::fsync_range_fails, crate::proofs::Renamed::fsync_range_made))]
fn fsync_range(
    alloc: Global,
    state: &LinesSoFar,
    path: &PathText<'_>,
    offset: u64,
    length: u64,
) -> Result<Operation, TraceFaultKind>
    ensures { Gives (fsync_range (state_of state.now) path.now offset length) result Freely }
{
    let file = synced_file(alloc, state, path)?;
    Ok(Operation::Sync(Covers::Range {
        file,
        offset,
        length,
    }))
}

/// The say of a text, which isn't kept. A text of more than SAY_BYTES bytes is TooLarge. An empty
/// one is legal.
fn say(text: &str) -> Result<Operation, TraceFaultKind>
    ensures { result ≡ say text.now }
{
    if text.len() > SAY_BYTES {
        return Err(TraceFaultKind::TooLarge);
    }
    Ok(Operation::Say)
}

/// The operation that the line means in this state, or the fault of the first check that it fails:
/// of its names, of what is at its paths, and last of the limits. The state isn't changed.
pub(crate) fn resolve(
    alloc: Global,
    state: &LinesSoFar,
    line: OperationLine,
) -> Result<Operation, TraceFaultKind>
    requires files { length state.now.sizes.items < 2 ^ 32 }
    requires directories { length state.now.homes < 2 ^ 32 }
    ensures { Gives (resolve (state_of state.now) (operation_value line)) result Freely }
{
    match line {
        OperationLine::Creat { path, claims } => creat(alloc, state, &path, claims),
        OperationLine::Mkdir { path, claims } => mkdir(alloc, state, &path, claims),
        OperationLine::Symlink {
            path,
            claims,
            target,
        } => symlink(alloc, state, &path, claims, target),
        OperationLine::Link { from, to } => {
            link(alloc, state, &entry_path(&from)?, &entry_path(&to)?)
        }
        OperationLine::Unlink { path } => unlink(alloc, state, &entry_path(&path)?),
        OperationLine::Rmdir { path } => rmdir(alloc, state, &entry_path(&path)?),
        OperationLine::Rename { from, to } => {
            rename(alloc, state, &entry_path(&from)?, &entry_path(&to)?)
        }
        OperationLine::Write {
            path,
            offset,
            bytes,
        } => write(alloc, state, &entry_path(&path)?, offset, bytes),
        OperationLine::Truncate { path, size } => {
            truncate(alloc, state, &entry_path(&path)?, size)
        }
        OperationLine::SetAttr { path, change } => {
            set_attr(alloc, state, &set_path(&path, &change)?, &change)
        }
        OperationLine::Fsync { path } => fsync(alloc, state, &any_path(&path)?),
        OperationLine::Fdatasync { path } => fdatasync(alloc, state, &entry_path(&path)?),
        OperationLine::FsyncRange {
            path,
            offset,
            length,
        } => fsync_range(alloc, state, &entry_path(&path)?, offset, length),
        OperationLine::Sync => Ok(Operation::Sync(Covers::All)),
        OperationLine::Say { text } => say(&text),
    }
}
