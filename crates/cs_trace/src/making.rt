//! Lines that make an entry: creat, mkdir, symlink and link. Their names are checked, their paths
//! copied, and then looked up in the tree. The state is only read.
ghost use Rattle.std.specs.Prelude.{◌≡◌, ◌<◌, ◌^◌, length};
ghost use Rattle.std.specs.String.{string_bytes};
ghost use Rattle.cs_trace.specs.Judging.{creat, link, mkdir, symlink, with_path};
ghost use Rattle.cs_trace.specs.Kept.{Freely, state_of};
ghost use Rattle.cs_trace.specs.Names.{claims_by, new_path_of};
ghost use Rattle.cs_trace.specs.Outcomes.{Gives};
ghost use Rattle.cs_trace.specs.Resolving.{new_entry_at};
ghost use Rattle.cs_trace_lines.specs.Said.{claims_of};

use crate::fault::TraceFaultKind;
use crate::judge::{are_too_many_names, file_at, free_in, is_over_limits};
use crate::names::entry_path;
use crate::operation::Operation;
use crate::rights::claimed_rights;
use crate::state::LinesSoFar;
use cs_entries::DirEntry;
use cs_names::Bytes;
use cs_start::{PathText, Rights};
use cs_trace_lines::Claims;
use std::alloc::Global;

/// A new entry at the path. A missing parent is NoParent, a parent that is no directory is NotDir,
/// and anything at the path is Exists. Then a path of more than TRACE_PATH_NAMES names is TooLarge,
/// and so is one record more than TREE_RECORDS.
#[tactic(auto, using(crate::proofs::Entering::entry_found, crate::proofs::Entering::entry_refused, crate::proofs::Entering::entry_large))]
fn new_entry(
    alloc: Global,
    state: &LinesSoFar,
    path: &PathText<'_>,
) -> Result<DirEntry, TraceFaultKind>
    ensures { Gives (new_entry_at (state_of state.now) path.now) result Freely }
{
    let path = path.to_path(alloc)?;
    let directory = free_in(&state.tree, &path)?;
    if is_over_limits(state.made, path.names().len()) {
        return Err(TraceFaultKind::TooLarge);
    }
    Ok(DirEntry { directory, path })
}

/// The creat of a file at the path, with the next number of a file. The faults are those of
/// `new_entry`.
#[tactic(auto, using(crate::proofs::Made::creat_made, crate::proofs::Made::creat_fails))]
fn creat_at(
    alloc: Global,
    state: &LinesSoFar,
    path: &PathText<'_>,
    rights: Rights,
) -> Result<Operation, TraceFaultKind>
    requires { length state.now.sizes.items < 2 ^ 32 }
    ensures { Gives (creat (state_of state.now) path.now (claims_by rights)) result Freely }
{
    let entry = new_entry(alloc, state, path)?;
    let file = state.sizes.len() as u32;
    Ok(Operation::Creat {
        entry,
        file,
        rights,
    })
}

/// The creat of a file at the path that the text spells. If the path, the owner or the group isn't
/// legal, it is BadName; the other faults are those of `new_entry`.
pub(crate) fn creat(
    alloc: Global,
    state: &LinesSoFar,
    text: &str,
    claims: Claims,
) -> Result<Operation, TraceFaultKind>
    requires { length state.now.sizes.items < 2 ^ 32 }
    ensures { Gives
        (with_path (new_path_of text.now (claims_of claims)) (λ p.
        creat (state_of state.now) p (claims_of claims)))
        result Freely }
{
    let path = entry_path(text)?;
    let rights = claimed_rights(claims)?;
    creat_at(alloc, state, &path, rights)
}

/// The mkdir of a directory at the path, with the number that `Homes::number_for` gives it. The
/// faults are those of `new_entry`.
#[tactic(auto, using(crate::proofs::Made::mkdir_made, crate::proofs::Made::mkdir_fails))]
fn mkdir_at(
    alloc: Global,
    state: &LinesSoFar,
    path: &PathText<'_>,
    rights: Rights,
) -> Result<Operation, TraceFaultKind>
    requires { length state.now.homes < 2 ^ 32 }
    ensures { Gives (mkdir (state_of state.now) path.now (claims_by rights)) result Freely }
{
    let entry = new_entry(alloc, state, path)?;
    let directory = state
        .homes
        .number_for(state.version, entry.directory, entry.name());
    Ok(Operation::Mkdir {
        entry,
        directory,
        rights,
    })
}

/// The mkdir of a directory at the path that the text spells. If the path, the owner or the group
/// isn't legal, it is BadName; the other faults are those of `new_entry`.
pub(crate) fn mkdir(
    alloc: Global,
    state: &LinesSoFar,
    text: &str,
    claims: Claims,
) -> Result<Operation, TraceFaultKind>
    requires { length state.now.homes < 2 ^ 32 }
    ensures { Gives
        (with_path (new_path_of text.now (claims_of claims)) (λ p.
        mkdir (state_of state.now) p (claims_of claims)))
        result Freely }
{
    let path = entry_path(text)?;
    let rights = claimed_rights(claims)?;
    mkdir_at(alloc, state, &path, rights)
}

/// The symlink at the path, with the next number of a file. The target isn't looked up. The faults
/// are those of `new_entry`.
#[tactic(auto, using(crate::proofs::Made::symlink_made, crate::proofs::Made::symlink_fails))]
fn symlink_at(
    alloc: Global,
    state: &LinesSoFar,
    path: &PathText<'_>,
    rights: Rights,
    target: String,
) -> Result<Operation, TraceFaultKind>
    requires { length state.now.sizes.items < 2 ^ 32 }
    ensures { Gives
        (symlink (state_of state.now) path.now (claims_by rights) (string_bytes target))
        result Freely }
{
    let entry = new_entry(alloc, state, path)?;
    let file = state.sizes.len() as u32;
    Ok(Operation::Symlink {
        entry,
        file,
        rights,
        target: Bytes::new(target.into_bytes()),
    })
}

/// The symlink at the path that the text spells. If the path, the owner or the group isn't legal,
/// it is BadName; the other faults are those of `new_entry`.
pub(crate) fn symlink(
    alloc: Global,
    state: &LinesSoFar,
    text: &str,
    claims: Claims,
    target: String,
) -> Result<Operation, TraceFaultKind>
    requires { length state.now.sizes.items < 2 ^ 32 }
    ensures { Gives
        (with_path (new_path_of text.now (claims_of claims)) (λ p.
        symlink (state_of state.now) p (claims_of claims) (string_bytes target)))
        result Freely }
{
    let path = entry_path(text)?;
    let rights = claimed_rights(claims)?;
    symlink_at(alloc, state, &path, rights, target)
}

/// The link that gives the file at `from` one more path, `to`. Nothing at `from` is Missing, and
/// what is no regular file is NotFile. Then `to` has the faults of `new_entry`; a path `from` of
/// too many names is TooLarge, too.
#[tactic(auto, using(crate::proofs::Made::link_missing, crate::proofs::Made::link_refused, crate::proofs::Made::link_large, crate::proofs::Made::link_made))]
pub(crate) fn link(
    alloc: Global,
    state: &LinesSoFar,
    from: &PathText<'_>,
    to: &PathText<'_>,
) -> Result<Operation, TraceFaultKind>
    ensures { Gives (link (state_of state.now) from.now to.now) result Freely }
{
    let path = from.to_path(alloc)?;
    let file = file_at(&state.tree, &path)?;
    let path = to.to_path(alloc)?;
    let directory = free_in(&state.tree, &path)?;
    if are_too_many_names(from.len()) || is_over_limits(state.made, to.len()) {
        return Err(TraceFaultKind::TooLarge);
    }
    let entry = DirEntry { directory, path };
    Ok(Operation::Link { entry, file })
}
