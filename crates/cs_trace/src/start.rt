//! What the header and the start lines add to the state. After a fault, the caller drops the state,
//! so no clause says what is left of it.
ghost use Rattle.std.specs.Prelude.{◌≡◌, ◌≢◌, [], IfErr, IfOk, Ok, Err};
ghost use Rattle.std.specs.FinMap as map;
ghost use Rattle.cs_trace.specs.Kept.{Freely, IsBounded, IsStarting, state_of};
ghost use Rattle.cs_trace.specs.Outcomes.{Leaves};
ghost use Rattle.cs_trace.specs.States.{first_step, start_file_at, start_link_at, start_link_step};
ghost use Rattle.cs_trace.specs.States.{start_step};
ghost use Rattle.cs_trace_lines.specs.Lines.{Header};
ghost use Rattle.cs_trace_lines.specs.Said.{claims_of, start_of};

use crate::fault::TraceFaultKind;
use crate::judge::{are_too_many_names, free_in, is_over_limits};
use crate::names::entry_path;
use crate::put_start::{put_link, put_root};
use crate::rights::shared_claims;
use crate::start_entries::{add_entry, add_sibling, new_entry};
use crate::state::LinesSoFar;
use cs_entries::{FileKind, Node};
use cs_names::Path;
use cs_start::{PathText, StartEntry, StartMap};
use cs_trace_lines::{Claims, StartContent, StartLine, Version};
use std::alloc::Global;

/// Applies the start line of a file, a symbolic link or a directory: adds it to the start. A path,
/// an owner or a group that isn't legal is BadName; the other faults are those of `add_entry`.
/// Faster if the path is in the directory of the last start line, whose text was checked then: only
/// the last name is checked.
pub(crate) fn apply_start(
    alloc: Global,
    state: &mut LinesSoFar,
    line: StartLine,
) -> Result<(), TraceFaultKind>
    requires bounded { IsBounded (state_of state.old) }
    requires starting { IsStarting (state_of state.old) }
    ensures { Leaves
        (start_step (state_of state.old) (start_of line))
        result (state_of state.new) Freely }
{
    let StartLine {
        path,
        claims,
        content,
    } = line;
    if let Some((above, text, name)) = state.tree.take_spelled_directory(&path) {
        let rights = shared_claims(alloc, &mut state.last_rights, claims)?;
        return add_sibling(alloc, state, &text, above, name, rights, content);
    }
    let text = entry_path(&path)?;
    let rights = shared_claims(alloc, &mut state.last_rights, claims)?;
    add_entry(alloc, state, &text, rights, content)
}

/// What the start has for the regular file at the path, with the file's number. Nothing there is
/// Missing, and a directory and a symbolic link are NotFile.
fn start_file<'a>(start: &'a StartMap, path: &Path) -> Result<(&'a StartEntry, u32), TraceFaultKind>
    ensures file { IfOk result (λ parts.
        start_file_at (map.get start.now path.now) ≡ Ok (parts.0.now, parts.1)) }
    ensures fault { IfErr result (λ kind.
        start_file_at (map.get start.now path.now) ≡ Err kind) }
{
    let Some(entry) = start.entry(path) else {
        return Err(TraceFaultKind::Missing);
    };
    match entry.node {
        Node::Directory(_) => Err(TraceFaultKind::NotFile),
        Node::File(FileKind::Symlink, _) => Err(TraceFaultKind::NotFile),
        Node::File(FileKind::Regular, file) => Ok((entry, file)),
    }
}

/// Adds one more path, `to`, for the start's file at `from`. Nothing at `from` is Missing, and what
/// is no regular file is NotFile. Then a missing parent of `to` is NoParent, a parent that is no
/// directory is NotDir, and anything at `to` is Exists. Last, a path of more than TRACE_PATH_NAMES
/// names, or one record more than TREE_RECORDS, is TooLarge.
fn add_link(
    alloc: Global,
    state: &mut LinesSoFar,
    from: &PathText<'_>,
    to: &PathText<'_>,
) -> Result<(), TraceFaultKind>
    requires bounded { IsBounded (state_of state.old) }
    requires starting { IsStarting (state_of state.old) }
    requires some { to.now ≢ [] }
    ensures { Leaves
        (start_link_at (state_of state.old) from.now to.now)
        result (state_of state.new) Freely }
{
    let path = from.to_path(alloc)?;
    let (entry, file) = start_file(&state.start, &path)?;
    let path = to.to_path(alloc)?;
    let directory = free_in(&state.tree, &path)?;
    if are_too_many_names(from.len()) || is_over_limits(state.made, to.len()) {
        return Err(TraceFaultKind::TooLarge);
    }
    let entry = entry.try_clone()?;
    put_link(alloc, state, path, directory, entry, file)?;
    Ok(())
}

/// Applies the start line of a hard link: `to` spells one more path for the file at the path that
/// `from` spells. A text that spells no path, and the root, are BadName; the other faults are those
/// of `add_link`.
pub(crate) fn apply_link(
    alloc: Global,
    state: &mut LinesSoFar,
    to: &str,
    from: &str,
) -> Result<(), TraceFaultKind>
    requires bounded { IsBounded (state_of state.old) }
    requires starting { IsStarting (state_of state.old) }
    ensures { Leaves
        (start_link_step (state_of state.old) to.now from.now)
        result (state_of state.new) Freely }
{
    let to = entry_path(to)?;
    let from = entry_path(from)?;
    add_link(alloc, state, &from, &to)
}

/// Applies the header: it sets the version and adds the root, with the owner, group and mode that
/// the header claims. An owner or a group that isn't legal is BadName.
pub(crate) fn apply_header(
    alloc: Global,
    state: &mut LinesSoFar,
    version: Version,
    claims: Claims,
) -> Result<(), TraceFaultKind>
    requires bounded { IsBounded (state_of state.old) }
    requires first { state.old.made ≡ 0 }
    ensures { Leaves
        (first_step (state_of state.old) (Header version (claims_of claims)))
        result (state_of state.new) Freely }
{
    let rights = shared_claims(alloc, &mut state.last_rights, claims)?;
    state.version = version;
    let root = new_entry(alloc, state, 0, "", rights, StartContent::Directory)?;
    put_root(alloc, state, root)?;
    Ok(())
}
