//! The names in a line: paths, and owners and groups. They are checked without taking memory, and
//! then moved or copied. What isn't legal is BadName; which names are, is in cs_names.
ghost use Rattle.std.specs.Prelude.{◌≡◌, IfOk, string_bytes};
ghost use Rattle.cs_start.specs.Names.{entry_path_of, path_of};
ghost use Rattle.cs_trace.specs.Judging.{or_bad_name, user_name_or};
ghost use Rattle.cs_trace.specs.Names.{are_set_names, is_user_name};
ghost use Rattle.cs_trace_lines.specs.Said.{change_value};

use crate::fault::TraceFaultKind;
use cs_names::UserName;
use cs_start::PathText;
use cs_trace_lines::Change;
use std::alloc::{AllocError, Global};

/// Whether the text is a legal name of a user or a group: 1 to 64 bytes without NUL. It takes no
/// memory.
fn is_user_name(text: &str) -> bool
    ensures { result ≡ is_user_name text.now }
{
    UserName::check(text.as_bytes()).is_ok()
}

/// Whether the owner and the group that a chown sets have legal names. True for a chmod, which sets
/// none.
pub(crate) fn are_set_names(change: &Change) -> bool
    ensures { result ≡ are_set_names (change_value change.now) }
{
    match change {
        Change::Mode(_) => true,
        Change::Owner { owner, group } => is_user_name(owner) && is_user_name(group),
    }
}

/// The text as the name of a user or a group, moved without taking memory. A text that is no legal
/// name is BadName.
pub(crate) fn user_name(text: String) -> Result<UserName, TraceFaultKind>
    ensures { result ≡ user_name_or (string_bytes text) }
{
    UserName::from_text(text).map_err(|_| TraceFaultKind::BadName)
}

/// The text, copied, as the name of a user or a group. The caller has checked by `are_set_names`
/// that it is legal, so an AllocError means out of memory.
pub(crate) fn copy_user_name(alloc: Global, text: &str) -> Result<UserName, AllocError>
    ensures { IfOk result (λ name. name ≡ text.now) }
{
    UserName::read(alloc, text.as_bytes()).map_err(|_| AllocError)
}

/// The path that the text spells, which may be the root. A text that spells no path is BadName. The
/// names aren't counted here.
pub(crate) fn any_path(text: &str) -> Result<PathText<'_>, TraceFaultKind>
    ensures { result ≡ or_bad_name (path_of text.now) }
{
    PathText::of(text).ok_or(TraceFaultKind::BadName)
}

/// The path that the text spells, which has an entry: the root, and a text that spells no path, are
/// BadName. The names aren't counted here.
pub(crate) fn entry_path(text: &str) -> Result<PathText<'_>, TraceFaultKind>
    ensures { result ≡ or_bad_name (entry_path_of text.now) }
{
    PathText::of_entry(text).ok_or(TraceFaultKind::BadName)
}
