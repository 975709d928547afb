//! Owner, group and permissions (the rights) that a line claims or sets. A line claims the rights
//! of what it makes. If lines one after another have equal rights, they share one copy of them.
ghost use Rattle.std.specs.Prelude.{◌≡◌, IfOk, IsOk, IsTrue, Ok};
ghost use Rattle.cs_trace.specs.Judging.{rights_after, rights_in};
ghost use Rattle.cs_trace.specs.Outcomes.{Gives};
ghost use Rattle.cs_trace_lines.specs.Said.{change_value, claims_of};

use crate::fault::TraceFaultKind;
use crate::names::{copy_user_name, user_name};
use cs_start::{Rights, Shared};
use cs_trace_lines::{Change, Claims};
use std::alloc::{AllocError, Global};

/// The rights that a line claims, with its names moved. An owner or a group that isn't legal is
/// BadName. It takes no memory.
pub(crate) fn claimed_rights(claims: Claims) -> Result<Rights, TraceFaultKind>
    ensures { result ≡ rights_in (claims_of claims) }
{
    Ok(Rights {
        owner: user_name(claims.owner)?,
        group: user_name(claims.group)?,
        permissions: claims.permissions,
    })
}

/// A copy of the rights after the change. A chmod sets the permissions and keeps owner and group; a
/// chown sets owner and group and keeps the permissions. The caller has checked by `are_set_names`
/// that the names are legal. The only error is that memory runs out.
pub(crate) fn changed_rights(
    alloc: Global,
    rights: &Rights,
    change: &Change,
) -> Result<Rights, AllocError>
    ensures { IfOk result (λ changed. changed ≡ rights_after (change_value change.now) rights.now) }
{
    let mut changed = rights.try_clone()?;
    match change {
        Change::Mode(permissions) => changed.permissions = *permissions,
        Change::Owner { owner, group } => {
            changed.owner = copy_user_name(alloc, owner)?;
            changed.group = copy_user_name(alloc, group)?;
        }
    }
    Ok(changed)
}

/// Whether the claims are equal to these rights. True only if the claimed names are legal, since
/// those of rights are.
fn are_claimed(rights: &Rights, claims: &Claims) -> bool
    ensures { IsTrue result → rights_in (claims_of claims.now) ≡ Ok rights.now }
{
    rights.permissions == claims.permissions
        && rights.owner.as_str() == claims.owner.as_str()
        && rights.group.as_str() == claims.group.as_str()
}

/// The rights that a line claims. If they are equal to `last`, those of an earlier line, both lines
/// share them; if not, they become `last`. An owner or a group that isn't legal is BadName, which
/// leaves `last` as it was.
pub(crate) fn shared_claims(
    alloc: Global,
    last: &mut Option<Shared<Rights>>,
    claims: Claims,
) -> Result<Shared<Rights>, TraceFaultKind>
    ensures { Gives (rights_in (claims_of claims)) result IsOk }
{
    if let Some(shared) = last {
        if are_claimed(shared.get(), &claims) {
            return Ok(shared.try_clone()?);
        }
    }
    let rights = claimed_rights(claims)?;
    let shared = Shared::new(alloc, rights)?;
    *last = Some(shared.try_clone()?);
    Ok(shared)
}

/// The rights as a value that may be shared: `last` itself if it is equal to them, or else a copy,
/// which becomes `last`.
pub(crate) fn shared_rights(
    alloc: Global,
    last: &mut Option<Shared<Rights>>,
    rights: &Rights,
) -> Result<Shared<Rights>, AllocError>
    ensures { IfOk result (λ shared. shared ≡ rights.now) }
{
    if let Some(shared) = last {
        if shared.get() == rights {
            return shared.try_clone();
        }
    }
    let shared = Shared::new(alloc, rights.try_clone()?)?;
    *last = Some(shared.try_clone()?);
    Ok(shared)
}
