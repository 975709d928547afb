//! Wstats (stat(5)).
ghost use Rattle.std.specs.Prelude.{◌≡◌, ℕ, IfOk, List, OnOk, OnErr, Some, false, is_some, true};
ghost use Rattle.std.specs.Option.{option_map_or};
ghost use Rattle.cs_permit.specs.Changes.{new_group, new_name};
ghost use Rattle.cs_permit.specs.Refusals.{AllPass};
ghost use Rattle.cs_permit.specs.Wstats.{wstat_rules};
ghost use Rattle.cs_permit.specs.declared.call.OpenFile.{OpenFile};
ghost use Rattle.cs_run.specs.Effects.{requested_change, change_of, changed_by, changes_some};
ghost use Rattle.cs_run.specs.Effects.{call_result, wstat_effect};
ghost use Rattle.cs_tree_model.specs.Record.{metadata_of_ref};
ghost use Rattle.cs_tree_model.specs.Stores.{CanStamp};
ghost use Rattle.cs_users.specs.Rows.{Row};

use crate::answer::Answer;
use crate::turn::{Turn, stamp_of};
use cs_names::{Name, UserName};
use cs_permit::{WstatCall, new_group, new_length, new_mode, new_mtime, new_name};
use cs_tree_model::{Change, Metadata, TreeRead, TreeStore};
use std::alloc::{AllocError, Global};

/// The new name, owned; None if the wstat changes no name. The wstat's rules have passed, so an
/// error means that memory ran out.
fn requested_name<T: TreeRead>(
    alloc: Global,
    tree: &T,
    call: &WstatCall,
) -> Result<Option<Name>, AllocError>
    ensures value { IfOk result (λ name. name ≡ new_name (T.tree tree.now) call.now) }
    ensures memory { OnErr result (is_some (new_name (T.tree tree.now) call.now) ≡ true) }
{
    let Some(name) = new_name(tree, call) else {
        return Ok(None);
    };
    match Name::read(alloc, name.as_bytes()) {
        Ok(name) => Ok(Some(name)),
        // only out of memory: Q5 denies a name that isn't legal
        Err(_) => Err(AllocError),
    }
}

/// The new group, owned; None if the wstat changes no group. The wstat's rules have passed, so an
/// error means that memory ran out.
fn requested_group(
    alloc: Global,
    call: &WstatCall,
    file: &Metadata,
) -> Result<Option<UserName>, AllocError>
    ensures value { IfOk result (λ group. group ≡ new_group call.now (metadata_of_ref file.now)) }
    ensures memory { OnErr result (is_some (new_group call.now (metadata_of_ref file.now)) ≡ true) }
{
    let Some(group) = new_group(call, file) else {
        return Ok(None);
    };
    match UserName::read(alloc, group.as_bytes()) {
        Ok(group) => Ok(Some(group)),
        // only out of memory: Q13 denies a group that is no known user
        Err(_) => Err(AllocError),
    }
}

/// The fields of this file that a wstat changes, each with its new value; None for each field that
/// stays. The error is out of memory.
fn change_of<T: TreeRead>(
    alloc: Global,
    tree: &T,
    call: &WstatCall,
    file: &Metadata,
) -> Result<Change, AllocError>
    ensures value { IfOk result (λ change. change ≡ change_of (T.tree tree.now) call.now
        (metadata_of_ref file.now)) }
    ensures memory { OnErr result (changes_some (change_of (T.tree tree.now) call.now
        (metadata_of_ref file.now)) ≡ true) }
{
    let name = requested_name(alloc, tree, call)?;
    let group = requested_group(alloc, call, file)?;
    Ok(Change {
        name,
        length: new_length(call, file),
        mode: new_mode(call, file),
        group,
        mtime: new_mtime(call, file),
    })
}

/// The change that a wstat asks for, which may have no field; None if its file is gone. The error
/// is out of memory.
fn requested_change<T: TreeRead>(
    alloc: Global,
    tree: &T,
    call: &WstatCall,
) -> Result<Option<Change>, AllocError>
    ensures value { IfOk result (λ change. change ≡ requested_change (T.tree tree.now) call.now) }
    ensures memory { OnErr result (option_map_or changes_some
        (requested_change (T.tree tree.now) call.now) false ≡ true) }
{
    match tree.record(call.number) {
        Some(file) => Ok(Some(change_of(alloc, tree, call, &file)?)),
        None => Ok(None),
    }
}

/// Whether the change has at least one field.
fn changes_some(change: &Change) -> bool
    ensures { result ≡ changes_some change.now }
{
    change.name.is_some()
        || change.length.is_some()
        || change.mode.is_some()
        || change.group.is_some()
        || change.mtime.is_some()
}

/// Makes `change`, the change that the wstat asks for, unless it has no field. The error is out of
/// memory; the tree stays as it was. The caller has checked the rules of a wstat; no version may
/// overflow.
fn change_by<T: TreeStore>(
    alloc: Global,
    call: &WstatCall,
    tree: &mut T,
    change: &Change,
    turn: Turn,
) -> Result<(), AllocError>
    requires granted { (users : List Row)
        × AllPass (wstat_rules (T.tree tree.old) users call.now) }
    requires requested { requested_change (T.tree tree.old) call.now ≡ Some change.now }
    requires vers { (n : ℕ) → CanStamp (T.tree tree.old) n }
    ensures ok { OnOk result (T.tree tree.new ≡ changed_by
        (T.tree tree.old) turn call.now change.now) }
    ensures memory { OnErr result (changes_some change.now ≡ true) }
    ensures err { OnErr result (T.tree tree.new ≡ T.tree tree.old) }
{
    if !changes_some(change) {
        return Ok(());
    }
    let stamp = stamp_of(turn, &call.user)?;
    tree.change(alloc, call.number, change, stamp)
}

/// Changes all fields of a file for which the wstat has a new value. The caller has checked the
/// rules of a wstat. If it has no new value, or the file is gone, nothing changes, and the answer
/// is Changed, too. The error is out of memory; the tree stays as it was. No version may overflow,
/// as `act` requires.
#[tactic(auto, unfolding(crate::specs::Effects::wstat_effect))]
pub fn act_wstat<T: TreeStore>(
    alloc: Global,
    call: &WstatCall,
    tree: &mut T,
    turn: Turn,
) -> Result<Answer, AllocError>
    requires granted { (users : List Row)
        × AllPass (wstat_rules (T.tree tree.old) users call.now) }
    requires vers { (n : ℕ) → CanStamp (T.tree tree.old) n }
    ensures ok { (opens : List OpenFile) → IfOk result (λ answer.
        call_result (T.tree tree.new) opens answer
        ≡ wstat_effect (T.tree tree.old) opens turn call.now) }
    ensures memory { OnErr result (option_map_or changes_some
        (requested_change (T.tree tree.old) call.now) false ≡ true) }
    ensures err { OnErr result (T.tree tree.new ≡ T.tree tree.old) }
{
    if let Some(change) = requested_change(alloc, tree, call)? {
        change_by(alloc, call, tree, &change, turn)?;
    }
    Ok(Answer::Changed)
}
