//! The rules of a wstat (stat(5)), in groups by the field that changes. Each `first_of_` function
//! returns None if all rules of its group pass. They all do if the wstat changes no field of the
//! group. What a rule says is the text of its `RuleId`.
ghost use Rattle.std.specs.Prelude.{◌≡◌};
ghost use Rattle.cs_tree_model.specs.Record.{metadata_of_ref};
ghost use Rattle.cs_permit.specs.Refusals.{first_failing};
ghost use Rattle.cs_permit.specs.Wstats.{field_rules, group_rules, is_bad_mode, is_owner_or_leader};
ghost use Rattle.cs_permit.specs.Wstats.{length_rules, may_give, mode_rules, name_rules};
ghost use Rattle.cs_permit.specs.Wstats.{number_of_sibling, wstat_rules};

use crate::call::WstatCall;
use crate::changes::{
    changes_attributes, changes_fixed, new_group, new_length, new_mode, new_name,
};
use crate::mode::{has_bit_outside_given, is_append_or_exclusive};
use crate::rules::{is_directory, may_access, parent_lacks};
use cs_names::limits::FILE_BYTES;
use cs_names::{Name, RuleId, UserName};
use cs_tree_model::{DMDIR, Metadata, TreeRead};
use cs_users::{Right, Users, owns};

/// The number of the file of that name in the directory of the file `number`; None if no file has
/// that number, or the directory has no such name.
fn number_of_sibling<T: TreeRead>(tree: &T, number: u64, name: &str) -> Option<u64>
    ensures { result ≡ number_of_sibling (T.tree tree.now) number name.now }
{
    let parent = tree.parent_of(number)?;
    tree.find_number(parent, name)
}

/// The first of Q4 to Q7 that fails; None if none does, or if the name doesn't change. A new name
/// asks for w on the file's directory, and must be free there.
#[tactic(auto, unfolding(crate::specs::Wstats::name_rules))]
fn first_of_name<T: TreeRead>(call: &WstatCall, tree: &T, users: &Users) -> Option<RuleId>
    ensures { result ≡ first_failing (name_rules (T.tree tree.now) users.now call.now) }
{
    let name = new_name(tree, call)?;
    // 0 is the root
    if call.number == 0 {
        return Some(RuleId::Q4);
    }
    if Name::check(name.as_bytes()).is_err() {
        return Some(RuleId::Q5);
    }
    if parent_lacks(tree, users, &call.user, Right::Write, call.number) {
        return Some(RuleId::Q6);
    }
    if number_of_sibling(tree, call.number, name).is_some() {
        return Some(RuleId::Q7);
    }
    None
}

/// The first of Q8 to Q10 that fails; None if none does, or if the length doesn't change. A new
/// length asks for w on the file, as an open for writing does.
#[tactic(auto, unfolding(crate::specs::Wstats::length_rules))]
pub fn first_of_length(call: &WstatCall, users: &Users, file: &Metadata) -> Option<RuleId>
    ensures { result ≡ first_failing (length_rules users.now call.now (metadata_of_ref file.now)) }
{
    let length = new_length(call, file)?;
    if is_directory(file) {
        return Some(RuleId::Q8);
    }
    if !may_access(users, &call.user, Right::Write, file) {
        return Some(RuleId::Q9);
    }
    if length > FILE_BYTES {
        return Some(RuleId::Q10);
    }
    None
}

/// Whether a wstat can't give the file that mode (rule Q11): the mode has a bit that no client may
/// give, or changes DMDIR, or would make a directory append-only or exclusive.
/// `are_bad_permissions` in `mode.rt` has the first and the last test, for a create.
fn is_bad_mode(file: &Metadata, mode: u32) -> bool
    ensures { result ≡ is_bad_mode (metadata_of_ref file.now) mode }
{
    has_bit_outside_given(mode)
        || mode & DMDIR != file.mode & DMDIR
        || (is_directory(file) && is_append_or_exclusive(mode))
}

/// Whether the user owns the file or leads its group.
fn is_owner_or_leader(users: &Users, user: &UserName, file: &Metadata) -> bool
    ensures { result ≡ is_owner_or_leader users.now user.now (metadata_of_ref file.now) }
{
    owns(user.as_bytes(), file.owner.as_bytes())
        || users.is_leader(user.as_bytes(), file.group.as_bytes())
}

/// The first of Q11 and Q12 that fails; None if neither does. Q11 counts only if the mode changes,
/// Q12 if the mode or the mtime does.
#[tactic(auto, unfolding(crate::specs::Wstats::mode_rules))]
pub fn first_of_mode(call: &WstatCall, users: &Users, file: &Metadata) -> Option<RuleId>
    ensures { result ≡ first_failing (mode_rules users.now call.now (metadata_of_ref file.now)) }
{
    if let Some(mode) = new_mode(call, file) {
        if is_bad_mode(file, mode) {
            return Some(RuleId::Q11);
        }
    }
    if changes_attributes(call, file) && !is_owner_or_leader(users, &call.user, file) {
        return Some(RuleId::Q12);
    }
    None
}

/// Whether the user may give the file that group: as the owner and a member of it, or as the leader
/// of both it and the file's present group.
fn may_give(users: &Users, user: &UserName, file: &Metadata, group: &str) -> bool
    ensures { result ≡ may_give users.now user.now (metadata_of_ref file.now) group.now }
{
    let user = user.as_bytes();
    (owns(user, file.owner.as_bytes()) && users.is_member(user, group.as_bytes()))
        || (users.is_leader(user, file.group.as_bytes()) && users.is_leader(user, group.as_bytes()))
}

/// The first of Q13 and Q14 that fails; None if neither does, or if the group doesn't change.
#[tactic(auto, unfolding(crate::specs::Wstats::group_rules))]
pub fn first_of_group(call: &WstatCall, users: &Users, file: &Metadata) -> Option<RuleId>
    ensures { result ≡ first_failing (group_rules users.now call.now (metadata_of_ref file.now)) }
{
    let group = new_group(call, file)?;
    if !users.knows(group.as_bytes()) {
        return Some(RuleId::Q13);
    }
    if !may_give(users, &call.user, file, group) {
        return Some(RuleId::Q14);
    }
    None
}

/// The first of Q4 to Q14 that fails, of a file that is there; None if none does.
#[tactic(auto, using(crate::proofs::Firsts::first_failing_append))]
fn first_of_fields<T: TreeRead>(
    call: &WstatCall,
    tree: &T,
    users: &Users,
    file: &Metadata,
) -> Option<RuleId>
    ensures { result ≡ first_failing (field_rules (T.tree tree.now) users.now call.now
        (metadata_of_ref file.now)) }
{
    if let Some(rule) = first_of_name(call, tree, users) {
        return Some(rule);
    }
    if let Some(rule) = first_of_length(call, users, file) {
        return Some(rule);
    }
    if let Some(rule) = first_of_mode(call, users, file) {
        return Some(rule);
    }
    first_of_group(call, users, file)
}

/// The first of Q2 to Q14 that fails; None if none does. A wstat of several fields is denied as a
/// whole.
pub fn first_of_wstat<T: TreeRead>(call: &WstatCall, tree: &T, users: &Users) -> Option<RuleId>
    ensures { result ≡ first_failing (wstat_rules (T.tree tree.now) users.now call.now) }
{
    let Some(file) = tree.record(call.number) else {
        return Some(RuleId::Q2);
    };
    if changes_fixed(call, &file) {
        return Some(RuleId::Q3);
    }
    first_of_fields(call, tree, users, &file)
}
