//! The first rule of a run that a call fails, found without allocating. Each `first_of_` function
//! has the rules of one kind of call, in their order, and returns None if all of them pass. What a
//! rule says is the text of its `RuleId`. The rules of a read, of a name of a walk and of a wstat
//! are in files of their own.
ghost use Rattle.std.specs.Prelude.{◌≡◌, if◌then◌else◌};
ghost use Rattle.cs_tree_model.specs.Record.{metadata_of_ref};
ghost use Rattle.cs_permit.specs.Attaches.{attach_rules};
ghost use Rattle.cs_permit.specs.Calls.{failing_rule, rules_view};
ghost use Rattle.cs_permit.specs.Creates.{create_rules};
ghost use Rattle.cs_permit.specs.Opens.{is_open, open_rules};
ghost use Rattle.cs_permit.specs.Refusals.{first_failing};
ghost use Rattle.cs_permit.specs.Removes.{has_entries, remove_rules};
ghost use Rattle.cs_permit.specs.Rules.{is_append_only};
ghost use Rattle.cs_permit.specs.Shown.{shown_length};
ghost use Rattle.cs_permit.specs.Stats.{stat_rules};
ghost use Rattle.cs_permit.specs.Walks.{walk_rules};
ghost use Rattle.cs_permit.specs.Writes.{ends_too_late, write_rules};

use crate::call::{
    AttachCall, Call, CreateCall, OpenCall, OpenFile, RemoveCall, StatCall, WalkCall, WriteCall,
};
use crate::mode::{asks_execute, asks_read, asks_write, removes_on_close};
use crate::read::first_of_read;
use crate::rules::{is_append_only, is_directory, is_exclusive, is_gone, may_access, parent_lacks};
use crate::shown::shown_length;
use crate::walk::first_of_element;
use crate::wstat::first_of_wstat;
use cs_names::RuleId;
use cs_names::limits::{FILE_BYTES, TREE_RECORDS};
use cs_tree_model::{Metadata, TreeRead};
use cs_users::{Right, Users};

/// A6, the run's only rule of an attach, if the user isn't known; else None.
fn first_of_attach(call: &AttachCall, users: &Users) -> Option<RuleId>
    ensures { result ≡ first_failing (attach_rules users.now call.now) }
{
    if !users.knows(call.user.as_str().as_bytes()) {
        return Some(RuleId::A6);
    }
    None
}

/// The first of the walk's rules that fails: K5 if its file is gone, else a rule of its first name
/// (K6 to K8); None if none fails. A walk without names has no rule but K5. A rule of a later name
/// only shortens the reply (walk(5)).
pub fn first_of_walk<T: TreeRead>(call: &WalkCall, tree: &T, users: &Users) -> Option<RuleId>
    ensures { result ≡ first_failing (walk_rules (T.tree tree.now) users.now call.now) }
{
    if is_gone(tree, call.number) {
        return Some(RuleId::K5);
    }
    let name = call.names.as_slice().first()?;
    first_of_element(tree, users, &call.user, call.number, name.as_str())
}

/// Whether one of the opens is of this file, of any pass. (cs_run has the same test, its `is_on`,
/// which is private there.)
fn is_file_open(opens: &[OpenFile], file: u64) -> bool
    ensures { result ≡ is_open opens.now file }
{
    opens.iter().any(|open_file| open_file.file == file)
}

/// The first of O4 to O10 that fails; None if none does (open(5)). A directory can be opened only
/// in mode 0, without OTRUNC or ORCLOSE. Mode 3 asks for x only.
fn first_of_open<T: TreeRead>(
    call: &OpenCall,
    tree: &T,
    opens: &[OpenFile],
    users: &Users,
) -> Option<RuleId>
    ensures { result ≡ first_failing (open_rules (T.tree tree.now) opens.now users.now call.now) }
{
    let Some(file) = tree.record(call.number) else {
        return Some(RuleId::O4);
    };
    if is_directory(&file) && call.mode != 0 {
        return Some(RuleId::O5);
    }
    if asks_read(call.mode) && !may_access(users, &call.user, Right::Read, &file) {
        return Some(RuleId::O6);
    }
    if asks_write(call.mode) && !may_access(users, &call.user, Right::Write, &file) {
        return Some(RuleId::O7);
    }
    if asks_execute(call.mode) && !may_access(users, &call.user, Right::Execute, &file) {
        return Some(RuleId::O8);
    }
    if removes_on_close(call.mode)
        && parent_lacks(tree, users, &call.user, Right::Write, call.number)
    {
        return Some(RuleId::O9);
    }
    if is_exclusive(&file) && is_file_open(opens, call.number) {
        return Some(RuleId::O10);
    }
    None
}

/// The first of C6 to C10 that fails; None if none does (open(5)). It asks for w on the directory;
/// the permissions of the new file restrict only later opens.
fn first_of_create<T: TreeRead>(call: &CreateCall, tree: &T, users: &Users) -> Option<RuleId>
    ensures { result ≡ first_failing (create_rules (T.tree tree.now) users.now call.now) }
{
    let Some(directory) = tree.record(call.number) else {
        return Some(RuleId::C6);
    };
    if !is_directory(&directory) {
        return Some(RuleId::C7);
    }
    if !may_access(users, &call.user, Right::Write, &directory) {
        return Some(RuleId::C8);
    }
    if tree.find_number(call.number, call.name.as_str()).is_some() {
        return Some(RuleId::C9);
    }
    if tree.count() >= TREE_RECORDS {
        return Some(RuleId::C10);
    }
    None
}

/// Whether `count` bytes from `start` on end above FILE_BYTES, the greatest length that a write
/// gives a file. If `count` is 0, they end at `start`.
fn ends_too_late(start: u64, count: u64) -> bool
    ensures { result ≡ ends_too_late start count }
{
    count > FILE_BYTES || start > FILE_BYTES - count
}

/// The offset at which a write begins: the end of an append-only file, else the call's own offset.
pub fn write_start(call: &WriteCall<'_>, file: &Metadata) -> u64
    ensures { result ≡ (if is_append_only (metadata_of_ref file.now) then shown_length file.now.kind
        else call.now.offset) }
{
    if is_append_only(file) {
        shown_length(file.kind)
    } else {
        call.offset
    }
}

/// The first of E3 and E4 that fails; None if neither does. The rights were asked when the fid was
/// opened. A write without bytes can't fail E4.
fn first_of_write<T: TreeRead>(call: &WriteCall<'_>, tree: &T) -> Option<RuleId>
    ensures { result ≡ first_failing (write_rules (T.tree tree.now) call.now) }
{
    let Some(file) = tree.record(call.number) else {
        return Some(RuleId::E3);
    };
    let start = write_start(call, &file);
    if call.bytes.len() != 0 && ends_too_late(start, call.bytes.len() as u64) {
        return Some(RuleId::E4);
    }
    None
}

/// Whether the directory of this number has an entry; false if no directory has the number.
/// (`is_empty` of cs_tree_model is the opposite.)
fn has_entries<T: TreeRead>(tree: &T, number: u64) -> bool
    ensures { result ≡ has_entries (T.tree tree.now) number }
{
    tree.entry_after(number, None, None).is_some()
}

/// The first of M2 to M5 that fails; None if none does (remove(5)). It asks for w on the file's
/// directory, and for no right on the file.
fn first_of_remove<T: TreeRead>(call: &RemoveCall, tree: &T, users: &Users) -> Option<RuleId>
    ensures { result ≡ first_failing (remove_rules (T.tree tree.now) users.now call.now) }
{
    if is_gone(tree, call.number) {
        return Some(RuleId::M2);
    }
    // 0 is the root
    if call.number == 0 {
        return Some(RuleId::M3);
    }
    if parent_lacks(tree, users, &call.user, Right::Write, call.number) {
        return Some(RuleId::M4);
    }
    if has_entries(tree, call.number) {
        return Some(RuleId::M5);
    }
    None
}

/// H2, the run's only rule of a stat, if the file is gone; else None.
fn first_of_stat<T: TreeRead>(call: &StatCall, tree: &T) -> Option<RuleId>
    ensures { result ≡ first_failing (stat_rules (T.tree tree.now) call.now) }
{
    if is_gone(tree, call.number) {
        return Some(RuleId::H2);
    }
    None
}

/// The first rule of the run that the call fails; None if all pass. A close has no rule. It changes
/// nothing and allocates nothing. The connection's rules (`first_table_rule`) were asked before.
#[tactic(auto, unfolding(crate::specs::Calls::failing_rule))]
pub fn failing_rule<T: TreeRead>(
    call: &Call<'_>,
    tree: &T,
    opens: &[OpenFile],
    users: &Users,
) -> Option<RuleId>
    ensures { result ≡ failing_rule (rules_view (T.tree tree.now) opens.now users.now) call.now }
{
    match call {
        Call::Attach(call) => first_of_attach(call, users),
        Call::Walk(call) => first_of_walk(call, tree, users),
        Call::Open(call) => first_of_open(call, tree, opens, users),
        Call::Create(call) => first_of_create(call, tree, users),
        Call::Read(call) => first_of_read(call, tree),
        Call::Write(call) => first_of_write(call, tree),
        Call::Close(_) => None,
        Call::Remove(call) => first_of_remove(call, tree, users),
        Call::Stat(call) => first_of_stat(call, tree),
        Call::Wstat(call) => first_of_wstat(call, tree, users),
    }
}
