//! A call of a run: its rules, its effect, and running out of memory.
ghost use Rattle.std.specs.Prelude.{◌≡◌, ◌<◌, ◌^◌, ℕ, IfOk, List, OnErr, true};
ghost use Rattle.cs_permit.specs.Calls.{failing_rule, rules_of, rules_view};
ghost use Rattle.cs_permit.specs.Opens.{open_rules};
ghost use Rattle.cs_permit.specs.Refusals.{AllPass};
ghost use Rattle.cs_permit.specs.Rules.{is_exclusive, on_file};
ghost use Rattle.cs_run.specs.Effects.{effect_of, call_result};
ghost use Rattle.cs_run.specs.Laws.{FitsCall};
ghost use Rattle.cs_run.specs.Opens.{AreBelow, opens_without_if};
ghost use Rattle.cs_run.specs.Outcomes.{IsOutcomeOf, closed_open_number, takes_memory};
ghost use Rattle.cs_tree_model.specs.Stores.{CanStamp};
ghost use Rattle.cs_users.specs.Rows.{Row};

use crate::answer::{Answer, Outcome};
use crate::closing::act_close;
use crate::creating::act_create;
use crate::opening::act_open;
use crate::opens::Opens;
use crate::reading::read;
use crate::removing::act_remove;
use crate::stating::act_stat;
use crate::turn::Turn;
use crate::walking::{act_walk, walk};
use crate::writing::act_write;
use crate::wstating::act_wstat;
use cs_permit::rules::is_exclusive;
use cs_permit::{Call, OpenCall, OpenFile, failing_rule, laws, qid_at};
use cs_tree_model::{TreeRead, TreeStore};
use cs_users::Users;
use std::alloc::{AllocError, Global};

/// Does a call all of whose rules pass, as the caller has checked. The error is out of memory: the
/// tree and the opens stay as they were, except that the open that the call ends is released. (A
/// walk never comes here from `act`, which does walks by `act_walk`.)
fn grant<T: TreeStore>(
    alloc: Global,
    call: &Call<'_>,
    tree: &mut T,
    opens: &mut Opens,
    users: &Users,
    turn: Turn,
) -> Result<Answer, AllocError>
    requires granted { AllPass
        (rules_of (rules_view (T.tree tree.old) opens.old.items users.now) call.now) }
    requires vers { (n : ℕ) → CanStamp (T.tree tree.old) n }
    requires next { (T.tree tree.old).next < 2 ^ 64 }
    requires above { AreBelow turn.place opens.old.items }
    ensures ok { IfOk result (λ answer. call_result (T.tree tree.new) opens.new.items answer
        ≡ effect_of (rules_view (T.tree tree.old) opens.old.items users.now) turn call.now) }
    ensures memory { OnErr result
        (takes_memory (rules_view (T.tree tree.old) opens.old.items users.now) turn call.now
        ≡ true) }
    ensures err { OnErr result ((T.tree tree.new ≡ T.tree tree.old)
        × (opens.new.items
        ≡ opens_without_if (closed_open_number call.now) turn.pass opens.old.items)) }
{
    match call {
        // 0 is the root
        Call::Attach(_) => Ok(Answer::Attached(qid_at(tree, 0))),
        Call::Walk(call) => Ok(Answer::Walked(walk(alloc, call, tree, users)?)),
        Call::Open(call) => act_open(alloc, call, tree, opens, turn),
        Call::Create(call) => act_create(alloc, call, tree, opens, turn),
        Call::Read(call) => Ok(Answer::Data(read(alloc, call, tree)?)),
        Call::Write(call) => act_write(alloc, call, tree, turn),
        Call::Close(call) => act_close(alloc, call, tree, opens, turn),
        Call::Remove(call) => act_remove(alloc, call, tree, opens, turn),
        Call::Stat(call) => act_stat(alloc, call, tree),
        Call::Wstat(call) => act_wstat(alloc, call, tree, turn),
    }
}

/// The number of the open that a call ends, even if the call is denied: that of a close, or of a
/// remove by an open fid. (The name says closed: it is so after the call.) Such an open need not
/// exist. None for any other call.
pub fn closed_open_number(call: &Call<'_>) -> Option<u32>
    ensures { result ≡ closed_open_number call.now }
{
    match call {
        Call::Close(call) => Some(call.open_number),
        Call::Remove(call) => call.open_number,
        Call::Attach(_)
        | Call::Walk(_)
        | Call::Open(_)
        | Call::Create(_)
        | Call::Read(_)
        | Call::Write(_)
        | Call::Stat(_)
        | Call::Wstat(_) => None,
    }
}

/// Whether the file of that number is exclusive; false if there is no such file.
fn is_exclusive_file<T: TreeRead>(tree: &T, number: u64) -> bool
    ensures { result ≡ on_file (T.tree tree.now) number is_exclusive }
{
    match tree.record(number) {
        Some(file) => is_exclusive(&file),
        None => false,
    }
}

/// Opens that suffice to decide this open by its rules, with the same result as all opens. Only
/// O10, the rule of an exclusive file, looks at opens; for any other file none are needed.
fn opens_deciding_open<'a, T: TreeRead>(
    call: &OpenCall,
    tree: &T,
    opens: &'a Opens,
) -> &'a [OpenFile]
    ensures { (users : List Row) → open_rules (T.tree tree.now) result.now users call.now
        ≡ open_rules (T.tree tree.now) opens.now.items users call.now }
{
    if is_exclusive_file(tree, call.number) {
        opens.block_on_file(call.number)
    } else {
        &[]
    }
}

/// Opens that suffice to decide this call by its rules, with the same result as all opens. Only the
/// rules of an open look at opens; for any other call none are needed.
fn opens_deciding<'a, T: TreeRead>(call: &Call<'_>, tree: &T, opens: &'a Opens) -> &'a [OpenFile]
    ensures { (users : List Row)
        → failing_rule (rules_view (T.tree tree.now) result.now users) call.now
        ≡ failing_rule (rules_view (T.tree tree.now) opens.now.items users) call.now }
{
    match call {
        Call::Open(call) => opens_deciding_open(call, tree, opens),
        _ => &[],
    }
}

/// Does a call as `act` does, which uses this for all calls but walks: the call's rules are checked
/// first. If one denies the call, or memory runs out, only the open that the call ends is released.
/// It requires what `act` requires.
// inline, a walk would pay at the entry of `act` for the stack of all other calls
#[inline(never)]
#[tactic(auto, unfolding(crate::specs::Outcomes::outcome))]
fn act_by_rules<T: TreeStore>(
    alloc: Global,
    call: &Call<'_>,
    tree: &mut T,
    opens: &mut Opens,
    users: &Users,
    turn: Turn,
) -> (Outcome, Answer)
    requires vers { (n : ℕ) → CanStamp (T.tree tree.old) n }
    requires next { (T.tree tree.old).next < 2 ^ 64 }
    requires above { AreBelow turn.place opens.old.items }
    ensures { IsOutcomeOf (rules_view (T.tree tree.old) opens.old.items users.now) turn call.now
        result.0 (call_result (T.tree tree.new) opens.new.items result.1) }
{
    if let Some(rule) = failing_rule(call, tree, opens_deciding(call, tree, opens), users) {
        opens.release_if(closed_open_number(call), turn.pass);
        return (Outcome::Denied(rule), Answer::Denied(rule));
    }
    // `grant` asks that all rules pass
    laws::first_rule_that_fails();
    match grant(alloc, call, tree, opens, users, turn) {
        Ok(answer) => (Outcome::Granted, answer),
        Err(_) => (Outcome::Short, Answer::Short),
    }
}

/// Does a call if no rule denies it and memory suffices. Otherwise, Denied or Short, the tree and
/// the opens are as they were, except that a close or a remove releases its open even then. The
/// caller gives each call a place above those before it, and keeps versions and the next number
/// from overflowing, as `CountedRun::is_full` or cs_journal's `can_grow` checks. A read returns at
/// most as many bytes as it asks for, and a walk at most as many qids as it has names.
#[tactic(auto, unfolding(crate::specs::Outcomes::outcome))]
pub fn act<T: TreeStore>(
    alloc: Global,
    call: &Call<'_>,
    tree: &mut T,
    opens: &mut Opens,
    users: &Users,
    turn: Turn,
) -> (Outcome, Answer)
    requires vers { (n : ℕ) → CanStamp (T.tree tree.old) n }
    requires next { (T.tree tree.old).next < 2 ^ 64 }
    requires above { AreBelow turn.place opens.old.items }
    ensures step { IsOutcomeOf (rules_view (T.tree tree.old) opens.old.items users.now) turn
        call.now
        result.0 (call_result (T.tree tree.new) opens.new.items result.1) }
    ensures fits { FitsCall call.now result.1 }
{
    if let Call::Walk(call) = call {
        return act_walk(alloc, call, tree, users);
    }
    act_by_rules(alloc, call, tree, opens, users, turn)
}
