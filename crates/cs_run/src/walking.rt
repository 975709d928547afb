//! Walks (walk(5)).
ghost use Rattle.std.specs.Option.{option_map};
ghost use Rattle.std.specs.Prelude.{◌≡◌, ◌<◌, List, None, length, IfErr, IfOk, IsErrOf, OnErr, map};
ghost use Rattle.std.specs.Prelude.{string_bytes};
ghost use Rattle.cs_permit.specs.Calls.{rules_view};
ghost use Rattle.cs_permit.specs.Refusals.{first_failing};
ghost use Rattle.cs_permit.specs.Rules.{file_at};
ghost use Rattle.cs_permit.specs.Walks.{walk_rules};
ghost use Rattle.cs_permit.specs.declared.call.Call.TheVariants as c;
ghost use Rattle.cs_permit.specs.declared.call.OpenFile.{OpenFile};
ghost use Rattle.cs_run.specs.Effects.{call_result};
ghost use Rattle.cs_run.specs.Outcomes.{IsOutcomeOf};
ghost use Rattle.cs_run.specs.Walks.{walk_from, requested_walk};
ghost use Rattle.cs_run.specs.declared.turn.Turn.{Turn};
ghost use Rattle.cs_tree_model.specs.Record.{metadata_of_ref};

use crate::answer::{Answer, Outcome, Walk};
use cs_names::{RuleId, UserName};
use cs_permit::{WalkCall, first_of_walk, qid_or_zeros, walk_element};
use cs_tree_model::{Metadata, TreeRead};
use cs_users::Users;
use cs_wire::Qid;
use std::alloc::{AllocError, Global};

/// The walk of these names from the file of number `start`, as far as the rules allow; without
/// names it ends at `start`. The error is out of memory. `start_file` must be the record of that
/// file, None if the file is gone.
// a record is large: not inline, it would be passed in memory
#[inline(always)]
fn walk_names<'a, T: TreeRead>(
    alloc: Global,
    tree: &'a T,
    users: &Users,
    user: &UserName,
    start: u64,
    start_file: Option<Metadata<'a>>,
    names: &[String],
) -> Result<Walk, AllocError>
    requires { option_map metadata_of_ref start_file ≡ file_at (T.tree tree.now) start }
    ensures value { IfOk result (λ walk. walk ≡ walk_from (T.tree tree.now) users.now user.now start
        (map string_bytes names.now)) }
    ensures memory { OnErr result (0 < length names.now) }
{
    let mut qids: Vec<Qid> = Vec::with_capacity(alloc, names.len())?;
    let mut last = start;
    let mut file = start_file;
    for name in names {
        match walk_element(tree, users, user, last, file, name.as_str()) {
            Ok(next) => {
                file = tree.record(next);
                qids.push_reserved(qid_or_zeros(file));
                last = next;
            }
            Err(rule) => return Ok(Walk::new(qids, Some(rule), last)),
        }
    }
    Ok(Walk::new(qids, None, last))
}

/// The walk that a call asks for, as `walk` returns it, by a caller that has looked up the file
/// from which it starts: `start_file` is its record, None if the file is gone. The error is out of
/// memory.
// a record is large: not inline, it would be passed in memory
#[inline(always)]
fn requested_walk<'a, T: TreeRead>(
    alloc: Global,
    call: &WalkCall,
    tree: &'a T,
    users: &Users,
    start_file: Option<Metadata<'a>>,
) -> Result<Walk, AllocError>
    requires { option_map metadata_of_ref start_file ≡ file_at (T.tree tree.now) call.now.number }
    ensures value { IfOk result (λ walk. walk
        ≡ requested_walk (T.tree tree.now) users.now call.now) }
    ensures memory { OnErr result (0 < length call.now.names) }
{
    walk_names(
        alloc,
        tree,
        users,
        &call.user,
        call.number,
        start_file,
        call.names.as_slice(),
    )
}

/// The walk that a call asks for, as far as the rules allow; a rule that stops it is in the result.
/// Only the qids are allocated, once for all names; the error is out of memory. Each name costs one
/// look-up of a name and one of a record.
// `act` calls `act_walk` instead, so this must not make `grant` larger
#[inline(never)]
pub fn walk<T: TreeRead>(
    alloc: Global,
    call: &WalkCall,
    tree: &T,
    users: &Users,
) -> Result<Walk, AllocError>
    ensures value { IfOk result (λ walk. walk
        ≡ requested_walk (T.tree tree.now) users.now call.now) }
    ensures memory { OnErr result (0 < length call.now.names) }
{
    requested_walk(alloc, call, tree, users, tree.record(call.number))
}

/// The walk that a call asks for, if its rules allow it. The error is the first rule that denies
/// it, as by cs_permit's `first_of_walk`, or None if no rule does and memory ran out. A rule that
/// stops a later name than the first isn't an error: it is in the walk.
fn walk_allowed<T: TreeRead>(
    alloc: Global,
    call: &WalkCall,
    tree: &T,
    users: &Users,
) -> Result<Walk, Option<RuleId>>
    ensures ok { IfOk result (λ walk.
        (first_failing (walk_rules (T.tree tree.now) users.now call.now) ≡ None)
        × (walk ≡ requested_walk (T.tree tree.now) users.now call.now)) }
    ensures err { IfErr result (λ first.
        first ≡ first_failing (walk_rules (T.tree tree.now) users.now call.now)) }
    ensures memory { IsErrOf result None → 0 < length call.now.names }
{
    let file = tree.record(call.number);
    if file.is_none() {
        return Err(Some(RuleId::K5));
    }
    let Ok(walk) = requested_walk(alloc, call, tree, users, file) else {
        return Err(first_of_walk(call, tree, users));
    };
    match walk.stopped_first() {
        Some(rule) => Err(Some(rule)),
        None => Ok(walk),
    }
}

/// Does a walk as `act` does; a walk changes neither tree nor opens. Its rules are checked as the
/// walk goes, so that each name, and the file from which the walk starts, is looked up only once.
// an answer is large: inline, it would be copied once more
#[inline(never)]
#[tactic(auto, unfolding(crate::specs::Outcomes::outcome))]
pub fn act_walk<T: TreeRead>(
    alloc: Global,
    call: &WalkCall,
    tree: &T,
    users: &Users,
) -> (Outcome, Answer)
    ensures { (opens : List OpenFile) (turn : Turn)
        → IsOutcomeOf (rules_view (T.tree tree.now) opens users.now) turn (c.Walk call.now)
        result.0 (call_result (T.tree tree.now) opens result.1) }
{
    match walk_allowed(alloc, call, tree, users) {
        Ok(walk) => (Outcome::Granted, Answer::Walked(walk)),
        Err(Some(rule)) => (Outcome::Denied(rule), Answer::Denied(rule)),
        Err(None) => (Outcome::Short, Answer::Short),
    }
}
