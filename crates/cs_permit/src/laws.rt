//! Laws of the definitions of rules. A call of a function here does nothing: its contract is the
//! law.
ghost use Rattle.std.specs.Prelude.{◌≡◌, ◌++◌, List, None, Some, IfSome, IsSome, IsSomeAnd, true};
ghost use Rattle.std.specs.Prelude.{false};
ghost use Rattle.cs_names.specs.declared.rule_id.RuleId.{RuleId};
ghost use Rattle.cs_tree_model.specs.Tree.{NameBytes, number_in};
ghost use Rattle.cs_permit.specs.Changes.{ChangesNothing, KeepsEach};
ghost use Rattle.cs_permit.specs.Refusals.{AllPass, Check, IsFirstToFail, first_failing};
ghost use Rattle.cs_permit.specs.Refusals.{first_failing_or};
ghost use Rattle.cs_permit.specs.Removes.{has_entries};
ghost use Rattle.cs_permit.specs.Rules.{file_at};
ghost use Rattle.cs_permit.specs.Wstats.{wstat_rules};

use crate::call::WstatCall;
use cs_tree_model::TreeRead;
use cs_users::Users;

/// The rule that `first_failing` returns fails, and no rule before it in the list does. If it
/// returns None, all pass.
pub fn first_rule_that_fails()
    ensures denied { (checks : List Check) (rule : RuleId) → first_failing checks ≡ Some rule
        → IsFirstToFail checks rule }
    ensures granted { (checks : List Check) → first_failing checks ≡ None → AllPass checks }
{}

/// The first rule that fails in two lists, one after the other, is that of the first list; if none
/// fails there, it is that of the second. If all rules of both pass, all of each do.
pub fn first_rule_of_two_lists()
    ensures first { (xs ys : List Check) → first_failing (xs ++ ys)
        ≡ first_failing_or (first_failing xs) (first_failing ys) }
    ensures passed { (xs ys : List Check) → AllPass (xs ++ ys) → AllPass xs × AllPass ys }
{}

/// A directory without a first entry has no entry at all; one with a first entry has an entry.
pub fn first_entry_decides<T: TreeRead>(tree: &T, number: u64)
    ensures empty { has_entries (T.tree tree.now) number ≡ false → (x : NameBytes)
        → number_in (T.tree tree.now) number x ≡ None }
    ensures entry { has_entries (T.tree tree.now) number ≡ true
        → (x : NameBytes) × IsSome (number_in (T.tree tree.now) number x) }
{}

/// If the file is there, a wstat in which each field says "don't touch" or has the present value
/// needs no right and changes nothing. So a client may send back the whole stat that it read.
pub fn what_is_kept_needs_no_right<T: TreeRead>(tree: &T, users: &Users, call: &WstatCall)
    requires { IsSomeAnd (file_at (T.tree tree.now) call.now.number)
        (KeepsEach (T.tree tree.now) call.now) }
    ensures granted { first_failing (wstat_rules (T.tree tree.now) users.now call.now) ≡ None }
    ensures unchanged { IfSome (file_at (T.tree tree.now) call.now.number)
        (ChangesNothing (T.tree tree.now) call.now) }
{}
