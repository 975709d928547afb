//! The answer to an entry's call, by doing the calls of a journal again, on a tree and opens made
//! for this. After an error these are dropped, so no contract says what the error leaves. Library
//! surface: no command calls `answer_at`.
ghost use Rattle.std.specs.Prelude.{◌≡◌, ◌<◌, ◌≤◌, ◌^◌, ℕ, IfOk, length};
ghost use Rattle.std.specs.Arc.{arc_value};
ghost use Rattle.cs_names.specs.declared.limits.TheConstants.{JOURNAL_ENTRIES};
ghost use Rattle.cs_journal.specs.Audit.{answer_at, answer_in};
ghost use Rattle.cs_journal.specs.Bounds.{CanGrow};
ghost use Rattle.cs_journal.specs.Journals.{left_by, run_state, fresh_state};
ghost use Rattle.cs_permit.specs.Calls.{rules_view};
ghost use Rattle.cs_run.specs.Effects.{call_result};
ghost use Rattle.cs_run.specs.Opens.{AreBelow, opens_without_if};
ghost use Rattle.cs_run.specs.Outcomes.{result_by_outcome, closed_open_number};
ghost use Rattle.cs_run.specs.declared.answer.Outcome.TheVariants.{Granted};
ghost use Rattle.cs_tree_model.specs.Stores.{CanStamp};

use crate::entry::EntryRef;
use crate::journal::Journal;
use crate::kept_call::CallAgain;
use crate::run::Run;
use cs_overlay::Overlay;
use cs_permit::Call;
use cs_run::opens::Opens;
use cs_run::{Answer, Outcome, Turn, act, closed_open_number};
use cs_tree_model::{TreeRead, TreeStore};
use cs_users::Users;
use std::alloc::{AllocError, Global};
use std::sync::Arc;

/// Releases the open that the call ends, if there is such an open. It does the same as
/// `Opens::release_if` of cs_run, which is private there, and which `act` uses for a call that
/// isn't granted: change both.
fn release_ended(call: &Call<'_>, opens: &mut Opens, pass: u32)
    ensures { opens.new.items
        ≡ opens_without_if (closed_open_number call.now) pass opens.old.items }
{
    if let Some(number) = closed_open_number(call) {
        // whether there was such an open makes no difference
        let _open = opens.release(number, pass);
    }
}

/// Does a call again that was granted before. On the same tree no rule denies it now either, so any
/// other outcome than Granted means that memory ran out, which is the error. The caller keeps to
/// what `act` requires.
fn grant_again<T: TreeStore>(
    alloc: Global,
    call: &Call<'_>,
    tree: &mut T,
    opens: &mut Opens,
    users: &Users,
    turn: Turn,
) -> Result<Answer, AllocError>
    requires vers { (n : ℕ) → CanStamp (T.tree tree.old) n }
    requires next { (T.tree tree.old).next < 2 ^ 64 }
    requires above { AreBelow turn.place opens.old.items }
    ensures { IfOk result (λ answer. call_result (T.tree tree.new) opens.new.items answer
        ≡ result_by_outcome (rules_view (T.tree tree.old) opens.old.items users.now) turn call.now
        Granted) }
{
    match act(alloc, call, tree, opens, users, turn) {
        (Outcome::Granted, answer) => Ok(answer),
        _ => Err(AllocError),
    }
}

/// Does a call again, with the outcome that it had, and returns its answer. A call that was denied
/// or Short only releases the open that it ends. The error is out of memory now, and not the
/// outcome of then. Versions and numbers must not overflow, and the turn's place must be above all
/// opens, as `act` requires.
fn redo<T: TreeStore>(
    alloc: Global,
    call: &Call<'_>,
    outcome: Outcome,
    tree: &mut T,
    opens: &mut Opens,
    users: &Users,
    turn: Turn,
) -> Result<Answer, AllocError>
    requires vers { (n : ℕ) → CanStamp (T.tree tree.old) n }
    requires next { (T.tree tree.old).next < 2 ^ 64 }
    requires above { AreBelow turn.place opens.old.items }
    ensures { IfOk result (λ answer. call_result (T.tree tree.new) opens.new.items answer
        ≡ result_by_outcome (rules_view (T.tree tree.old) opens.old.items users.now) turn call.now
        outcome) }
{
    match outcome {
        Outcome::Granted => grant_again(alloc, call, tree, opens, users, turn),
        Outcome::Denied(rule) => {
            release_ended(call, opens, turn.pass);
            Ok(Answer::Denied(rule))
        }
        Outcome::Short => {
            release_ended(call, opens, turn.pass);
            Ok(Answer::Short)
        }
    }
}

/// Does the call of the entry at that place again, and returns its answer. The error is out of
/// memory. The entries before it have been done, so that its place is above all opens.
fn redo_entry<T: TreeStore>(
    alloc: Global,
    entry: EntryRef,
    place: u32,
    tree: &mut T,
    opens: &mut Opens,
    users: &Users,
) -> Result<Answer, AllocError>
    requires vers { (n : ℕ) → CanStamp (T.tree tree.old) n }
    requires next { (T.tree tree.old).next < 2 ^ 64 }
    requires above { AreBelow place opens.old.items }
    ensures { IfOk result (λ answer. call_result (T.tree tree.new) opens.new.items answer
        ≡ left_by (run_state (T.tree tree.old) opens.old.items users.now place) entry.entry) }
{
    let (outcome, turn) = (entry.outcome(), entry.turn(place));
    match entry.again(alloc)? {
        CallAgain::Own(call) => redo(alloc, &call, outcome, tree, opens, users, turn),
        CallAgain::Shared(call) => redo(alloc, call, outcome, tree, opens, users, turn),
    }
}

/// The answer that `Run::answer_at` returns, for a run's journal, its users, and `lower`, the tree
/// with which it began. None if the journal has no such place. The error is out of memory. `lower`
/// must be a tree that `can_grow` accepts.
fn answer_of<L: TreeRead + Drop>(
    alloc: Global,
    lower: &Arc<L>,
    users: &Users,
    journal: &Journal,
    place: usize,
) -> Result<Option<Answer>, AllocError>
    requires grows { CanGrow (L.TreeRead.tree (arc_value lower.now)) }
    requires few { length journal.now.items ≤ JOURNAL_ENTRIES }
    ensures { IfOk result (λ answer. answer ≡ answer_at
        (fresh_state (L.TreeRead.tree (arc_value lower.now)) users.now) journal.now.items place) }
{
    if place >= journal.len() {
        return Ok(None);
    }
    let mut tree = Overlay::over(alloc, lower.clone()?);
    let mut opens = Opens::new(alloc);
    for k in 0..place {
        let entry = journal.entry(k);
        redo_entry(alloc, entry, k as u32, &mut tree, &mut opens, users)?;
    }
    let entry = journal.entry(place);
    let answer = redo_entry(alloc, entry, place as u32, &mut tree, &mut opens, users)?;
    Ok(Some(answer))
}

impl<L: TreeRead + Drop> Run<L> {
    /// Library surface: no command calls it. The answer to the call of the journal's entry at that
    /// place; None if there is no such entry. The calls up to this one, it included, are done again
    /// over the tree with which the run began, without a copy of the tree. An error means that
    /// memory ran out.
    pub fn answer_at(&self, alloc: Global, place: usize) -> Result<Option<Answer>, AllocError>
        ensures { IfOk result (λ answer. answer ≡ answer_in self.now place) }
    {
        answer_of(alloc, &self.lower, &self.users, &self.journal, place)
    }
}
