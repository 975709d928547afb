//! Calls on a run, one at a time.
ghost use Rattle.std.specs.Prelude.{◌≡◌, ◌≢◌, ◌≤◌, ◌||◌, IfSome, IsNone, IsSome, false, true};
ghost use Rattle.std.specs.Arc.{arc_value};
ghost use Rattle.cs_journal.specs.Calls.{charge, closes_plainly, is_full};
ghost use Rattle.cs_journal.specs.Journals.{IsLegal};
ghost use Rattle.cs_journal.specs.Marks.{StepMark};
ghost use Rattle.cs_journal.specs.Runs.{Fits, PassOf, first_state, state_of};
ghost use Rattle.cs_journal.specs.Small.{is_small, is_write};
ghost use Rattle.cs_journal.specs.Steps.{IsStep, step};
ghost use Rattle.cs_run.specs.Laws.{FitsCall};

use crate::counts::PassCounts;
use crate::entering::enter;
use crate::keep_call::{is_write, share};
use crate::kept_call::is_small;
use crate::pass::Pass;
use crate::room::{charge_of, reserve_and_keep};
use crate::run::Run;
use cs_names::RuleId;
use cs_names::limits::JOURNAL_ENTRIES;
use cs_permit::Call;
use cs_run::{Answer, Turn, act};
use cs_tree_model::TreeRead;
use std::alloc::Global;
use std::sync::Arc;

impl<L: TreeRead + Drop> Run<L> {
    /// Does a call under a pass at the moment `now`, in seconds since 1970. `Run::fits` checks what
    /// it requires of the pass. Denied by L1 if the journal has no room for its entry and, for an
    /// open or a create, for that of the close. Short if memory for entry and receipt runs out. In
    /// both cases nothing changes. A call that ends an open that is there is never refused so.
    /// Otherwise the journal has one more entry, whose outcome follows from the run's rules and
    /// memory, and the pass has its receipt.
    pub fn step(&mut self, alloc: Global, pass: &mut Pass, now: u32, call: Call<'_>) -> Answer
        requires fits { Fits self.old pass.old }
        ensures stepped { (mark : StepMark)
            × (record { answer = result; run = self.new; pass = pass.new }
            ≡ step self.old pass.old now call.entry mark) }
        ensures legal { IsLegal (first_state self.new) self.new.journal }
        ensures fits { Fits self.new pass.new }
        ensures others { (q : PassOf) → q.number ≢ pass.old.number
            → Fits self.old q → Fits self.new q }
        ensures plain { closes_plainly (state_of self.old) pass.old.number call.entry ≡ true
            → result ≡ Answer.Closed }
        ensures answer { FitsCall call.entry result }
    {
        let Some(charged) = self.charge_if_room(pass, &call) else {
            return Answer::Denied(RuleId::L1);
        };
        // borrowed here, since moving a call would take much of a step's time
        if is_small(&call) || is_write(&call) {
            let none: Option<&Arc<Call<'static>>> = None;
            return self.make_call(alloc, pass, now, &call, none, charged);
        }
        let Ok(whole) = share(alloc, call) else {
            return Answer::Short;
        };
        self.make_call(alloc, pass, now, &whole, Some(&whole), charged)
    }

    /// How many entries the call takes that are not reserved; None if the journal has no room for
    /// them.
    fn charge_if_room(&self, pass: &Pass, call: &Call<'_>) -> Option<usize>
        ensures full { IsNone result → is_full (state_of self.now) pass.now.number call.now ≡ true }
        ensures room { IsSome result → is_full (state_of self.now) pass.now.number call.now
            ≡ false }
        ensures charge { IfSome result (λ n. n
            ≡ charge (state_of self.now).opens pass.now.number call.now) }
        ensures few { IfSome result (λ n. n ≤ 2) }
        ensures legal { IsLegal (first_state self.now) self.now.journal }
        ensures plain { IsNone result → closes_plainly (state_of self.now) pass.now.number call.now
            ≢ true }
    {
        let charge = charge_of(call, &self.opens, pass.number);
        let entries = self.journal.len() + self.opens.len() + charge;
        if entries > JOURNAL_ENTRIES {
            return None;
        }
        Some(charge)
    }

    /// Does a call as `step` does. The caller has checked that the journal has room for the
    /// `charged` more entries that the call takes. `shared` is the call in the Arc that its entry
    /// and its receipt share; None if the call is small or a write.
    fn make_call(
        &mut self,
        alloc: Global,
        pass: &mut Pass,
        now: u32,
        call: &Call<'_>,
        shared: Option<&Arc<Call<'static>>>,
        charged: usize,
    ) -> Answer
        requires fits { Fits self.old pass.old }
        requires room { is_full (state_of self.old) pass.old.number call.now ≡ false }
        requires charge { charged ≡ charge (state_of self.old).opens pass.old.number call.now }
        requires few { charged ≤ 2 }
        requires apart { IsNone shared → (is_small call.now || is_write call.now) ≡ true }
        requires shared { IfSome shared (λ whole. (arc_value whole.now ≡ call.now)
            × (is_small call.now ≡ false)) }
        ensures { IsStep self.old pass.old now call.now result self.new pass.new }
    {
        let before = self.opens.len();
        let turn = Turn {
            moment: now,
            place: self.journal.len() as u32,
            pass: pass.number,
        };
        let (entries, more) = (before + charged, pass.reserved + charged);
        let (journal, receipts) = (&mut self.journal, &mut pass.receipts);
        let blanks = &mut pass.blanks;
        let Some((entry, receipt)) = reserve_and_keep(
            alloc, call, shared, journal, receipts, blanks, entries, more,
        ) else {
            return Answer::Short;
        };
        let (tree, opens, users) = (&mut self.tree, &mut self.opens, &self.users);
        let (outcome, answer) = act(alloc, call, tree, opens, users, turn);
        enter(journal, receipts, turn, entry, receipt, outcome);
        pass.reserved = pass.reserved + self.opens.len() - before;
        self.passes[pass.number as usize] = PassCounts {
            entries: pass.receipts.len(),
            opens: pass.reserved,
            last: Some(turn.place),
        };
        answer
    }
}
