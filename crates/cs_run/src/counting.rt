//! Calls, one after the other, on a run without a journal.
ghost use Rattle.std.specs.Prelude.{◌≡◌, ◌<◌, ◌+◌, ◌≤◌, ℕ, IfSome, [], false};
ghost use Rattle.cs_run.specs.Counted.{is_full, run_of, state_of, turn_of};
ghost use Rattle.cs_run.specs.Effects.{call_result};
ghost use Rattle.cs_run.specs.Laws.{AllVersBelow, FitsCall, IsGreatestVersion};
ghost use Rattle.cs_run.specs.Outcomes.{IsOutcomeOf};
ghost use Rattle.cs_tree_model.specs.Tree.{IsTree, record_numbered};

use crate::acting::act;
use crate::answer::{Answer, Outcome};
use crate::counted::CountedRun;
use crate::laws;
use crate::opens::Opens;
use crate::turn::Turn;
use cs_permit::Call;
use cs_tree_model::{TreeRead, TreeStore};
use cs_users::Users;
use std::alloc::Global;

/// The version of the file of that number; 0 if there is no such file.
fn version_of<T: TreeRead>(tree: &T, number: u64) -> u32
    ensures bound { IfSome (record_numbered (T.tree tree.now) number) (λ r. r.vers ≤ result) }
    ensures least { (k : ℕ) → 0 < k → AllVersBelow k (T.tree tree.now) → result < k }
    ensures is_tree { IsTree (T.tree tree.now) }
{
    match tree.record(number) {
        Some(file) => file.vers,
        None => 0,
    }
}

/// The greatest version among the tree's files. Every number from 0 to the last that was given to a
/// file is looked up; a number without a file counts as version 0. The root is always there. For
/// `CountedRun` and cs_journal's `can_grow`: no command calls it.
pub fn greatest_version<T: TreeRead>(tree: &T) -> u32
    ensures { IsGreatestVersion (T.tree tree.now) result }
{
    let last = tree.last_number();
    // the last number may be u64::MAX, so no range goes past it
    let mut greatest = version_of(tree, last);
    for number in 0..last {
        greatest = greatest.max(version_of(tree, number));
    }
    greatest
}

impl<T: TreeStore + Drop> CountedRun<T> {
    /// A run over this tree with no open. Its count begins at the greatest version, so that no call
    /// makes a version overflow.
    pub fn new(alloc: Global, tree: T, users: Users) -> CountedRun<T>
        ensures tree { (run_of result).tree ≡ T.TreeRead.tree tree }
        ensures opens { (run_of result).opens ≡ [] }
        ensures users { (run_of result).users ≡ users }
        ensures count { IsGreatestVersion (T.TreeRead.tree tree) (run_of result).count }
    {
        let count = greatest_version(&tree);
        CountedRun {
            tree,
            opens: Opens::new(alloc),
            users,
            count,
        }
    }

    /// The run's tree.
    pub fn tree(&self) -> &T
        ensures { T.TreeRead.tree result.now ≡ (run_of self.now).tree }
    {
        &self.tree
    }

    /// Whether one more call could make a version or the next file number overflow. `step` may not
    /// be called then.
    pub fn is_full(&self) -> bool
        ensures { result ≡ is_full (run_of self.now) }
    {
        self.count == u32::MAX || self.tree.last_number() == u64::MAX
    }

    /// Does a call at that moment (in seconds) under a pass, as `act` does. `is_full` checks what
    /// it requires. The call's place is the run's count, which goes up by one even if the call is
    /// denied or memory runs out.
    pub fn step(
        &mut self,
        alloc: Global,
        moment: u32,
        pass: u32,
        call: &Call<'_>,
    ) -> (Outcome, Answer)
        requires room { is_full (run_of self.old) ≡ false }
        ensures stepped { IsOutcomeOf (state_of (run_of self.old))
            (turn_of (run_of self.old) moment pass) call.now result.0
            (call_result (run_of self.new).tree (run_of self.new).opens result.1) }
        ensures fits { FitsCall call.now result.1 }
        ensures users { (run_of self.new).users ≡ (run_of self.old).users }
        ensures count { (run_of self.new).count ≡ (run_of self.old).count + 1 }
    {
        // no version is above the count, so each can grow, and a call raises it by one at most
        laws::calls_raise_by_one();
        laws::versions_can_grow();
        let turn = Turn {
            moment,
            place: self.count,
            pass,
        };
        self.count += 1;
        act(
            alloc,
            call,
            &mut self.tree,
            &mut self.opens,
            &self.users,
            turn,
        )
    }
}
