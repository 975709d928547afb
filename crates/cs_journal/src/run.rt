//! A run: a working copy of a tree, with a journal of every call.
ghost use Rattle.std.specs.Prelude.{◌≡◌, ◌≢◌, ◌↔◌, ◌≤◌, ◌+◌, Err, IfOk, IsTrue, OnErr, OnOk};
ghost use Rattle.std.specs.Prelude.{length, true};
ghost use Rattle.std.specs.Arc.{arc_value};
ghost use Rattle.cs_names.specs.declared.limits.TheConstants.{RUN_ATTACHES};
ghost use Rattle.cs_journal.specs.Bounds.{CanGrow};
ghost use Rattle.cs_journal.specs.Journals.{IsLegal};
ghost use Rattle.cs_journal.specs.Runs.{Fits, PassOf, first_state, fresh_pass, fresh_run};
ghost use Rattle.cs_journal.specs.Runs.{with_pass};

use crate::counts::PassCounts;
use crate::journal::Journal;
use crate::pass::Pass;
use cs_names::limits::RUN_ATTACHES;
use cs_overlay::Overlay;
use cs_permit::PassFault;
use cs_run::opens::Opens;
use cs_tree_model::TreeRead;
use cs_users::Users;
use std::alloc::{AllocError, Global};
use std::marker::Model;
use std::sync::Arc;

/// A working copy of a tree, which its clients change by calls under passes, one call at a time.
/// The tree with which it began is shared and never changes. Contracts see what it began with, its
/// journal, and how many passes it gave; its state is the replay of the journal.
#[derive(Drop)]
pub struct Run<L: TreeRead + Drop> {
    /// The tree with which it began.
    pub(crate) lower: Arc<L>,
    /// The users, who never change while it exists.
    pub(crate) users: Arc<Users>,
    /// The tree as it is now, over `lower`.
    pub(crate) tree: Overlay<L>,
    /// The opens of all passes.
    pub(crate) opens: Opens,
    /// An entry for each call that `step` had room and memory to enter.
    pub(crate) journal: Journal,
    /// At the place of a pass's number, what is counted of it.
    pub(crate) passes: Vec<PassCounts>,
}

impl<L: TreeRead + Drop> Model for Run<L> {
    ghost use Rattle.std.specs.Arc.{arc_value};
    ghost use Rattle.std.specs.Prelude.{◌+◌, ◌≤◌, length};
    ghost use Rattle.cs_journal.specs.Holding.{IsHeld};
    ghost use Rattle.cs_journal.specs.Runs.{RunOf, run_code};

    ghost Value = { RunOf };

    ghost coded = { run_code };

    ghost view = { λ r. record {
      fresh = L.TreeRead.tree (arc_value r.lower);
      users = arc_value r.users;
      journal = r.journal.items;
      passes = length r.passes.items;
    } };

    ghost invariant = { λ r. IsHeld (L.TreeRead.tree (arc_value r.lower)) r.tree
        (arc_value r.users) r.opens.items r.journal.items r.passes.items
        × (length r.journal.items + length r.opens.items ≤ r.journal.capacity) };
}

impl<L: TreeRead + Drop> Run<L> {
    /// A run over this tree, with no open, no entry and no pass. It doesn't copy the tree. The
    /// error is out of memory. `can_grow` checks what it requires of the tree.
    pub fn fresh(alloc: Global, lower: Arc<L>, users: Arc<Users>) -> Result<Run<L>, AllocError>
        requires grows { CanGrow (L.TreeRead.tree (arc_value lower)) }
        ensures { IfOk result (λ run. run ≡ fresh_run (L.TreeRead.tree (arc_value lower))
            (arc_value users)) }
    {
        let tree = Overlay::over(alloc, lower.clone()?);
        Ok(Run {
            lower,
            users,
            tree,
            opens: Opens::new(alloc),
            journal: Journal::new(alloc),
            passes: Vec::new(alloc),
        })
    }

    /// How many entries its journal has.
    pub fn entries(&self) -> usize
        ensures count { result ≡ length self.now.journal }
        ensures legal { IsLegal (first_state self.now) self.now.journal }
    {
        self.journal.len()
    }

    /// A new pass, under which calls can be made; its number is how many the run gave before. The
    /// error is Room if the run gave RUN_ATTACHES passes already, else Memory, but never Foreign;
    /// the run is then as it was.
    pub fn new_pass(&mut self, alloc: Global) -> Result<Pass, PassFault>
        ensures pass { IfOk result (λ pass. pass ≡ fresh_pass self.old.passes) }
        ensures run { OnOk result (self.new ≡ with_pass self.old) }
        ensures fits { IfOk result (λ pass. Fits self.new pass) }
        ensures others { (q : PassOf) → Fits self.old q → Fits self.new q }
        ensures room { (result ≡ Err PassFault.Room) ↔ (RUN_ATTACHES ≤ self.old.passes) }
        ensures own { result ≢ Err PassFault.Foreign }
        ensures unchanged { OnErr result (self.new ≡ self.old) }
    {
        let number = self.passes.len();
        if number >= RUN_ATTACHES as usize {
            return Err(PassFault::Room);
        }
        let none = PassCounts {
            entries: 0,
            opens: 0,
            last: None,
        };
        if self.passes.push(none).is_err() {
            return Err(PassFault::Memory);
        }
        Ok(Pass {
            number: number as u32,
            receipts: Vec::new(alloc),
            reserved: 0,
            blanks: Vec::new(alloc),
        })
    }
}
