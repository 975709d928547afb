//! Looking at a run under its lock.

use cs_journal::{AuditFault, Pass, Run};
use cs_plan::Built;

/// Code that looks at a run while no call changes it. It must make no call on the same run: that
/// would deadlock.
pub trait Look<T> {
    ghost use Rattle.cs_journal.specs.Runs.{RunOf};

    /// What `look` may return of a run.
    ghost may_return: { Self → RunOf → T → Type 0 };

    /// Looks at the run, and returns what it found.
    fn look(self, run: &Run<Built>) -> T
        ensures { may_return self run.now result };
}

/// How many entries the run's journal has, and the result of its audit by these passes.
#[derive(Drop)]
pub struct AuditBy<'p> {
    /// The passes whose receipts are compared with the journal: the run's own, or any others.
    pub passes: &'p [Pass],
}

impl<'p> Look<(usize, Result<(), AuditFault>)> for AuditBy<'p> {
    ghost use Rattle.std.specs.Prelude.{◌≡◌, length};
    ghost use Rattle.cs_journal.specs.Audit.{Audits};

    ghost may_return = { λ by run found. (found.0 ≡ length run.journal)
        × Audits by.passes.now run.journal found.1 };

    /// How many entries the journal has, and the result of its audit by the passes.
    fn look(self, run: &Run<Built>) -> (usize, Result<(), AuditFault>) {
        (run.entries(), run.audit(self.passes))
    }
}
