//! The only source of an answer of a shared run.
ghost use Rattle.cs_permit.specs.declared.call.Call.TheVariants as called;
ghost use Rattle.cs_run.specs.Laws.{FitsCall};
ghost use Rattle.cs_shared_runs.specs.Answers.{GivesAnswer, GivesAttach, IsAnswerOf, IsAttachOf};
ghost use Rattle.cs_shared_runs.specs.Locks.{BeganAs, KeepsBegin, LockedAttaches, LockedCalls};

use crate::locked::NumberedRun;
use cs_journal::Pass;
use cs_names::Text;
use cs_permit::{Call, PassFault};
use cs_registry::RunKey;
use cs_run::Answer;
use std::alloc::Global;

/// Answers the calls on the runs of a server. In code for any server, an answer is known to be
/// `answered` or `attached` only if a function below gave it; each takes the run, which is under
/// its lock. So no such code can answer without the lock. Both servers of this crate answer alike
/// (`served`).
pub trait AnswersCalls {
    /// The answers that `answer` gave.
    ghost answered: { GivesAnswer };

    /// The results that `attach` gave.
    ghost attached: { GivesAttach };

    /// Does a call for the run of that key under a pass, as `NumberedRun::call` does: S5, and
    /// nothing changes, if the pass isn't one of the run.
    fn answer(
        run: &mut NumberedRun,
        alloc: Global,
        key: &RunKey,
        pass: &mut Pass,
        now: u32,
        call: Call<'_>,
    ) -> Answer
        ensures source { answered key.now pass.old now call.entry result pass.new }
        ensures calls { LockedCalls run.old key.now.number pass.old now call.entry result
            run.new pass.new }
        ensures answers { IsAnswerOf (BeganAs run.old) key.now.number pass.old now call.entry
            result pass.new }
        ensures keeps { KeepsBegin run.old run.new }
        ensures fits { FitsCall call.entry result };

    /// Attaches a user to the run of that key under a new pass, as `NumberedRun::attach` does:
    /// after an error there is no new pass.
    fn attach(
        run: &mut NumberedRun,
        alloc: Global,
        key: &RunKey,
        now: u32,
        user: Text,
    ) -> Result<(Pass, Answer), PassFault>
        ensures source { attached key.now now (called.Attach (record { user = user })) result }
        ensures attaches { LockedAttaches run.old key.now.number now
            (called.Attach (record { user = user })) result run.new }
        ensures answers { IsAttachOf (BeganAs run.old) key.now.number now
            (called.Attach (record { user = user })) result }
        ensures keeps { KeepsBegin run.old run.new };
}
