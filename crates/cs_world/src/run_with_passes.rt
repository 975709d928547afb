//! A run, with the passes that it gave: what the registry of a world holds.
ghost use Rattle.std.specs.Prelude.{◌≡◌};
ghost use Rattle.cs_journal.specs.Marks.{StepMark};
ghost use Rattle.cs_run.specs.Laws.{FitsCall};
ghost use Rattle.cs_world.specs.Marks.{RunMark};
ghost use Rattle.cs_world.specs.Runs.{attach_on, call_on};

use cs_journal::{Pass, Run};
use cs_names::limits::RUN_ATTACHES;
use cs_names::{RuleId, Text};
use cs_permit::{AttachCall, Call};
use cs_plan::Built;
use cs_registry::{Held, RunKey};
use cs_run::Answer;
use cs_session::PassFault;
use cs_users::Users;
use std::alloc::{AllocError, Global};
use std::marker::Model;
use std::sync::Arc;

/// A run, with the passes that it gave, each at the place of its number. (In a server each
/// connection has its own passes.) Contracts see the run, as its journal has it.
#[derive(Drop)]
pub struct RunWithPasses {
    /// The run and its journal.
    run: Run<Built>,
    /// At the place of a pass's number, the pass as it is now.
    passes: Vec<Pass>,
}

impl Model for RunWithPasses {
    ghost use Rattle.cs_journal.specs.Runs.{RunOf, run_code};
    ghost use Rattle.cs_world.specs.Passes.{AreOf};

    ghost Value = { RunOf };

    ghost coded = { run_code };

    ghost view = { λ held. held.run };

    ghost invariant = { λ held. AreOf held.run held.passes.items };
}

impl Held for RunWithPasses {
    ghost use Rattle.std.specs.Prelude.{◌≡◌};
    ghost use Rattle.cs_journal.specs.Bounds.{CanGrow};
    ghost use Rattle.cs_journal.specs.Runs.{fresh_run};

    ghost admits = { λ number tree. CanGrow tree };

    ghost is_fresh = { λ key tree users run. run ≡ fresh_run tree users };

    /// A run over the state `lower`, with these users, that has given no pass. The key isn't used,
    /// because the registry keeps it: it is a parameter for runs that hold their own key. The error
    /// is out of memory.
    fn fresh(
        alloc: Global,
        _key: &RunKey,
        lower: Arc<Built>,
        users: Arc<Users>,
    ) -> Result<RunWithPasses, AllocError> {
        Ok(RunWithPasses {
            run: Run::fresh(alloc, lower, users)?,
            passes: Vec::new(alloc),
        })
    }
}

impl RunWithPasses {
    /// Attaches a user under a new pass, at the moment `now`. Returns the pass's number, and the
    /// answer. If the answer doesn't grant the attach, the pass stays, and counts to RUN_ATTACHES.
    /// The error is Room if the run gave so many already, else Memory; the run is then unchanged.
    pub(crate) fn attach(
        &mut self,
        alloc: Global,
        now: u32,
        user: Text,
    ) -> Result<(u32, Answer), PassFault>
        ensures { (mark : RunMark)
            × ((result, self.new) ≡ attach_on self.old now (record { user = user }) mark) }
    {
        // as in `Run::new_pass`, but before any allocation, so that Room comes before Memory
        if self.passes.len() >= RUN_ATTACHES as usize {
            return Err(PassFault::Room);
        }
        if self.passes.reserve(1).is_err() {
            return Err(PassFault::Memory);
        }
        let mut pass = self.run.new_pass(alloc)?;
        let number = pass.number();
        let call = Call::Attach(AttachCall { user });
        let answer = self.run.step(alloc, &mut pass, now, call);
        self.passes.push_reserved(pass);
        Ok((number, answer))
    }

    /// Makes a call under the pass of that number, at the moment `now`. S5, and nothing changes, if
    /// the run gave no such pass.
    pub(crate) fn call(&mut self, alloc: Global, now: u32, pass: u32, call: Call<'_>) -> Answer
        ensures called { (mark : StepMark)
            × ((result, self.new) ≡ call_on self.old now pass call.entry mark) }
        ensures fits { FitsCall call.entry result }
    {
        let Some(pass) = self.passes.get_mut(pass as usize) else {
            return Answer::Denied(RuleId::S5);
        };
        self.run.step(alloc, pass, now, call)
    }
}
