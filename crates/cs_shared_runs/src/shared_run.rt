//! A handle of a run that threads share.
ghost use Rattle.std.specs.Prelude.{◌≡◌, IfOk};
ghost use Rattle.std.specs.Arc.{arc_value};
ghost use Rattle.cs_journal.specs.Bounds.{CanGrow};
ghost use Rattle.cs_permit.specs.declared.call.Call.TheVariants as called;
ghost use Rattle.cs_run.specs.Laws.{FitsCall};
ghost use Rattle.cs_shared_runs.specs.Answers.{IsAnswerOf, IsAttachOf, IsLookOf};

use crate::locked::Locked;
use crate::look::Look;
use crate::served::ServerBrand;
use cs_journal::{Pass, Run};
use cs_names::Text;
use cs_permit::{Call, PassFault};
use cs_plan::Built;
use cs_registry::{Held, RunKey};
use cs_run::Answer;
use cs_users::Users;
use std::alloc::{AllocError, Global};
use std::marker::Model;
use std::sync::{Arc, Mutex, Wait};

/// A handle of a run that threads share under a lock, with the run's key. Contracts see the key.
/// Each call takes the run's lock once, and no other.
#[derive(Drop)]
pub struct SharedRun<S: ServerBrand> {
    /// Outside the lock, as it never changes.
    key: RunKey,
    /// The run, under its own lock.
    run: Arc<Mutex<Locked<S>>>,
}

impl<S: ServerBrand> Model for SharedRun<S> {
    ghost use Rattle.cs_registry.specs.Keys.{Key};

    ghost Value = { Key };

    ghost view = { λ shared. shared.key };
}

impl<S: ServerBrand> SharedRun<S> {
    /// A handle of a new run of that key, which has no open file and an empty journal. `lower` is
    /// the tree of the run's state. An error means out of memory. The type `S` must allow a run
    /// over this tree with these users under the key's number, and the tree must be one that can
    /// grow (`can_grow` of cs_journal).
    pub fn fresh(
        alloc: Global,
        key: RunKey,
        lower: Arc<Built>,
        users: Arc<Users>,
    ) -> Result<SharedRun<S>, AllocError>
        requires served { S.serves key.number (arc_value lower) (arc_value users) }
        requires grows { CanGrow (arc_value lower) }
        ensures { IfOk result (λ shared. shared ≡ key) }
    {
        let run = Locked::new(key.number(), Run::fresh(alloc, lower, users)?);
        let run = Arc::new(alloc, Mutex::new(run))?;
        Ok(SharedRun { key, run })
    }

    /// Another handle of the same run. An error means that the run has as many handles as can be.
    pub fn try_clone(&self) -> Result<SharedRun<S>, AllocError>
        ensures { IfOk result (λ shared. shared ≡ self.now) }
    {
        Ok(SharedRun {
            key: self.key.copy(),
            run: Arc::try_clone(&self.run)?,
        })
    }

    /// The key of the run.
    pub fn key(&self) -> &RunKey
        ensures { result.now ≡ self.now }
    {
        &self.key
    }

    /// Attaches a user under a new pass at the moment `now`, in seconds since 1970. If the attach
    /// is denied, as that of an unknown user is, the pass is returned too, and counts to
    /// RUN_ATTACHES. Room if the run gave RUN_ATTACHES passes already; else Memory if an allocation
    /// fails. (Foreign, for a run of another number under the lock, is never returned.) After an
    /// error the run is unchanged.
    pub fn attach(
        &self,
        rt: &impl Wait,
        alloc: Global,
        now: u32,
        user: Text,
    ) -> Result<(Pass, Answer), PassFault>
        ensures source { S.attached self.now now (called.Attach (record { user = user })) result }
        ensures answers { IsAttachOf S.serves self.now.number now
            (called.Attach (record { user = user })) result }
    {
        self.run.lock(rt).attach(alloc, &self.key, now, user)
    }

    /// Does a call under a pass at the moment `now`, in seconds since 1970, by `Run::step`. Denied
    /// by S5, and nothing changes, if the pass isn't one of the run.
    pub fn call(
        &self,
        rt: &impl Wait,
        alloc: Global,
        pass: &mut Pass,
        now: u32,
        call: Call<'_>,
    ) -> Answer
        ensures source { S.answered self.now pass.old now call.entry result pass.new }
        ensures answers { IsAnswerOf S.serves self.now.number pass.old now call.entry result
            pass.new }
        ensures fits { FitsCall call.entry result }
    {
        self.run.lock(rt).call(alloc, &self.key, pass, now, call)
    }

    /// What `look` returns of the run, under the lock: `look` must make no call on the same run, or
    /// the thread waits forever. (None, for a run of another number under the lock, is never
    /// returned. But contracts see nothing inside a lock, so it isn't proved.)
    pub fn inspect<T, K: Look<T> + Drop>(&self, rt: &impl Wait, look: K) -> Option<T>
        ensures { IsLookOf S.serves self.now.number (K.may_return look) result }
    {
        self.run.lock(rt).inspect(self.key.number(), look)
    }
}

impl<S: ServerBrand> Held for SharedRun<S> {
    ghost use Rattle.std.specs.Prelude.{◌≡◌};
    ghost use Rattle.cs_journal.specs.Bounds.{CanGrow};
    ghost use Rattle.cs_shared_runs.specs.Serving.{ServesEach};

    ghost admits = { λ number tree. CanGrow tree × ServesEach S.serves S.loads number tree };

    ghost suits = { S.loads };

    ghost is_fresh = { λ key tree users shared. shared ≡ key };

    /// A handle of a new run, as `SharedRun::fresh` makes it, with a copy of the key. The error is
    /// out of memory.
    fn fresh(
        alloc: Global,
        key: &RunKey,
        lower: Arc<Built>,
        users: Arc<Users>,
    ) -> Result<SharedRun<S>, AllocError> {
        SharedRun::fresh(alloc, key.copy(), lower, users)
    }
}
