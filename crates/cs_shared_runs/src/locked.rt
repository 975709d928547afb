//! What a run's lock protects.
ghost use Rattle.std.specs.Prelude.{◌≡◌, ◌≢◌, ◌↔◌, IsNone, IsSomeAnd, IsTrue};
ghost use Rattle.cs_permit.specs.declared.call.Call.TheVariants as called;
ghost use Rattle.cs_run.specs.Laws.{FitsCall};
ghost use Rattle.cs_shared_runs.specs.Locks.{BeganAs, KeepsBegin, LockedAttaches, LockedCalls};
ghost use Rattle.cs_shared_runs.specs.Answers.{IsAnswerOf, IsAttachOf, IsLookOf};

use crate::look::Look;
use crate::served::ServerBrand;
use cs_journal::{Pass, Run};
use cs_names::laws::know;
use cs_names::{RuleId, Text};
use cs_permit::{AttachCall, Call, PassFault};
use cs_plan::Built;
use cs_registry::RunKey;
use cs_run::Answer;
use std::alloc::Global;
use std::marker::{Model, PhantomData};

/// A run and the number of its state. Contracts see both. Only `Locked::new` makes one, and
/// `SharedRun::fresh` puts it under a lock.
#[derive(Drop)]
pub struct NumberedRun {
    /// The number of the state over which the run was made.
    number: u32,
    /// Under the lock of its `SharedRun`.
    run: Run<Built>,
}

impl Model for NumberedRun {
    ghost use Rattle.cs_shared_runs.specs.Locks as model;

    ghost Value = { model.Locked };

    ghost coded = { model.locked_code };

    ghost view = { λ l. record { number = l.number; run = l.run } };
}

impl NumberedRun {
    /// Whether the run is over the state of that number. It always is, since `SharedRun::fresh`
    /// makes a handle and what its lock protects with the same number. But contracts see nothing
    /// inside a lock, so no call can be proved to find its own run there. Each call checks the
    /// number, and says what it returns for another.
    fn is_of(&self, number: u32) -> bool
        ensures { IsTrue result ↔ (self.now.number ≡ number) }
    {
        self.number == number
    }

    /// Does a call under a pass at the moment `now`, by `Run::step`. Denied by S5, with nothing
    /// changed, if the pass isn't one of the run, or if the run is of another number (which never
    /// happens: see `is_of`).
    pub(crate) fn call(
        &mut self,
        alloc: Global,
        number: u32,
        pass: &mut Pass,
        now: u32,
        call: Call<'_>,
    ) -> Answer
        ensures calls { LockedCalls self.old number pass.old now call.entry result
            self.new pass.new }
        ensures answers { IsAnswerOf (BeganAs self.old) number pass.old now call.entry result
            pass.new }
        ensures keeps { KeepsBegin self.old self.new }
        ensures fits { FitsCall call.entry result }
    {
        // by its contract the journal is legal
        know(self.run.entries());
        if !self.is_of(number) {
            return Answer::Denied(RuleId::S5);
        }
        if !self.run.fits(pass) {
            return Answer::Denied(RuleId::S5);
        }
        self.run.step(alloc, pass, now, call)
    }

    /// Attaches a user under a new pass at the moment `now`. If the attach is denied, as that of an
    /// unknown user is, the pass is returned too, and counts to RUN_ATTACHES. Room or Memory if
    /// `Run::new_pass` refuses the pass; Foreign if the run is of another number (which never
    /// happens: see `is_of`). After an error the run is unchanged.
    pub(crate) fn attach(
        &mut self,
        alloc: Global,
        number: u32,
        now: u32,
        user: Text,
    ) -> Result<(Pass, Answer), PassFault>
        ensures attaches { LockedAttaches self.old number now
            (called.Attach (record { user = user })) result self.new }
        ensures answers { IsAttachOf (BeganAs self.old) number now
            (called.Attach (record { user = user })) result }
        ensures keeps { KeepsBegin self.old self.new }
    {
        // by its contract the journal is legal
        know(self.run.entries());
        if !self.is_of(number) {
            return Err(PassFault::Foreign);
        }
        let mut pass = match self.run.new_pass(alloc) {
            Ok(pass) => pass,
            Err(fault) => return Err(fault),
        };
        // and it still is after the new pass
        know(self.run.entries());
        let call = Call::Attach(AttachCall { user });
        let answer = self.run.step(alloc, &mut pass, now, call);
        Ok((pass, answer))
    }

    /// What `look` returns of the run; None if the run is of another number (which never happens:
    /// see `is_of`).
    pub(crate) fn inspect<T, K: Look<T> + Drop>(&self, number: u32, look: K) -> Option<T>
        ensures looks { self.now.number ≡ number
            → IsSomeAnd result (K.may_return look self.now.run) }
        ensures foreign { self.now.number ≢ number → IsNone result }
        ensures answers { IsLookOf (BeganAs self.now) number (K.may_return look) result }
    {
        // by its contract the journal is legal
        know(self.run.entries());
        if !self.is_of(number) {
            return None;
        }
        Some(look.look(&self.run))
    }
}

/// A run and the number of its state; the run began with a tree that the server has under that
/// number, and with users that it loaded. Code that holds the lock uses only the functions below.
/// Contracts see both.
#[derive(Drop)]
pub(crate) struct Locked<S: ServerBrand> {
    /// All that the lock protects.
    inside: NumberedRun,
    /// For the type S. It has no data.
    of: PhantomData<S>,
}

impl<S: ServerBrand> Model for Locked<S> {
    ghost use Rattle.cs_shared_runs.specs.Locks as model;

    ghost Value = { model.Locked };

    ghost coded = { model.locked_code };

    ghost view = { λ l. l.inside };

    ghost invariant = { λ l. S.serves l.inside.number l.inside.run.fresh l.inside.run.users };
}

impl<S: ServerBrand> Locked<S> {
    /// The run of the state of that number, to be put under a lock. The server must have such a
    /// run, as `SharedRun::fresh` requires.
    pub(crate) fn new(number: u32, run: Run<Built>) -> Locked<S>
        requires { S.serves number run.fresh run.users }
        ensures { result ≡ record { number = number; run = run } }
    {
        Locked {
            inside: NumberedRun { number, run },
            of: PhantomData,
        }
    }

    /// Does a call under a pass, as `NumberedRun::call` does: S5, and nothing changes, if the pass
    /// isn't one of the run. The key is the handle's.
    pub(crate) fn call(
        &mut self,
        alloc: Global,
        key: &RunKey,
        pass: &mut Pass,
        now: u32,
        call: Call<'_>,
    ) -> Answer
        ensures source { S.answered key.now pass.old now call.entry result pass.new }
        ensures calls { LockedCalls self.old key.now.number pass.old now call.entry result
            self.new pass.new }
        ensures answers { IsAnswerOf S.serves key.now.number pass.old now call.entry result
            pass.new }
        ensures fits { FitsCall call.entry result }
    {
        S::answer(&mut self.inside, alloc, key, pass, now, call)
    }

    /// Attaches a user under a new pass, as `NumberedRun::attach` does, with the same errors. The
    /// key is the handle's.
    pub(crate) fn attach(
        &mut self,
        alloc: Global,
        key: &RunKey,
        now: u32,
        user: Text,
    ) -> Result<(Pass, Answer), PassFault>
        ensures source { S.attached key.now now (called.Attach (record { user = user })) result }
        ensures attaches { LockedAttaches self.old key.now.number now
            (called.Attach (record { user = user })) result self.new }
        ensures answers { IsAttachOf S.serves key.now.number now
            (called.Attach (record { user = user })) result }
    {
        S::attach(&mut self.inside, alloc, key, now, user)
    }

    /// What `look` returns of the run; None as `NumberedRun::inspect` says, which never happens.
    pub(crate) fn inspect<T, K: Look<T> + Drop>(&self, number: u32, look: K) -> Option<T>
        ensures looks { self.now.number ≡ number
            → IsSomeAnd result (K.may_return look self.now.run) }
        ensures foreign { self.now.number ≢ number → IsNone result }
        ensures answers { IsLookOf S.serves number (K.may_return look) result }
    {
        self.inside.inspect(number, look)
    }
}
