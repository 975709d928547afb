//! The runs of a world as a port that notes the calls which reach one of them.
ghost use Rattle.std.specs.Prelude.{◌≡◌, false, IfOk};
ghost use Rattle.cs_permit.specs.declared.call.Call.TheVariants.{Attach};
ghost use Rattle.cs_world.specs.Projections.{is_at};
ghost use Rattle.cs_world.specs.Watching.{NotesAttach, NotesCall, NotesOne};

use crate::run_call::RunCall;
use crate::runs::Runs;
use cs_names::Text;
use cs_permit::{AttachCall, Call, TreeName};
use cs_registry::RunKey;
use cs_run::Answer;
use cs_session::{FindFault, PassFault, Port};
use std::alloc::{AllocError, Global};

/// The runs of a world, which are the port of its connections, and the calls that reached the run
/// of a key, in order. For `World::project` only.
#[derive(Drop)]
pub(crate) struct WatchedRuns {
    /// All runs of the world.
    pub(crate) runs: Runs,
    /// The run whose calls are noted.
    pub(crate) key: RunKey,
    /// The calls that reached it, in order.
    pub(crate) calls: Vec<RunCall>,
    /// Whether memory ran out for a note, or an attach to the run got no pass: calls may be missing
    /// then.
    pub(crate) is_short: bool,
}

impl WatchedRuns {
    /// Whether the run of the key is at that place. False if the key has no run yet.
    fn is_at(&self, place: u32) -> bool
        ensures { result ≡ is_at self.now.runs self.now.key place }
    {
        match self.runs.states.place_of(&self.key) {
            Some(found) => found == place,
            None => false,
        }
    }

    /// Notes a call under that pass, at the moment `now`. If `call` is an error, or there is no
    /// memory to keep the note, `is_short` is true afterwards.
    fn note(&mut self, pass: u32, now: u32, call: Result<Call<'static>, AllocError>)
        ensures runs { self.new.runs ≡ self.old.runs }
        ensures key { self.new.key ≡ self.old.key }
        ensures noted { self.new.is_short ≡ false →
            NotesOne self.old.calls.items self.old.is_short pass now call.entry
            self.new.calls.items }
    {
        match call {
            Ok(call) => {
                let note = RunCall {
                    pass,
                    moment: now,
                    call,
                };
                if self.calls.push(note).is_err() {
                    self.is_short = true;
                }
            }
            Err(_) => self.is_short = true,
        }
    }

    /// Notes a copy of a call if `reaches`, that is, if the call goes to the run of the key. If
    /// memory runs out, `is_short` is true afterwards.
    fn note_call(&mut self, alloc: Global, reaches: bool, pass: u32, now: u32, call: &Call<'_>)
        ensures runs { self.new.runs ≡ self.old.runs }
        ensures key { self.new.key ≡ self.old.key }
        ensures noted { self.new.is_short ≡ false →
            NotesCall self.old.calls.items self.old.is_short reaches pass now call.now
            self.new.calls.items }
    {
        if reaches {
            self.note(pass, now, call.try_clone(alloc));
        }
    }

    /// Notes an attach if `reaches`, that is, if the attach goes to the run of the key, under the
    /// pass that was given. If it got no pass, or memory runs out, `is_short` is true afterwards.
    fn note_attach(
        &mut self,
        reaches: bool,
        now: u32,
        call: Result<Call<'static>, AllocError>,
        given: &Result<(u32, Answer), PassFault>,
    )
        ensures runs { self.new.runs ≡ self.old.runs }
        ensures key { self.new.key ≡ self.old.key }
        ensures noted { self.new.is_short ≡ false →
            NotesAttach self.old.calls.items self.old.is_short reaches now call.entry given.now
            self.new.calls.items }
    {
        if reaches {
            match given {
                Ok((pass, _)) => self.note(*pass, now, call),
                Err(_) => self.is_short = true,
            }
        }
    }
}

impl Port for WatchedRuns {
    ghost use Rattle.cs_world.specs.Watching.{IsWatched};

    ghost gives = { λ old question answer new. IsWatched old question answer new };

    /// Finds as the runs do. Nothing is noted. After an error nothing has changed.
    fn find(&mut self, alloc: Global, name: &TreeName) -> Result<u32, FindFault> {
        self.runs.find(alloc, name)
    }

    /// Attaches as the runs do, and notes the attach if the run is that of the key. After an error
    /// the runs are unchanged, but if the run is that of the key, `is_short` is set.
    fn attach(
        &mut self,
        alloc: Global,
        now: u32,
        run: u32,
        user: Text,
    ) -> Result<(u32, Answer), PassFault> {
        let reaches = self.is_at(run);
        let call = attach_call(&user);
        let given = self.runs.attach(alloc, now, run, user);
        self.note_attach(reaches, now, call, &given);
        given
    }

    /// Notes the call if the run is that of the key, and makes it as the runs do, even if there is
    /// no memory for the note.
    fn call(&mut self, alloc: Global, now: u32, run: u32, pass: u32, call: Call<'_>) -> Answer {
        let reaches = self.is_at(run);
        self.note_call(alloc, reaches, pass, now, &call);
        self.runs.call(alloc, now, run, pass, call)
    }
}

/// The call that attaches the user, whose name is copied. The error is out of memory.
fn attach_call(user: &Text) -> Result<Call<'static>, AllocError>
    ensures { IfOk result (λ call. call ≡ Attach (record { user = user.now })) }
{
    Ok(Call::Attach(AttachCall {
        user: user.try_clone()?,
    }))
}
