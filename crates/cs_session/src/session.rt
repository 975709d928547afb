//! A connection's session and its steps. Those that make a call are in `calls`; what a whole
//! message does is in `answering`.
ghost use Rattle.std.specs.Prelude.{◌≡◌, ◌≢◌, ◌<◌, ℕ, is_ok, is_some, IfSome, IsOk, IsSome, None};
ghost use Rattle.std.specs.FinMap.{len};
ghost use Rattle.cs_fids.specs.Tables.{least_open, opened_in};
ghost use Rattle.cs_session.specs.Ready.{IsAgreed};
ghost use Rattle.cs_session.specs.Sessions.{empty_session, entry_at};
ghost use Rattle.std.specs.Option.{ForSome};
ghost use Rattle.cs_session.specs.Sizes.{IsPlain, ReplyFits};
ghost use Rattle.cs_session.specs.Steps.{AttachStep, CloseStep, FindStep, IsStepTaken};
ghost use Rattle.cs_session.specs.TableSteps.{table_stepped};

mod calls;

use crate::attaching::{decide_find, find_refusal, pass_refusal, settle_attach};
use crate::awaited::AwaitedRun;
use crate::closing::{close_reply, decide_close};
use crate::message::{AttachMessage, TableStep};
use crate::port::Port;
use crate::reply::Reply;
use crate::versions::{clunk_walked, session_size, version_reply};
use cs_fids::FidTable;
use cs_names::RuleId;
use std::alloc::Global;
use std::marker::Model;

/// What is kept of a connection. It is made with the connection. What 9P2000 calls a session begins
/// in it with a Tversion, and again with each later one.
#[derive(Drop)]
pub struct Session {
    /// The message size; None if no session has begun.
    msize: Option<u32>,
    /// The run that awaits its attach: only between the two steps of an attach.
    awaited: Option<AwaitedRun>,
    /// The fids, each with the places of its run and its pass in the port.
    fids: FidTable,
}

impl Model for Session {
    ghost use Rattle.cs_session.specs.Ready.{IsReady};
    ghost use Rattle.cs_session.specs.Sessions.{SessionState, sess_code};

    ghost Value = { SessionState };

    ghost coded = { sess_code };

    ghost view = { λ s. record { msize = s.msize; awaited = s.awaited; fids = s.fids.fids } };

    ghost invariant = { λ s. IsReady s.msize s.awaited s.fids };
}

impl Session {
    /// A connection that has begun no session and has no fid.
    pub fn new(alloc: Global) -> Session
        ensures { result ≡ empty_session None }
    {
        Session {
            msize: None,
            awaited: None,
            fids: FidTable::new(alloc),
        }
    }

    /// The message size of the session; None if none has begun.
    pub fn msize(&self) -> Option<u32>
        ensures value { result ≡ self.now.msize }
        ensures agreed { ForSome result IsAgreed }
    {
        self.msize
    }

    /// Finds the run of an attach, and replies Found: the run then awaits the attach. Any other
    /// reply refuses the find, and leaves the connection as it was.
    pub fn find_step<P: Port>(
        &mut self,
        alloc: Global,
        port: &mut P,
        message: AttachMessage,
    ) -> Reply
        ensures takes { (now : ℕ) → IsStepTaken P.gives now self.old port.old (FindStep message)
            result self.new port.new }
        ensures plain { IsPlain result }
        ensures found { result ≡ Reply.Found → IsSome self.new.awaited }
        ensures refused { result ≢ Reply.Found → self.new.awaited ≡ self.old.awaited }
    {
        let awaits_attach = self.awaited.is_some();
        match decide_find(alloc, awaits_attach, self.msize, &mut self.fids, &message) {
            Err(reply) => reply,
            Ok((name, user)) => match port.find(alloc, &name) {
                Ok(run) => {
                    self.awaited = Some(AwaitedRun {
                        fid: message.fid,
                        run,
                        uname: message.uname,
                        user,
                    });
                    Reply::Found
                }
                Err(fault) => find_refusal(fault),
            },
        }
    }

    /// Attaches to the run that was found. S5 if none was: then the port isn't asked. Whatever the
    /// reply, no run awaits its attach afterwards. Only the port takes memory.
    pub fn attach_step<P: Port>(&mut self, alloc: Global, port: &mut P, now: u32) -> Reply
        ensures takes { IsStepTaken P.gives now self.old port.old AttachStep result self.new
            port.new }
        ensures fits { ReplyFits self.old.msize result }
        ensures idle { self.new.awaited ≡ None }
    {
        let Some(found) = self.awaited.take() else {
            return Reply::Error(RuleId::S5);
        };
        match port.attach(alloc, now, found.run, found.uname) {
            Ok((pass, answer)) => settle_attach(
                &mut self.fids,
                found.fid,
                found.run,
                found.user,
                pass,
                answer,
            ),
            Err(fault) => pass_refusal(fault),
        }
    }

    /// Closes an open fid, which is free afterwards, whatever the run answers. S5, and nothing
    /// changes, if there is no open fid of that number or a run awaits its attach.
    pub fn close_step<P: Port>(&mut self, alloc: Global, port: &mut P, now: u32, fid: u32) -> Reply
        ensures takes { IsStepTaken P.gives now self.old port.old (CloseStep fid) result self.new
            port.new }
        ensures plain { IsPlain result }
        ensures awaited { self.new.awaited ≡ self.old.awaited }
        ensures fewer { self.old.awaited ≡ None → IsOk (opened_in (entry_at self.old fid))
            → len self.new.fids < len self.old.fids }
    {
        let awaits_attach = self.awaited.is_some();
        let question = match decide_close(awaits_attach, &mut self.fids, now, fid) {
            Ok(question) => question,
            Err(reply) => return reply,
        };
        let answer = question.ask(alloc, port);
        close_reply(answer)
    }

    /// Frees every fid. The session has that message size afterwards; if it is None, there is no
    /// session.
    fn reset(&mut self, msize: Option<u32>)
        requires agreed { ForSome msize IsAgreed }
        requires idle { self.old.awaited ≡ None }
        ensures { self.new ≡ empty_session msize }
    {
        self.fids.clear();
        self.msize = msize;
    }

    /// Takes a step that asks the port nothing: it changes only the connection's fids and message
    /// size (version(5), clunk(5)). S5, and nothing changes, if a run awaits its attach, if the fid
    /// of a clunk is open, or if any fid is open at a version or a hang-up. Nothing changes either
    /// after a clunk's S1 (no session has begun) or N1 (no such fid). Any other version frees every
    /// fid and ends the old session, even one whose reply is S4 (its message size is too small).
    pub fn table_step(&mut self, step: TableStep) -> Reply
        ensures value { (result, self.new) ≡ table_stepped self.old step }
        ensures plain { IsPlain result }
        ensures idle { self.old.awaited ≡ None → self.new.awaited ≡ None }
    {
        if self.awaited.is_some() {
            return Reply::Error(RuleId::S5);
        }
        match step {
            TableStep::Clunk(fid) => {
                if self.msize.is_none() {
                    return Reply::Error(RuleId::S1);
                }
                clunk_walked(&mut self.fids, fid)
            }
            TableStep::Version { msize, version } => {
                if self.fids.least_open().is_some() {
                    return Reply::Error(RuleId::S5);
                }
                self.reset(session_size(msize, version.as_str()));
                version_reply(msize, version.as_str())
            }
            TableStep::HangUp => {
                if self.fids.least_open().is_some() {
                    return Reply::Error(RuleId::S5);
                }
                self.reset(None);
                Reply::Closed
            }
        }
    }

    /// The least number of an open fid; None if no fid is open.
    pub(crate) fn least_open(&self) -> Option<u32>
        ensures least { result ≡ least_open self.now.fids }
        ensures found { IfSome result (λ fid. IsOk (opened_in (entry_at self.now fid))) }
    {
        self.fids.least_open()
    }

    /// Whether there is an open fid of that number.
    pub(crate) fn is_open(&self, fid: u32) -> bool
        ensures { result ≡ is_ok (opened_in (entry_at self.now fid)) }
    {
        self.fids.get_opened(fid).is_ok()
    }

    /// Whether a run that was found awaits its attach.
    pub fn awaits_attach(&self) -> bool
        ensures { result ≡ is_some self.now.awaited }
    {
        self.awaited.is_some()
    }
}
