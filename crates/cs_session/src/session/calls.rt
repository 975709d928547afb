//! The steps of a session that make one call. All eight do the same: decide by the connection's own
//! rules what to ask, or refuse; ask the fid's run; and make the reply, and the change of the fids,
//! from its answer. If the connection refuses, the reply is the first of its rules that fails, or
//! out of memory, and the run isn't asked.
ghost use Rattle.std.specs.Prelude.{◌≡◌};
ghost use Rattle.cs_session.specs.declared.message.CallMessage.TheVariants as call;
ghost use Rattle.cs_session.specs.Sizes.{CallFits, ReplyFits};
ghost use Rattle.cs_session.specs.Steps.{CallStep, IsStepTaken};

use super::Session;
use crate::message::{
    CallMessage, CreateMessage, OpenMessage, ReadMessage, WalkMessage, WriteMessage, WstatMessage,
};
use crate::opening::{decide_create, decide_open, settle_create, settle_open};
use crate::port::Port;
use crate::reading::{decide_read, settle_read};
use crate::removing::{decide_remove, remove_reply};
use crate::reply::Reply;
use crate::stating::{decide_stat, decide_wstat, stat_reply, wstat_reply};
use crate::walking::{decide_walk, settle_walk};
use crate::writing::{decide_write, write_reply};
use std::alloc::Global;

impl Session {
    /// Walks from a fid to a new one, or moves the fid itself. The reply is Walk, or a refusal as
    /// in `call_step`. No fid changes if the walk is refused or a rule stops it on the way.
    fn walk_step<P: Port>(
        &mut self,
        alloc: Global,
        port: &mut P,
        now: u32,
        message: WalkMessage,
    ) -> Reply
        ensures takes { IsStepTaken P.gives now self.old port.old (CallStep (call.Walk message))
            result
            self.new port.new }
        ensures fits { CallFits (call.Walk message) → ReplyFits self.old.msize result }
        ensures awaited { self.new.awaited ≡ self.old.awaited }
    {
        let awaits_attach = self.awaited.is_some();
        let (fid, newfid) = (message.fid, message.newfid);
        let (question, from) = match decide_walk(
            awaits_attach,
            self.msize,
            &mut self.fids,
            now,
            message,
        ) {
            Ok(asked) => asked,
            Err(reply) => return reply,
        };
        let answer = question.ask(alloc, port);
        settle_walk(&mut self.fids, fid, newfid, from, answer)
    }

    /// Opens a fid. The reply is Open, or a refusal as in `call_step`; no fid changes then.
    fn open_step<P: Port>(
        &mut self,
        alloc: Global,
        port: &mut P,
        now: u32,
        message: OpenMessage,
    ) -> Reply
        ensures takes { IsStepTaken P.gives now self.old port.old (CallStep (call.Open message))
            result
            self.new port.new }
        ensures fits { ReplyFits self.old.msize result }
        ensures awaited { self.new.awaited ≡ self.old.awaited }
    {
        let awaits_attach = self.awaited.is_some();
        let question = match decide_open(awaits_attach, self.msize, &self.fids, now, message) {
            Ok(question) => question,
            Err(reply) => return reply,
        };
        let answer = question.ask(alloc, port);
        settle_open(&mut self.fids, message.fid, message.mode, answer)
    }

    /// Makes a file in the fid's directory. The fid is then that of the new file, and open. The
    /// reply is Create, or a refusal as in `call_step`; no fid changes then.
    fn create_step<P: Port>(
        &mut self,
        alloc: Global,
        port: &mut P,
        now: u32,
        message: CreateMessage,
    ) -> Reply
        ensures takes { IsStepTaken P.gives now self.old port.old (CallStep (call.Create message))
            result self.new port.new }
        ensures fits { ReplyFits self.old.msize result }
        ensures awaited { self.new.awaited ≡ self.old.awaited }
    {
        let awaits_attach = self.awaited.is_some();
        let (fid, mode) = (message.fid, message.mode);
        let question = match decide_create(awaits_attach, self.msize, &self.fids, now, message) {
            Ok(question) => question,
            Err(reply) => return reply,
        };
        let answer = question.ask(alloc, port);
        settle_create(&mut self.fids, fid, mode, answer)
    }

    /// Reads from an open fid, at most as many bytes as a reply holds. The reply is Read, or a
    /// refusal as in `call_step`. After a read of entries of a directory the fid keeps the place at
    /// which the next read continues; else no fid changes.
    fn read_step<P: Port>(
        &mut self,
        alloc: Global,
        port: &mut P,
        now: u32,
        message: ReadMessage,
    ) -> Reply
        ensures takes { IsStepTaken P.gives now self.old port.old (CallStep (call.Read message))
            result
            self.new port.new }
        ensures fits { ReplyFits self.old.msize result }
        ensures awaited { self.new.awaited ≡ self.old.awaited }
    {
        let awaits_attach = self.awaited.is_some();
        let question = match decide_read(awaits_attach, self.msize, &self.fids, now, message) {
            Ok(question) => question,
            Err(reply) => return reply,
        };
        let answer = question.ask(alloc, port);
        settle_read(&mut self.fids, message.fid, answer)
    }

    /// Writes to an open fid. The reply is Write, with how many bytes were written, or a refusal as
    /// in `call_step`. No fid changes.
    fn write_step<P: Port>(
        &mut self,
        alloc: Global,
        port: &mut P,
        now: u32,
        message: WriteMessage<'_>,
    ) -> Reply
        ensures takes { IsStepTaken P.gives now self.old port.old
            (CallStep (call.Write message.entry))
            result self.new port.new }
        ensures fits { ReplyFits self.old.msize result }
        ensures awaited { self.new.awaited ≡ self.old.awaited }
    {
        let awaits_attach = self.awaited.is_some();
        let question = match decide_write(awaits_attach, self.msize, &self.fids, now, message) {
            Ok(question) => question,
            Err(reply) => return reply,
        };
        let answer = question.ask(alloc, port);
        write_reply(answer)
    }

    /// Removes the fid's file. The reply is Remove, or a refusal as in `call_step`. The fid is free
    /// once the connection asks the run, even if the run refuses. If the connection itself refuses,
    /// no fid changes.
    fn remove_step<P: Port>(&mut self, alloc: Global, port: &mut P, now: u32, fid: u32) -> Reply
        ensures takes { IsStepTaken P.gives now self.old port.old (CallStep (call.Remove fid))
            result
            self.new port.new }
        ensures fits { ReplyFits self.old.msize result }
        ensures awaited { self.new.awaited ≡ self.old.awaited }
    {
        let awaits_attach = self.awaited.is_some();
        let question = match decide_remove(awaits_attach, self.msize, &mut self.fids, now, fid) {
            Ok(question) => question,
            Err(reply) => return reply,
        };
        let answer = question.ask(alloc, port);
        remove_reply(answer)
    }

    /// Replies with the attributes of the fid's file, or with a refusal as in `call_step`. No fid
    /// changes.
    fn stat_step<P: Port>(&mut self, alloc: Global, port: &mut P, now: u32, fid: u32) -> Reply
        ensures takes { IsStepTaken P.gives now self.old port.old (CallStep (call.Stat fid)) result
            self.new port.new }
        ensures fits { ReplyFits self.old.msize result }
        ensures awaited { self.new.awaited ≡ self.old.awaited }
    {
        let awaits_attach = self.awaited.is_some();
        let question = match decide_stat(awaits_attach, self.msize, &self.fids, now, fid) {
            Ok(question) => question,
            Err(reply) => return reply,
        };
        let answer = question.ask(alloc, port);
        stat_reply(answer)
    }

    /// Changes attributes of the fid's file, all or none. The reply is Wstat, or a refusal as in
    /// `call_step`. No fid changes.
    fn wstat_step<P: Port>(
        &mut self,
        alloc: Global,
        port: &mut P,
        now: u32,
        message: WstatMessage,
    ) -> Reply
        ensures takes { IsStepTaken P.gives now self.old port.old (CallStep (call.Wstat message))
            result
            self.new port.new }
        ensures fits { ReplyFits self.old.msize result }
        ensures awaited { self.new.awaited ≡ self.old.awaited }
    {
        let awaits_attach = self.awaited.is_some();
        let question = match decide_wstat(awaits_attach, self.msize, &self.fids, now, message) {
            Ok(question) => question,
            Err(reply) => return reply,
        };
        let answer = question.ask(alloc, port);
        wstat_reply(answer)
    }

    /// Makes the call of a message on the run of its fid. The reply is the first of the
    /// connection's rules that fails, or out of memory, or else what the run answers. If the call
    /// is refused, no fid changes, except that the fid of a remove is free once the connection asks
    /// the run (remove(5)).
    pub fn call_step<P: Port>(
        &mut self,
        alloc: Global,
        port: &mut P,
        now: u32,
        message: CallMessage<'_>,
    ) -> Reply
        ensures takes { IsStepTaken P.gives now self.old port.old (CallStep message.entry) result
            self.new port.new }
        ensures fits { CallFits message.entry → ReplyFits self.old.msize result }
        ensures awaited { self.new.awaited ≡ self.old.awaited }
    {
        match message {
            CallMessage::Walk(message) => self.walk_step(alloc, port, now, message),
            CallMessage::Open(message) => self.open_step(alloc, port, now, message),
            CallMessage::Create(message) => self.create_step(alloc, port, now, message),
            CallMessage::Read(message) => self.read_step(alloc, port, now, message),
            CallMessage::Write(message) => self.write_step(alloc, port, now, message),
            CallMessage::Remove(fid) => self.remove_step(alloc, port, now, fid),
            CallMessage::Stat(fid) => self.stat_step(alloc, port, now, fid),
            CallMessage::Wstat(message) => self.wstat_step(alloc, port, now, message),
        }
    }
}
