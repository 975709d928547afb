//! How a connection answers a message: it takes the message's steps, one after the other. A
//! message's bytes are in `receiving`, each step is in `session`.
ghost use Rattle.std.specs.Prelude.{◌≡◌, None, true};
ghost use Rattle.cs_fids.specs.Tables.{least_open};
ghost use Rattle.cs_session.specs.declared.message.Message.{Message};
ghost use Rattle.cs_session.specs.declared.message.Message.TheVariants as m;
ghost use Rattle.cs_session.specs.declared.reply.Reply.{Reply};
ghost use Rattle.cs_session.specs.declared.reply.Reply.TheVariants as r;
ghost use Rattle.cs_session.specs.Messages.{IsAnswered, closes_first};
ghost use Rattle.cs_session.specs.Sessions.{SessionState, empty_session};
ghost use Rattle.cs_session.specs.Sizes.{IsPlain, MessageFits, ReplyFits};

use crate::message::{AttachMessage, Message, TableStep};
use crate::port::Port;
use crate::reply::Reply;
use crate::session::Session;
use cs_names::Text;
use std::alloc::Global;

impl Session {
    /// Closes every open fid, the least number first, whatever the runs answer: none is open
    /// afterwards. The other fids stay. No run may await its attach, as none does between two
    /// messages.
    fn close_all<P: Port>(&mut self, alloc: Global, port: &mut P, now: u32)
        requires { self.old.awaited ≡ None }
        ensures closed { least_open self.new.fids ≡ None }
        ensures idle { self.new.awaited ≡ None }
        ensures before { (message : Message) (reply : Reply) (s : SessionState) (p : P)
            → closes_first message ≡ true
            → IsAnswered P.gives now message self.new port.new reply s p
            → IsAnswered P.gives now message self.old port.old reply s p }
    {
        while let Some(fid) = self.least_open() {
            // the fid is free afterwards, whatever the run answers
            let _reply = self.close_step(alloc, port, now, fid);
        }
    }

    /// Answers an attach: finds its run, and then attaches to it. If the find is refused, the
    /// refusal is the reply. No run may await its attach before, and none does afterwards.
    fn answer_attach<P: Port>(
        &mut self,
        alloc: Global,
        port: &mut P,
        now: u32,
        message: AttachMessage,
    ) -> Reply
        requires { self.old.awaited ≡ None }
        ensures answered { IsAnswered P.gives now (m.Attach message) self.old port.old result
            self.new port.new }
        ensures fits { ReplyFits self.old.msize result }
        ensures idle { self.new.awaited ≡ None }
    {
        match self.find_step(alloc, port, message) {
            Reply::Found => self.attach_step(alloc, port, now),
            reply => reply,
        }
    }

    /// Answers a clunk, while no run awaits its attach: closes the fid if it is open, else frees
    /// it. If the fid isn't open, the reply is S1 if no session has begun, else N1 if there is no
    /// such fid.
    fn answer_clunk<P: Port>(&mut self, alloc: Global, port: &mut P, now: u32, fid: u32) -> Reply
        requires { self.old.awaited ≡ None }
        ensures answered { IsAnswered P.gives now (m.Clunk fid) self.old port.old result self.new
            port.new }
        ensures plain { IsPlain result }
        ensures idle { self.new.awaited ≡ None }
    {
        if self.is_open(fid) {
            return self.close_step(alloc, port, now, fid);
        }
        self.table_step(TableStep::Clunk(fid))
    }

    /// Answers a version, while no run awaits its attach: closes every open fid, the least number
    /// first, and frees all fids. Then a session begins, unless the version isn't spoken or the
    /// message size is too small (version(5)).
    fn answer_version<P: Port>(
        &mut self,
        alloc: Global,
        port: &mut P,
        now: u32,
        msize: u32,
        version: Text,
    ) -> Reply
        requires { self.old.awaited ≡ None }
        ensures answered { IsAnswered P.gives now (m.Version msize version) self.old port.old result
            self.new port.new }
        ensures plain { IsPlain result }
        ensures idle { self.new.awaited ≡ None }
    {
        self.close_all(alloc, port, now);
        self.table_step(TableStep::Version { msize, version })
    }

    /// Ends the connection, on which no run may await its attach, whatever the runs answer: closes
    /// every open fid, the least number first, and then frees all fids and ends the session.
    pub fn hang_up<P: Port>(&mut self, alloc: Global, port: &mut P, now: u32)
        requires { self.old.awaited ≡ None }
        ensures answered { IsAnswered P.gives now m.HangUp self.old port.old r.Closed self.new
            port.new }
        ensures ended { self.new ≡ empty_session None }
    {
        self.close_all(alloc, port, now);
        // no fid is open and no run awaits its attach, so the reply is Closed
        let _closed = self.table_step(TableStep::HangUp);
    }

    /// Answers a message by its steps. The reply is that of the last step that was taken: what it
    /// grants, the first rule that fails, or out of memory. No run may await its attach, as none
    /// does between two messages.
    pub fn answer<P: Port>(
        &mut self,
        alloc: Global,
        port: &mut P,
        now: u32,
        message: Message<'_>,
    ) -> Reply
        requires { self.old.awaited ≡ None }
        ensures answered { IsAnswered P.gives now message.entry self.old port.old result self.new
            port.new }
        ensures fits { MessageFits message.entry → ReplyFits self.old.msize result }
        ensures idle { self.new.awaited ≡ None }
    {
        match message {
            Message::Version { msize, version } => self.answer_version(
                alloc, port, now, msize, version,
            ),
            Message::Attach(message) => self.answer_attach(alloc, port, now, message),
            Message::Call(message) => self.call_step(alloc, port, now, message),
            Message::Clunk(fid) => self.answer_clunk(alloc, port, now, fid),
            Message::HangUp => {
                self.hang_up(alloc, port, now);
                Reply::Closed
            }
        }
    }
}
