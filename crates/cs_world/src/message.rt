//! The messages of a world's connections, and the end of a connection.
ghost use Rattle.std.specs.Option.{ForSome};
ghost use Rattle.std.specs.Prelude.{◌≡◌, ◌≢◌, ◌<◌, ◌≤◌, length, None, slice_set, ℕ, Option};
ghost use Rattle.cs_names.specs.declared.limits.TheConstants.{CONNECTIONS};
ghost use Rattle.cs_names.specs.declared.rule_id.RuleId.TheVariants.{S5};
ghost use Rattle.cs_session.specs.declared.message.Message.TheVariants as message;
ghost use Rattle.cs_session.specs.declared.reply.Reply.TheVariants as reply;
ghost use Rattle.cs_session.specs.Ready.{IsAgreed};
ghost use Rattle.cs_session.specs.Receiving.{tag_in, wire_of};
ghost use Rattle.cs_session.specs.Sessions.{empty_session};
ghost use Rattle.cs_session.specs.Sizes.{FitsWithin, room_of};
ghost use Rattle.cs_wire.specs.Messages.{r_view};
ghost use Rattle.cs_world.specs.Consistent.{IsConsistent};
ghost use Rattle.cs_world.specs.Replies.{IsAnsweredOn, IsRepliedOn};
ghost use Rattle.cs_world.specs.Worlds.{session_at};

use crate::world::World;
use cs_names::RuleId;
use cs_names::laws::know;
use cs_names::limits::CONNECTIONS;
use cs_session::Reply;
use cs_wire::{RBody, RMessage};
use std::alloc::Global;
use std::borrow::CowStr;

/// The reply to a message that comes while a run awaits its attach: an Rerror of S5 with the
/// message's tag, which is the bytes 5 and 6, counted from 0, the low one first, as cs_session's
/// `tag_in` reads it.
fn out_of_turn_reply(bytes: &[u8]) -> RMessage
    requires { 7 ≤ length bytes.now }
    ensures value { r_view result ≡ wire_of (tag_in bytes.now) (reply.Error S5) }
    ensures fits { (msize : Option ℕ) → ForSome msize IsAgreed →
        FitsWithin (room_of msize) (r_view result) }
{
    RMessage {
        tag: u16::from_le_bytes([bytes[5], bytes[6]]),
        body: RBody::Error {
            ename: CowStr::Borrowed(RuleId::S5.text()),
        },
    }
}

impl World {
    /// Answers one message of the connection `conn`, below CONNECTIONS, which must have at least 7
    /// bytes, at the moment `now`: takes the message's steps, one after the other. The reply is
    /// that of the last, with the message's tag; it is an Rerror with the first rule that fails, or
    /// because memory ran out (error(5)). S5, and nothing changes, while a run awaits its attach:
    /// the connection can't take a message's steps then. No other connection changes.
    pub fn message(&mut self, alloc: Global, conn: u32, now: u32, bytes: &[u8]) -> RMessage
        requires connection { conn < CONNECTIONS }
        requires whole { 7 ≤ length bytes.now }
        ensures replied { (session_at self.old conn).awaited ≡ None →
            IsRepliedOn self.old conn now bytes.now (r_view result) self.new }
        ensures out_of_turn { (session_at self.old conn).awaited ≢ None →
            (r_view result ≡ wire_of (tag_in bytes.now) (reply.Error S5)) × (self.new ≡ self.old) }
        ensures others { self.new.connections
            ≡ slice_set self.old.connections conn (session_at self.new conn) }
        ensures consistent { IsConsistent self.old → IsConsistent self.new }
        ensures fits { FitsWithin (room_of (session_at self.old conn).msize) (r_view result) }
    {
        let session = &mut self.sessions[conn as usize];
        if session.awaits_attach() {
            // the session's size is one that S5 fits
            know(session.msize());
            return out_of_turn_reply(bytes);
        }
        session.reply(alloc, &mut self.runs, now, bytes)
    }

    /// Ends the connection `conn`, below CONNECTIONS, at the moment `now`: its open fids are
    /// closed, the least number first, and then all are freed (intro(5)). The reply is Closed. S5,
    /// and nothing changes, while a run awaits its attach. No other connection changes.
    pub fn hang_up(&mut self, alloc: Global, conn: u32, now: u32) -> Reply
        requires connection { conn < CONNECTIONS }
        ensures closed { (session_at self.old conn).awaited ≡ None →
            (result ≡ reply.Closed)
            × IsAnsweredOn self.old conn now message.HangUp reply.Closed self.new }
        ensures ended { (session_at self.old conn).awaited ≡ None →
            session_at self.new conn ≡ empty_session None }
        ensures out_of_turn { (session_at self.old conn).awaited ≢ None →
            (result ≡ reply.Error S5) × (self.new ≡ self.old) }
        ensures others { self.new.connections
            ≡ slice_set self.old.connections conn (session_at self.new conn) }
        ensures consistent { IsConsistent self.old → IsConsistent self.new }
    {
        let session = &mut self.sessions[conn as usize];
        if session.awaits_attach() {
            return Reply::Error(RuleId::S5);
        }
        session.hang_up(alloc, &mut self.runs, now);
        Reply::Closed
    }
}
