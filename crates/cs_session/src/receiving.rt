//! From the bytes of one message to its reply on the wire: the rules before decoding, the decoding,
//! the session's answer, and the form of the reply. A message has at least 7 bytes: its size, its
//! type and its tag.
ghost use Rattle.std.specs.Option.{ForSome};
ghost use Rattle.std.specs.Prelude.{◌≡◌, ℕ, ◌≤◌, codes, IfErr, IfOk, length, map, None, Option};
ghost use Rattle.std.specs.Prelude.{string_bytes};
ghost use Rattle.cs_names.specs.Rules.{text_of};
ghost use Rattle.cs_permit.specs.Refusals.{first_failing};
ghost use Rattle.cs_permit.specs.Sent.{sent_of};
ghost use Rattle.cs_permit.specs.Sizes.{IsQid, IsShown};
ghost use Rattle.cs_session.specs.declared.message.CallMessage.TheVariants as call;
ghost use Rattle.cs_session.specs.Ready.{IsAgreed};
ghost use Rattle.cs_session.specs.Receiving.{IsOnWire, IsReceived, IsReplied, IsSpelled};
ghost use Rattle.cs_session.specs.Receiving.{IsUnread};
ghost use Rattle.cs_session.specs.Receiving.{error_reply, rules_before_decoding, message_in};
ghost use Rattle.cs_session.specs.Receiving.{needs_no_session, wire_of, version_named, tag_in};
ghost use Rattle.cs_session.specs.Sizes.{FitsIn, FitsWithin, ReplyFits, room_of};
ghost use Rattle.cs_wire.specs.Messages.{r_view, t_kind_of};

use crate::message::{
    AttachMessage, CallMessage, CreateMessage, Message, OpenMessage, ReadMessage, WalkMessage,
    WriteMessage, WstatMessage,
};
use crate::port::Port;
use crate::reply::Reply;
use crate::session::Session;
use cs_names::laws::know;
use cs_names::{RuleId, Text, Texts};
use cs_permit::{SentBytes, SentStat};
use cs_wire::{Qid, RBody, RMessage, Stat, TBody, TKind, TMessage, WireFault, decode_request};
use std::alloc::Global;
use std::borrow::CowStr;

/// The tag of a message, which its reply has too: the bytes 5 and 6, counted from 0, the low one
/// first. cs_world's `out_of_turn_reply` reads it in the same way: change both. The caller has at
/// least 7 bytes.
fn tag_in(bytes: &[u8]) -> u16
    requires { 7 ≤ length bytes.now }
    ensures { result ≡ tag_in bytes.now }
{
    u16::from_le_bytes([bytes[5], bytes[6]])
}

/// Whether a message with that type number may come before a session begins: true of a Tversion and
/// of a Tflush, false of every other number.
fn needs_no_session(number: u8) -> bool
    ensures { result ≡ needs_no_session (t_kind_of number) }
{
    matches!(
        TKind::of_number(number),
        Some(TKind::Version | TKind::Flush)
    )
}

/// The rule that a message fails before it is decoded: S1 if no session has begun and the message
/// needs one, S2 if the message is longer than the session's message size. None if it fails
/// neither.
fn first_rule_before_decoding(msize: Option<u32>, bytes: &[u8]) -> Option<RuleId>
    requires { 7 ≤ length bytes.now }
    ensures { result ≡ first_failing (rules_before_decoding msize bytes.now) }
{
    match msize {
        None => {
            // byte 4, counted from 0, is the type
            if !needs_no_session(bytes[4]) {
                return Some(RuleId::S1);
            }
        }
        Some(msize) => {
            if bytes.len() > msize as usize {
                return Some(RuleId::S2);
            }
        }
    }
    None
}

/// The message that the bytes spell. An error is the reply: out of memory, or S2 if they don't
/// spell a message.
fn decode(alloc: Global, bytes: &[u8]) -> Result<TMessage<'_>, Reply>
    ensures ok { IfOk result (λ message. IsSpelled bytes.now message) }
    ensures err { IfErr result (IsUnread bytes.now) }
{
    match decode_request(alloc, bytes) {
        Ok(message) => Ok(message),
        Err(WireFault::Memory) => Err(Reply::Memory),
        Err(_) => Err(Reply::Error(RuleId::S2)),
    }
}

/// The message as a session answers it. An error is the reply to a message that takes no step: S3
/// to a Tauth, an Rflush to a Tflush.
fn message_in<'a>(body: TBody<'a>) -> Result<Message<'a>, Reply>
    ensures { result ≡ message_in body.entry }
{
    Ok(match body {
        TBody::Auth { .. } => return Err(Reply::Error(RuleId::S3)),
        TBody::Flush { .. } => return Err(Reply::Flush),
        TBody::Version { msize, version } => Message::Version {
            msize,
            version: Text::new(version),
        },
        TBody::Attach {
            fid,
            afid,
            uname,
            aname,
        } => Message::Attach(AttachMessage {
            fid,
            afid,
            uname: Text::new(uname),
            aname: Text::new(aname),
        }),
        TBody::Clunk { fid } => Message::Clunk(fid),
        TBody::Walk { fid, newfid, wname } => Message::Call(walk_call(fid, newfid, wname)),
        TBody::Open { fid, mode } => Message::Call(CallMessage::Open(OpenMessage { fid, mode })),
        TBody::Create {
            fid,
            name,
            perm,
            mode,
        } => Message::Call(create_call(fid, name, perm, mode)),
        TBody::Read { fid, offset, count } => Message::Call(read_call(fid, offset, count)),
        TBody::Write { fid, offset, data } => Message::Call(write_call(fid, offset, data)),
        TBody::Remove { fid } => Message::Call(CallMessage::Remove(fid)),
        TBody::Stat { fid } => Message::Call(CallMessage::Stat(fid)),
        TBody::Wstat { fid, stat } => Message::Call(wstat_call(fid, stat)),
    })
}

/// The call that a Twalk makes. Its names are moved, not copied.
fn walk_call(fid: u32, newfid: u32, names: Vec<String>) -> CallMessage<'static>
    ensures { result
        ≡ call.Walk (record { fid = fid; newfid = newfid; names = map string_bytes names.items }) }
{
    CallMessage::Walk(WalkMessage {
        fid,
        newfid,
        names: Texts::new(names),
    })
}

/// The call that a Tcreate makes. Its name is moved, not copied.
fn create_call(fid: u32, name: String, perm: u32, mode: u8) -> CallMessage<'static>
    ensures { result
        ≡ call.Create (record { fid = fid; name = string_bytes name; perm = perm; mode = mode }) }
{
    CallMessage::Create(CreateMessage {
        fid,
        name: Text::new(name),
        perm,
        mode,
    })
}

/// The call that a Tread makes.
fn read_call(fid: u32, offset: u64, count: u32) -> CallMessage<'static>
    ensures { result ≡ call.Read (record { fid = fid; offset = offset; count = count }) }
{
    CallMessage::Read(ReadMessage { fid, offset, count })
}

/// The call that a Twrite makes. Its bytes are borrowed.
fn write_call(fid: u32, offset: u64, bytes: &[u8]) -> CallMessage<'_>
    ensures { result ≡ call.Write (record { fid = fid; offset = offset; bytes = bytes.now }) }
{
    CallMessage::Write(WriteMessage {
        fid,
        offset,
        bytes: SentBytes::borrow_from(bytes),
    })
}

/// The call that a Twstat makes, with every field of the stat that was sent.
fn wstat_call(fid: u32, stat: Stat) -> CallMessage<'static>
    ensures { result ≡ call.Wstat (record { fid = fid; stat = sent_of stat }) }
{
    CallMessage::Wstat(WstatMessage {
        fid,
        stat: SentStat::new(stat),
    })
}

/// The version that an Rversion names: `9P2000`, which `versions::is_spoken` looks for, if the
/// client's version is spoken, else `unknown` (version(5)). Neither has more than 7 bytes.
fn version_text(is_spoken: bool) -> &'static str
    ensures value { result.now ≡ version_named is_spoken }
    ensures shown { IsShown 7 result.now }
{
    if is_spoken { "9P2000" } else { "unknown" }
}

/// The text of a rule, as `RuleId::text` gives it: of at most 48 bytes, as the contract there says,
/// so that it fits in an Rerror of every session.
fn rule_text(rule: RuleId) -> &'static str
    ensures value { result.now ≡ text_of rule }
    ensures shown { IsShown 48 result.now }
{
    rule.text()
}

/// The body of an Rerror with that text (error(5)). The caller gives a text of at most 48 bytes, as
/// `rule_text` and `memory_text` return, so that it fits in every session.
fn error_body(text: &'static str) -> RBody
    requires { IsShown 48 text.now }
    ensures value { (tag : ℕ)
        → r_view (record { tag = tag; body = result }) ≡ error_reply tag text.now }
    ensures fits { (msize : Option ℕ) → FitsIn (room_of msize) result }
{
    RBody::Error {
        ename: CowStr::Borrowed(text),
    }
}

/// The same qid, made again from its fields: so the contract can say that its numbers are in their
/// ranges, as those of every qid are.
fn qid_in_range(qid: Qid) -> Qid
    ensures value { result ≡ qid }
    ensures fits { IsQid result }
{
    Qid {
        kind: qid.kind,
        vers: qid.vers,
        path: qid.path,
    }
}

/// The body of the message that carries a reply. It takes no memory. The caller has neither Found
/// nor Closed, which are never sent: no last step of a client's message replies so.
fn body_of(reply: Reply) -> RBody
    requires { IsOnWire reply }
    ensures value { (tag : ℕ) → r_view (record { tag = tag; body = result }) ≡ wire_of tag reply }
    ensures fits { (msize : Option ℕ) → ForSome msize IsAgreed → ReplyFits msize reply
        → FitsIn (room_of msize) result }
{
    match reply {
        Reply::Version { msize, is_spoken } => RBody::Version {
            msize,
            version: CowStr::Borrowed(version_text(is_spoken)),
        },
        Reply::Attach(qid) => RBody::Attach {
            qid: qid_in_range(qid),
        },
        Reply::Walk(walk) => RBody::Walk {
            wqid: walk.into_qids(),
        },
        // an iounit of 0 promises nothing about the size of a transfer (open(5))
        Reply::Open(qid) => RBody::Open {
            qid: qid_in_range(qid),
            iounit: 0,
        },
        Reply::Create(qid) => RBody::Create {
            qid: qid_in_range(qid),
            iounit: 0,
        },
        Reply::Read(bytes) => RBody::Read {
            data: bytes.into_vec(),
        },
        Reply::Write(count) => RBody::Write { count },
        Reply::Clunk => RBody::Clunk,
        Reply::Remove => RBody::Remove,
        Reply::Stat(stat) => RBody::Stat {
            stat: stat.into_stat(),
        },
        Reply::Wstat => RBody::Wstat,
        Reply::Flush => RBody::Flush,
        Reply::Error(rule) => error_body(rule_text(rule)),
        Reply::Memory => error_body(memory_text()),
        // the caller has neither of these replies, as a requires says
        Reply::Found => unreachable!(),
        Reply::Closed => unreachable!(),
    }
}

/// The text of an Rerror if memory runs out. It has at most 48 bytes, as `error_body` requires.
fn memory_text() -> &'static str
    ensures value { result.now ≡ codes "out of memory" }
    ensures shown { IsShown 48 result.now }
{
    "out of memory"
}

impl Session {
    /// Answers the bytes of a message, of which the caller has at least 7, while no run awaits its
    /// attach: the reply is the first rule that fails, out of memory, what the message's last step
    /// answers, or Flush. If the message takes no step, nothing changes.
    fn receive<P: Port>(&mut self, alloc: Global, port: &mut P, now: u32, bytes: &[u8]) -> Reply
        requires whole { 7 ≤ length bytes.now }
        requires idle { self.old.awaited ≡ None }
        ensures received { IsReceived P.gives now bytes.now self.old port.old result self.new
            port.new }
        ensures fits { ReplyFits self.old.msize result }
        ensures on_wire { IsOnWire result }
        ensures idle { self.new.awaited ≡ None }
    {
        if let Some(rule) = first_rule_before_decoding(self.msize(), bytes) {
            return Reply::Error(rule);
        }
        let message = match decode(alloc, bytes) {
            Ok(message) => message,
            Err(reply) => return reply,
        };
        let asks = match message_in(message.body) {
            Ok(asks) => asks,
            Err(reply) => return reply,
        };
        self.answer(alloc, port, now, asks)
    }

    /// Answers one message, of at least 7 bytes, at the moment `now`. The reply has the message's
    /// tag. It is no longer than the message size that the session had before, or, if there was no
    /// session, than the least one. It is an Rerror if a rule fails, with the text of the first
    /// one, or if memory runs out (error(5)).
    pub fn reply<P: Port>(
        &mut self,
        alloc: Global,
        port: &mut P,
        now: u32,
        bytes: &[u8],
    ) -> RMessage
        requires whole { 7 ≤ length bytes.now }
        requires idle { self.old.awaited ≡ None }
        ensures replied { IsReplied P.gives now bytes.now self.old port.old (r_view result) self.new
            port.new }
        ensures fits { FitsWithin (room_of self.old.msize) (r_view result) }
        ensures idle { self.new.awaited ≡ None }
    {
        let msize = self.msize();
        let reply = self.receive(alloc, port, now, bytes);
        wire_message(msize, tag_in(bytes), reply)
    }
}

/// The message that carries a reply, with that tag. The caller has a reply that fits in the
/// session's message size, which is an argument only for the contract: the message fits in it too.
fn wire_message(msize: Option<u32>, tag: u16, reply: Reply) -> RMessage
    requires agreed { ForSome msize IsAgreed }
    requires fits { ReplyFits msize reply }
    requires on_wire { IsOnWire reply }
    ensures value { r_view result ≡ wire_of tag reply }
    ensures fits { FitsWithin (room_of msize) (r_view result) }
{
    know(msize);
    RMessage {
        tag,
        body: body_of(reply),
    }
}
