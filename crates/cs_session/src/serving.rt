//! A connection over a stream: its messages are answered until the stream ends.
ghost use Rattle.std.specs.Prelude.{◌≡◌, ◌≢◌, ◌+◌, ◌*◌, ◌<◌, ◌≤◌, [], length, vec_len};
ghost use Rattle.std.specs.Prelude.{vec_capacity, IfOk, OnOk, None, Ok, Err};
ghost use Rattle.cs_names.specs.declared.limits.TheConstants.{MESSAGE_BYTES};
ghost use Rattle.cs_wire.specs.Held.{pending_bytes, size_of};
ghost use Rattle.cs_session.specs.Serving.{Adds, AnswersFront, Handles, Converses, Conversation};
ghost use Rattle.cs_session.specs.Serving.{FaultsHaveCauses, StopsFor};
ghost use Rattle.cs_stream.specs.Streams.{KeepsReads, KeepsFaults, BlamesReads, BlamesWrites};
ghost use Rattle.cs_stream.specs.Streams.{GaveUpInTime, saturating_sum};

use crate::clock::Clock;
use crate::port::Port;
use crate::session::Session;
use cs_names::limits::{CONNECTION_READS, INTERRUPTIONS, MESSAGE_BYTES};
use cs_stream::{Stream, Transfer, write_all};
use cs_wire::{FrameFault, Framer, encode_reply};
use std::alloc::{AllocError, Global};
use std::fmt;

/// Why a stream was not served to its end.
#[derive(Clone, Copy, Debug, PartialEq, Eq)]
pub enum ServeFault {
    /// A read failed, 1,000 (INTERRUPTIONS) in a row were interrupted, or 4,294,967,295
    /// (CONNECTION_READS) were made.
    ReadFault,
    /// A write failed, took no byte, or 1,000 (INTERRUPTIONS) in a row were interrupted.
    WriteFault,
    /// What comes next is no message, or the stream ends inside one (Cut).
    FrameFault(FrameFault),
    /// There was no memory for the buffers: nothing was read.
    Memory,
}

impl fmt::Display for ServeFault {
    /// Writes the fault as a short text, without a line feed; of a FrameFault its own.
    fn fmt<W: fmt::Write>(&self, f: &mut fmt::Formatter<W>) -> fmt::Result {
        match self {
            ServeFault::ReadFault => write!(f, "the stream cannot be read"),
            ServeFault::WriteFault => write!(f, "the stream cannot be written"),
            ServeFault::FrameFault(fault) => write!(f, "{fault}"),
            ServeFault::Memory => write!(f, "out of memory"),
        }
    }
}

/// Why `answer_some` answered no more messages.
#[derive(Clone, Copy, Debug, PartialEq, Eq)]
pub(crate) enum StopReason {
    /// There may be more messages, but the replies fill their room.
    More,
    /// No whole message is left.
    Done,
    /// What comes next is no message.
    Stopped(FrameFault),
}

/// The buffers of a connection: one that holds the longest message, and one for the replies, which
/// holds two of the longest: while at most half of it is used, another reply has room. They never
/// grow. The error is out of memory.
fn make_buffers(alloc: Global) -> Result<(Framer, Vec<u8>), AllocError>
    ensures left { IfOk result (λ x. pending_bytes x.0 ≡ []) }
    ensures size { IfOk result (λ x. MESSAGE_BYTES ≤ size_of x.0) }
    ensures room { IfOk result (λ x. 2 * MESSAGE_BYTES ≤ vec_capacity x.1) }
{
    let mut framer = Framer::new(alloc);
    framer.reserve(MESSAGE_BYTES as usize)?;
    let replies = Vec::with_capacity(alloc, 2 * MESSAGE_BYTES as usize)?;
    Ok((framer, replies))
}

/// Answers a message, of at least 7 bytes, at the moment `now`, and appends the reply to `replies`,
/// which has room for it. No run awaits its attach, before and afterwards.
fn answer_one<P: Port>(
    alloc: Global,
    session: &mut Session,
    replies: &mut Vec<u8>,
    port: &mut P,
    now: u32,
    message: &[u8],
)
    requires whole { 7 ≤ length message.now }
    requires room { vec_len replies.old + MESSAGE_BYTES ≤ vec_capacity replies.old }
    requires idle { session.old.awaited ≡ None }
    ensures answered { Adds P.gives now message.now session.old port.old replies.old.items
        replies.new.items session.new port.new }
    ensures room { vec_capacity replies.old ≤ vec_capacity replies.new }
    ensures idle { session.new.awaited ≡ None }
{
    let reply = session.reply(alloc, port, now, message);
    // the replies have room for it
    encode_reply(&reply, replies).unwrap();
}

/// Answers the whole messages that came and appends the replies, until no whole message is left,
/// what comes next is no message, or `replies` may have no room for another reply. Returns why it
/// stopped. Neither a message nor a reply is copied. The caller has emptied `replies`, which has
/// room for two of the longest messages.
fn answer_some<P: Port, C: Clock>(
    alloc: Global,
    framer: &mut Framer,
    session: &mut Session,
    replies: &mut Vec<u8>,
    port: &mut P,
    clock: &mut C,
) -> StopReason
    requires empty { replies.old.items ≡ [] }
    requires room { 2 * MESSAGE_BYTES ≤ vec_capacity replies.old }
    requires idle { session.old.awaited ≡ None }
    ensures served { AnswersFront P.gives session.old port.old (pending_bytes framer.old)
        (pending_bytes framer.new)
        replies.new.items session.new port.new }
    ensures stops { StopsFor result (pending_bytes framer.old) (pending_bytes framer.new) }
    ensures size { size_of framer.new ≡ size_of framer.old }
    ensures room { 2 * MESSAGE_BYTES ≤ vec_capacity replies.new }
    ensures idle { session.new.awaited ≡ None }
{
    while replies.len() <= MESSAGE_BYTES as usize {
        match framer.next() {
            Err(fault) => return StopReason::Stopped(fault),
            Ok(None) => return StopReason::Done,
            Ok(Some(message)) => {
                answer_one(alloc, session, replies, port, clock.now(), message);
            }
        }
    }
    StopReason::More
}

/// Answers every whole message that came, and writes the replies, as many at once as the buffer
/// holds. If what comes next isn't a message, the error is FrameFault, once the replies to the
/// messages before it are written. After WriteFault some replies are lost, and some messages that
/// came may be unanswered. The caller has made `replies` by `make_buffers`.
fn answer_all<S: Stream, P: Port, C: Clock>(
    alloc: Global,
    framer: &mut Framer,
    session: &mut Session,
    replies: &mut Vec<u8>,
    stream: &mut S,
    port: &mut P,
    clock: &mut C,
) -> Result<(), ServeFault>
    requires room { 2 * MESSAGE_BYTES ≤ vec_capacity replies.old }
    requires idle { session.old.awaited ≡ None }
    ensures handled { Handles P.gives result session.old port.old (pending_bytes framer.old)
        (pending_bytes framer.new) (S.contents stream.old) (S.contents stream.new) session.new
        port.new }
    ensures blamed { result ≡ Err ServeFault.WriteFault
        → BlamesWrites (S.counts stream.old) (S.counts stream.new) }
    ensures in_time { GaveUpInTime (S.counts stream.old).interrupted_writes
        (S.counts stream.new).interrupted_writes }
    ensures no_row { OnOk result
        ((S.counts stream.new).interrupted_writes ≤ (S.counts stream.old).interrupted_writes) }
    ensures faults { KeepsFaults (S.counts stream.old) (S.counts stream.new) }
    ensures reads { KeepsReads (S.counts stream.old) (S.counts stream.new) }
    ensures remaining { S.remaining stream.new ≡ S.remaining stream.old }
    ensures size { size_of framer.new ≡ size_of framer.old }
    ensures room { 2 * MESSAGE_BYTES ≤ vec_capacity replies.new }
    ensures idle { session.new.awaited ≡ None }
{
    loop {
        replies.clear();
        let progress = answer_some(alloc, framer, session, replies, port, clock);
        match write_all(stream, replies) {
            Err(_) => return Err(ServeFault::WriteFault),
            Ok(()) => {}
        }
        match progress {
            StopReason::More => continue,
            StopReason::Done => return Ok(()),
            StopReason::Stopped(fault) => return Err(ServeFault::FrameFault(fault)),
        }
    }
}

/// Reads messages from the stream and answers them, until the stream ends: `Ok` if it ends between
/// two messages. An error says why the connection ends. Every whole message that came before the
/// error is answered, and its reply written, except after WriteFault, when some replies are lost.
/// The caller has made both buffers by `make_buffers`, and a new session.
fn converse<S: Stream, P: Port, C: Clock>(
    alloc: Global,
    framer: &mut Framer,
    session: &mut Session,
    replies: &mut Vec<u8>,
    stream: &mut S,
    port: &mut P,
    clock: &mut C,
) -> Result<(), ServeFault>
    requires left { pending_bytes framer.old ≡ [] }
    requires size { MESSAGE_BYTES ≤ size_of framer.old }
    requires room { 2 * MESSAGE_BYTES ≤ vec_capacity replies.old }
    requires idle { session.old.awaited ≡ None }
    ensures conversed { Converses P.gives result session.old port.old (S.remaining stream.old)
        (S.remaining stream.new) (S.contents stream.old) (S.contents stream.new) session.new
        port.new }
    ensures read_fault { result ≡ Err ServeFault.ReadFault
        → BlamesReads (S.counts stream.old) (S.counts stream.new) }
    ensures write_fault { result ≡ Err ServeFault.WriteFault
        → BlamesWrites (S.counts stream.old) (S.counts stream.new) }
    ensures ended { result ≡ Ok tt
        → (S.counts stream.new).ends ≡ saturating_sum 1 (S.counts stream.old).ends }
    ensures cut { result ≡ Err (ServeFault.FrameFault FrameFault.Cut)
        → (S.counts stream.new).ends ≡ saturating_sum 1 (S.counts stream.old).ends }
    ensures no_end { result ≡ Err ServeFault.ReadFault
        → (S.counts stream.new).ends ≡ (S.counts stream.old).ends }
    ensures bounded { (S.counts stream.new).reads
        ≤ saturating_sum CONNECTION_READS (S.counts stream.old).reads }
    ensures reads_in_time { GaveUpInTime (S.counts stream.old).interrupted_reads
        (S.counts stream.new).interrupted_reads }
    ensures writes_in_time { GaveUpInTime (S.counts stream.old).interrupted_writes
        (S.counts stream.new).interrupted_writes }
    ensures memory { result ≢ Err ServeFault.Memory }
    ensures idle { session.new.awaited ≡ None }
{
    // reads in a row that were interrupted
    let mut waits = 0;
    for _ in 0..CONNECTION_READS {
        framer.make_room();
        match stream.read(framer.room()) {
            Transfer::Failed => return Err(ServeFault::ReadFault),
            Transfer::Interrupted => {
                waits += 1;
                if waits >= INTERRUPTIONS {
                    return Err(ServeFault::ReadFault);
                }
                continue;
            }
            Transfer::Bytes(0) => {
                return match framer.end() {
                    Ok(()) => Ok(()),
                    Err(fault) => Err(ServeFault::FrameFault(fault)),
                };
            }
            Transfer::Bytes(count) => {
                waits = 0;
                framer.advance(count);
                answer_all(alloc, framer, session, replies, stream, port, clock)?;
            }
        }
    }
    // all reads that a connection has were made
    Err(ServeFault::ReadFault)
}

/// Serves a stream to its end: answers each whole message at its moment, and writes the replies in
/// order. Then it hangs up, also after an error. Each whole message that came before an error is
/// answered, and its reply written; but after WriteFault some replies are lost.
///
/// It returns `Ok` if the stream ended between two messages. An interrupted read or write is tried
/// again, up to 999 in a row: the thousandth in a row is a fault. A connection makes at most
/// 4,294,967,295 reads, counting the interrupted ones. Memory for its buffers is taken once, before
/// the first read; if memory for a message runs out, the reply is an Rerror.
pub fn serve_stream<S: Stream, P: Port, C: Clock>(
    alloc: Global,
    stream: &mut S,
    port: &mut P,
    clock: &mut C,
) -> Result<(), ServeFault>
    ensures serves { Conversation P.gives result port.old (S.remaining stream.old)
        (S.remaining stream.new) (S.contents stream.old) (S.contents stream.new) port.new }
    ensures faults { FaultsHaveCauses result (S.counts stream.old) (S.counts stream.new) }
{
    let mut session = Session::new(alloc);
    let result = match make_buffers(alloc) {
        Ok((mut framer, mut replies)) => converse(
            alloc,
            &mut framer,
            &mut session,
            &mut replies,
            stream,
            port,
            clock,
        ),
        Err(_) => Err(ServeFault::Memory),
    };
    session.hang_up(alloc, port, clock.now());
    result
}
