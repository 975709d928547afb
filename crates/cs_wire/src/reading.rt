//! Messages from bytes: the header here, the fields in `requests` and `replies`.

ghost use Rattle.std.specs.Prelude.{◌≡◌, ◌++◌, ℕ, List, IfOk, IsOk, IsErrOf, Ok};
ghost use Rattle.cs_wire.specs.declared.fault.WireFault.TheVariants.{Memory};
ghost use Rattle.cs_wire.specs.Messages.{requests, replies, t_view, r_view, Message, IsMessage};
ghost use Rattle.cs_wire.specs.Messages.{spelling};
ghost use Rattle.cs_wire.specs.Reading.{header_at, message_of};
ghost use Rattle.cs_wire.specs.Answers.{IsSeenAsOrMemory, IsSeenAs, Gives, IsReadBack, TakesMemory};

use crate::cursor::Cursor;
use crate::fault::WireFault;
use crate::framer::HEADER_BYTES;
use crate::kind::{RKind, TKind};
use crate::message::{RMessage, TMessage};
use crate::replies::read_reply_fields;
use crate::requests::read_request_fields;
use std::alloc::Global;

/// Reads the first seven bytes of a message, and returns the type's number, the tag and the bytes
/// of the fields. The fault is Short if there are fewer than 7 bytes, and SizeLies if the size
/// isn't the number of all bytes.
#[tactic(auto, unfolding(crate::specs::Reading::header_at))]
fn read_header(bytes: &[u8]) -> Result<(u8, u16, Cursor), WireFault>
    ensures { IsSeenAs (λ x. (x.0, x.1, x.2.rest.now)) result (header_at bytes.now) }
{
    if bytes.len() < HEADER_BYTES {
        return Err(WireFault::Short);
    }
    let mut cursor = Cursor { rest: bytes };
    let size = cursor.read_u32()?;
    let number = cursor.read_u8()?;
    let tag = cursor.read_u16()?;
    if size as usize != bytes.len() {
        return Err(WireFault::SizeLies);
    }
    Ok((number, tag, cursor))
}

/// Reads a request, as `decode_request` does. The contract has the reading step by step; that of
/// `decode_request`, which follows from it, has what callers need.
#[tactic(auto, unfolding(crate::specs::Reading::message_of))]
fn read_request(alloc: Global, bytes: &[u8]) -> Result<TMessage<'_>, WireFault>
    ensures { IsSeenAsOrMemory t_view result (message_of requests bytes.now) }
{
    let (number, tag, fields) = read_header(bytes)?;
    let kind = TKind::of_number(number).ok_or(WireFault::UnknownType)?;
    read_request_fields(alloc, kind, tag, fields)
}

/// Reads a reply, as `decode_reply` does. The contract has the reading step by step; that of
/// `decode_reply`, which follows from it, has what callers need.
#[tactic(auto, unfolding(crate::specs::Reading::message_of))]
fn read_reply(alloc: Global, bytes: &[u8]) -> Result<RMessage, WireFault>
    ensures { IsSeenAsOrMemory r_view result (message_of replies bytes.now) }
{
    let (number, tag, fields) = read_header(bytes)?;
    let kind = RKind::of_number(number).ok_or(WireFault::UnknownType)?;
    read_reply_fields(alloc, kind, tag, fields)
}

/// The client's message that the bytes spell, all of the bytes (intro(5)).
///
/// Else the first fault, in this order: fewer than 7 bytes (Short), a size that isn't their number
/// (SizeLies), a type that isn't in the table (UnknownType), then the fields one after the other,
/// then bytes that are left (Trailing). Memory comes last, and only if the bytes are a message with
/// a text or a list that isn't empty: an empty one needs no allocation, and the data of a write is
/// lent, not copied. How long a message may be isn't checked here.
pub fn decode_request(alloc: Global, bytes: &[u8]) -> Result<TMessage<'_>, WireFault>
    // The bytes are the spelling of the message that is returned.
    ensures found { IfOk result (λ m. IsMessage (t_view m) × (bytes.now ≡ spelling (t_view m))) }
    // The spelling of any message is read as that message, unless memory runs out.
    ensures only { (m : Message requests) → IsMessage m → bytes.now ≡ spelling m
        → Gives t_view result (Ok m) }
    // The fault is the first one of reading from the left.
    ensures exact { Gives t_view result (message_of requests bytes.now) }
    // Out of memory comes last.
    ensures memory { IsErrOf result Memory → IsOk (message_of requests bytes.now) }
    // Only what is copied takes memory.
    ensures grows { IsErrOf result Memory → TakesMemory requests bytes.now }
{
    read_request(alloc, bytes)
}

/// The reply that the bytes spell, all of the bytes (intro(5)), or the first fault, in the order of
/// `decode_request`. Texts, lists and the data of an Rread are copied.
pub fn decode_reply(alloc: Global, bytes: &[u8]) -> Result<RMessage, WireFault>
    // The bytes are the spelling of the message that is returned.
    ensures found { IfOk result (λ m. IsMessage (r_view m) × (bytes.now ≡ spelling (r_view m))) }
    // The spelling of any message is read as that message, unless memory runs out.
    ensures only { (m : Message replies) → IsMessage m → bytes.now ≡ spelling m
        → Gives r_view result (Ok m) }
    // The fault is the first one of reading from the left.
    ensures exact { Gives r_view result (message_of replies bytes.now) }
    // Out of memory comes last.
    ensures memory { IsErrOf result Memory → IsOk (message_of replies bytes.now) }
    // Only what is copied takes memory.
    ensures grows { IsErrOf result Memory → TakesMemory replies bytes.now }
{
    read_reply(alloc, bytes)
}

/// A law, so a call does nothing. Different messages have different spellings, and no spelling is
/// the beginning of another: bytes that begin with the spelling of a message begin with that of no
/// other.
pub fn one_spelling()
    ensures requests { (a b : Message requests) (x y : List ℕ) → IsMessage a → IsMessage b
        → spelling a ++ x ≡ spelling b ++ y → (a ≡ b) × (x ≡ y) }
    ensures replies { (a b : Message replies) (x y : List ℕ) → IsMessage a → IsMessage b
        → spelling a ++ x ≡ spelling b ++ y → (a ≡ b) × (x ≡ y) }
{}

/// A law, so a call does nothing. Unless memory runs out, `decode_request` reads what
/// `encode_request` appends to an empty `Vec` as the same message, and so does `decode_reply` with
/// what `encode_reply` appends.
pub fn what_is_written_is_read()
    ensures requests { IsReadBack requests t_view }
    ensures replies { IsReadBack replies r_view }
{}
