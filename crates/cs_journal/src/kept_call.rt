//! The forms in which an entry or a receipt keeps a call, and how the call is made from them again.
ghost use Rattle.std.specs.Prelude.{◌≡◌, ◌+◌, ◌≤◌, ℕ, IfOk, List, true, vec_len};
ghost use Rattle.cs_journal.specs.Kept.{LiesIn, again_call, call_of, close_call, read_call};
ghost use Rattle.cs_journal.specs.Kept.{remove_call, write_call};
ghost use Rattle.cs_journal.specs.Small.{is_small, is_listing_start};
ghost use Rattle.cs_permit.specs.declared.call.Call.TheVariants.{Remove};

use crate::summary::{CallSummary, summary_of};
use crate::user_text::UserText;
use crate::written::{Piece, Written};
use cs_fids::Place;
use cs_names::UserName;
use cs_permit::{Call, CloseCall, ReadCall, RemoveCall, SentBytes, StatCall, WriteCall};
use std::alloc::{AllocError, Global};
use std::sync::Arc;

/// What is kept of a write in addition to its bytes.
#[derive(Drop)]
pub(crate) struct WriteHead {
    /// The file's number.
    pub(crate) number: u64,
    /// In bytes, as the call has it.
    pub(crate) offset: u64,
    /// For whom it was written.
    pub(crate) user: UserText,
}

/// A call as an entry or a receipt keeps it. A call that needs memory is shared by both; the bytes
/// of a write are stored with those of others. A close and a remove use memory that was allocated
/// before, so that their entries can be reserved; a stat and a read of a file are small.
// a variant's short fields come first, next to its tag
#[derive(Drop)]
pub(crate) enum KeptCall {
    /// Any call without a form below, shared by entry and receipt.
    Shared(Arc<Call<'static>>),
    /// A write: the place of its bytes, and its other fields.
    Write {
        piece: Piece,
        head: Arc<WriteHead>,
    },
    /// A close, with the number of the open that it ends.
    Close {
        open_number: u32,
        user: Box<UserText>,
    },
    /// A remove by a fid that isn't open.
    Remove {
        number: u64,
        user: Box<UserText>,
    },
    /// A remove that ends an open.
    RemoveOpen {
        open_number: u32,
        number: u64,
        user: Box<UserText>,
    },
    /// A read whose place is the start, as every read of a file.
    Read {
        count: u32,
        number: u64,
        offset: u64,
    },
    /// A stat of the file of that number.
    Stat(u64),
}

/// A call that is done again: made from what an entry keeps, or borrowed from the entry.
#[derive(Drop)]
pub(crate) enum CallAgain<'a> {
    /// Made from what the entry keeps.
    Own(Call<'a>),
    /// Borrowed from the entry, which has the whole call.
    Shared(&'a Call<'static>),
}

impl KeptCall {
    ghost use Rattle.cs_journal.specs.Kept.{LiesIn, again_call, call_of};
    ghost use Rattle.cs_journal.specs.Summaries.{call_in, without_bytes};

    /// What an entry or a receipt keeps of a call that the caller has found small (`is_small`). A
    /// close or a remove takes the last of the blank texts, for the name of its user; other calls
    /// take none. `blanks` has at least one.
    pub(crate) fn of_small(call: &Call<'_>, blanks: &mut Vec<Box<UserText>>) -> KeptCall
        requires small { is_small call.now ≡ true }
        requires blank { 1 ≤ vec_len blanks.old }
        ensures value { (blocks : List (List ℕ)) → call_of blocks result ≡ call.now }
        ensures lies { (blocks : List (List ℕ)) → LiesIn blocks result }
        ensures left { vec_len blanks.old ≤ vec_len blanks.new + 1 }
    {
        match call {
            Call::Close(call) => KeptCall::Close {
                open_number: call.open_number,
                user: user_text_of(blanks, &call.user),
            },
            Call::Remove(call) => kept_remove(call, user_text_of(blanks, &call.user)),
            Call::Read(call) => KeptCall::Read {
                count: call.count,
                number: call.number,
                offset: call.offset,
            },
            Call::Stat(call) => KeptCall::Stat(call.number),
            // the call is small: a requires says so
            Call::Attach(_)
            | Call::Walk(_)
            | Call::Open(_)
            | Call::Create(_)
            | Call::Write(_)
            | Call::Wstat(_) => unreachable!(),
        }
    }

    /// The call, to be done again. A write's bytes are borrowed from `written`, a shared call from
    /// `self`. An error means that memory ran out. `written` is that of the journal that keeps the
    /// call.
    pub(crate) fn again<'a>(
        &'a self,
        alloc: Global,
        written: &'a Written,
    ) -> Result<CallAgain<'a>, AllocError>
        requires { LiesIn written.now self.now }
        ensures { IfOk result (λ again. again_call again ≡ call_of written.now self.now) }
    {
        match self {
            KeptCall::Shared(call) => Ok(CallAgain::Shared(call)),
            KeptCall::Write { piece, head } => write_again(alloc, head, written.bytes_of(*piece)),
            KeptCall::Close { open_number, user } => close_again(alloc, *open_number, user),
            KeptCall::Remove { number, user } => remove_again(alloc, *number, user, None),
            KeptCall::RemoveOpen {
                open_number,
                number,
                user,
            } => remove_again(alloc, *number, user, Some(*open_number)),
            KeptCall::Read {
                count,
                number,
                offset,
            } => Ok(CallAgain::Own(read_again(*number, *offset, *count))),
            KeptCall::Stat(number) => Ok(CallAgain::Own(Call::Stat(StatCall { number: *number }))),
        }
    }

    /// The kept call without the bytes that it writes. `summary_of` does the same for a whole call.
    pub(crate) fn summary(&self) -> CallSummary<'_>
        ensures { (blocks : List (List ℕ)) → call_in result
            ≡ without_bytes (call_of blocks self.now) }
    {
        match self {
            KeptCall::Shared(call) => summary_of(call),
            KeptCall::Write { head, .. } => {
                CallSummary::Write(head.number, head.user.as_bytes(), head.offset)
            }
            KeptCall::Close { open_number, user } => CallSummary::Close(
                *open_number,
                user.as_bytes(),
            ),
            KeptCall::Remove { number, user } => CallSummary::Remove(
                *number,
                user.as_bytes(),
                None,
            ),
            KeptCall::RemoveOpen {
                open_number,
                number,
                user,
            } => CallSummary::Remove(*number, user.as_bytes(), Some(*open_number)),
            KeptCall::Read {
                count,
                number,
                offset,
            } => CallSummary::Read(*number, *offset, *count, 0, None),
            KeptCall::Stat(number) => CallSummary::Stat(*number),
        }
    }
}

/// Takes the last of the blank texts, of which the caller has at least one, and returns it with the
/// user's name in it.
fn user_text_of(blanks: &mut Vec<Box<UserText>>, user: &UserName) -> Box<UserText>
    requires { 1 ≤ vec_len blanks.old }
    ensures value { result.value ≡ user.now }
    ensures left { vec_len blanks.new + 1 ≡ vec_len blanks.old }
{
    match blanks.pop() {
        Some(mut text) => {
            *text = UserText::of(user);
            text
        }
        // there is a blank text: a requires says so
        None => unreachable!(),
    }
}

/// The close that was kept as this open's number and this user. The error is out of memory.
fn close_again(
    alloc: Global,
    open_number: u32,
    user: &UserText,
) -> Result<CallAgain<'static>, AllocError>
    ensures { IfOk result (λ again. again_call again ≡ close_call open_number user.now) }
{
    let user = user.name(alloc)?;
    Ok(CallAgain::Own(Call::Close(CloseCall { open_number, user })))
}

/// The remove that was kept as this file's number, this user, and the number of the open that it
/// ends (None if its fid isn't open). The error is out of memory.
fn remove_again(
    alloc: Global,
    number: u64,
    user: &UserText,
    open_number: Option<u32>,
) -> Result<CallAgain<'static>, AllocError>
    ensures { IfOk result (λ again. again_call again ≡ remove_call number user.now open_number) }
{
    let user = user.name(alloc)?;
    Ok(CallAgain::Own(Call::Remove(RemoveCall {
        number,
        user,
        open_number,
    })))
}

/// The write that was kept as this head and these bytes. The error is out of memory.
fn write_again<'a>(
    alloc: Global,
    head: &WriteHead,
    bytes: &'a [u8],
) -> Result<CallAgain<'a>, AllocError>
    ensures { IfOk result (λ again. again_call again ≡ write_call head.now bytes.now) }
{
    Ok(CallAgain::Own(Call::Write(WriteCall {
        number: head.number,
        user: head.user.name(alloc)?,
        offset: head.offset,
        bytes: SentBytes::borrow_from(bytes),
    })))
}

/// The read that was kept as these numbers; its place in a directory is the start.
fn read_again(number: u64, offset: u64, count: u32) -> Call<'static>
    ensures { result ≡ read_call number offset count }
{
    Call::Read(ReadCall {
        number,
        offset,
        count,
        place: Place::start(),
    })
}

/// What is kept of a remove. `user` must be a text with the name of its user.
fn kept_remove(call: &RemoveCall, user: Box<UserText>) -> KeptCall
    requires { user.value ≡ call.now.user }
    ensures value { (blocks : List (List ℕ)) → call_of blocks result ≡ Remove call.now }
    ensures lies { (blocks : List (List ℕ)) → LiesIn blocks result }
{
    match call.open_number {
        Some(open_number) => KeptCall::RemoveOpen {
            open_number,
            number: call.number,
            user,
        },
        None => KeptCall::Remove {
            number: call.number,
            user,
        },
    }
}

/// Whether the place is the start of a directory, from which a read begins with the first entry.
/// Every fid on a file has this place, too.
fn is_listing_start(place: &Place) -> bool
    ensures { result ≡ is_listing_start place.now }
{
    place.end == 0 && place.last.is_none()
}

/// Whether an entry can keep the call in memory that was allocated before: a close, a remove, a
/// stat, or a read whose place is the start, as that of every read of a file is.
/// `KeptCall::of_small` has the same kinds: change both.
pub(crate) fn is_small(call: &Call<'_>) -> bool
    ensures { result ≡ is_small call.now }
{
    match call {
        Call::Close(_) | Call::Remove(_) | Call::Stat(_) => true,
        Call::Read(call) => is_listing_start(&call.place),
        Call::Attach(_)
        | Call::Walk(_)
        | Call::Open(_)
        | Call::Create(_)
        | Call::Write(_)
        | Call::Wstat(_) => false,
    }
}
