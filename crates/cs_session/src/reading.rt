//! Reads (read(5)).
ghost use Rattle.std.specs.Prelude.{◌≡◌, ℕ, ◌≤◌, false, is_some, true, IfErr, IfOk, IsOk};
ghost use Rattle.std.specs.Prelude.{IsSome, OnErr};
ghost use Rattle.std.specs.Prelude.{Option};
ghost use Rattle.cs_run.specs.Laws.{FitsCall, bytes_in};
ghost use Rattle.cs_session.specs.declared.message.CallMessage.TheVariants as call;
ghost use Rattle.cs_session.specs.Calls.{call_decision};
ghost use Rattle.cs_session.specs.Decisions.{Decides, question_of, opened_at};
ghost use Rattle.cs_run.specs.declared.answer.Answer.{Answer};
ghost use Rattle.cs_session.specs.Sizes.{IsPlain, ReplyFits};
ghost use Rattle.cs_session.specs.Reads.{read_count, read_after, read_left};

use crate::message::ReadMessage;
use crate::question::{RunQuestion, first_failing_rule, refusal};
use crate::reply::Reply;
use cs_fids::{FidEntry, FidTable, Place};
use cs_names::Bytes;
use cs_permit::{Call, ReadCall, Request};
use cs_run::Answer;
use std::alloc::AllocError;

/// How many bytes of an Rread aren't its data: a size of 4, a type of 1, a tag of 2 and a count of
/// 4 (read(5)).
pub const READ_OVERHEAD: u32 = 11;

/// How many bytes a read asks of its run: `count`, but no more than fit in an Rread of that message
/// size; 0 if no session has begun.
fn read_count(msize: Option<u32>, count: u32) -> u32
    ensures { result ≡ read_count msize count }
{
    // only the 0 of no session is less than READ_OVERHEAD
    count.min(msize.unwrap_or(0).saturating_sub(READ_OVERHEAD))
}

/// A copy of the place. The error is out of memory, which the copy takes only if the place has a
/// name. cs_fids' `Place::try_clone` does the same, but its contract doesn't say that.
fn try_clone_place(place: &Place) -> Result<Place, AllocError>
    ensures ok { IfOk result (λ copy. copy ≡ place.now) }
    ensures memory { OnErr result (is_some place.now.last ≡ true) }
{
    let last = match &place.last {
        Some(name) => Some(name.try_clone()?),
        None => None,
    };
    Ok(Place {
        end: place.end,
        last,
    })
}

/// What a read asks the run of its fid. An error is the reply that refuses it: the first of the
/// connection's rules that fails, or out of memory, which happens only in a directory, whose place
/// is copied.
pub(crate) fn decide_read(
    awaits_attach: bool,
    msize: Option<u32>,
    fids: &FidTable,
    now: u32,
    message: ReadMessage,
) -> Result<RunQuestion<'static>, Reply>
    ensures decided { Decides question_of
        (call_decision now awaits_attach msize fids.now.fids (call.Read message)) result }
    ensures plain { IfErr result IsPlain }
    ensures fits { IfOk result
        (λ a. (answer : Answer) → FitsCall a.call answer
        → bytes_in answer ≤ read_count msize message.count) }
    ensures idle { IsOk result → awaits_attach ≡ false }
    ensures opened { IsOk result → IsSome (opened_at fids.now.fids message.fid) }
{
    let request = Request::Read { fid: message.fid };
    if let Some(rule) = first_failing_rule(awaits_attach, msize, &request, fids) {
        return Err(Reply::Error(rule));
    }
    let Some(FidEntry::Opened(fid)) = fids.entry_of(message.fid) else {
        // the rules refuse a fid that isn't open
        unreachable!()
    };
    let Ok(place) = try_clone_place(fid.place()) else {
        return Err(Reply::Memory);
    };
    let call = Call::Read(ReadCall {
        number: fid.number(),
        offset: message.offset,
        count: read_count(msize, message.count),
        place,
    });
    Ok(RunQuestion::new(now, fid.run(), fid.pass(), call))
}

/// Keeps `place` as the one at which the next read of a directory by this open fid continues. If
/// `place` is None, the fid keeps the place that it has.
fn keep_next_place(fids: &mut FidTable, fid: u32, place: Option<Place>)
    requires { IsSome (opened_at fids.old.fids fid) }
    ensures { fids.new.fids ≡ read_left fids.old.fids fid (opened_at fids.old.fids fid) place }
{
    if let Some(place) = place {
        // the fid is open
        fids.set_place(fid, place).unwrap();
    }
}

/// The reply to a read that the run answered. If the run read entries of a directory, the fid keeps
/// the place at which its next read continues; else no fid changes. `decide_read` has checked that
/// the fid is open.
pub(crate) fn settle_read(fids: &mut FidTable, fid: u32, answer: Answer) -> Reply
    requires { IsSome (opened_at fids.old.fids fid) }
    ensures value { (result, fids.new.fids) ≡ read_after fids.old.fids fid answer }
    ensures fits { (msize : Option ℕ) (count : ℕ) → bytes_in answer ≤ read_count msize count
        → ReplyFits msize result }
{
    match answer {
        Answer::Data(data) => {
            let (bytes, place) = data.into_parts();
            keep_next_place(fids, fid, place);
            Reply::Read(Bytes::new(bytes))
        }
        answer => refusal(answer),
    }
}
