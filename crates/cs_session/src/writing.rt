//! Writes (read(5)).
ghost use Rattle.std.specs.Prelude.{◌≡◌, false, IfErr, IsOk};
ghost use Rattle.cs_session.specs.declared.message.CallMessage.TheVariants as call;
ghost use Rattle.cs_session.specs.Calls.{call_decision};
ghost use Rattle.cs_session.specs.Decisions.{Decides, question_of};
ghost use Rattle.cs_session.specs.Sizes.{IsPlain};
ghost use Rattle.cs_session.specs.Reads.{write_reply};

use crate::message::WriteMessage;
use crate::question::{RunQuestion, first_failing_rule, refusal};
use crate::reply::Reply;
use cs_fids::{FidEntry, FidTable};
use cs_permit::{Call, Request, WriteCall};
use cs_run::Answer;

/// What a write asks the run of its fid. An error is the reply that refuses it: the first of the
/// connection's rules that fails, or out of memory, because the call has a copy of the user's name.
/// The call borrows the message's bytes.
pub(crate) fn decide_write<'a>(
    awaits_attach: bool,
    msize: Option<u32>,
    fids: &FidTable,
    now: u32,
    message: WriteMessage<'a>,
) -> Result<RunQuestion<'a>, Reply>
    ensures decided { Decides question_of
        (call_decision now awaits_attach msize fids.now.fids (call.Write message.entry)) result }
    ensures plain { IfErr result IsPlain }
    ensures idle { IsOk result → awaits_attach ≡ false }
{
    let request = Request::Write { fid: message.fid };
    if let Some(rule) = first_failing_rule(awaits_attach, msize, &request, fids) {
        return Err(Reply::Error(rule));
    }
    let Some(FidEntry::Opened(fid)) = fids.entry_of(message.fid) else {
        // the rules refuse a fid that isn't open
        unreachable!()
    };
    let Ok(user) = fid.user().try_clone() else {
        return Err(Reply::Memory);
    };
    let call = Call::Write(WriteCall {
        number: fid.number(),
        user,
        offset: message.offset,
        bytes: message.bytes,
    });
    Ok(RunQuestion::new(now, fid.run(), fid.pass(), call))
}

/// The reply to a write that the run answered: how many bytes were written, or the refusal.
pub(crate) fn write_reply(answer: Answer) -> Reply
    ensures value { result ≡ write_reply answer }
    ensures plain { IsPlain result }
{
    match answer {
        Answer::Written(count) => Reply::Write(count),
        answer => refusal(answer),
    }
}
