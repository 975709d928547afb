//! Opens and creates (open(5)).
ghost use Rattle.std.specs.Prelude.{◌≡◌, false, IfErr, IsOk, IsSome};
ghost use Rattle.cs_session.specs.declared.message.CallMessage.TheVariants as call;
ghost use Rattle.cs_session.specs.Calls.{call_decision};
ghost use Rattle.cs_session.specs.Decisions.{Decides, question_of, walked_at};
ghost use Rattle.cs_session.specs.Sizes.{IsPlain};
ghost use Rattle.cs_session.specs.Opens.{create_after, open_after, open_left};

use crate::message::{CreateMessage, OpenMessage};
use crate::question::{RunQuestion, first_failing_rule, refusal};
use crate::reply::Reply;
use cs_fids::{FidEntry, FidTable};
use cs_names::Name;
use cs_permit::{Call, CreateCall, OpenCall, Request};
use cs_run::Answer;

/// What an open asks the run of its fid. An error is the reply that refuses it: the first of the
/// connection's rules that fails, or out of memory. `decide_create` is its twin.
pub(crate) fn decide_open(
    awaits_attach: bool,
    msize: Option<u32>,
    fids: &FidTable,
    now: u32,
    message: OpenMessage,
) -> Result<RunQuestion<'static>, Reply>
    ensures decided { Decides question_of
        (call_decision now awaits_attach msize fids.now.fids (call.Open message)) result }
    ensures plain { IfErr result IsPlain }
    ensures idle { IsOk result → awaits_attach ≡ false }
    ensures walked { IsOk result → IsSome (walked_at fids.now.fids message.fid) }
{
    let request = Request::Open {
        fid: message.fid,
        mode: message.mode,
    };
    if let Some(rule) = first_failing_rule(awaits_attach, msize, &request, fids) {
        return Err(Reply::Error(rule));
    }
    let Some(FidEntry::Walked(fid)) = fids.entry_of(message.fid) else {
        // the rules refuse a fid that is open or isn't there
        unreachable!()
    };
    let Ok(user) = fid.user().try_clone() else {
        return Err(Reply::Memory);
    };
    let call = Call::Open(OpenCall {
        number: fid.number(),
        user,
        mode: message.mode,
    });
    Ok(RunQuestion::new(now, fid.run(), fid.pass(), call))
}

/// What a create asks the run of its directory's fid. An error is the reply that refuses it: the
/// first of the connection's rules that fails, or out of memory. A name that isn't legal fails a
/// rule.
pub(crate) fn decide_create(
    awaits_attach: bool,
    msize: Option<u32>,
    fids: &FidTable,
    now: u32,
    message: CreateMessage,
) -> Result<RunQuestion<'static>, Reply>
    ensures decided { Decides question_of
        (call_decision now awaits_attach msize fids.now.fids (call.Create message)) result }
    ensures plain { IfErr result IsPlain }
    ensures idle { IsOk result → awaits_attach ≡ false }
    ensures walked { IsOk result → IsSome (walked_at fids.now.fids message.fid) }
{
    let request = Request::Create {
        fid: message.fid,
        name: message.name.as_str(),
        perm: message.perm,
        mode: message.mode,
    };
    if let Some(rule) = first_failing_rule(awaits_attach, msize, &request, fids) {
        return Err(Reply::Error(rule));
    }
    let Ok(name) = Name::from_text(message.name.into_string()) else {
        // the rules refuse an illegal name
        unreachable!()
    };
    let Some(FidEntry::Walked(fid)) = fids.entry_of(message.fid) else {
        // the rules refuse a fid that is open or isn't there
        unreachable!()
    };
    let Ok(user) = fid.user().try_clone() else {
        return Err(Reply::Memory);
    };
    let call = Call::Create(CreateCall {
        number: fid.number(),
        user,
        name,
        perm: message.perm,
        mode: message.mode,
    });
    Ok(RunQuestion::new(now, fid.run(), fid.pass(), call))
}

/// Moves a fid that isn't open to the file of that number, and opens it in that mode. The run knows
/// the open by `open_number`. It takes no memory. A create uses it too. `decide_open` or
/// `decide_create` has checked that the fid is there and isn't open.
fn open_fid(fids: &mut FidTable, fid: u32, mode: u8, open_number: u32, number: u64)
    requires { IsSome (walked_at fids.old.fids fid) }
    ensures { fids.new.fids
        ≡ open_left fids.old.fids fid (walked_at fids.old.fids fid) mode open_number number }
{
    // the fid is there, and isn't open
    fids.move_to(fid, number).unwrap();
    fids.open(fid, mode, open_number).unwrap();
}

/// The reply to an open that the run answered. If the run grants it, the fid is open afterwards;
/// else no fid changes. `decide_open` has checked that the fid is there and isn't open.
pub(crate) fn settle_open(fids: &mut FidTable, fid: u32, mode: u8, answer: Answer) -> Reply
    requires { IsSome (walked_at fids.old.fids fid) }
    ensures value { (result, fids.new.fids) ≡ open_after fids.old.fids fid mode answer }
    ensures plain { IsPlain result }
{
    match answer {
        Answer::Opened {
            qid,
            open_number,
            number,
        } => {
            open_fid(fids, fid, mode, open_number, number);
            Reply::Open(qid)
        }
        answer => refusal(answer),
    }
}

/// The reply to a create that the run answered. If the run grants it, the fid is that of the new
/// file, and open; else no fid changes. `decide_create` has checked that the fid is there and isn't
/// open.
pub(crate) fn settle_create(fids: &mut FidTable, fid: u32, mode: u8, answer: Answer) -> Reply
    requires { IsSome (walked_at fids.old.fids fid) }
    ensures value { (result, fids.new.fids) ≡ create_after fids.old.fids fid mode answer }
    ensures plain { IsPlain result }
{
    match answer {
        Answer::Opened {
            qid,
            open_number,
            number,
        } => {
            open_fid(fids, fid, mode, open_number, number);
            Reply::Create(qid)
        }
        answer => refusal(answer),
    }
}
