//! Stats and wstats (stat(5)).
ghost use Rattle.std.specs.Prelude.{◌≡◌, false, IfErr, IsOk};
ghost use Rattle.cs_session.specs.declared.message.CallMessage.TheVariants as call;
ghost use Rattle.cs_session.specs.Calls.{call_decision};
ghost use Rattle.cs_session.specs.Decisions.{Decides, question_of};
ghost use Rattle.cs_session.specs.Sizes.{IsPlain};
ghost use Rattle.cs_session.specs.Stats.{stat_reply, wstat_reply};

use crate::message::WstatMessage;
use crate::question::{RunQuestion, first_failing_rule, refusal};
use crate::reply::Reply;
use cs_fids::FidTable;
use cs_permit::{Call, Request, StatCall, WstatCall};
use cs_run::Answer;

/// What a stat asks the run of its fid. An error is the reply that refuses it: the first of the
/// connection's rules that fails. It takes no memory.
pub(crate) fn decide_stat(
    awaits_attach: bool,
    msize: Option<u32>,
    fids: &FidTable,
    now: u32,
    fid: u32,
) -> Result<RunQuestion<'static>, Reply>
    ensures decided { Decides question_of
        (call_decision now awaits_attach msize fids.now.fids (call.Stat fid)) result }
    ensures plain { IfErr result IsPlain }
    ensures idle { IsOk result → awaits_attach ≡ false }
{
    if let Some(rule) = first_failing_rule(awaits_attach, msize, &Request::Stat { fid }, fids) {
        return Err(Reply::Error(rule));
    }
    let Some(entry) = fids.entry_of(fid) else {
        // the rules refuse a fid that isn't there
        unreachable!()
    };
    let call = Call::Stat(StatCall {
        number: entry.number(),
    });
    Ok(RunQuestion::new(now, entry.run(), entry.pass(), call))
}

/// What a wstat asks the run of its fid. An error is the reply that refuses it: the first of the
/// connection's rules that fails, or out of memory.
pub(crate) fn decide_wstat(
    awaits_attach: bool,
    msize: Option<u32>,
    fids: &FidTable,
    now: u32,
    message: WstatMessage,
) -> Result<RunQuestion<'static>, Reply>
    ensures decided { Decides question_of
        (call_decision now awaits_attach msize fids.now.fids (call.Wstat message)) result }
    ensures plain { IfErr result IsPlain }
    ensures idle { IsOk result → awaits_attach ≡ false }
{
    let request = Request::Wstat { fid: message.fid };
    if let Some(rule) = first_failing_rule(awaits_attach, msize, &request, fids) {
        return Err(Reply::Error(rule));
    }
    let Some(entry) = fids.entry_of(message.fid) else {
        // the rules refuse a fid that isn't there
        unreachable!()
    };
    let Ok(user) = entry.user().try_clone() else {
        return Err(Reply::Memory);
    };
    let call = Call::Wstat(WstatCall {
        number: entry.number(),
        user,
        stat: message.stat,
    });
    Ok(RunQuestion::new(now, entry.run(), entry.pass(), call))
}

/// The reply to a stat that the run answered: the file's attributes, or the refusal.
pub(crate) fn stat_reply(answer: Answer) -> Reply
    ensures value { result ≡ stat_reply answer }
    ensures plain { IsPlain result }
{
    match answer {
        Answer::Stat(stat) => Reply::Stat(stat),
        answer => refusal(answer),
    }
}

/// The reply to a wstat that the run answered: Wstat, or the refusal.
pub(crate) fn wstat_reply(answer: Answer) -> Reply
    ensures value { result ≡ wstat_reply answer }
    ensures plain { IsPlain result }
{
    match answer {
        Answer::Changed => Reply::Wstat,
        answer => refusal(answer),
    }
}
